// Ranges.

ghost use Rattle.std.specs.Prelude.{◌≡◌, ◌≤◌};
ghost use Rattle.interval.specs.Ranges.{any, only, cut, join, plus, minus, scaled, inside, inside1};
ghost use Rattle.interval.specs.Boxes.{left, range_of};
ghost use Rattle.interval.specs.Tests.{in_bits, in_array};

use number::Wide;

// From a number to a number, both counted; turned where `lo` is the larger.
#[derive(Clone, Copy, PartialEq, Eq)]
pub struct Range {
    pub lo: i64,
    pub hi: i64,
}

impl Range {
    pub(crate) const ANY: Range = Range {
        lo: i64::MIN,
        hi: i64::MAX,
    };

    pub(crate) fn only(z: i64) -> Range
        ensures { result ≡ only z }
    {
        Range { lo: z, hi: z }
    }

    // What both hold.
    #[tactic(auto, using(crate::proofs::Ends::ends))]
    pub fn cut(self, other: Range) -> Range
        ensures { result ≡ cut self other }
    {
        Range {
            lo: self.lo.max(other.lo),
            hi: self.hi.min(other.hi),
        }
    }

    // The range, if it holds any number.
    pub(crate) fn left(self) -> Option<Range>
        ensures { result ≡ left self }
    {
        (self.lo <= self.hi).then_some(self)
    }

    // The least range that holds both.
    #[tactic(auto, using(crate::proofs::Ends::ends))]
    pub fn join(self, other: Range) -> Range
        ensures { result ≡ join self other }
    {
        Range {
            lo: self.lo.min(other.lo),
            hi: self.hi.max(other.hi),
        }
    }

    pub fn inside(self, other: Range) -> bool
        ensures { result ≡ inside1 self other }
    {
        other.lo <= self.lo && self.hi <= other.hi
    }

    // The places of an array.
    pub(crate) fn places(words: u32) -> Range
        ensures { result ≡ inside words }
    {
        Range {
            lo: 0,
            hi: i64::from(words) - 1,
        }
    }

    // Whether every number in it is an index of so many.
    #[tactic(auto, using(crate::proofs::Ends::ends))]
    pub(crate) fn in_array(self, words: u32) -> bool
        ensures { result ≡ in_array words self }
    {
        self.inside(Range::places(words))
    }

    // Sums, differences and products of a number, before they are cut to 64 bits.
    pub(crate) fn plus(self, other: Range) -> WideRange
        ensures { range_of result ≡ plus self other }
    {
        WideRange {
            lo: Wide::sum(self.lo, other.lo),
            hi: Wide::sum(self.hi, other.hi),
        }
    }

    pub(crate) fn minus(self, other: Range) -> WideRange
        ensures { range_of result ≡ minus self other }
    {
        WideRange {
            lo: Wide::difference(self.lo, other.hi),
            hi: Wide::difference(self.hi, other.lo),
        }
    }

    pub(crate) fn scaled(self, c: i64) -> WideRange
        ensures { range_of result ≡ scaled c self }
    {
        let a = Wide::product(c, self.lo);
        let b = Wide::product(c, self.hi);
        WideRange {
            lo: a.min(b),
            hi: a.max(b),
        }
    }
}

// A range whose ends have 128 bits. No function is the same for it and `Range`, so one generic type would be no
// plainer.
#[derive(Clone, Copy)]
pub(crate) struct WideRange {
    lo: Wide,
    hi: Wide,
}

impl WideRange {
    // What is left in 64 bits.
    pub(crate) fn cut64(self) -> Option<Range>
        ensures { result ≡ left (cut (range_of self) any) }
    {
        let lo = self.lo.narrow().or(self.lo.negative().then_some(i64::MIN))?;
        let hi = self
            .hi
            .narrow()
            .or((!self.hi.negative()).then_some(i64::MAX))?;
        Range { lo, hi }.left()
    }

    // Whether neither end leaves 64 bits outward.
    pub(crate) fn in_bits(self) -> bool
        ensures { result ≡ in_bits (range_of self) }
    {
        (self.lo.narrow().is_some() || !self.lo.negative())
            && (self.hi.narrow().is_some() || self.hi.negative())
    }
}
