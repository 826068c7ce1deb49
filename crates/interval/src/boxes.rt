// Boxes in lent numbers: from and to for each variable.

ghost use Rattle.std.specs.Prelude.{◌≡◌, ◌^◌, ◌<◌, length, slice_index_or, slice_set};
ghost use Rattle.std.specs.Iterator.{YieldsFirst, item_count};
ghost use Rattle.interval.specs.Ranges.{any, range, held, narrowed};
ghost use Rattle.interval.specs.Boxes.{box_of, at_of, left};

use crate::range::Range;
use program::{Operand, Var};
use std::marker::Model;
use std::slice;

// The ranges of a box, one after another.
#[derive(Drop)]
pub struct BoxRanges<'a> {
    numbers: slice::Iter<'a, i64>,
}

impl<'a> Model for BoxRanges<'a> {
    ghost use Rattle.std.specs.Slice.Iter.{iter_rest};
    ghost use Rattle.interval.specs.Ranges.{Box};
    ghost use Rattle.interval.specs.Boxes.{box_of};

    ghost Value = { Box };

    ghost view = { λ r. box_of (iter_rest r.numbers) };
}

impl<'a> Iterator for BoxRanges<'a> {
    type Item = Range;

    ghost next_gives = { YieldsFirst (λ rest. rest) };

    ghost remaining = { item_count (λ rest. rest) };

    fn next(&mut self) -> Option<Range> {
        let lo = *self.numbers.next()?;
        let hi = *self.numbers.next()?;
        Some(Range { lo, hi })
    }
}

#[tactic(auto, using(crate::proofs::Pairs::pairs))]
pub fn ranges(numbers: &[i64]) -> BoxRanges<'_>
    ensures rest { result ≡ box_of numbers.now }
    ensures few { length result < 2 ^ 64 }
{
    BoxRanges {
        numbers: numbers.iter(),
    }
}

#[tactic(auto, using(crate::proofs::Pairs::places))]
pub fn range_at(numbers: &[i64], x: Var) -> Range
    ensures { result ≡ slice_index_or (box_of numbers.now) x.0 any }
{
    if x.0 >= numbers.len() / 2 {
        return Range::ANY;
    }
    Range {
        lo: numbers[2 * x.0],
        hi: numbers[2 * x.0 + 1],
    }
}

pub(crate) fn operand_range(numbers: &[i64], e: Operand) -> Range
    ensures { result ≡ range (box_of numbers.now) e }
{
    match e {
        Operand::Num(z) => Range::only(z),
        Operand::Var(x) => range_at(numbers, x),
    }
}

#[tactic(auto, using(crate::proofs::Pairs::places))]
pub fn set_range(numbers: &mut [i64], x: Var, r: Range)
    ensures { box_of numbers.new ≡ slice_set (box_of numbers.old) x.0 r }
{
    if x.0 >= numbers.len() / 2 {
        return;
    }
    numbers[2 * x.0] = r.lo;
    numbers[2 * x.0 + 1] = r.hi;
}

// Gives the variable the range, if there is one.
pub(crate) fn hold(numbers: &mut [i64], x: Var, r: Option<Range>) -> Option<()>
    ensures { (q : Range) → r ≡ left q → at_of result numbers.new ≡ held (box_of numbers.old) x.0 q }
{
    set_range(numbers, x, r?);
    Some(())
}

// Cuts an operand to a range, if anything is left of it; a number isn't cut, but must lie in it.
pub(crate) fn narrow(numbers: &mut [i64], e: Operand, r: Range) -> Option<()>
    ensures { at_of result numbers.new ≡ narrowed (box_of numbers.old) e r }
{
    match e {
        Operand::Num(z) => Range::only(z).inside(r).then_some(()),
        Operand::Var(x) => hold(numbers, x, range_at(numbers, x).cut(r).left()),
    }
}
