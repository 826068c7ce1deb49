// Numbers of 128 bits with sign: each sum, difference and product of two of 64 bits has its place there.

ghost use Rattle.std.specs.Prelude.{◌≡◌, pos, ◌+ℤ◌, ◌-ℤ◌, ◌*ℤ◌};
ghost use Rattle.number.specs.Numbers.{value_of, less_z, fit};

#[derive(Clone, Copy, PartialEq, Eq, PartialOrd, Ord, Debug)]
pub struct Wide(i128);

impl Wide {
    pub fn sum(a: i64, b: i64) -> Wide
        ensures { value_of result ≡ a +ℤ b }
    {
        Wide(i128::from(a) + i128::from(b))
    }

    pub fn difference(a: i64, b: i64) -> Wide
        ensures { value_of result ≡ a -ℤ b }
    {
        Wide(i128::from(a) - i128::from(b))
    }

    pub fn product(a: i64, b: i64) -> Wide
        ensures { value_of result ≡ a *ℤ b }
    {
        Wide(i128::from(a) * i128::from(b))
    }

    // The order that is derived, and below a sign and a narrowing, by the names that contracts have for them.
    pub fn less(self, other: Wide) -> bool
        ensures { result ≡ less_z (value_of self) (value_of other) }
    {
        self.0 < other.0
    }

    pub fn negative(self) -> bool
        ensures { result ≡ less_z (value_of self) (pos 0) }
    {
        self.0 < 0
    }

    // The number, where it has its place in 64 bits.
    pub fn narrow(self) -> Option<i64>
        ensures { result ≡ fit (value_of self) }
    {
        i64::try_from(self.0).ok()
    }
}
