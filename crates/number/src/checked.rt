// Results that say when they have no place in 64 bits.

ghost use Rattle.std.specs.Prelude.{◌≡◌, ◌+ℤ◌, ◌-ℤ◌, ◌*ℤ◌};
ghost use Rattle.number.specs.Numbers.{fit};

pub fn sum(a: i64, b: i64) -> Option<i64>
    ensures { result ≡ fit (a +ℤ b) }
{
    a.checked_add(b)
}

pub fn difference(a: i64, b: i64) -> Option<i64>
    ensures { result ≡ fit (a -ℤ b) }
{
    a.checked_sub(b)
}

pub fn product(a: i64, b: i64) -> Option<i64>
    ensures { result ≡ fit (a *ℤ b) }
{
    a.checked_mul(b)
}
