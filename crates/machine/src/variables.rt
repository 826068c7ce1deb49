// Reading variables, and sums, differences and products, which are tested unless they are sure.

ghost use Rattle.std.specs.Prelude.{◌≡◌, true, T, length, ◌+ℤ◌, ◌-ℤ◌, ◌*ℤ◌};
ghost use Rattle.number.specs.Numbers.{in64, fit};
ghost use Rattle.program.specs.Rows.{ok_v};
ghost use Rattle.program.specs.Runs.{value};

use number::Wide;
use program::Operand;

pub(crate) fn value(vars: &[i64], e: Operand) -> i64
    requires { T (ok_v (length vars.now) e) }
    ensures { result ≡ value vars.now e }
{
    match e {
        Operand::Num(z) => z,
        Operand::Var(x) => vars[x.0],
    }
}

// The sum, if it has its place in 64 bits.
pub(crate) fn add(sure: bool, a: i64, b: i64) -> Option<i64>
    requires { sure ≡ true → in64 (a +ℤ b) ≡ true }
    ensures { result ≡ fit (a +ℤ b) }
{
    if sure { Some(a + b) } else { number::sum(a, b) }
}

pub(crate) fn sub(sure: bool, a: i64, b: i64) -> Option<i64>
    requires { sure ≡ true → in64 (a -ℤ b) ≡ true }
    ensures { result ≡ fit (a -ℤ b) }
{
    if sure {
        Some(a - b)
    } else {
        number::difference(a, b)
    }
}

pub(crate) fn mul(sure: bool, a: i64, b: i64) -> Option<i64>
    requires { sure ≡ true → in64 (a *ℤ b) ≡ true }
    ensures { result ≡ fit (a *ℤ b) }
{
    // a product of 128 bits, as checked_mul divides
    if sure {
        Some(a * b)
    } else {
        Wide::product(a, b).narrow()
    }
}
