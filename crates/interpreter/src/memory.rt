// Memory laid out for a run.

ghost use Rattle.std.specs.Prelude.{◌≡◌, T, length};
ghost use Rattle.std.specs.List.{AllByRecursion};
ghost use Rattle.number.specs.Numbers.{in64};
ghost use Rattle.program.specs.Rows.{IsProgram};
ghost use Rattle.machine.specs.Layout.{starts_from};

use program::Program;

// Says of numbers that each has its place in 64 bits, which is known of one only when it is read. Nothing is left of it in the
// compiled program.
pub(crate) fn all_fit(numbers: &[i64])
    ensures { AllByRecursion (λ z. T (in64 z)) numbers.now }
{
    for z in numbers {
        let _z = *z;
    }
}

// Writes where each array begins.
pub(crate) fn write_starts(program: &Program, starts: &mut [i64])
    requires program { IsProgram program.now }
    requires room { length starts.old ≡ length program.now.arrays }
    ensures { starts.new ≡ starts_from 0 program.now.arrays }
{
    let mut at = 0;
    for (k, n) in program.arrays().iter().enumerate() {
        starts[k] = at;
        at += *n;
    }
}
