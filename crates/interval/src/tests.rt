// Where a box shows that a test can't fail.

ghost use Rattle.std.specs.Prelude.{◌≡◌, ◌≤◌};
ghost use Rattle.interval.specs.Boxes.{box_of};
ghost use Rattle.interval.specs.Tests.{sure};

use crate::boxes::operand_range;
use program::Step;

// Whether the test of a step can't fail where the variables lie in `from`, or it has none. `words` is the length of the
// array that the step names.
pub fn sure(step: Step, words: u32, from: &[i64]) -> bool
    ensures { result ≡ sure words (box_of from.now) step }
{
    match step {
        Step::Add(_, a, b) => operand_range(from, a)
            .plus(operand_range(from, b))
            .in_bits(),
        Step::Sub(_, a, b) => operand_range(from, a)
            .minus(operand_range(from, b))
            .in_bits(),
        Step::Mul(_, c, e) => operand_range(from, e).scaled(c).in_bits(),
        Step::Load(_, _, e) | Step::Store(_, e, _) => operand_range(from, e).in_array(words),
        _ => true,
    }
}
