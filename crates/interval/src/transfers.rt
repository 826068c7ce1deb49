// What a step makes of a box, one way out of it at a time.

ghost use Rattle.std.specs.Prelude.{◌≡◌, ℕ, ◌≤◌, length, pos, ◌+ℤ◌, ◌-ℤ◌};
ghost use Rattle.number.specs.Numbers.{low, high};
ghost use Rattle.interval.specs.Ranges.{if_less, if_not, makes};
ghost use Rattle.interval.specs.Boxes.{box_of, at_of, Cut};
ghost use Rattle.interval.specs.declared.transfers.Way.TheVariants.{Jump, Next};

use crate::boxes::{hold, narrow, operand_range, set_range};
use crate::range::Range;
use program::{Operand, Step};

// A way out of a step: to the place that it names, or to the next.
#[derive(Clone, Copy)]
pub enum Way {
    Jump,
    Next,
}

// What is less than some number of the range, and what is more.
fn less_than(r: Range) -> Option<Range>
    ensures { Cut result (record { lo = low; hi = r.hi -ℤ pos 1 }) }
{
    let hi = number::difference(r.hi, 1)?;
    Some(Range { hi, ..Range::ANY })
}

fn more_than(r: Range) -> Option<Range>
    ensures { Cut result (record { lo = r.lo +ℤ pos 1; hi = high }) }
{
    let lo = number::sum(r.lo, 1)?;
    Some(Range { lo, ..Range::ANY })
}

fn if_less(numbers: &mut [i64], a: Operand, b: Operand) -> Option<()>
    ensures { at_of result numbers.new ≡ if_less (box_of numbers.old) a b }
{
    let below = less_than(operand_range(numbers, b))?;
    let above = more_than(operand_range(numbers, a))?;
    narrow(numbers, a, below)?;
    narrow(numbers, b, above)
}

fn if_not(numbers: &mut [i64], a: Operand, b: Operand) -> Option<()>
    ensures { at_of result numbers.new ≡ if_not (box_of numbers.old) a b }
{
    let Range { hi, .. } = operand_range(numbers, a);
    let Range { lo, .. } = operand_range(numbers, b);
    narrow(numbers, a, Range { lo, ..Range::ANY })?;
    narrow(numbers, b, Range { hi, ..Range::ANY })
}

fn jump(step: Step, numbers: &mut [i64]) -> Option<()>
    ensures { (n : ℕ) → at_of result numbers.new ≡ makes n Jump step (box_of numbers.old) }
{
    match step {
        Step::Go(_) => Some(()),
        Step::Less(a, b, _) => if_less(numbers, a, b),
        _ => None,
    }
}

fn go_on(step: Step, words: u32, numbers: &mut [i64]) -> Option<()>
    ensures { at_of result numbers.new ≡ makes words Next step (box_of numbers.old) }
{
    match step {
        Step::Set(x, e) => {
            set_range(numbers, x, operand_range(numbers, e));
            Some(())
        }
        Step::Add(x, a, b) => {
            let r = operand_range(numbers, a).plus(operand_range(numbers, b));
            hold(numbers, x, r.cut64())
        }
        Step::Sub(x, a, b) => {
            let r = operand_range(numbers, a).minus(operand_range(numbers, b));
            hold(numbers, x, r.cut64())
        }
        Step::Mul(x, c, e) => hold(numbers, x, operand_range(numbers, e).scaled(c).cut64()),
        Step::Load(x, _, e) => {
            narrow(numbers, e, Range::places(words))?;
            set_range(numbers, x, Range::ANY);
            Some(())
        }
        Step::Store(_, e, _) => narrow(numbers, e, Range::places(words)),
        Step::Ask(x) => {
            set_range(numbers, x, Range::ANY);
            Some(())
        }
        Step::Show(_) => Some(()),
        Step::Less(a, b, _) => if_not(numbers, a, b),
        Step::Go(_) | Step::Stop => None,
    }
}

// What is known where a step leads if `from` was known before it, in `out`, if anything comes there. `words` is the length
// of the array that the step names. No hop is asked for, as it has places, which ranges don't depend on.
#[inline(always)]
pub fn transfer(step: Step, way: Way, words: u32, from: &[i64], out: &mut [i64]) -> Option<()>
    requires { length out.old ≡ length from.now }
    ensures { at_of result out.new ≡ makes words way step (box_of from.now) }
{
    out.copy_from_slice(from);
    match way {
        Way::Jump => jump(step, out),
        Way::Next => go_on(step, words, out),
    }
}
