// One step.

ghost use Rattle.std.specs.Prelude.{◌≡◌, ◌<◌, length, slice_set};
ghost use Rattle.std.specs.Option.{option_map};
ghost use Rattle.machine.specs.Acting.{Ready, Acted, Moved};

use crate::arrays::Layout;
use crate::cursor::{Cursor, Outcome};
use crate::exchange::{ask, show};
use crate::variables::{add, mul, sub, value};
use program::{Program, Step, Var};

// The variable becomes the number, if there is one.
fn assign(vars: &mut [i64], x: Var, number: Option<i64>) -> Option<()>
    requires { x.0 < length vars.old }
    ensures { option_map (λ _. vars.new) result ≡ option_map (slice_set vars.old x.0) number }
{
    vars[x.0] = number?;
    Some(())
}

// What a step does. A test that is sure isn't done. What is lent stays in parameters: a slice that is one keeps its length and is
// given back by itself, and one in a struct only where each contract says so.
pub fn perform(
    program: &Program,
    starts: &[i64],
    vars: &mut [i64],
    memory: &mut [i64],
    asked: &[i64],
    shown: &mut [i64],
    cursor: Cursor,
    sure: bool,
    step: Step,
) -> Outcome
    requires { Ready program.now cursor starts.now vars.old memory.old asked.now shown.old sure step }
    ensures acts { Acted program.now cursor vars.old memory.old asked.now shown.old step result vars.new memory.new shown.new }
    ensures moves { Moved program.now cursor asked.now shown.old result shown.new }
{
    let layout = Layout {
        rows: program.rows(),
        starts,
    };
    match step {
        Step::Set(x, e) => {
            vars[x.0] = value(vars, e);
            Outcome::On(cursor.onward())
        }
        Step::Add(x, e, f) => {
            let sum = add(sure, value(vars, e), value(vars, f));
            cursor.settled(assign(vars, x, sum))
        }
        Step::Sub(x, e, f) => {
            let difference = sub(sure, value(vars, e), value(vars, f));
            cursor.settled(assign(vars, x, difference))
        }
        Step::Mul(x, a, e) => {
            let product = mul(sure, a, value(vars, e));
            cursor.settled(assign(vars, x, product))
        }
        Step::Load(x, a, e) => {
            let number = layout.load(memory, sure, a, value(vars, e));
            cursor.settled(assign(vars, x, number))
        }
        Step::Store(a, e, f) => {
            let i = value(vars, e);
            let z = value(vars, f);
            cursor.settled(layout.store(memory, sure, a, i, z))
        }
        Step::Ask(x) => {
            let (z, taken) = ask(asked, cursor.taken);
            vars[x.0] = z;
            Outcome::On(Cursor {
                taken,
                ..cursor.onward()
            })
        }
        Step::Show(e) => match show(shown, cursor.count, value(vars, e)) {
            Some(()) => Outcome::On(Cursor {
                count: cursor.count + 1,
                ..cursor.onward()
            }),
            None => Outcome::Full,
        },
        Step::Go(t) => Outcome::On(cursor.to(t)),
        Step::Less(e, f, t) => {
            if value(vars, e) < value(vars, f) {
                return Outcome::On(cursor.to(t));
            }
            Outcome::On(cursor.onward())
        }
        Step::Stop => Outcome::Stopped,
    }
}
