// The loop over the steps of a run.

ghost use Rattle.std.specs.Prelude.{◌≡◌, ◌+◌, ◌^◌, ◌<◌, T, length, replicate, pos, if◌then◌else◌, slice_index_or};
ghost use Rattle.std.specs.List.{AllByRecursion};
ghost use Rattle.number.specs.Numbers.{in64};
ghost use Rattle.program.specs.Program.{counts_of};
ghost use Rattle.program.specs.Reading.{first};
ghost use Rattle.table.specs.Tables.{Table, Holds};
ghost use Rattle.machine.specs.Layout.{Laid};
ghost use Rattle.machine.specs.Marks.{marks_from};
ghost use Rattle.interpreter.specs.Ending.{Came};

use crate::ran::Ran;
use machine::{Cursor, Mark, Outcome};
use program::Program;

// The tests done, with that of a step that isn't sure.
fn counted(tests: u64, sure: bool) -> u64
    requires { tests < 2 ^ 32 }
    ensures { result ≡ tests + (if sure then 0 else 1) }
{
    if sure { tests } else { tests + 1 }
}

fn mark_at(marks: &[i64], place: usize) -> Mark
    requires { place < length marks.now }
    ensures { result.0 ≡ slice_index_or marks.now place (pos 0) }
{
    Mark(marks[place])
}

// Runs so many steps from the start, on memory that was laid out for it.
pub(crate) fn proceed(
    program: &Program,
    marks: &[i64],
    starts: &[i64],
    vars: &mut [i64],
    memory: &mut [i64],
    asked: &[i64],
    steps: u32,
    shown: &mut [i64],
) -> Ran
    requires fit { AllByRecursion (λ z. T (in64 z)) asked.now }
    requires laid { Laid program.now starts.now vars.old memory.old }
    requires vars { vars.old ≡ replicate (length vars.old) (pos 0) }
    requires memory { memory.old ≡ replicate (length memory.old) (pos 0) }
    requires marked { (t : Table) × Holds program.now t × (marks.now ≡ marks_from program.now t 0 (first (counts_of program.now)) program.now.code) }
    ensures { (t : Table) → Holds program.now t → marks.now ≡ marks_from program.now t 0 (first (counts_of program.now)) program.now.code → Came program.now t asked.now steps shown.old shown.new result }
{
    let rows = program.rows();
    let mut cursor = Cursor {
        place: 0,
        taken: 0,
        count: 0,
    };
    let mut tests = 0;
    for _ in 0..steps {
        if cursor.place == marks.len() {
            return Ran::Stopped(cursor.count, tests);
        }
        let mark = mark_at(marks, cursor.place);
        let sure = mark.is_sure();
        let step = machine::fetch(rows, mark.offset());
        tests = counted(tests, sure);
        match machine::perform(
            program, starts, vars, memory, asked, shown, cursor, sure, step,
        ) {
            Outcome::On(next) => cursor = next,
            Outcome::Stopped => return Ran::Stopped(cursor.count, tests),
            Outcome::Failed => return Ran::Failed(cursor.place, cursor.count, tests),
            Outcome::Full => return Ran::OutFull,
        }
    }
    Ran::More(cursor.count, tests)
}
