// The marks of steps: where their rows begin, and which tests are licensed.

ghost use Rattle.std.specs.Prelude.{◌≡◌, ◌^◌, ◌<◌, length};
ghost use Rattle.program.specs.Program.{counts_of};
ghost use Rattle.program.specs.Reading.{first};
ghost use Rattle.table.specs.Tables.{Table};
ghost use Rattle.table.specs.Rows.{row_t};
ghost use Rattle.table.specs.Says.{Full};
ghost use Rattle.machine.specs.Marks.{mark, sure_of, offset_of, marks_from};

use program::Program;

// A mark as it lies among the numbers that are lent, which are all the memory there is: so it is a number, and packed by `as`,
// which is proved to lose nothing; a `try_from` would be a test at each step of a run.
#[derive(Clone, Copy)]
pub struct Mark(pub i64);

impl Mark {
    fn new(sure: bool, at: usize) -> Mark
        requires { at < 2 ^ 63 }
        ensures { result.0 ≡ mark sure at }
    {
        Mark(if sure { at as i64 } else { -1 - at as i64 })
    }

    // Whether the test of the step is licensed.
    pub fn is_sure(self) -> bool
        ensures { result ≡ sure_of self.0 }
    {
        self.0 >= 0
    }

    // Where the step's row begins.
    pub fn offset(self) -> usize
        ensures { result ≡ offset_of self.0 }
    {
        if self.is_sure() {
            self.0 as usize
        } else {
            (-1 - self.0) as usize
        }
    }
}

// Marks the steps of a program by a table of it.
pub fn mark_steps(program: &Program, table: &[i64], marks: &mut [i64])
    requires { length marks.old ≡ length program.now.code }
    ensures { (t : Table) → Full program.now t → row_t program.now.vars t ≡ table.now → marks.new ≡ marks_from program.now t 0 (first (counts_of program.now)) program.now.code }
{
    let counts = program.counts();
    // where rows begin, as `program::offsets` has them, which has no room here to write them to
    let mut at = 3 + counts.arrays;
    for (place, step) in program.steps() {
        let sure = table::licensed(program.rows(), table, counts.vars, place, step);
        marks[place.0] = Mark::new(sure, at).0;
        at += step.width();
    }
}
