// Rows that are a program, and its steps one after another.

ghost use Rattle.std.specs.Prelude.{◌≡◌, length};
ghost use Rattle.std.specs.Iterator.{at_most};
ghost use Rattle.program.specs.Program.{Prog, counts_of};
ghost use Rattle.program.specs.Rows.{Program as Reads, IsProgram, nats};
ghost use Rattle.program.specs.Reading.{GivesStep};

use crate::reader::{Counts, header, step_at};
use crate::step::{Place, Step};
use std::marker::Model;

// Contracts see the program.
#[derive(Drop)]
pub struct Program<'a> {
    pub(crate) rows: &'a [i64],
    pub(crate) counts: Counts,
}

impl<'a> Model for Program<'a> {
    ghost use Rattle.std.specs.Prelude.{◌≡◌};
    ghost use Rattle.program.specs.Program.{Prog, counts_of};
    ghost use Rattle.program.specs.Rows.{Program};
    ghost use Rattle.program.specs.Reading.{program_in};

    ghost Value = { Prog };

    ghost view = { λ a. program_in a.rows.now };

    ghost invariant = { λ a. Program a.rows.now (program_in a.rows.now) × (a.counts ≡ counts_of (program_in a.rows.now)) };
}

impl<'a> Program<'a> {
    // The program of rows that are known to be one, with its counts; they are not looked at. `read` is for rows of which
    // that isn't known.
    pub fn known(rows: &'a [i64], counts: Counts) -> Program<'a>
        requires { (p : Prog) × Reads rows.now p × (counts ≡ counts_of p) }
        ensures rows { Reads rows.now result }
        ensures counts { counts ≡ counts_of result }
    {
        Program { rows, counts }
    }

    // The same where the counts aren't at hand: only what stands before the steps is looked at.
    pub fn of(rows: &'a [i64]) -> Program<'a>
        requires { (p : Prog) × Reads rows.now p }
        ensures { Reads rows.now result }
    {
        match header(rows) {
            Ok(counts) => Program::known(rows, counts),
            Err(_) => unreachable!(),
        }
    }

    pub fn rows(&self) -> &'a [i64]
        ensures { Reads result.now self.now }
    {
        self.rows
    }

    pub fn counts(&self) -> Counts
        ensures exact { result ≡ counts_of self.now }
        ensures fine { IsProgram self.now }
    {
        self.counts
    }

    // The arrays' lengths.
    pub fn arrays(&self) -> &'a [i64]
        ensures { result.now ≡ nats self.now.arrays }
    {
        &self.rows[2..2 + self.counts.arrays]
    }

    // The steps with their places, in order.
    pub fn steps(&self) -> Steps<'a>
        ensures all { result ≡ record { place = 0; steps = self.now.code } }
        ensures fine { IsProgram self.now }
    {
        Steps {
            rows: self.rows,
            counts: self.counts,
            at: 3 + self.counts.arrays,
            place: 0,
        }
    }
}

// Contracts see the place that comes next, and the steps from it on.
#[derive(Drop)]
pub struct Steps<'a> {
    rows: &'a [i64],
    counts: Counts,
    // where the next step's row begins, and its place
    at: usize,
    place: usize,
}

impl<'a> Model for Steps<'a> {
    ghost use Rattle.std.specs.Prelude.{◌≡◌, ◌-◌, true, is_ok};
    ghost use Rattle.program.specs.Program.{Ahead};
    ghost use Rattle.program.specs.Reading.{steps_at, steps_from};

    ghost Value = { Ahead };

    ghost view = { λ s. record { place = s.place; steps = steps_from s.counts s.rows.now s.at (s.counts.steps - s.place) } };

    ghost invariant = { λ s. is_ok (steps_at s.counts s.rows.now s.at (s.counts.steps - s.place)) ≡ true };
}

impl<'a> Iterator for Steps<'a> {
    type Item = (Place, Step);

    ghost next_gives = { GivesStep };

    ghost remaining = { λ s. at_most (length s.steps) };

    #[inline(always)]
    fn next(&mut self) -> Option<(Place, Step)> {
        if self.place >= self.counts.steps {
            return None;
        }
        match step_at(self.rows, self.counts, self.at) {
            Ok((step, next)) => {
                let place = Place(self.place);
                self.at = next;
                self.place += 1;
                Some((place, step))
            }
            Err(_) => unreachable!(),
        }
    }
}
