// The hops of a program: its steps with the ways out of them, in the order of places. A way that a step hasn't is left out, as
// nothing comes by it; only `stop` has a hop all the same, so that each step has one.

ghost use Rattle.std.specs.Prelude.{◌≡◌, ◌<◌};
ghost use Rattle.std.specs.Iterator.{YieldsFirst, item_count};
ghost use Rattle.program.specs.Rows.{IsProgram};
ghost use Rattle.interval.specs.declared.Way.TheVariants.{Next};
ghost use Rattle.table.specs.Tables.{target};
ghost use Rattle.table.specs.Hops.{hop, hops_of};

use interval::Way;
use program::{Place, Program, Step, Steps};
use std::marker::Model;

// A step with one of the two ways out of it, and the place to which that leads.
#[derive(Clone, Copy)]
pub struct Hop {
    pub from: Place,
    pub to: Place,
    pub step: Step,
    pub way: Way,
}

// The place that a step names.
pub fn place_named(step: Step) -> usize
    ensures { result ≡ target step }
{
    match step {
        Step::Go(Place(t)) => t,
        Step::Less(_, _, Place(t)) => t,
        _ => 0,
    }
}

// The way to the next place.
fn onward(from: Place, step: Step) -> Hop
    requires { from.0 < 4096 }
    ensures { result ≡ hop from.0 step Next }
{
    Hop {
        from,
        to: Place(from.0 + 1),
        step,
        way: Way::Next,
    }
}

// Contracts see the hops that are left.
#[derive(Drop)]
pub struct Hops<'a> {
    steps: Steps<'a>,
    // the step whose way to the next place is left
    begun: Option<(Place, Step)>,
}

impl<'a> Model for Hops<'a> {
    ghost use Rattle.std.specs.Prelude.{List};
    ghost use Rattle.table.specs.declared.hops.Hop.{Hop};
    ghost use Rattle.table.specs.Hops.{hops_left, FewLeft};

    ghost Value = { List Hop };

    ghost view = { λ h. hops_left h.begun h.steps };

    ghost invariant = { λ h. FewLeft h.begun h.steps };
}

impl<'a> Iterator for Hops<'a> {
    type Item = Hop;

    ghost next_gives = { YieldsFirst (λ rest. rest) };

    ghost remaining = { item_count (λ rest. rest) };

    #[inline(always)]
    fn next(&mut self) -> Option<Hop> {
        if let Some((from, step)) = self.begun {
            self.begun = None;
            return Some(onward(from, step));
        }
        let (from, step) = self.steps.next()?;
        match step {
            Step::Go(_) => {}
            Step::Less(..) => self.begun = Some((from, step)),
            _ => return Some(onward(from, step)),
        }
        Some(Hop {
            from,
            to: Place(place_named(step)),
            step,
            way: Way::Jump,
        })
    }
}

impl<'a> Hops<'a> {
    pub fn of(program: &Program<'a>) -> Hops<'a>
        ensures all { result ≡ hops_of program.now }
        ensures fine { IsProgram program.now }
    {
        Hops {
            steps: program.steps(),
            begun: None,
        }
    }
}
