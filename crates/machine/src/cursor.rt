// Where a run is, and what comes of a step.

ghost use Rattle.std.specs.Prelude.{◌≡◌, ◌<◌};
ghost use Rattle.machine.specs.Acting.{onward, to, settled};

use program::Place;

// The place, how many numbers were taken of those handed in, and how many were shown.
#[derive(Clone, Copy)]
pub struct Cursor {
    pub place: usize,
    pub taken: usize,
    pub count: usize,
}

#[derive(Clone, Copy)]
pub enum Outcome {
    On(Cursor),
    Stopped,
    Failed,
    // there is no room for the number shown
    Full,
}

impl Cursor {
    pub(crate) fn onward(self) -> Cursor
        requires { self.place < 4096 }
        ensures { result ≡ onward self }
    {
        Cursor {
            place: self.place + 1,
            ..self
        }
    }

    pub(crate) fn to(self, t: Place) -> Cursor
        ensures { result ≡ to self t }
    {
        Cursor { place: t.0, ..self }
    }

    // What comes of a test.
    pub(crate) fn settled(self, passed: Option<()>) -> Outcome
        requires { self.place < 4096 }
        ensures { result ≡ settled self passed }
    {
        match passed {
            Some(()) => Outcome::On(self.onward()),
            None => Outcome::Failed,
        }
    }
}
