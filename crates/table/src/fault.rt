// Why a table doesn't hold.

ghost use Rattle.std.specs.Prelude.{◌≡◌};
ghost use Rattle.table.specs.declared.fault.NotGood.TheVariants.{Unread, BadTable};

use interval::Range;
use program::{Place, Refusal, Var};

// What a table doesn't know, though it has to.
#[derive(Clone, Copy)]
pub enum Miss {
    // it has that nothing comes there
    Never,
    // a variable with its range there, and the range that the table has
    Outside(Var, Range, Range),
}

#[derive(Clone, Copy)]
pub enum Fault {
    // it should have so many numbers
    Size(usize),
    // the number of this index, from 0, begins a place, and is neither 0 nor 1
    Flag(usize),
    // the number of this index should be 0, as nothing comes to its place
    Blank(usize),
    // place 0 doesn't allow all variables to be 0
    Start(Miss),
    // the step at the first place isn't carried to the second
    NotCarried(Place, Place, Miss),
}

// Why a table is not good for a program: the rows are none, or the table doesn't hold.
#[derive(Clone, Copy)]
pub enum NotGood {
    Unread(Refusal),
    BadTable(Fault),
}

impl From<Refusal> for NotGood {
    ghost from_gives = { λ refusal r. r ≡ Unread refusal };

    fn from(refusal: Refusal) -> NotGood {
        NotGood::Unread(refusal)
    }
}

impl From<Fault> for NotGood {
    ghost from_gives = { λ fault r. r ≡ BadTable fault };

    fn from(fault: Fault) -> NotGood {
        NotGood::BadTable(fault)
    }
}
