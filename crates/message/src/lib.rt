// What the command line programs refuse, each in one line.
#![tactic(auto)]

ghost use Rattle.std.specs.Prelude.{◌≡◌};
ghost use Rattle.message.specs.declared.Error.TheVariants.{Memory};

use interval::Range;
use program::{Place, Refusal, Step, Var};
use std::alloc::AllocError;
use std::{fmt, io};
use table::{Fault, Miss};
use text::Position;
use words::Words;

#[derive(Drop)]
pub enum Error {
    // how the program is called
    Usage(&'static str),
    // a file, by its name, or standard input, that can't be read
    File(String, io::Error),
    Stdin(io::Error),
    // standard output that can't be written
    Stdout(io::Error),
    // more bytes of text than this
    TooLong(usize),
    // a word that is no number of steps
    Steps(String),
    // the only text, or that of a program, of a table, or of the numbers handed in
    Text(text::Refusal),
    ProgramText(text::Refusal),
    TableText(text::Refusal),
    NumbersText(text::Refusal),
    // with where the number stands in the text, if it does
    NoProgram(Refusal, Option<Position>),
    Unread(Refusal, Option<Position>),
    BadTable(Complaint),
    // how many work numbers a run wants, and how many there are
    Small(usize, usize),
    // how many numbers there is room for
    OutFull(usize),
    Memory,
}

// A table's fault, with what a reader wants to know besides.
#[derive(Clone, Copy)]
pub struct Complaint {
    pub fault: Fault,
    // how many numbers the table has
    pub count: usize,
    // the number that the fault names
    pub number: Option<Written>,
    // the step that isn't carried
    pub step: Option<Step>,
}

// A number of a table, and where it stands, if that is in a text.
#[derive(Clone, Copy)]
pub struct Written {
    pub number: i64,
    pub at: Option<Position>,
}

// The range of a variable, in words.
#[derive(Clone, Copy)]
struct FromTo(Range);

impl fmt::Display for FromTo {
    fn fmt<W: fmt::Write>(&self, f: &mut fmt::Formatter<W>) -> fmt::Result {
        let Range { lo, hi } = self.0;
        write!(f, "{lo} to {hi}")
    }
}

// Where a number stands, in brackets, if it does.
#[derive(Clone, Copy)]
struct Where(Option<Position>);

impl fmt::Display for Where {
    fn fmt<W: fmt::Write>(&self, f: &mut fmt::Formatter<W>) -> fmt::Result {
        match self.0 {
            Some(at) => write!(f, " ({at})"),
            None => Ok(()),
        }
    }
}

// What a step makes there, and what the table has.
#[derive(Clone, Copy)]
struct Missed(Miss);

impl fmt::Display for Missed {
    fn fmt<W: fmt::Write>(&self, f: &mut fmt::Formatter<W>) -> fmt::Result {
        match self.0 {
            Miss::Never => write!(f, "and the table has that nothing comes there"),
            Miss::Outside(Var(x), made, has) => {
                write!(
                    f,
                    "with v{x} from {}, and the table has {} there",
                    FromTo(made),
                    FromTo(has)
                )
            }
        }
    }
}

// A step at its place.
#[derive(Clone, Copy)]
struct At(Place, Option<Step>);

impl fmt::Display for At {
    fn fmt<W: fmt::Write>(&self, f: &mut fmt::Formatter<W>) -> fmt::Result {
        let Place(n) = self.0;
        match self.1 {
            Some(step) => write!(f, "{n} {}", Words(step)),
            None => write!(f, "{n}"),
        }
    }
}

// A number that the table can't have at its index, and why.
#[derive(Clone, Copy)]
struct Wrong(usize, Option<Written>, &'static str);

impl fmt::Display for Wrong {
    fn fmt<W: fmt::Write>(&self, f: &mut fmt::Formatter<W>) -> fmt::Result {
        let Wrong(k, written, why) = *self;
        // numbers are counted from 1
        let k = k.saturating_add(1);
        match written {
            Some(Written { number, at }) => {
                write!(f, "number {k} is {number}, and {why}{}", Where(at))
            }
            None => write!(f, "number {k} is missing, and {why}"),
        }
    }
}

impl fmt::Display for Complaint {
    fn fmt<W: fmt::Write>(&self, f: &mut fmt::Formatter<W>) -> fmt::Result {
        let Complaint {
            fault,
            count,
            number,
            step,
        } = *self;
        match fault {
            Fault::Size(size) => write!(
                f,
                "{count} numbers, and a table of this program has {size}"
            ),
            Fault::Flag(k) => {
                let why = "a place begins with 1, or with 0 where nothing comes";
                write!(f, "{}", Wrong(k, number, why))
            }
            Fault::Blank(k) => {
                let why = "behind a 0, where nothing comes, there are only zeros";
                write!(f, "{}", Wrong(k, number, why))
            }
            Fault::Start(miss) => write!(f, "a run begins at place 0 {}", Missed(miss)),
            Fault::NotCarried(n, Place(to), miss) => {
                write!(f, "{} leads to place {to} {}", At(n, step), Missed(miss))
            }
        }
    }
}

impl From<AllocError> for Error {
    ghost from_gives = { λ _ r. r ≡ Memory };

    fn from(_e: AllocError) -> Error {
        Self::Memory
    }
}

impl fmt::Display for Error {
    fn fmt<W: fmt::Write>(&self, f: &mut fmt::Formatter<W>) -> fmt::Result {
        match self {
            Error::Usage(usage) => write!(f, "usage: {usage}"),
            Error::File(name, error) => write!(f, "can't read {name:?}: {error}"),
            Error::Stdin(error) => write!(f, "can't read standard input: {error}"),
            Error::Stdout(error) => write!(f, "can't write standard output: {error}"),
            Error::TooLong(most) => write!(f, "too much text: more than {most} bytes"),
            Error::Steps(word) => write!(f, "steps: {word:?} is no number from 0 to 4294967295"),
            Error::Text(refusal) => write!(f, "{refusal}"),
            Error::ProgramText(refusal) => write!(f, "program: {refusal}"),
            Error::TableText(refusal) => write!(f, "table: {refusal}"),
            Error::NumbersText(refusal) => write!(f, "numbers: {refusal}"),
            Error::NoProgram(refusal, at) => write!(f, "no program: {refusal}{}", Where(*at)),
            Error::Unread(refusal, at) => write!(f, "unread: {refusal}{}", Where(*at)),
            Error::BadTable(complaint) => write!(f, "bad table: {complaint}"),
            Error::Small(wanted, there) => write!(
                f,
                "small: a run of this program wants {wanted} work numbers, and there are {there}"
            ),
            Error::OutFull(room) => write!(f, "out full: more than {room} numbers are shown"),
            Error::Memory => write!(f, "out of memory"),
        }
    }
}
