//! Why and where a text is refused.
ghost use Rattle.std.specs.Prelude.{Some};
ghost use Rattle.text.specs.Shown.{shown_position, shown_reason, shown_refusal};

use std::fmt;

/// Why a word is refused.
#[derive(Clone, Copy, PartialEq, Eq, Debug)]
pub enum Reason {
    NotANumber,
    TooLarge,
    /// There is room for only so many numbers.
    TooMany(usize),
}

/// A line and a column, both from 1. A column counts bytes.
#[derive(Clone, Copy, PartialEq, Eq, Debug)]
pub struct Position {
    pub line: usize,
    pub column: usize,
}

/// The first word that is refused: where it begins, and why.
#[derive(Clone, Copy, PartialEq, Eq, Debug)]
pub struct Refusal {
    pub at: Position,
    pub reason: Reason,
}

impl fmt::Display for Position {
    ghost output = { λ p. Some (shown_position p) };

    fn fmt<W: fmt::Write>(&self, f: &mut fmt::Formatter<W>) -> fmt::Result {
        let line = self.line;
        let column = self.column;
        write!(f, "line {line}, column {column}")
    }
}

impl fmt::Display for Reason {
    ghost output = { λ r. Some (shown_reason r) };

    fn fmt<W: fmt::Write>(&self, f: &mut fmt::Formatter<W>) -> fmt::Result {
        match self {
            Reason::NotANumber => write!(
                f,
                "not a number; a number is digits, with a minus in front if it is negative"
            ),
            Reason::TooLarge => write!(
                f,
                "a number that 64 bits don't hold, from -9223372036854775808 to 9223372036854775807"
            ),
            Reason::TooMany(room) => write!(f, "more than {room} numbers"),
        }
    }
}

impl fmt::Display for Refusal {
    ghost output = { λ r. Some (shown_refusal r) };

    fn fmt<W: fmt::Write>(&self, f: &mut fmt::Formatter<W>) -> fmt::Result {
        let at = self.at;
        let reason = self.reason;
        write!(f, "{at}: {reason}")
    }
}
