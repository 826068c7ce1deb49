// Texts from outside, and how large they may be. Each function promises that it wrote no more than there was room for: all that
// can be said of what comes from outside.

ghost use Rattle.std.specs.Prelude.{◌≤◌, length, IfOk};

use message::Error;
use std::io::Read;
use std::{fs, io};

// The most bytes of a text, the most numbers that a program has, and the most of a table; the most that are handed in or shown,
// and the work numbers of a run: 256, one for each of 4,096 steps, and 393,216 for the arrays.
pub const TEXT: usize = 262144;

pub const NUMBERS: usize = 24595;

pub const TABLE: usize = 7000;

pub const SHOWN: usize = 16384;

pub const WORK: usize = 397568;

// What comes until the buffer is full or nothing more comes, in front of the buffer. `read_to_end` would let a buffer of its own
// grow; this one is lent, of a fixed size.
fn fill<'a, R: Read>(from: &mut R, buffer: &'a mut [u8]) -> io::Result<&'a [u8]>
    ensures { IfOk result (λ text. length text.now ≤ length buffer.old) }
{
    let mut at = 0;
    while at < buffer.len() {
        let n = from.read(&mut buffer[at..])?;
        if n == 0 {
            break;
        }
        at += n;
    }
    Ok(&buffer[..at])
}

fn fill_from_file<'a>(rt: &HostRuntime, name: &str, buffer: &'a mut [u8]) -> io::Result<&'a [u8]>
    ensures { IfOk result (λ text. length text.now ≤ length buffer.old) }
{
    fill(&mut fs::open(rt, name)?, buffer)
}

// The text of a file, or of standard input without one, in front of a buffer with room for one byte more than a text may have.
pub fn read_text<'a>(
    rt: &HostRuntime,
    file: Option<String>,
    buffer: &'a mut [u8],
) -> Result<&'a [u8], Error>
    ensures few { IfOk result (λ text. length text.now ≤ length buffer.old) }
    ensures most { IfOk result (λ text. length text.now ≤ TEXT) }
{
    let text = match file {
        Some(name) => fill_from_file(rt, name.as_str(), buffer).map_err(|e| Error::File(name, e))?,
        None => fill(&mut rt.stdin(), buffer).map_err(Error::Stdin)?,
    };
    if text.len() > TEXT {
        return Err(Error::TooLong(TEXT));
    }
    Ok(text)
}
