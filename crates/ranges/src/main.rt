// Reads a program and prints its listing.
#![tactic(auto)]

use message::Error;
use std::env;
use std::process::ExitCode;

const USAGE: &str = "ranges [--list] [FILE], or ranges --help";

const HELP: &str = "\
ranges [--list] [FILE]

Reads a program from FILE, or from standard input without one, and prints its
listing: the variables, the arrays with their lengths, and each place with its
step in words. Every line of it is a comment.

A program is given as decimal numbers with white space between them; `#` begins
a comment to the end of the line. docs/LANGUAGE.md says which numbers are a
program.

  --list    the listing, which is also what is printed without it
  --help    this text

What is no program is refused with one line on standard error and status 1.
";

// What is asked for on the command line.
#[derive(Drop)]
enum Call {
    Help,
    List(Option<String>),
}

fn asked(rt: &HostRuntime) -> Result<Call, Error> {
    let words = env::args(rt).map_err(|_| Error::Usage(USAGE))?;
    let mut file = None;
    for word in words.skip(1) {
        match word.as_str() {
            "--help" => return Ok(Call::Help),
            "--list" => {}
            name if file.is_none() && !name.starts_with("--") => file = Some(word),
            _ => return Err(Error::Usage(USAGE)),
        }
    }
    Ok(Call::List(file))
}

fn list(rt: &HostRuntime, file: Option<String>) -> Result<String, Error> {
    let heap = rt.alloc();
    let mut buffer = vec![in heap; 0u8; report::TEXT + 1]?;
    let mut rows = vec![in heap; 0i64; report::NUMBERS]?;
    let text = report::read_text(rt, file, &mut buffer)?;
    report::list_text(heap, text, &mut rows)
}

fn run(rt: &HostRuntime) -> Result<String, Error> {
    match asked(rt)? {
        Call::Help => Ok(String::from_str(rt.alloc(), HELP)?),
        Call::List(file) => list(rt, file),
    }
}

fn main(rt: HostRuntime) -> ExitCode {
    report::finish(&rt, run(&rt))
}
