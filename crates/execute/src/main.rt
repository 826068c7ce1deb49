// Runs a program with a table, or checks the table.
#![tactic(auto)]

use message::Error;
use std::env;
use std::process::ExitCode;

const USAGE: &str = "execute PROGRAM TABLE STEPS, execute --check PROGRAM TABLE, or execute --help";

const HELP: &str = "\
execute PROGRAM TABLE STEPS
execute --check PROGRAM TABLE

Runs a program for at most STEPS steps, 0 to 4294967295, with the tests left out
that a table of ranges licenses; or checks the table. The table must hold for the
program, which is seen by looking at each single step once.

The program and the table are files; the numbers handed in are read from standard
input, and when none are left, 0 is handed in. All three are given as decimal
numbers with white space between them; `#` begins a comment to the end of the
line. docs/LANGUAGE.md says which numbers are a program, docs/RANGES.md which are
a table and when it holds, docs/LICENCES.md what a licence is, and docs/RUNNING.md
what a run is.

Each number shown is a line. The last line is one of

  # stopped shown K tests C
  # failed PLACE shown K tests C
  # more shown K tests C

with how many numbers were shown, and how many tests were done.

  --check   prints `# holds` if the table holds
  --help    this text

What is refused is said in one line on standard error, with status 1: what is no
program, a table that doesn't hold, with its first fault, what is no text of
numbers, and what there is no room for.
";

// What is asked for on the command line.
#[derive(Drop)]
enum Call {
    Help,
    Check(String, String),
    Run(String, String, u32),
}

fn steps(word: String) -> Result<u32, Error> {
    word.as_str().parse().map_err(|_| Error::Steps(word))
}

fn asked(rt: &HostRuntime) -> Result<Call, Error> {
    let mut words = env::args(rt).map_err(|_| Error::Usage(USAGE))?.skip(1);
    let (Some(first), second, third, None) = (
        words.next(),
        words.next(),
        words.next(),
        words.next(),
    ) else {
        return Err(Error::Usage(USAGE));
    };
    match (first.as_str(), second, third) {
        ("--help", None, None) => Ok(Call::Help),
        ("--check", Some(program), Some(table)) => Ok(Call::Check(program, table)),
        (word, Some(table), Some(count)) if !word.starts_with("--") => {
            Ok(Call::Run(first, table, steps(count)?))
        }
        _ => Err(Error::Usage(USAGE)),
    }
}

fn check(rt: &HostRuntime, program: String, table: String) -> Result<String, Error> {
    let heap = rt.alloc();
    let mut program_text = vec![in heap; 0u8; report::TEXT + 1]?;
    let mut table_text = vec![in heap; 0u8; report::TEXT + 1]?;
    let mut rows = vec![in heap; 0i64; report::NUMBERS]?;
    let mut numbers = vec![in heap; 0i64; report::TABLE]?;
    let program = report::read_text(rt, Some(program), &mut program_text)?;
    let table = report::read_text(rt, Some(table), &mut table_text)?;
    report::check_text(heap, program, table, &mut rows, &mut numbers)
}

fn run(rt: &HostRuntime, program: String, table: String, steps: u32) -> Result<String, Error> {
    let heap = rt.alloc();
    let mut text = vec![in heap; 0u8; report::TEXT + 1]?;
    let mut rows = vec![in heap; 0i64; report::NUMBERS]?;
    let mut numbers = vec![in heap; 0i64; report::TABLE]?;
    let mut asked = vec![in heap; 0i64; report::SHOWN]?;
    let n = report::load_program(report::read_text(rt, Some(program), &mut text)?, &mut rows)?;
    let rows = &rows[..n];
    let m = report::load_table(
        report::read_text(rt, Some(table), &mut text)?,
        rows,
        &mut numbers,
    )?;
    let k = report::load_numbers(report::read_text(rt, None, &mut text)?, &mut asked)?;
    drop(text);
    let mut shown = vec![in heap; 0i64; report::SHOWN]?;
    let mut work = vec![in heap; 0i64; report::WORK]?;
    transcript::run_text(
        heap,
        rows,
        &numbers[..m],
        &asked[..k],
        steps,
        &mut shown,
        &mut work,
    )
}

fn answer(rt: &HostRuntime) -> Result<String, Error> {
    match asked(rt)? {
        Call::Help => Ok(String::from_str(rt.alloc(), HELP)?),
        Call::Check(program, table) => check(rt, program, table),
        Call::Run(program, table, steps) => run(rt, program, table, steps),
    }
}

fn main(rt: HostRuntime) -> ExitCode {
    report::finish(&rt, answer(&rt))
}
