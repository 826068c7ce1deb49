// Runs: what is printed, in full, with a table that knows much and with one that knows nothing.

use crate::printing::print;
use message::Error;
use std::alloc::{AllocError, Global};
use std::process::Abort;
use std::test::Fail;

// The table of a program that knows nothing.
fn knowing_nothing(heap: Global, rows: &[i64]) -> Result<Vec<i64>, AllocError> {
    let mut table = Vec::new(heap);
    if let Ok(program) = program::read(rows) {
        let counts = program.counts();
        for _ in 0..=counts.steps {
            table.push(1)?;
            for _ in 0..counts.vars {
                table.push(i64::MIN)?;
                table.push(i64::MAX)?;
            }
        }
    }
    Ok(table)
}

// What is printed with room as the command line program has it. What was in the memory before is of no matter.
fn run_lines(
    heap: Global,
    rows: &[i64],
    table: &[i64],
    asked: &str,
    steps: u32,
) -> Result<String, Error> {
    let mut numbers = vec![in heap; 77i64; report::SHOWN]?;
    let mut shown = vec![in heap; 77i64; report::SHOWN]?;
    let mut work = vec![in heap; 77i64; report::WORK]?;
    let n = report::load_numbers(asked.as_bytes(), &mut numbers)?;
    transcript::run_text(
        heap,
        rows,
        table,
        &numbers[..n],
        steps,
        &mut shown,
        &mut work,
    )
}

fn printed(
    heap: Global,
    program: &str,
    table: &str,
    asked: &str,
    steps: u32,
) -> Result<String, Error> {
    let mut rows = vec![in heap; 0i64; report::NUMBERS]?;
    let mut numbers = vec![in heap; 0i64; report::TABLE]?;
    let n = report::load_program(program.as_bytes(), &mut rows)?;
    let m = report::load_table(table.as_bytes(), &rows[..n], &mut numbers)?;
    run_lines(heap, &rows[..n], &numbers[..m], asked, steps)
}

// With a table that knows nothing.
fn printed_open(heap: Global, program: &str, asked: &str, steps: u32) -> Result<String, Error> {
    let mut rows = vec![in heap; 0i64; report::NUMBERS]?;
    let n = report::load_program(program.as_bytes(), &mut rows)?;
    let table = knowing_nothing(heap, &rows[..n])?;
    run_lines(heap, &rows[..n], &table, asked, steps)
}

// What is handed in, how many steps at most, the answer up to the number of tests done, and this number with the table, and
// knowing nothing.
fn check_runs(
    rt: &impl Abort,
    heap: Global,
    program: &str,
    table: &str,
    cases: &[(&str, u32, &str, u64, u64)],
) -> Result<(), Fail> {
    for (asked, steps, said, some, all) in cases {
        let expected = format!(in heap; "{said} tests {some}\n")?;
        let got = print(heap, printed(heap, program, table, asked, *steps))?;
        assert_eq!(rt; got, expected, "{}", program);
        let expected = format!(in heap; "{said} tests {all}\n")?;
        let got = print(heap, printed_open(heap, program, asked, *steps))?;
        assert_eq!(rt; got, expected, "{}", program);
    }
    Ok(())
}

// Knowing nothing: a program, what is handed in, how many steps at most, and the answer.
fn check_open(
    rt: &impl Abort,
    heap: Global,
    cases: &[(&str, &str, u32, &str)],
) -> Result<(), Fail> {
    for (program, asked, steps, expected) in cases {
        let got = print(heap, printed_open(heap, program, asked, *steps))?;
        assert_eq!(rt; got.as_str(), *expected, "{}", *program);
    }
    Ok(())
}

// The loop that fills an array.
#[test]
fn fills(rt: HostRuntime) -> Result<(), Fail> {
    let heap = rt.alloc();
    let fill = "1 1 8 5  9 2 1 0 0 8  10  5 0 1 0 1 0  1 0 1 0 0 1  8 0";
    check_runs(
        &rt,
        heap,
        fill,
        "1 0 8  1 8 8  1 0 7  1 0 7  1 1 8  0 0 0",
        &[
            ("", 34, "# stopped shown 0", 0, 16),
            ("", 33, "# more shown 0", 0, 16),
            ("5 6", 4294967295, "# stopped shown 0", 0, 16),
            ("", 3, "# more shown 0", 0, 2),
            ("", 2, "# more shown 0", 0, 1),
            ("", 1, "# more shown 0", 0, 0),
            ("", 0, "# more shown 0", 0, 0),
        ],
    )?;
    // 0 to 8 at the store, of which it lets 0 to 7 go on: no licence for it
    check_runs(
        &rt,
        heap,
        fill,
        "1 0 8  1 8 8  1 0 8  1 0 7  1 1 8  0 0 0",
        &[("", 34, "# stopped shown 0", 8, 16)],
    )?;
    // an array of 7
    check_runs(
        &rt,
        heap,
        "1 1 7 5  9 2 1 0 0 8  10  5 0 1 0 1 0  1 0 1 0 0 1  8 0",
        "1 0 7  0 0 0  1 0 7  1 0 6  1 1 7  0 0 0",
        &[
            ("", 29, "# more shown 0", 7, 14),
            ("", 30, "# failed 2 shown 0", 8, 15),
            ("", 31, "# failed 2 shown 0", 8, 15),
            ("", 4294967295, "# failed 2 shown 0", 8, 15),
        ],
    )?;
    // four products filled in, and shown from the last to the first
    check_runs(
        &rt,
        heap,
        "2 1 4 9  3 1 3 1 0  5 0 1 0 1 1  1 0 1 0 0 1  9 0 1 0 0 4  2 0 1 0 0 1  4 1 0 1 0  7 1 1  9 4 0 0 1 0  10",
        "1 0 3 0 9  1 0 3 0 9  1 0 3 0 9  1 1 4 0 9  1 1 4 -9223372036854775808 9223372036854775807  1 0 3 -9223372036854775808 9223372036854775807  1 0 3 -9223372036854775808 9223372036854775807  1 0 3 -9223372036854775808 9223372036854775807  1 0 0 -9223372036854775808 9223372036854775807  0 0 0 0 0",
        &[
            ("", 100, "9\n6\n3\n0\n# stopped shown 4", 0, 20),
            ("", 23, "9\n6\n# more shown 2", 0, 16),
        ],
    )
}

// A program that makes v2 from v0 and v1, at place 2, and shows it: the numbers in v0 and v1, and what is shown, or nothing
// where the test fails. The table has what v0 and v1 are, so it licenses each test that doesn't fail.
fn check_steps(
    rt: &impl Abort,
    heap: Global,
    arrays: &str,
    step: &str,
    cases: &[(i64, i64, Option<i64>)],
) -> Result<(), Fail> {
    for (a, b, made) in cases {
        let program = format!(in heap; "3 {arrays} 4  0 0 0 {a}  0 1 0 {b}  {step}  7 1 2")?;
        let before = format!(in heap; "1 0 0 0 0 0 0  1 {a} {a} 0 0 0 0  1 {a} {a} {b} {b} 0 0")?;
        match made {
            Some(z) => {
                let behind = format!(in heap;
                    "1 {a} {a} {b} {b} -9223372036854775808 9223372036854775807"
                )?;
                let table = format!(in heap; "{before} {behind} {behind}")?;
                let said = format!(in heap; "{z}\n# stopped shown 1")?;
                check_runs(
                    rt,
                    heap,
                    program.as_str(),
                    table.as_str(),
                    &[("", 9, said.as_str(), 0, 1)],
                )?;
            }
            None => {
                let table = format!(in heap; "{before}  0 0 0 0 0 0 0  0 0 0 0 0 0 0")?;
                check_runs(
                    rt,
                    heap,
                    program.as_str(),
                    table.as_str(),
                    &[("", 9, "# failed 2 shown 0", 1, 1)],
                )?;
            }
        }
    }
    Ok(())
}

// Sums, differences and products at both ends of 64 bits, and one past them.
#[test]
fn sums(rt: HostRuntime) -> Result<(), Fail> {
    let heap = rt.alloc();
    let least = i64::MIN;
    let most = i64::MAX;
    check_steps(
        &rt,
        heap,
        "0",
        "1 2 1 0 1 1",
        &[
            (3, -5, Some(-2)),
            (most - 1, 1, Some(most)),
            (most, 1, None),
            (1, most, None),
            (most, most, None),
            (least + 1, -1, Some(least)),
            (least, -1, None),
            (-1, least, None),
            (least, least, None),
            (least, most, Some(-1)),
            (most, 0, Some(most)),
            (least, 0, Some(least)),
        ],
    )?;
    check_steps(
        &rt,
        heap,
        "0",
        "2 2 1 0 1 1",
        &[
            (3, 5, Some(-2)),
            (least + 1, 1, Some(least)),
            (least, 1, None),
            (least, most, None),
            (most - 1, -1, Some(most)),
            (most, -1, None),
            (most, least, None),
            (-1, least, Some(most)),
            (0, least, None),
            (least, least, Some(0)),
            (most, most, Some(0)),
        ],
    )?;
    // by -1, 2, -2, the lowest and the highest
    check_steps(
        &rt,
        heap,
        "0",
        "3 2 -1 1 0",
        &[
            (least, 0, None),
            (least + 1, 0, Some(most)),
            (most, 0, Some(least + 1)),
            (0, 0, Some(0)),
        ],
    )?;
    check_steps(
        &rt,
        heap,
        "0",
        "3 2 2 1 0",
        &[
            (4611686018427387903, 0, Some(most - 1)),
            (4611686018427387904, 0, None),
            (-4611686018427387904, 0, Some(least)),
            (-4611686018427387905, 0, None),
        ],
    )?;
    check_steps(
        &rt,
        heap,
        "0",
        "3 2 -2 1 0",
        &[
            (4611686018427387904, 0, Some(least)),
            (4611686018427387905, 0, None),
            (-4611686018427387903, 0, Some(most - 1)),
            (-4611686018427387904, 0, None),
        ],
    )?;
    check_steps(
        &rt,
        heap,
        "0",
        "3 2 -9223372036854775808 1 0",
        &[
            (1, 0, Some(least)),
            (0, 0, Some(0)),
            (-1, 0, None),
            (2, 0, None),
            (least, 0, None),
            (most, 0, None),
        ],
    )?;
    check_steps(
        &rt,
        heap,
        "0",
        "3 2 9223372036854775807 1 0",
        &[
            (1, 0, Some(most)),
            (-1, 0, Some(least + 1)),
            (2, 0, None),
            (-2, 0, None),
            (most, 0, None),
            (least, 0, None),
        ],
    )?;
    check_steps(
        &rt,
        heap,
        "0",
        "3 2 3037000500 1 0",
        &[
            (3037000499, 0, Some(9223372033963249500)),
            (3037000500, 0, None),
            (-3037000500, 0, None),
        ],
    )
}

// Indices: three arrays, of lengths 2, 0 and 3, so that there is memory behind the first.
#[test]
fn indices(rt: HostRuntime) -> Result<(), Fail> {
    let heap = rt.alloc();
    let arrays = "3 2 0 3";
    // a load of v2 from the first, by a variable
    check_steps(
        &rt,
        heap,
        arrays,
        "4 2 0 1 0",
        &[
            (0, 0, Some(0)),
            (1, 0, Some(0)),
            (2, 0, None),
            (-1, 0, None),
            (i64::MAX, 0, None),
            (i64::MIN, 0, None),
        ],
    )?;
    // from the empty one, and from the last
    check_steps(
        &rt,
        heap,
        arrays,
        "4 2 1 1 0",
        &[(0, 0, None), (-1, 0, None), (1, 0, None)],
    )?;
    check_steps(
        &rt,
        heap,
        arrays,
        "4 2 2 1 0",
        &[
            (-1, 0, None),
            (0, 0, Some(0)),
            (2, 0, Some(0)),
            (3, 0, None),
        ],
    )?;
    // a store of v1 to the last, and to the others
    check_steps(
        &rt,
        heap,
        arrays,
        "5 2 1 0 1 1",
        &[
            (-1, 7, None),
            (0, 7, Some(0)),
            (2, 7, Some(0)),
            (3, 7, None),
            (i64::MAX, 7, None),
            (i64::MIN, 7, None),
        ],
    )?;
    check_steps(
        &rt,
        heap,
        arrays,
        "5 1 1 0 1 1",
        &[(0, 7, None), (-1, 7, None), (1, 7, None)],
    )?;
    check_steps(
        &rt,
        heap,
        arrays,
        "5 0 1 0 1 1",
        &[(1, 7, Some(0)), (2, 7, None), (-1, 7, None)],
    )?;
    // arrays of 2, 0, 3 and 1: each number stored and shown, then one behind the end of the first
    check_open(
        &rt,
        heap,
        &[
            (
                "1 4 2 0 3 1 20  5 0 0 0 0 10  5 0 0 1 0 11  5 2 0 0 0 20  5 2 0 1 0 21  5 2 0 2 0 22  5 3 0 0 0 30  4 0 0 0 0  7 1 0  4 0 0 0 1  7 1 0  4 0 2 0 0  7 1 0  4 0 2 0 1  7 1 0  4 0 2 0 2  7 1 0  4 0 3 0 0  7 1 0  4 0 0 0 2  7 1 0",
                "",
                100,
                "10\n11\n20\n21\n22\n30\n# failed 18 shown 6 tests 1\n",
            ),
            // the last variable and the last array, and all is 0 at first
            (
                "64 16 1 1 1 1 1 1 1 1 1 1 1 1 1 1 1 2 7  0 63 0 5  5 15 0 1 1 63  4 0 15 0 1  7 1 0  4 0 15 0 0  7 1 0  7 1 62",
                "",
                100,
                "5\n0\n0\n# stopped shown 3 tests 0\n",
            ),
        ],
    )?;
    // into the variable that is the index
    check_runs(
        &rt,
        heap,
        "1 1 3 7  5 0 0 2 0 1  5 0 0 1 0 5  0 0 0 2  4 0 0 1 0  7 1 0  4 0 0 1 0  7 1 0",
        "1 0 0  1 0 0  1 0 0  1 2 2  1 -9223372036854775808 9223372036854775807  1 -9223372036854775808 9223372036854775807  1 -9223372036854775808 9223372036854775807  1 -9223372036854775808 9223372036854775807",
        &[("", 100, "1\n5\n# stopped shown 2", 1, 2)],
    )
}

// The ways of a run: less, go, stop and the end; what is handed in, and what is shown.
#[test]
fn ways(rt: HostRuntime) -> Result<(), Fail> {
    let heap = rt.alloc();
    check_open(
        &rt,
        heap,
        &[
            // whether the first of two that are asked for is less; at last none are left, so that both are 0
            (
                "2 0 7  6 0  6 1  9 5 1 0 1 1  7 0 0  8 0  7 0 1  8 0",
                "1 2  2 1  5 5  -9223372036854775808 9223372036854775807  9223372036854775807 -9223372036854775808  -1 0  0 -1  -5 -3",
                44,
                "1\n0\n0\n1\n0\n1\n0\n1\n0\n# more shown 9 tests 0\n",
            ),
            // two numbers: less, equal, the lowest twice, greater
            (
                "1 0 8  9 2 0 1 0 2  7 0 1  9 4 0 2 0 2  7 0 2  9 6 0 -9223372036854775808 0 -9223372036854775808  7 0 3  9 8 0 3 0 2  7 0 4",
                "",
                100,
                "2\n3\n4\n# stopped shown 3 tests 0\n",
            ),
            // the same variable
            (
                "1 0 4  6 0  9 3 1 0 1 0  7 1 0  10",
                "7",
                100,
                "7\n# stopped shown 1 tests 0\n",
            ),
            // numbers handed in that run out, that are left over, and none
            (
                "1 0 3  6 0  7 1 0  8 0",
                "9223372036854775807 -9223372036854775808 -1",
                15,
                "9223372036854775807\n-9223372036854775808\n-1\n0\n0\n# more shown 5 tests 0\n",
            ),
            (
                "2 0 5  6 0  6 0  7 1 0  6 1  7 1 1",
                "1 2 3 4 5",
                100,
                "2\n3\n# stopped shown 2 tests 0\n",
            ),
            (
                "1 0 3  0 0 0 5  6 0  7 1 0",
                "",
                100,
                "0\n# stopped shown 1 tests 0\n",
            ),
            // to itself, forward, and to the end
            ("1 0 1  8 0", "", 1000000, "# more shown 0 tests 0\n"),
            (
                "1 0 3  8 2  7 0 1  7 0 2",
                "",
                100,
                "2\n# stopped shown 1 tests 0\n",
            ),
            ("1 0 1  8 1", "", 1, "# more shown 0 tests 0\n"),
            ("1 0 1  8 1", "", 2, "# stopped shown 0 tests 0\n"),
            // stop, which is a step, and nothing behind it
            ("1 0 2  10  7 0 1", "", 0, "# more shown 0 tests 0\n"),
            ("1 0 2  10  7 0 1", "", 1, "# stopped shown 0 tests 0\n"),
            // the end, which takes a step too
            ("1 0 0", "", 0, "# more shown 0 tests 0\n"),
            ("1 0 0", "", 1, "# stopped shown 0 tests 0\n"),
            ("1 0 0", "", 4294967295, "# stopped shown 0 tests 0\n"),
            ("1 0 1  7 0 5", "", 1, "5\n# more shown 1 tests 0\n"),
            ("1 0 1  7 0 5", "", 2, "5\n# stopped shown 1 tests 0\n"),
            // shown
            (
                "1 0 6  7 0 -9223372036854775808  7 0 9223372036854775807  7 0 -1  7 0 0  0 0 0 -42  7 1 0",
                "",
                100,
                "-9223372036854775808\n9223372036854775807\n-1\n0\n-42\n# stopped shown 5 tests 0\n",
            ),
        ],
    )?;
    // operands are read before anything is changed
    check_runs(
        &rt,
        heap,
        "2 0 13  0 0 0 3  0 1 0 10  0 1 1 1  2 1 1 1 1 0  7 1 1  2 0 1 1 1 0  7 1 0  1 0 1 0 1 0  7 1 0  3 0 -3 1 0  7 1 0  0 0 1 1  7 1 0",
        "1 0 0 0 0  1 3 3 0 0  1 3 3 10 10  1 3 3 10 10  1 3 3 7 7  1 3 3 7 7  1 4 4 7 7  1 4 4 7 7  1 8 8 7 7  1 8 8 7 7  1 -24 -24 7 7  1 -24 -24 7 7  1 7 7 7 7  1 7 7 7 7",
        &[("", 100, "7\n4\n8\n-24\n7\n# stopped shown 5", 0, 4)],
    )?;
    // a number asked for, kept from 0 to 100 and doubled; and only kept from 0 up
    check_runs(
        &rt,
        heap,
        "1 0 5  6 0  9 5 0 100 1 0  9 5 1 0 0 0  1 0 1 0 1 0  7 1 0",
        "1 0 0  1 -9223372036854775808 9223372036854775807  1 -9223372036854775808 100  1 0 100  1 0 200  1 -9223372036854775808 9223372036854775807",
        &[
            ("100", 100, "200\n# stopped shown 1", 0, 1),
            ("101", 100, "# stopped shown 0", 0, 0),
            ("-1", 100, "# stopped shown 0", 0, 0),
            ("", 100, "0\n# stopped shown 1", 0, 1),
        ],
    )?;
    check_runs(
        &rt,
        heap,
        "1 0 4  6 0  9 4 1 0 0 0  1 0 1 0 1 0  7 1 0",
        "1 0 0  1 -9223372036854775808 9223372036854775807  1 0 9223372036854775807  1 0 9223372036854775807  1 -9223372036854775808 9223372036854775807",
        &[
            (
                "4611686018427387903",
                100,
                "9223372036854775806\n# stopped shown 1",
                1,
                1,
            ),
            ("4611686018427387904", 100, "# failed 2 shown 0", 1, 1),
        ],
    )?;
    // a number that is no index: nothing behind that step is done or shown
    check_runs(
        &rt,
        heap,
        "1 1 9 6  7 0 -1  0 0 0 9  5 0 1 0 0 1  7 0 2  5 0 0 0 0 1  7 0 3",
        "1 0 0  1 0 0  1 9 9  0 0 0  0 0 0  0 0 0  0 0 0",
        &[
            ("", 2, "-1\n# more shown 1", 0, 0),
            ("", 3, "-1\n# failed 2 shown 1", 1, 1),
            ("", 100, "-1\n# failed 2 shown 1", 1, 1),
        ],
    )
}

// A program, a table, what is handed in, and why there is no run: what is read first is refused first.
#[test]
fn refusals(rt: HostRuntime) -> Result<(), Fail> {
    let heap = rt.alloc();
    for (program, table, asked, expected) in [
        (
            "1 0 x",
            "y",
            "z",
            "program: line 1, column 5: not a number; a number is digits, with a minus in front if it is negative",
        ),
        (
            "65 0 0",
            "y",
            "z",
            "unread: number 1 is 65, and a program has 1 to 64 variables (line 1, column 1)",
        ),
        (
            "1 0 0",
            "y",
            "z",
            "table: line 1, column 1: not a number; a number is digits, with a minus in front if it is negative",
        ),
        (
            "1 0 0",
            "1 1 8",
            "z",
            "bad table: a run begins at place 0 with v0 from 0 to 0, and the table has 1 to 8 there",
        ),
        (
            "1 1 8 5  9 2 1 0 0 8  10  5 0 1 0 1 0  1 0 1 0 0 1  8 0",
            "1 0 7  1 8 8  1 0 7  1 0 7  1 1 8  0 0 0",
            "",
            "bad table: 4 go 0 leads to place 0 with v0 from 1 to 8, and the table has 0 to 7 there",
        ),
        (
            "1 0 0",
            "1 0 0",
            "5\n z",
            "numbers: line 2, column 2: not a number; a number is digits, with a minus in front if it is negative",
        ),
        (
            "1 0 0",
            "1 0 0",
            "9223372036854775808",
            "numbers: line 1, column 1: a number that 64 bits don't hold, from -9223372036854775808 to 9223372036854775807",
        ),
        // one number more than there is room for
        (
            "1 0 2  7 0 1  8 0",
            "1 0 0  1 0 0  0 0 0",
            "",
            "out full: more than 16384 numbers are shown",
        ),
        // six arrays of 65,536 with 4 steps, and one number more
        (
            "1 7 65536 65536 65536 65536 65536 65536 4093 4  10  10  10  10",
            "1 0 0  0 0 0  0 0 0  0 0 0  0 0 0",
            "",
            "small: a run of this program wants 397569 work numbers, and there are 397568",
        ),
        (
            "1 7 65536 65536 65536 65536 65536 65536 4092 4  10  10  10  10",
            "1 0 0  0 0 0  0 0 0  0 0 0  0 0 0",
            "",
            "# stopped shown 0 tests 0\n",
        ),
    ] {
        let got = print(heap, printed(heap, program, table, asked, 100000))?;
        assert_eq!(rt; got.as_str(), expected, "{}", program);
    }
    let error = Error::Steps(String::from_str(heap, "-1")?);
    assert_eq!(rt;
        print(heap, Err(error))?.as_str(),
        "steps: \"-1\" is no number from 0 to 4294967295"
    );
    Ok(())
}

// How many numbers there are in a text, of a program, a table or what is handed in, with room for so many.
fn loaded(heap: Global, text: &str, of: &str, room: usize) -> Result<String, Error> {
    let mut numbers = vec![in heap; 0i64; room]?;
    let n = match of {
        "program" => report::load_program(text.as_bytes(), &mut numbers)?,
        "table" => report::load_table(text.as_bytes(), &[1, 0, 0], &mut numbers)?,
        _ => report::load_numbers(text.as_bytes(), &mut numbers)?,
    };
    Ok(format!(in heap; "{n}")?)
}

#[test]
fn rooms(rt: HostRuntime) -> Result<(), Fail> {
    let heap = rt.alloc();
    for (text, of, room, expected) in [
        ("1 0 0", "program", 3, "3"),
        (
            "1 0 0",
            "program",
            2,
            "program: line 1, column 5: more than 2 numbers",
        ),
        ("1 0 0", "table", 3, "3"),
        (
            "1 0 0",
            "table",
            2,
            "table: line 1, column 5: more than 2 numbers",
        ),
        ("1 2 3", "numbers", 3, "3"),
        (
            "1 2 3",
            "numbers",
            2,
            "numbers: line 1, column 5: more than 2 numbers",
        ),
        ("", "numbers", 0, "0"),
    ] {
        assert_eq!(rt;
            print(heap, loaded(heap, text, of, room))?.as_str(),
            expected,
            "{}",
            of
        );
    }
    Ok(())
}
