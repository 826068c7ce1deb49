// Tables that hold and tables that don't, each with the answer in full.

use crate::printing::print;
use std::alloc::{AllocError, Global};
use std::process::Abort;
use std::test::Fail;

fn answer(heap: Global, program: &str, table: &str) -> Result<String, AllocError> {
    let mut rows = vec![in heap; 0i64; report::NUMBERS]?;
    let mut numbers = vec![in heap; 0i64; report::TABLE]?;
    let said = report::check_text(
        heap,
        program.as_bytes(),
        table.as_bytes(),
        &mut rows,
        &mut numbers,
    );
    print(heap, said)
}

fn check_answers(
    rt: &impl Abort,
    heap: Global,
    program: &str,
    cases: &[(&str, &str)],
) -> Result<(), Fail> {
    for (table, expected) in cases {
        assert_eq!(rt;
            answer(heap, program, table)?.as_str(),
            *expected,
            "{}",
            *table
        );
    }
    Ok(())
}

// The loop that fills an array of 8.
const FILL: &str = "1 1 8 5  9 2 1 0 0 8  10  5 0 1 0 1 0  1 0 1 0 0 1  8 0";

#[test]
fn fill(rt: HostRuntime) -> Result<(), Fail> {
    check_answers(
        &rt,
        rt.alloc(),
        FILL,
        &[
            ("1 0 8  1 8 8  1 0 7  1 0 7  1 1 8  0 0 0", "# holds\n"),
            // knowing less, and something at a place that nothing comes to, turned or not
            ("1 0 8  1 8 8  1 -5 8  1 0 7  1 1 8  1 5 3", "# holds\n"),
            ("1 0 8  1 8 100  1 0 7  1 0 7  1 1 8  1 3 5", "# holds\n"),
            // not a table's numbers
            (
                "1 0 8",
                "bad table: 3 numbers, and a table of this program has 18",
            ),
            (
                "1 0 8  1 8 8  2 0 7  1 0 7  1 1 8  0 0 0",
                "bad table: number 7 is 2, and a place begins with 1, or with 0 where nothing comes (line 1, column 15)",
            ),
            (
                "1 0 8  1 8 8  1 0 7  1 0 7  1 1 8\n0 0 9",
                "bad table: number 18 is 9, and behind a 0, where nothing comes, there are only zeros (line 2, column 5)",
            ),
            (
                "1 0 8  1 x",
                "table: line 1, column 10: not a number; a number is digits, with a minus in front if it is negative",
            ),
            // the start
            (
                "1 1 8  1 8 8  1 0 7  1 0 7  1 1 8  0 0 0",
                "bad table: a run begins at place 0 with v0 from 0 to 0, and the table has 1 to 8 there",
            ),
            (
                "0 0 0  0 0 0  0 0 0  0 0 0  0 0 0  0 0 0",
                "bad table: a run begins at place 0 and the table has that nothing comes there",
            ),
            // not carried on
            (
                "1 0 7  1 8 8  1 0 7  1 0 7  1 1 8  0 0 0",
                "bad table: 4 go 0 leads to place 0 with v0 from 1 to 8, and the table has 0 to 7 there",
            ),
            // widened at one place only; from an earlier round; less taken as at most
            (
                "1 0 8  1 8 8  1 0 7  1 0 9  1 1 8  0 0 0",
                "bad table: 3 add v0 = v0 + 1 leads to place 4 with v0 from 1 to 10, and the table has 1 to 8 there",
            ),
            (
                "1 0 1  1 8 8  1 0 0  1 0 0  1 1 1  0 0 0",
                "bad table: 0 less v0 < 8 to 2 leads to place 2 with v0 from 0 to 1, and the table has 0 to 0 there",
            ),
            (
                "1 0 8  1 9 9  1 0 8  1 0 7  1 1 8  0 0 0",
                "bad table: 0 less v0 < 8 to 2 leads to place 1 with v0 from 8 to 8, and the table has 9 to 9 there",
            ),
            (
                "1 0 8  0 0 0  1 0 7  1 0 7  1 1 8  0 0 0",
                "bad table: 0 less v0 < 8 to 2 leads to place 1 and the table has that nothing comes there",
            ),
        ],
    )
}

#[test]
fn edges(rt: HostRuntime) -> Result<(), Fail> {
    let heap = rt.alloc();
    // -2^63 times -1, and -2^63 less 1: nothing goes on
    let low = "1 0 2  0 0 0 -9223372036854775808  3 0 -1 1 0";
    check_answers(
        &rt,
        heap,
        low,
        &[(
            "1 0 0  1 -9223372036854775808 -9223372036854775808  0 0 0",
            "# holds\n",
        )],
    )?;
    let low = "1 0 2  0 0 0 -9223372036854775808  2 0 1 0 0 1";
    check_answers(
        &rt,
        heap,
        low,
        &[(
            "1 0 0  1 -9223372036854775808 -9223372036854775808  0 0 0",
            "# holds\n",
        )],
    )?;
    // nothing is less than the lowest number
    let least = "1 0 2  9 2 1 0 0 -9223372036854775808  10";
    check_answers(&rt, heap, least, &[("1 0 0  1 0 0  0 0 0", "# holds\n")])?;
    // an array of length 0, and a number as an index, inside and outside
    check_answers(
        &rt,
        heap,
        "1 1 0 1  4 0 0 1 0",
        &[("1 0 0  0 0 0", "# holds\n")],
    )?;
    check_answers(
        &rt,
        heap,
        "1 1 3 1  5 0 0 2 0 7",
        &[
            (
                "1 0 0  0 0 0",
                "bad table: 0 store a0[2] = 7 leads to place 1 and the table has that nothing comes there",
            ),
            ("1 0 0  1 0 0", "# holds\n"),
        ],
    )?;
    check_answers(
        &rt,
        heap,
        "1 1 3 1  5 0 0 3 0 7",
        &[("1 0 0  0 0 0", "# holds\n")],
    )?;
    // both sides of less the same variable
    check_answers(
        &rt,
        heap,
        "1 0 1  9 1 1 0 1 0",
        &[
            ("1 0 0  1 0 0", "# holds\n"),
            ("1 0 9  1 0 9", "# holds\n"),
            (
                "1 0 9  1 1 8",
                "bad table: 0 less v0 < v0 to 1 leads to place 1 with v0 from 0 to 9, and the table has 1 to 8 there",
            ),
        ],
    )?;
    check_answers(
        &rt,
        heap,
        "1 0 2  9 2 1 0 1 0  10",
        &[
            ("1 0 0  1 0 0  0 0 0", "# holds\n"),
            ("1 0 9  1 0 9  1 1 8", "# holds\n"),
            (
                "1 0 9  1 0 9  1 1 7",
                "bad table: 0 less v0 < v0 to 2 leads to place 2 with v0 from 1 to 8, and the table has 1 to 7 there",
            ),
        ],
    )?;
    // asked for, kept from 0 to 100, and doubled
    let double = "1 0 5  6 0  9 5 0 100 1 0  9 5 1 0 0 0  1 0 1 0 1 0  7 1 0";
    let all = "-9223372036854775808 9223372036854775807";
    let table = format!(in heap;
        "1 0 0  1 {all}  1 -9223372036854775808 100  1 0 100  1 0 200  1 {all}"
    )?;
    check_answers(&rt, heap, double, &[(table.as_str(), "# holds\n")])?;
    check_answers(
        &rt,
        heap,
        "65 0 0",
        &[(
            "1",
            "unread: number 1 is 65, and a program has 1 to 64 variables (line 1, column 1)",
        )],
    )?;
    check_answers(
        &rt,
        heap,
        "1 0 x",
        &[(
            "1",
            "program: line 1, column 5: not a number; a number is digits, with a minus in front if it is negative",
        )],
    )
}
