// Tables that hold, as in `checking`, with a line for each test; and a program that is none before a table that is none.

use crate::licences::{answer, check_licences};
use std::test::Fail;

#[test]
fn fill_lines(rt: HostRuntime) -> Result<(), Fail> {
    let fill = "1 1 8 5  9 2 1 0 0 8  10  5 0 1 0 1 0  1 0 1 0 0 1  8 0";
    check_licences(
        &rt,
        rt.alloc(),
        &[
            (
                fill,
                "1 0 8  1 8 8  1 0 7  1 0 7  1 1 8  0 0 0",
                "# holds\n# licence 2 store a0[v0] = v0\n# licence 3 add v0 = v0 + 1\n",
            ),
            // knowing less, and something at a place that nothing comes to, turned or not
            (
                fill,
                "1 0 8  1 8 8  1 -5 8  1 0 7  1 1 8  1 5 3",
                "# holds\n# test 2 store a0[v0] = v0\n# licence 3 add v0 = v0 + 1\n",
            ),
            (
                fill,
                "1 0 8  1 8 100  1 0 7  1 0 7  1 1 8  1 3 5",
                "# holds\n# licence 2 store a0[v0] = v0\n# licence 3 add v0 = v0 + 1\n",
            ),
        ],
    )
}

#[test]
fn edge_lines(rt: HostRuntime) -> Result<(), Fail> {
    let heap = rt.alloc();
    check_licences(
        &rt,
        heap,
        &[
            // -2^63 times -1, and -2^63 less 1: nothing goes on
            (
                "1 0 2  0 0 0 -9223372036854775808  3 0 -1 1 0",
                "1 0 0  1 -9223372036854775808 -9223372036854775808  0 0 0",
                "# holds\n# test 1 mul v0 = -1 * v0\n",
            ),
            (
                "1 0 2  0 0 0 -9223372036854775808  2 0 1 0 0 1",
                "1 0 0  1 -9223372036854775808 -9223372036854775808  0 0 0",
                "# holds\n# test 1 sub v0 = v0 - 1\n",
            ),
            // an array of length 0, and a number as an index, inside and outside
            (
                "1 1 0 1  4 0 0 1 0",
                "1 0 0  0 0 0",
                "# holds\n# test 0 load v0 = a0[v0]\n",
            ),
            (
                "1 1 3 1  5 0 0 2 0 7",
                "1 0 0  1 0 0",
                "# holds\n# licence 0 store a0[2] = 7\n",
            ),
            (
                "1 1 3 1  5 0 0 3 0 7",
                "1 0 0  0 0 0",
                "# holds\n# test 0 store a0[3] = 7\n",
            ),
            // what is no program, with a table that is no text of numbers
            (
                "65 0 0",
                "x",
                "unread: number 1 is 65, and a program has 1 to 64 variables (line 1, column 1)",
            ),
        ],
    )?;
    // asked for, kept from 0 to 100, and doubled
    let double = "1 0 5  6 0  9 5 0 100 1 0  9 5 1 0 0 0  1 0 1 0 1 0  7 1 0";
    let all = "-9223372036854775808 9223372036854775807";
    let table = format!(in heap;
        "1 0 0  1 {all}  1 -9223372036854775808 100  1 0 100  1 0 200  1 {all}"
    )?;
    let said = answer(heap, double, table.as_str())?;
    assert_eq!(rt; said.as_str(), "# holds\n# licence 3 add v0 = v0 + v0\n");
    Ok(())
}
