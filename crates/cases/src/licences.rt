// What tables license and what they don't: a program, a table, and the answer in full.

use crate::printing::print;
use message::Error;
use std::alloc::{AllocError, Global};
use std::process::Abort;
use std::test::Fail;

// The program is read first, then the table.
fn checked(heap: Global, program: &str, table: &str) -> Result<String, Error> {
    let mut rows = vec![in heap; 0i64; report::NUMBERS]?;
    let mut numbers = vec![in heap; 0i64; report::TABLE]?;
    let n = report::load_program(program.as_bytes(), &mut rows)?;
    let m = report::load_table(table.as_bytes(), &rows[..n], &mut numbers)?;
    report::licence_text(heap, &rows[..n], &numbers[..m])
}

pub(crate) fn answer(heap: Global, program: &str, table: &str) -> Result<String, AllocError> {
    print(heap, checked(heap, program, table))
}

pub(crate) fn check_licences(
    rt: &impl Abort,
    heap: Global,
    cases: &[(&str, &str, &str)],
) -> Result<(), Fail> {
    for (program, table, expected) in cases {
        assert_eq!(rt;
            answer(heap, program, table)?.as_str(),
            *expected,
            "{}",
            *table
        );
    }
    Ok(())
}

// A number that is asked for and added to itself.
#[test]
fn asked(rt: HostRuntime) -> Result<(), Fail> {
    check_licences(
        &rt,
        rt.alloc(),
        &[
            // only kept from 0 up: the sum is 0 to 2^64 - 2 before it is cut
            (
                "1 0 5  6 0  9 4 1 0 0 0  1 0 1 0 1 0  10  10",
                "1 0 0  1 -9223372036854775808 9223372036854775807  1 0 9223372036854775807  1 0 9223372036854775807  1 -9223372036854775808 -1  0 0 0",
                "# holds\n# test 2 add v0 = v0 + v0\n",
            ),
            // kept from 0 to 100, so that it is 0 to 200 behind the add, and no less
            (
                "1 0 5  6 0  9 5 0 100 1 0  9 5 1 0 0 0  1 0 1 0 1 0  8 5",
                "1 0 0  1 -9223372036854775808 9223372036854775807  1 -9223372036854775808 100  1 0 100  1 0 200  1 -9223372036854775808 9223372036854775807",
                "# holds\n# licence 3 add v0 = v0 + v0\n",
            ),
            (
                "1 0 5  6 0  9 5 0 100 1 0  9 5 1 0 0 0  1 0 1 0 1 0  8 5",
                "1 0 0  1 -9223372036854775808 9223372036854775807  1 -9223372036854775808 100  1 0 100  1 0 199  1 -9223372036854775808 9223372036854775807",
                "bad table: 3 add v0 = v0 + v0 leads to place 4 with v0 from 0 to 200, and the table has 0 to 199 there",
            ),
            // the same, knowing nothing
            (
                "1 0 5  6 0  9 5 0 100 1 0  9 5 1 0 0 0  1 0 1 0 1 0  8 5",
                "1 -9223372036854775808 9223372036854775807  1 -9223372036854775808 9223372036854775807  1 -9223372036854775808 9223372036854775807  1 -9223372036854775808 9223372036854775807  1 -9223372036854775808 9223372036854775807  1 -9223372036854775808 9223372036854775807",
                "# holds\n# test 3 add v0 = v0 + v0\n",
            ),
        ],
    )
}

// The loop that fills an array.
#[test]
fn fills(rt: HostRuntime) -> Result<(), Fail> {
    check_licences(
        &rt,
        rt.alloc(),
        &[
            // an array of 7: the store fails with 7, and lets no more than 6 go on
            (
                "1 1 7 5  9 2 1 0 0 8  10  5 0 1 0 1 0  1 0 1 0 0 1  8 0",
                "1 0 7  0 0 0  1 0 7  1 0 6  1 1 7  0 0 0",
                "# holds\n# test 2 store a0[v0] = v0\n# licence 3 add v0 = v0 + 1\n",
            ),
            // an array of 8, without a lower end, and knowing nothing
            (
                "1 1 8 5  9 2 1 0 0 8  10  5 0 1 0 1 0  1 0 1 0 0 1  8 0",
                "1 -9223372036854775808 9223372036854775807  1 8 9223372036854775807  1 -9223372036854775808 7  1 0 7  1 1 8  0 0 0",
                "# holds\n# test 2 store a0[v0] = v0\n# licence 3 add v0 = v0 + 1\n",
            ),
            (
                "1 1 8 5  9 2 1 0 0 8  10  5 0 1 0 1 0  1 0 1 0 0 1  8 0",
                "1 -9223372036854775808 9223372036854775807  1 -9223372036854775808 9223372036854775807  1 -9223372036854775808 9223372036854775807  1 -9223372036854775808 9223372036854775807  1 -9223372036854775808 9223372036854775807  1 -9223372036854775808 9223372036854775807",
                "# holds\n# test 2 store a0[v0] = v0\n# test 3 add v0 = v0 + 1\n",
            ),
        ],
    )
}

// Each kind of step.
#[test]
fn kinds(rt: HostRuntime) -> Result<(), Fail> {
    check_licences(
        &rt,
        rt.alloc(),
        &[
            // where nothing comes, an array of length 0 included
            (
                "1 1 0 6  10  1 0 1 0 1 0  2 0 1 0 1 0  3 0 2 1 0  4 0 0 1 0  5 0 1 0 1 0",
                "1 0 0  0 0 0  0 0 0  0 0 0  0 0 0  0 0 0  0 0 0",
                "# holds\n# licence 1 add v0 = v0 + v0\n# licence 2 sub v0 = v0 - v0\n# licence 3 mul v0 = 2 * v0\n# licence 4 load v0 = a0[v0]\n# licence 5 store a0[v0] = v0\n",
            ),
            // the same, knowing nothing
            (
                "1 1 0 6  10  1 0 1 0 1 0  2 0 1 0 1 0  3 0 2 1 0  4 0 0 1 0  5 0 1 0 1 0",
                "1 -9223372036854775808 9223372036854775807  1 -9223372036854775808 9223372036854775807  1 -9223372036854775808 9223372036854775807  1 -9223372036854775808 9223372036854775807  1 -9223372036854775808 9223372036854775807  1 -9223372036854775808 9223372036854775807  1 -9223372036854775808 9223372036854775807",
                "# holds\n# test 1 add v0 = v0 + v0\n# test 2 sub v0 = v0 - v0\n# test 3 mul v0 = 2 * v0\n# test 4 load v0 = a0[v0]\n# test 5 store a0[v0] = v0\n",
            ),
            // no tests, and no steps
            (
                "1 0 6  0 0 0 1  6 0  7 1 0  9 5 1 0 0 0  8 5  10",
                "1 -9223372036854775808 9223372036854775807  1 -9223372036854775808 9223372036854775807  1 -9223372036854775808 9223372036854775807  1 -9223372036854775808 9223372036854775807  1 -9223372036854775808 9223372036854775807  1 -9223372036854775808 9223372036854775807  1 -9223372036854775808 9223372036854775807",
                "# holds\n",
            ),
            ("1 0 0", "1 0 0", "# holds\n"),
        ],
    )
}

// Sums and differences that end exactly at the end of 64 bits, and one past it.
#[test]
fn sums(rt: HostRuntime) -> Result<(), Fail> {
    check_licences(
        &rt,
        rt.alloc(),
        &[
            // the upper end
            (
                "1 0 1  1 0 1 0 0 1",
                "1 0 9223372036854775806  1 1 9223372036854775807",
                "# holds\n# licence 0 add v0 = v0 + 1\n",
            ),
            (
                "1 0 1  1 0 1 0 0 1",
                "1 0 9223372036854775807  1 1 9223372036854775807",
                "# holds\n# test 0 add v0 = v0 + 1\n",
            ),
            (
                "1 0 1  2 0 1 0 0 -1",
                "1 0 9223372036854775806  1 1 9223372036854775807",
                "# holds\n# licence 0 sub v0 = v0 - -1\n",
            ),
            (
                "1 0 1  2 0 1 0 0 -1",
                "1 0 9223372036854775807  1 1 9223372036854775807",
                "# holds\n# test 0 sub v0 = v0 - -1\n",
            ),
            (
                "1 0 1  2 0 0 0 1 0",
                "1 -9223372036854775807 0  1 0 9223372036854775807",
                "# holds\n# licence 0 sub v0 = 0 - v0\n",
            ),
            (
                "1 0 1  2 0 0 0 1 0",
                "1 -9223372036854775808 0  1 0 9223372036854775807",
                "# holds\n# test 0 sub v0 = 0 - v0\n",
            ),
            // the lower end
            (
                "1 0 1  1 0 1 0 0 -1",
                "1 -9223372036854775807 0  1 -9223372036854775808 -1",
                "# holds\n# licence 0 add v0 = v0 + -1\n",
            ),
            (
                "1 0 1  1 0 1 0 0 -1",
                "1 -9223372036854775808 0  1 -9223372036854775808 -1",
                "# holds\n# test 0 add v0 = v0 + -1\n",
            ),
            (
                "1 0 1  2 0 1 0 0 1",
                "1 -9223372036854775807 0  1 -9223372036854775808 -1",
                "# holds\n# licence 0 sub v0 = v0 - 1\n",
            ),
            (
                "1 0 1  2 0 1 0 0 1",
                "1 -9223372036854775808 0  1 -9223372036854775808 -1",
                "# holds\n# test 0 sub v0 = v0 - 1\n",
            ),
            // numbers: nothing goes on, and that is no licence
            (
                "1 0 1  1 0 0 9223372036854775807 0 1",
                "1 0 0  0 0 0",
                "# holds\n# test 0 add v0 = 9223372036854775807 + 1\n",
            ),
            (
                "1 0 1  2 0 0 -9223372036854775808 0 1",
                "1 0 0  0 0 0",
                "# holds\n# test 0 sub v0 = -9223372036854775808 - 1\n",
            ),
            // two variables
            (
                "2 0 1  1 0 1 0 1 1",
                "1 -9223372036854775808 0 0 9223372036854775807  1 -9223372036854775808 9223372036854775807 0 9223372036854775807",
                "# holds\n# licence 0 add v0 = v0 + v1\n",
            ),
            (
                "2 0 1  1 0 1 0 1 1",
                "1 0 9223372036854775807 0 9223372036854775807  1 0 9223372036854775807 0 9223372036854775807",
                "# holds\n# test 0 add v0 = v0 + v1\n",
            ),
            (
                "2 0 1  2 0 1 0 1 1",
                "1 0 9223372036854775807 0 9223372036854775807  1 -9223372036854775807 9223372036854775807 0 9223372036854775807",
                "# holds\n# licence 0 sub v0 = v0 - v1\n",
            ),
            (
                "2 0 1  2 0 1 0 1 1",
                "1 -1 9223372036854775807 -1 9223372036854775807  1 -9223372036854775808 9223372036854775807 -1 9223372036854775807",
                "# holds\n# test 0 sub v0 = v0 - v1\n",
            ),
            // all of 64 bits: wrapped round, the sum would be 0 to -2
            (
                "1 0 1  1 0 1 0 1 0",
                "1 -9223372036854775808 9223372036854775807  1 -9223372036854775808 9223372036854775807",
                "# holds\n# test 0 add v0 = v0 + v0\n",
            ),
        ],
    )
}

// Products, with factors of both signs.
#[test]
fn products(rt: HostRuntime) -> Result<(), Fail> {
    check_licences(
        &rt,
        rt.alloc(),
        &[
            (
                "1 0 1  3 0 2 1 0",
                "1 0 4611686018427387903  1 0 9223372036854775806",
                "# holds\n# licence 0 mul v0 = 2 * v0\n",
            ),
            (
                "1 0 1  3 0 2 1 0",
                "1 0 4611686018427387904  1 0 9223372036854775807",
                "# holds\n# test 0 mul v0 = 2 * v0\n",
            ),
            (
                "1 0 1  3 0 7 1 0",
                "1 0 1317624576693539401  1 0 9223372036854775807",
                "# holds\n# licence 0 mul v0 = 7 * v0\n",
            ),
            (
                "1 0 1  3 0 7 1 0",
                "1 0 1317624576693539402  1 0 9223372036854775807",
                "# holds\n# test 0 mul v0 = 7 * v0\n",
            ),
            // a negative one turns the ends
            (
                "1 0 1  3 0 -1 1 0",
                "1 -9223372036854775807 5  1 -5 9223372036854775807",
                "# holds\n# licence 0 mul v0 = -1 * v0\n",
            ),
            (
                "1 0 1  3 0 -1 1 0",
                "1 -9223372036854775808 5  1 -5 9223372036854775807",
                "# holds\n# test 0 mul v0 = -1 * v0\n",
            ),
            (
                "1 0 1  3 0 -2 1 0",
                "1 -1 4611686018427387904  1 -9223372036854775808 2",
                "# holds\n# licence 0 mul v0 = -2 * v0\n",
            ),
            (
                "1 0 1  3 0 -2 1 0",
                "1 -1 4611686018427387905  1 -9223372036854775808 2",
                "# holds\n# test 0 mul v0 = -2 * v0\n",
            ),
            (
                "1 0 1  3 0 -9223372036854775808 1 0",
                "1 0 1  1 -9223372036854775808 0",
                "# holds\n# licence 0 mul v0 = -9223372036854775808 * v0\n",
            ),
            (
                "1 0 1  3 0 -9223372036854775808 1 0",
                "1 0 2  1 -9223372036854775808 0",
                "# holds\n# test 0 mul v0 = -9223372036854775808 * v0\n",
            ),
            (
                "1 0 1  3 0 -9223372036854775808 1 0",
                "1 -1 0  1 0 9223372036854775807",
                "# holds\n# test 0 mul v0 = -9223372036854775808 * v0\n",
            ),
            // a number
            (
                "1 0 1  3 0 -1 0 -9223372036854775808",
                "1 0 0  0 0 0",
                "# holds\n# test 0 mul v0 = -1 * -9223372036854775808\n",
            ),
            // all of 64 bits, by nothing and by the lowest number
            (
                "1 0 1  3 0 0 1 0",
                "1 -9223372036854775808 9223372036854775807  1 0 0",
                "# holds\n# licence 0 mul v0 = 0 * v0\n",
            ),
            (
                "1 0 1  3 0 -9223372036854775808 1 0",
                "1 -9223372036854775808 9223372036854775807  1 -9223372036854775808 9223372036854775807",
                "# holds\n# test 0 mul v0 = -9223372036854775808 * v0\n",
            ),
            // wrapped round, the upper end would be 0
            (
                "1 0 1  3 0 4 1 0",
                "1 0 4611686018427387904  1 0 9223372036854775807",
                "# holds\n# test 0 mul v0 = 4 * v0\n",
            ),
        ],
    )
}

// Indices exactly inside of an array, and one outside.
#[test]
fn indices(rt: HostRuntime) -> Result<(), Fail> {
    check_licences(
        &rt,
        rt.alloc(),
        &[
            (
                "1 1 8 1  5 0 1 0 1 0",
                "1 0 7  1 0 7",
                "# holds\n# licence 0 store a0[v0] = v0\n",
            ),
            (
                "1 1 8 1  5 0 1 0 1 0",
                "1 -1 7  1 0 7",
                "# holds\n# test 0 store a0[v0] = v0\n",
            ),
            (
                "1 1 8 1  5 0 1 0 1 0",
                "1 0 8  1 0 7",
                "# holds\n# test 0 store a0[v0] = v0\n",
            ),
            (
                "1 1 8 1  4 0 0 1 0",
                "1 0 7  1 -9223372036854775808 9223372036854775807",
                "# holds\n# licence 0 load v0 = a0[v0]\n",
            ),
            (
                "1 1 8 1  4 0 0 1 0",
                "1 -1 7  1 -9223372036854775808 9223372036854775807",
                "# holds\n# test 0 load v0 = a0[v0]\n",
            ),
            (
                "1 1 8 1  4 0 0 1 0",
                "1 0 8  1 -9223372036854775808 9223372036854775807",
                "# holds\n# test 0 load v0 = a0[v0]\n",
            ),
            // the longest array
            (
                "1 1 65536 1  4 0 0 1 0",
                "1 0 65535  1 -9223372036854775808 9223372036854775807",
                "# holds\n# licence 0 load v0 = a0[v0]\n",
            ),
            (
                "1 1 65536 1  4 0 0 1 0",
                "1 0 65536  1 -9223372036854775808 9223372036854775807",
                "# holds\n# test 0 load v0 = a0[v0]\n",
            ),
            // length 0: something comes to the first step, and then to both
            (
                "1 1 0 2  4 0 0 1 0  5 0 1 0 1 0",
                "1 0 0  0 0 0  0 0 0",
                "# holds\n# test 0 load v0 = a0[v0]\n# licence 1 store a0[v0] = v0\n",
            ),
            (
                "1 1 0 2  4 0 0 1 0  5 0 1 0 1 0",
                "1 0 0  1 0 0  0 0 0",
                "# holds\n# test 0 load v0 = a0[v0]\n# test 1 store a0[v0] = v0\n",
            ),
            // numbers
            (
                "1 1 3 6  4 0 0 0 2  5 0 0 2 0 7  4 0 0 0 3  5 0 0 3 0 7  4 0 0 0 -1  5 0 0 -1 0 7",
                "1 -9223372036854775808 9223372036854775807  1 -9223372036854775808 9223372036854775807  1 -9223372036854775808 9223372036854775807  1 -9223372036854775808 9223372036854775807  1 -9223372036854775808 9223372036854775807  1 -9223372036854775808 9223372036854775807  1 -9223372036854775808 9223372036854775807",
                "# holds\n# licence 0 load v0 = a0[2]\n# licence 1 store a0[2] = 7\n# test 2 load v0 = a0[3]\n# test 3 store a0[3] = 7\n# test 4 load v0 = a0[-1]\n# test 5 store a0[-1] = 7\n",
            ),
            (
                "1 1 1 1  4 0 0 0 0",
                "1 -9223372036854775808 9223372036854775807  1 -9223372036854775808 9223372036854775807",
                "# holds\n# licence 0 load v0 = a0[0]\n",
            ),
            // the index, and not what is stored
            (
                "2 1 8 1  5 0 1 0 1 1",
                "1 0 7 -9223372036854775808 9223372036854775807  1 0 7 -9223372036854775808 9223372036854775807",
                "# holds\n# licence 0 store a0[v0] = v1\n",
            ),
            (
                "2 1 8 1  5 0 1 0 1 1",
                "1 -9223372036854775808 9223372036854775807 0 7  1 0 7 0 7",
                "# holds\n# test 0 store a0[v0] = v1\n",
            ),
            // the length of the array that is named
            (
                "1 2 4 8 2  5 0 1 0 0 0  5 1 1 0 0 0",
                "1 0 7  1 0 7  1 0 7",
                "# holds\n# test 0 store a0[v0] = 0\n# licence 1 store a1[v0] = 0\n",
            ),
        ],
    )
}

// Turned ranges, whose ends are looked at like any others; a run stops before it comes there.
#[test]
fn turned(rt: HostRuntime) -> Result<(), Fail> {
    check_licences(
        &rt,
        rt.alloc(),
        &[
            // neither end is outside
            (
                "1 0 2  10  1 0 1 0 0 1",
                "1 0 0  1 5 3  0 0 0",
                "# holds\n# licence 1 add v0 = v0 + 1\n",
            ),
            (
                "1 1 8 2  10  5 0 1 0 1 0",
                "1 0 0  1 20 -5  0 0 0",
                "# holds\n# licence 1 store a0[v0] = v0\n",
            ),
            (
                "1 1 0 2  10  4 0 0 1 0",
                "1 0 0  1 0 -1  0 0 0",
                "# holds\n# licence 1 load v0 = a0[v0]\n",
            ),
            // each end is past the end of 64 bits on the other side
            (
                "1 0 2  10  1 0 1 0 1 0",
                "1 0 0  1 9223372036854775807 -9223372036854775808  0 0 0",
                "# holds\n# licence 1 add v0 = v0 + v0\n",
            ),
            // an end is outside
            (
                "1 0 2  10  2 0 1 0 0 2",
                "1 0 0  1 -9223372036854775807 -9223372036854775808  0 0 0",
                "# holds\n# test 1 sub v0 = v0 - 2\n",
            ),
            (
                "1 1 8 2  10  5 0 1 0 1 0",
                "1 0 0  1 -5 -6  0 0 0",
                "# holds\n# test 1 store a0[v0] = v0\n",
            ),
            (
                "1 1 8 2  10  5 0 1 0 1 0",
                "1 0 0  1 9 8  0 0 0",
                "# holds\n# test 1 store a0[v0] = v0\n",
            ),
            // mul orders its ends: 2^62..-1 is inside 0..1, and yet it isn't licensed
            (
                "1 0 2  10  3 0 4 1 0",
                "1 0 0  1 0 1  1 -4 9223372036854775807",
                "# holds\n# licence 1 mul v0 = 4 * v0\n",
            ),
            (
                "1 0 2  10  3 0 4 1 0",
                "1 0 0  1 4611686018427387904 -1  1 -4 9223372036854775807",
                "# holds\n# test 1 mul v0 = 4 * v0\n",
            ),
        ],
    )
}
