// Programs, how many rounds it takes to find their least tables, and the last places of these.

use least::Found;
use std::alloc::Global;
use std::process::Abort;
use std::test::Fail;

// Enough for tables of 384 numbers.
const WORK: usize = 28672;

fn check_found(
    rt: &impl Abort,
    heap: Global,
    program: &[i64],
    rounds: u64,
    size: usize,
    last: &[i64],
) -> Result<(), Fail> {
    let mut table = vec![in heap; 0i64; size]?;
    let mut work = vec![in heap; 0i64; WORK]?;
    match least::find(program, &mut table, &mut work) {
        Found::Ranges(n) => {
            assert!(rt; table.as_slice().ends_with(last));
            assert_eq!(rt; n, rounds);
            Ok(())
        }
        Found::NoProgram => Err(Fail::new("no program")),
        Found::Few => Err(Fail::new("few numbers")),
    }
}

// Counts from 0 to 2^62 by 1.
// Four plain rounds; two sweeps that lower the guess, the second a quiet one, and one that confirms it; one round that brings
// the stop its range, and a quiet one.
#[test]
fn count(rt: HostRuntime) -> Result<(), Fail> {
    let end = 4611686018427387904;
    check_found(
        &rt,
        rt.alloc(),
        &[1, 0, 4, 9, 2, 1, 0, 0, end, 10, 1, 0, 1, 0, 0, 1, 8, 0],
        9,
        15,
        &[1, 0, end, 1, end, end, 1, 0, end - 1, 1, 1, end, 0, 0, 0],
    )
}

// The loop that fills an array of 8, and the same with an array of 7, where the store at 7 fails.
#[test]
fn fill_found(rt: HostRuntime) -> Result<(), Fail> {
    check_found(
        &rt,
        rt.alloc(),
        &[
            1, 1, 8, 5, 9, 2, 1, 0, 0, 8, 10, 5, 0, 1, 0, 1, 0, 1, 0, 1, 0, 0, 1, 8, 0,
        ],
        9,
        18,
        &[1, 0, 8, 1, 8, 8, 1, 0, 7, 1, 0, 7, 1, 1, 8, 0, 0, 0],
    )
}

#[test]
fn fill_short(rt: HostRuntime) -> Result<(), Fail> {
    check_found(
        &rt,
        rt.alloc(),
        &[
            1, 1, 7, 5, 9, 2, 1, 0, 0, 8, 10, 5, 0, 1, 0, 1, 0, 1, 0, 1, 0, 0, 1, 8, 0,
        ],
        8,
        18,
        &[1, 0, 7, 0, 0, 0, 1, 0, 7, 1, 0, 6, 1, 1, 7, 0, 0, 0],
    )
}

// A ramp: what is asked for is limited, and the output moves to the set value by a step at most.
#[test]
fn ramp(rt: HostRuntime) -> Result<(), Fail> {
    check_found(
        &rt,
        rt.alloc(),
        &[
            5, 0, 23, 6, 0, 6, 1, 6, 2, 9, 5, 1, 0, 0, 50000, 0, 0, 0, 50000, 9, 7, 0, -50000, 1,
            0, 0, 0, 0, -50000, 9, 9, 1, 1, 0, 50000, 0, 1, 0, 50000, 9, 11, 0, -50000, 1, 1, 0, 1,
            0, -50000, 9, 13, 1, 2, 0, 1000, 0, 2, 0, 1000, 9, 15, 0, 0, 1, 2, 0, 2, 0, 0, 2, 4, 1,
            0, 1, 1, 2, 3, 0, 0, 1, 2, 9, 19, 1, 4, 1, 2, 0, 4, 1, 2, 9, 21, 1, 3, 1, 4, 0, 4, 1,
            3, 1, 1, 1, 1, 1, 4, 7, 1, 1,
        ],
        2,
        264,
        &[
            1, -50000, 50000, -50000, 50000, 0, 1000, -1000, 0, -1000, 1000, 1, -50000, 50000,
            -51000, 51000, 0, 1000, -1000, 0, -1000, 1000, 1, -50000, 50000, -51000, 51000, 0,
            1000, -1000, 0, -1000, 1000,
        ],
    )
}
