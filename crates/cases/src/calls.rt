// Calls of a run: what each answers, and what it leaves of the numbers lent.

use crate::printing::print;
use interpreter::Ran;
use message::Error;
use std::alloc::{AllocError, Global};
use std::process::Abort;
use std::test::Fail;

fn in_words(heap: Global, ran: Ran) -> Result<String, AllocError> {
    match ran {
        Ran::Stopped(k, c) => format!(in heap; "stopped, {k} shown, {c} tests"),
        Ran::Failed(a, k, c) => format!(in heap; "failed at {a}, {k} shown, {c} tests"),
        Ran::More(k, c) => format!(in heap; "more, {k} shown, {c} tests"),
        Ran::BadTable => format!(in heap; "bad table"),
        Ran::Unread => format!(in heap; "unread"),
        Ran::OutFull => format!(in heap; "out full"),
        Ran::Small => format!(in heap; "small"),
    }
}

// A run with so many work numbers, which aren't 0.
fn called(
    heap: Global,
    program: &str,
    table: &str,
    steps: u32,
    shown: &mut [i64],
    work: usize,
) -> Result<String, Error> {
    let mut rows = vec![in heap; 0i64; 64]?;
    let mut numbers = vec![in heap; 0i64; 64]?;
    let mut lent = vec![in heap; 77i64; work]?;
    let n = report::load_numbers(program.as_bytes(), &mut rows)?;
    let m = report::load_numbers(table.as_bytes(), &mut numbers)?;
    let ran = interpreter::run(&rows[..n], &numbers[..m], &[], steps, shown, &mut lent);
    Ok(in_words(heap, ran)?)
}

// How many steps at most, how many numbers there is room for, how many work numbers, and the answer; and what four numbers
// are then, of which the first were lent and all were -7.
fn check_calls(
    rt: &impl Abort,
    heap: Global,
    program: &str,
    table: &str,
    cases: &[(u32, usize, usize, &str, [i64; 4])],
) -> Result<(), Fail> {
    for (steps, room, work, expected, after) in cases {
        let mut shown = [-7; 4];
        assert!(rt; *room <= 4);
        let lent = &mut shown[0..*room];
        let got = print(heap, called(heap, program, table, *steps, lent, *work))?;
        assert_eq!(rt; got.as_str(), *expected, "{}", program);
        // after `out full` what is lent may be anything
        if *expected != "out full" {
            assert_eq!(rt; shown, *after, "{}", program);
        }
    }
    Ok(())
}

#[test]
fn answers(rt: HostRuntime) -> Result<(), Fail> {
    let heap = rt.alloc();
    // 10 and -20 are shown, and then it stops
    let two = "1 0 3  7 0 10  7 0 -20  10";
    let free = [0; 4];
    check_calls(
        &rt,
        heap,
        two,
        "1 0 0  1 0 0  1 0 0  0 0 0",
        &[
            (3, 2, 259, "stopped, 2 shown, 0 tests", [10, -20, -7, -7]),
            (
                4294967295,
                4,
                1000,
                "stopped, 2 shown, 0 tests",
                [10, -20, -7, -7],
            ),
            (2, 2, 259, "more, 2 shown, 0 tests", [10, -20, -7, -7]),
            (1, 2, 259, "more, 1 shown, 0 tests", [10, -7, -7, -7]),
            (0, 2, 259, "more, 0 shown, 0 tests", [-7, -7, -7, -7]),
            // one number fewer, and none
            (3, 1, 259, "out full", free),
            (2, 1, 259, "out full", free),
            (1, 1, 259, "more, 1 shown, 0 tests", [10, -7, -7, -7]),
            (3, 0, 259, "out full", free),
            (1, 0, 259, "out full", free),
            (0, 0, 259, "more, 0 shown, 0 tests", [-7, -7, -7, -7]),
            // one work number fewer, and none
            (3, 2, 258, "small", [-7, -7, -7, -7]),
            (3, 0, 258, "small", [-7, -7, -7, -7]),
            (0, 4, 0, "small", [-7, -7, -7, -7]),
        ],
    )?;
    // a table that doesn't hold, that is of another program, and that is none
    for table in [
        "1 0 0  1 0 0  1 1 1  0 0 0",
        "1 0 0  1 0 0  1 0 0",
        "2 0 0  1 0 0  1 0 0  0 0 0",
        "",
    ] {
        check_calls(
            &rt,
            heap,
            two,
            table,
            &[
                (3, 4, 259, "bad table", [-7, -7, -7, -7]),
                (0, 0, 259, "bad table", [-7, -7, -7, -7]),
                (3, 4, 258, "small", [-7, -7, -7, -7]),
            ],
        )?;
    }
    // no program, whatever else there is
    for program in [
        "",
        "1 0 3  7 0 10  7 0 -20",
        "1 0 3  7 0 10  7 0 -20  10  10",
    ] {
        check_calls(
            &rt,
            heap,
            program,
            "1 0 0  1 0 0  1 0 0  0 0 0",
            &[
                (3, 4, 259, "unread", [-7, -7, -7, -7]),
                (0, 0, 0, "unread", [-7, -7, -7, -7]),
            ],
        )?;
    }
    // 1 is shown without end, and a test fails behind a number shown
    check_calls(
        &rt,
        heap,
        "1 0 2  7 0 1  8 0",
        "1 0 0  1 0 0  0 0 0",
        &[
            (7, 4, 258, "more, 4 shown, 0 tests", [1, 1, 1, 1]),
            (8, 4, 258, "more, 4 shown, 0 tests", [1, 1, 1, 1]),
            (9, 4, 258, "out full", free),
            (4294967295, 4, 258, "out full", free),
        ],
    )?;
    check_calls(
        &rt,
        heap,
        "1 1 2 3  7 0 9  5 0 0 2 0 5  7 0 8",
        "1 0 0  1 0 0  0 0 0  0 0 0",
        &[
            (9, 1, 261, "failed at 1, 1 shown, 1 tests", [9, -7, -7, -7]),
            (9, 4, 261, "failed at 1, 1 shown, 1 tests", [9, -7, -7, -7]),
            (9, 0, 261, "out full", free),
            (9, 4, 260, "small", [-7, -7, -7, -7]),
        ],
    )
}

// How many work numbers a program wants, and that a run has enough with them and too few with one less.
fn check_wants(
    rt: &impl Abort,
    heap: Global,
    program: &str,
    table: &str,
    wanted: usize,
) -> Result<(), Fail> {
    let mut rows = vec![in heap; 0i64; 64]?;
    let Ok(n) = report::load_program(program.as_bytes(), &mut rows) else {
        return Err(Fail::new("no program"));
    };
    let Ok(read) = program::read(&rows[..n]) else {
        return Err(Fail::new("no program"));
    };
    assert_eq!(rt; interpreter::wants(read.counts()), wanted);
    assert!(rt; wanted > 0);
    let stays = [-7, -7, -7, -7];
    check_calls(
        rt,
        heap,
        program,
        table,
        &[
            (9, 4, wanted, "stopped, 0 shown, 0 tests", stays),
            (9, 4, wanted - 1, "small", stays),
        ],
    )
}

#[test]
fn work_numbers(rt: HostRuntime) -> Result<(), Fail> {
    let heap = rt.alloc();
    check_wants(&rt, heap, "1 0 0", "1 0 0", 256)?;
    check_wants(&rt, heap, "2 0 0", "1 0 0 0 0", 256)?;
    check_wants(&rt, heap, "1 1 8 0", "1 0 0", 264)?;
    check_wants(&rt, heap, "1 3 8 0 65536 1  10", "1 0 0  0 0 0", 65801)
}

// What `execute` allocates for a run, in bytes: the numbers of a program and a table, handed in, shown and for work; and the
// texts that it reads, one after the other, or, when these are let go, what it prints.
#[test]
fn memory(rt: HostRuntime) {
    let numbers = report::NUMBERS + report::TABLE + 2 * report::SHOWN + report::WORK;
    let text = report::TEXT + 1;
    let printed = 21 * report::SHOWN + 96;
    assert!(rt; 8 * numbers + text.max(printed) <= 4194304);
}
