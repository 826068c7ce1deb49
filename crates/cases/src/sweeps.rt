// Rounds from the start, and guesses that are confirmed or not, on loops with one variable.

use fixpoint::Confirmed;

// Rounds from the start until nothing changes, at most a hundred: how many changed something.
fn settle(rows: &[i64], table: &mut [i64], out: &mut [i64], notes: &mut [i64]) -> Option<usize> {
    let program = program::read(rows).ok()?;
    let counts = program.counts();
    if counts.vars != 1 || 3 * counts.steps + 3 != table.len() {
        return None;
    }
    if out.len() != 2 || notes.len() != table.len() {
        return None;
    }
    fixpoint::start(counts, table);
    for n in 0..100 {
        if !fixpoint::round(&program, table, out, notes) {
            return Some(n);
        }
    }
    None
}

// A guess over a table, with at most a hundred sweeps.
fn confirm(rows: &[i64], table: &[i64], guess: &[i64], moved: &mut [i64]) -> Option<Confirmed> {
    let program = program::read(rows).ok()?;
    let counts = program.counts();
    if counts.vars != 1 || 3 * counts.steps + 3 != table.len() {
        return None;
    }
    if guess.len() != table.len() || moved.len() != table.len() {
        return None;
    }
    let mut made = [0i64; 2];
    let mut grown = [0i64; 2];
    Some(fixpoint::confirm(&program, table, guess, moved, &mut made, &mut grown, 100))
}

#[test]
fn fill_sweeps(rt: HostRuntime) {
    let rows = [
        1i64, 1, 8, 5, 9, 2, 1, 0, 0, 8, 10, 5, 0, 1, 0, 1, 0, 1, 0, 1, 0, 0, 1, 8, 0,
    ];
    let mut table = [7i64; 18];
    let mut out = [0i64; 2];
    let mut notes = [0i64; 18];
    assert!(rt; settle(&rows, &mut table, &mut out, &mut notes) == Some(9));
    assert!(rt; table == [1, 0, 8, 1, 8, 8, 1, 0, 7, 1, 0, 7, 1, 1, 8, 0, 0, 0]);
}

// A counter to 2^62 by 1, after three rounds.
const COUNTER: [i64; 18] = [
    1,
    0,
    4,
    9,
    2,
    1,
    0,
    0,
    4611686018427387904,
    10,
    1,
    0,
    1,
    0,
    0,
    1,
    8,
    0,
];

const EARLY: [i64; 15] = [1, 0, 3, 0, 0, 0, 1, 0, 2, 1, 1, 3, 0, 0, 0];

// Whether a guess is confirmed over it, and after how many sweeps that was clear.
fn told(guess: [i64; 15]) -> (bool, u64) {
    let mut moved = [0i64; 15];
    match confirm(&COUNTER, &EARLY, &guess, &mut moved) {
        Some(Confirmed { yes, sweeps }) => (yes, sweeps),
        None => (false, 100),
    }
}

const MOST: i64 = 4611686018427387904;

#[test]
fn counter(rt: HostRuntime) {
    // the loop's ends at its last turn; nothing comes to the places behind it yet
    let right = [1, 0, MOST, 0, 0, 0, 1, 0, MOST - 1, 1, 1, MOST, 0, 0, 0];
    assert_eq!(rt; told(right), (true, 1));
    // one too wide above, at each place
    let head = [1, 0, MOST + 1, 0, 0, 0, 1, 0, MOST - 1, 1, 1, MOST, 0, 0, 0];
    assert!(rt; !told(head).0, "head");
    let body = [1, 0, MOST, 0, 0, 0, 1, 0, MOST, 1, 1, MOST, 0, 0, 0];
    assert!(rt; !told(body).0, "body");
    let end = [1, 0, MOST, 0, 0, 0, 1, 0, MOST - 1, 1, 1, MOST + 1, 0, 0, 0];
    assert!(rt; !told(end).0, "end");
    // one too wide below
    let below = [1, -1, MOST, 0, 0, 0, 1, 0, MOST - 1, 1, 1, MOST, 0, 0, 0];
    assert!(rt; !told(below).0, "below");
    // something at a place that nothing comes to
    let behind = [
        1,
        0,
        MOST,
        1,
        MOST,
        MOST,
        1,
        0,
        MOST - 1,
        1,
        1,
        MOST,
        0,
        0,
        0,
    ];
    assert!(rt; !told(behind).0, "behind");
    // narrower than the table
    let narrow = [1, 0, 2, 0, 0, 0, 1, 0, MOST - 1, 1, 1, MOST, 0, 0, 0];
    assert!(rt; !told(narrow).0, "narrow");
}
