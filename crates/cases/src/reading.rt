// Programs and what is none, each with the listing or the refusal in full.

ghost use Rattle.std.specs.Prelude.{◌≡◌, length};

use crate::printing::print;
use program::Reason;
use std::alloc::{AllocError, Global};
use std::process::Abort;
use std::test::Fail;

fn answer(heap: Global, text: &str) -> Result<String, AllocError> {
    let mut rows = vec![in heap; 0i64; report::NUMBERS]?;
    print(heap, report::list_text(heap, text.as_bytes(), &mut rows))
}

fn check_answers(rt: &impl Abort, heap: Global, cases: &[(&str, &str)]) -> Result<(), Fail> {
    for (text, expected) in cases {
        assert_eq!(rt; answer(heap, text)?.as_str(), *expected, "{}", *text);
    }
    Ok(())
}

// Each count at its edge, and one past it.
#[test]
fn counts(rt: HostRuntime) -> Result<(), Fail> {
    check_answers(
        &rt,
        rt.alloc(),
        &[
            (
                "0 0 0",
                "no program: number 1 is 0, and a program has 1 to 64 variables (line 1, column 1)",
            ),
            ("1 0 0", "# variables 1\n# 0 end\n"),
            ("64 0 0", "# variables 64\n# 0 end\n"),
            (
                "65 0 0",
                "no program: number 1 is 65, and a program has 1 to 64 variables (line 1, column 1)",
            ),
            (
                "-1 0 0",
                "no program: number 1 is -1, and a program has 1 to 64 variables (line 1, column 1)",
            ),
            (
                "1 -1 0",
                "no program: number 2 is -1, and a program has 0 to 16 arrays (line 1, column 3)",
            ),
            (
                "1 17",
                "no program: number 2 is 17, and a program has 0 to 16 arrays (line 1, column 3)",
            ),
            (
                "1 1 -1 0",
                "no program: number 3 is -1, and an array has 0 to 65536 numbers (line 1, column 5)",
            ),
            ("1 1 0 0", "# variables 1\n# array a0 of 0\n# 0 end\n"),
            (
                "1 2 0 65536 0",
                "# variables 1\n# array a0 of 0\n# array a1 of 65536\n# 0 end\n",
            ),
            (
                "1 1 65537 0",
                "no program: number 3 is 65537, and an array has 0 to 65536 numbers (line 1, column 5)",
            ),
            (
                "1 0 -1",
                "no program: number 3 is -1, and a program has 0 to 4096 steps (line 1, column 5)",
            ),
            (
                "1 0 4097",
                "no program: number 3 is 4097, and a program has 0 to 4096 steps (line 1, column 5)",
            ),
            (
                "1 0 0 7",
                "no program: number 4 is one too many, as the last step ends before it (line 1, column 7)",
            ),
            (
                "",
                "no program: number 1 is missing, the number of variables",
            ),
            ("1", "no program: number 2 is missing, the number of arrays"),
            ("1 1", "no program: number 3 is missing, an array's length"),
            (
                "1 0",
                "no program: number 3 is missing, the number of steps",
            ),
            ("1 0 1", "no program: number 4 is missing, a step's kind"),
        ],
    )
}

// Each kind of step, and each thing that a step names at its edge and past it.
#[test]
fn steps(rt: HostRuntime) -> Result<(), Fail> {
    check_answers(
        &rt,
        rt.alloc(),
        &[
            ("1 0 1  0 0 0 5", "# variables 1\n# 0 set v0 = 5\n# 1 end\n"),
            (
                "2 0 1  1 1 1 0 0 -3",
                "# variables 2\n# 0 add v1 = v0 + -3\n# 1 end\n",
            ),
            (
                "2 0 1  2 0 0 7 1 1",
                "# variables 2\n# 0 sub v0 = 7 - v1\n# 1 end\n",
            ),
            (
                "1 0 1  3 0 -9223372036854775808 1 0",
                "# variables 1\n# 0 mul v0 = -9223372036854775808 * v0\n# 1 end\n",
            ),
            (
                "2 2 3 4 1  4 1 1 1 0",
                "# variables 2\n# array a0 of 3\n# array a1 of 4\n# 0 load v1 = a1[v0]\n# 1 end\n",
            ),
            (
                "1 1 3 1  5 0 0 2 1 0",
                "# variables 1\n# array a0 of 3\n# 0 store a0[2] = v0\n# 1 end\n",
            ),
            ("1 0 1  6 0", "# variables 1\n# 0 ask v0\n# 1 end\n"),
            (
                "1 0 1  7 0 9223372036854775807",
                "# variables 1\n# 0 show 9223372036854775807\n# 1 end\n",
            ),
            ("1 0 1  8 1", "# variables 1\n# 0 go 1\n# 1 end\n"),
            (
                "1 0 1  9 0 1 0 0 8",
                "# variables 1\n# 0 less v0 < 8 to 0\n# 1 end\n",
            ),
            ("1 0 1  10", "# variables 1\n# 0 stop\n# 1 end\n"),
            (
                "1 0 1 -1",
                "no program: number 4 is -1, and a step's kind is 0 to 10 (line 1, column 7)",
            ),
            (
                "1 0 1 11",
                "no program: number 4 is 11, and a step's kind is 0 to 10 (line 1, column 7)",
            ),
            (
                "1 0 1  7 -1 0",
                "no program: number 5 is -1, and an operand is 0 and a number, or 1 and a variable (line 1, column 10)",
            ),
            (
                "1 0 1  7 2 0",
                "no program: number 5 is 2, and an operand is 0 and a number, or 1 and a variable (line 1, column 10)",
            ),
            (
                "2 0 1  6 2",
                "no program: number 5 is 2, and this program has variables 0 to 1 (line 1, column 10)",
            ),
            (
                "2 0 1  6 -1",
                "no program: number 5 is -1, and this program has variables 0 to 1 (line 1, column 10)",
            ),
            (
                "2 0 1  7 1 2",
                "no program: number 6 is 2, and this program has variables 0 to 1 (line 1, column 12)",
            ),
            (
                "1 0 1  4 0 0 0 0",
                "no program: number 6 is 0, and this program has no arrays (line 1, column 12)",
            ),
            (
                "1 1 8 1  4 0 1 0 0",
                "no program: number 7 is 1, and this program has arrays 0 to 0 (line 1, column 14)",
            ),
            (
                "1 1 8 1  5 -1 0 0 0 0",
                "no program: number 6 is -1, and this program has arrays 0 to 0 (line 1, column 12)",
            ),
            (
                "1 0 1  8 2",
                "no program: number 5 is 2, and this program has places 0 to 1 (line 1, column 10)",
            ),
            (
                "1 0 1  8 -1",
                "no program: number 5 is -1, and this program has places 0 to 1 (line 1, column 10)",
            ),
            (
                "1 0 1  9 2 0 0 0 0",
                "no program: number 5 is 2, and this program has places 0 to 1 (line 1, column 10)",
            ),
            ("1 0 1  7 0", "no program: number 6 is missing, a number"),
            ("1 0 1  7 1", "no program: number 6 is missing, a variable"),
            (
                "1 0 1  7",
                "no program: number 5 is missing, an operand's kind",
            ),
            ("1 0 1  8", "no program: number 5 is missing, a place"),
            ("1 1 1 1  5", "no program: number 6 is missing, an array"),
        ],
    )
}

#[test]
fn words(rt: HostRuntime) -> Result<(), Fail> {
    check_answers(
        &rt,
        rt.alloc(),
        &[
            (
                "1 0\n  x",
                "line 2, column 3: not a number; a number is digits, with a minus in front if it is negative",
            ),
            (
                "1 -",
                "line 1, column 3: not a number; a number is digits, with a minus in front if it is negative",
            ),
            (
                "1 1.5",
                "line 1, column 3: not a number; a number is digits, with a minus in front if it is negative",
            ),
            (
                "1 0 0 # c\n\0",
                "line 2, column 1: not a number; a number is digits, with a minus in front if it is negative",
            ),
            (
                "99999999999999999999",
                "line 1, column 1: a number that 64 bits don't hold, from -9223372036854775808 to 9223372036854775807",
            ),
        ],
    )
}

// A program with a step of each kind, cut off at every length.
#[test]
fn cut_off(rt: HostRuntime) -> Result<(), Fail> {
    let rows = [
        2, 1, 8, 11, 0, 0, 0, 5, 1, 1, 1, 0, 0, 3, 2, 0, 0, 7, 1, 1, 3, 0, 2, 1, 0, 4, 1, 0, 1, 0,
        5, 0, 0, 2, 1, 0, 6, 0, 7, 1, 1, 8, 11, 9, 0, 1, 0, 0, 8, 10,
    ];
    assert!(rt; program::read(&rows).is_ok());
    for n in 0..rows.len() {
        let Err(refusal) = program::read(&rows[0..n]) else {
            return Err(Fail::new("a program that is cut off"));
        };
        assert_eq!(rt; refusal.at, n);
        assert!(rt; matches!(refusal.reason, Reason::Missing(_)));
    }
    Ok(())
}

// The numbers of the largest program, and one more.
fn write_largest(rows: &mut [i64])
    requires { length rows.old ≡ 24596 }
{
    rows[0] = 64;
    rows[1] = 16;
    rows[2..18].fill(65536);
    rows[18] = 4096;
    for step in rows[19..].chunks_exact_mut(6) {
        step[0] = 9;
        step[1] = 4096;
    }
}

// As many arrays and steps as there may be, and one more number.
#[test]
fn largest(rt: HostRuntime) -> Result<(), Fail> {
    let mut rows = vec![in rt.alloc(); 0i64; 24596]?;
    write_largest(&mut rows);
    let Ok(program) = program::read(&rows[0..24595]) else {
        return Err(Fail::new("the largest program"));
    };
    let counts = program.counts();
    assert_eq!(rt;
        (counts.vars, counts.arrays, counts.words, counts.steps),
        (64, 16, 1048576, 4096)
    );
    let Err(refusal) = program::read(&rows) else {
        return Err(Fail::new("a number too many"));
    };
    assert_eq!(rt; refusal.at, 24595);
    Ok(())
}

#[test]
fn offsets(rt: HostRuntime) {
    let rows = [
        1, 1, 8, 5, 9, 2, 1, 0, 0, 8, 10, 5, 0, 1, 0, 1, 0, 1, 0, 1, 0, 0, 1, 8, 0,
    ];
    let mut work = [-1; 6];
    assert!(rt; program::offsets(&rows, &mut work).is_ok());
    assert_eq!(rt; work, [4, 10, 11, 17, 23, -1]);
    let mut few = [-1; 4];
    assert!(rt;
        matches!(
            program::offsets(&rows, &mut few),
            Err(program::NoOffsets::Few)
        )
    );
    assert_eq!(rt; few, [-1; 4]);
    assert!(rt;
        matches!(
            program::offsets(&rows[0..24], &mut work),
            Err(program::NoOffsets::NoProgram(_))
        )
    );
    assert_eq!(rt; work, [4, 10, 11, 17, 23, -1]);
}
