use crate::*;
use std::test::Fail;

// The number of a text, with room for one.
fn read_one(text: &str) -> Result<Option<i64>, Reason> {
    let mut numbers = [0];
    match read(text.as_bytes(), &mut numbers) {
        Ok(0) => Ok(None),
        Ok(_) => Ok(Some(numbers[0])),
        Err(refusal) => Err(refusal.reason),
    }
}

fn refusal(line: usize, column: usize, reason: Reason) -> Refusal {
    Refusal {
        at: Position { line, column },
        reason,
    }
}

#[test]
fn reads_one_number(rt: HostRuntime) {
    for (text, answer) in [
        ("7", Ok(Some(7))),
        ("007", Ok(Some(7))),
        ("-0", Ok(Some(0))),
        ("9223372036854775807", Ok(Some(i64::MAX))),
        ("-9223372036854775808", Ok(Some(i64::MIN))),
        ("12#c", Ok(Some(12))),
        ("# 1 # 2\n-5", Ok(Some(-5))),
        ("\r\n5\r\n", Ok(Some(5))),
        ("\t\x0b\x0c5 # end", Ok(Some(5))),
        ("", Ok(None)),
        ("\n \n", Ok(None)),
        ("#\n# 1", Ok(None)),
        ("-", Err(Reason::NotANumber)),
        ("--1", Err(Reason::NotANumber)),
        ("+1", Err(Reason::NotANumber)),
        ("1.5", Err(Reason::NotANumber)),
        ("1-", Err(Reason::NotANumber)),
        ("x", Err(Reason::NotANumber)),
        ("\0", Err(Reason::NotANumber)),
        ("99999999999999999999x", Err(Reason::NotANumber)),
        ("99999999999999999999", Err(Reason::TooLarge)),
        ("9223372036854775808", Err(Reason::TooLarge)),
        ("-9223372036854775809", Err(Reason::TooLarge)),
        ("1 2", Err(Reason::TooMany(1))),
        ("1 x", Err(Reason::NotANumber)),
    ] {
        assert_eq!(rt; read_one(text), answer, "{}", text);
    }
}

#[test]
fn fills_the_room(rt: HostRuntime) {
    let mut numbers = [0, 0, 9];
    assert_eq!(rt; read(b"1 2", &mut numbers[0..2]), Ok(2));
    assert_eq!(rt; numbers, [1, 2, 9]);
    assert_eq!(rt;
        read(b"1 2 # 0\n 3", &mut [0, 0]),
        Err(refusal(2, 2, Reason::TooMany(2)))
    );
    assert_eq!(rt;
        read(b"1\n\n \xff", &mut [0, 0]),
        Err(refusal(3, 2, Reason::NotANumber))
    );
}

#[test]
fn finds_words(rt: HostRuntime) {
    let text = b"1 # c\n\n  22#x\nz";
    assert_eq!(rt; position(text, 0), Some(Position { line: 1, column: 1 }));
    assert_eq!(rt; position(text, 1), Some(Position { line: 3, column: 3 }));
    assert_eq!(rt; position(text, 2), Some(Position { line: 4, column: 1 }));
    assert_eq!(rt; position(text, 3), None);
}

#[test]
fn writes_and_reads(rt: HostRuntime) -> Result<(), Fail> {
    let mut out = String::new(rt.alloc());
    write_line(&mut out, &[i64::MIN, 0, i64::MAX])?;
    write_line(&mut out, &[])?;
    write_line(&mut out, &[7])?;
    assert_eq!(rt;
        out.as_str(),
        "-9223372036854775808 0 9223372036854775807\n\n7\n"
    );
    let mut numbers = [0; 4];
    assert_eq!(rt; read(out.as_bytes(), &mut numbers), Ok(4));
    assert_eq!(rt; numbers, [i64::MIN, 0, i64::MAX, 7]);
    Ok(())
}

#[test]
fn shows_refusals(rt: HostRuntime) -> Result<(), Fail> {
    for (reason, text) in [
        (
            Reason::NotANumber,
            "line 3, column 5: not a number; a number is digits, with a minus in front if it is negative",
        ),
        (
            Reason::TooLarge,
            "line 3, column 5: a number that 64 bits don't hold, from -9223372036854775808 to 9223372036854775807",
        ),
        (
            Reason::TooMany(24595),
            "line 3, column 5: more than 24595 numbers",
        ),
    ] {
        let shown = refusal(3, 5, reason).to_string(rt.alloc())?;
        assert_eq!(rt; shown.as_str(), text);
    }
    Ok(())
}
