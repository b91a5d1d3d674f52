// Amounts at codes with two digits after the point and with none.
use money::{AmountFault, Code, read_amount, read_number};
use std::process::Abort;
use std::test::Fail;

const FORM: Result<i64, AmountFault> = Err(AmountFault::Form);

const LIMIT: Result<i64, AmountFault> = Err(AmountFault::Limit);

// A failure tells the field by these words.
fn reads(
    rt: &impl Abort,
    code: &str,
    field: &[u8],
    answer: Result<i64, AmountFault>,
    words: &str,
) -> Result<(), Fail> {
    let code = Code::new(code.as_bytes()).ok_or_else(|| Fail::new(format_args!(
        "no code: {words}"
    )))?;
    assert_eq!(rt; read_amount(code, field), answer, "{words}");
    Ok(())
}

#[test]
fn two_digits(rt: HostRuntime) -> Result<(), Fail> {
    let table = [
        ("0.00", Ok(0)),
        ("-0.00", FORM),
        ("0.01", Ok(1)),
        ("-0.01", Ok(-1)),
        ("12.50", Ok(1250)),
        ("-12.50", Ok(-1250)),
        ("10.00", Ok(1000)),
        ("9999999999999.99", Ok(999_999_999_999_999)),
        ("10000000000000.00", Ok(1_000_000_000_000_000)),
        ("10000000000000.01", LIMIT),
        ("-10000000000000.00", Ok(-1_000_000_000_000_000)),
        ("-10000000000000.01", LIMIT),
        ("999999999999999.99", LIMIT),
        ("1000000000000000.00", FORM),
        ("0000000000000000.00", FORM),
        ("", FORM),
        ("-", FORM),
        (".", FORM),
        (".00", FORM),
        ("-.00", FORM),
        ("0", FORM),
        ("0.", FORM),
        ("0.0", FORM),
        ("0.000", FORM),
        ("00.00", FORM),
        ("01.00", FORM),
        ("-01.00", FORM),
        ("--1.00", FORM),
        ("+1.00", FORM),
        ("1,00", FORM),
        ("1.0.0", FORM),
        ("1.0-", FORM),
        ("100", FORM),
        (" 1.00", FORM),
        ("1.00 ", FORM),
        ("1.00\r", FORM),
        ("1.00\0", FORM),
        ("1.0/", FORM),
        ("1.0:", FORM),
        ("/.00", FORM),
        (":.00", FORM),
    ];
    for (field, answer) in table {
        reads(&rt, "DKK", field.as_bytes(), answer, field)?;
    }
    Ok(())
}

#[test]
fn no_digits(rt: HostRuntime) -> Result<(), Fail> {
    let table = [
        ("0", Ok(0)),
        ("-0", FORM),
        ("1", Ok(1)),
        ("-1250", Ok(-1250)),
        ("999999999999999", Ok(999_999_999_999_999)),
        ("-999999999999999", Ok(-999_999_999_999_999)),
        ("1000000000000000", FORM),
        ("", FORM),
        ("-", FORM),
        ("01", FORM),
        ("1.", FORM),
        ("1.00", FORM),
        ("1.0", FORM),
        (".5", FORM),
        ("1-", FORM),
    ];
    for (field, answer) in table {
        reads(&rt, "JPY", field.as_bytes(), answer, field)?;
    }
    Ok(())
}

#[test]
fn bytes_above_127(rt: HostRuntime) -> Result<(), Fail> {
    reads(&rt, "DKK", b"\xff1.00", FORM, "255 in front")?;
    reads(&rt, "DKK", b"1\x80.00", FORM, "128 before the point")?;
    reads(&rt, "DKK", b"1.0\xb0", FORM, "176 at the end")?;
    reads(&rt, "JPY", b"\xb1", FORM, "177 alone")
}

#[test]
fn codes(rt: HostRuntime) {
    let table = [
        ("DKK", Some(2)),
        ("JPY", Some(0)),
        ("JPZ", Some(2)),
        ("AAA", Some(2)),
        ("ZZZ", Some(2)),
        ("", None),
        ("DK", None),
        ("DKKK", None),
        ("dkk", None),
        ("DKk", None),
        ("D K", None),
        ("@AA", None),
        ("A[A", None),
        ("AA1", None),
    ];
    for (letters, places) in table {
        let found = Code::new(letters.as_bytes()).map(Code::places);
        assert_eq!(rt; found, places, "{letters}");
    }
}

#[test]
fn numbers(rt: HostRuntime) {
    let table = [
        ("0", Some(0)),
        ("7", Some(7)),
        ("10", Some(10)),
        ("4095", Some(4095)),
        ("999999999999999", Some(999_999_999_999_999)),
        ("1000000000000000", None),
        ("", None),
        ("00", None),
        ("07", None),
        ("-1", None),
        ("1a", None),
        ("1 ", None),
    ];
    for (field, number) in table {
        assert_eq!(rt; read_number(field.as_bytes()), number, "{field}");
    }
}
