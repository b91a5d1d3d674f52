// A tab, a blank, a carriage return, a NUL or a byte above 127 at either end of every field of every kind of line.
use super::texts::refused;
use std::alloc::{AllocError, Global};
use std::process::Abort;
use std::test::Fail;

const ODD: [u8; 6] = [9, 32, 13, 0, 128, 255];

// The fields of a line, parted by tabs, with one byte before or behind one of them.
fn push_line(
    text: &mut Vec<u8>,
    fields: &[&str],
    odd_field: usize,
    odd: u8,
    before: bool,
) -> Result<(), AllocError> {
    for (i, field) in fields.iter().copied().enumerate() {
        if i > 0 {
            text.push(b'\t')?;
        }
        if i == odd_field && before {
            text.push(odd)?;
        }
        text.extend_from_slice(field.as_bytes())?;
        if i == odd_field && !before {
            text.push(odd)?;
        }
    }
    text.push(b'\n')?;
    Ok(())
}

// A kind of line, and with what it is refused where an odd byte stands in one of its fields.
#[derive(Clone, Copy)]
struct Kind<'a> {
    front: &'a [u8],
    fields: &'a [&'a str],
    line: u32,
    // For each field the number of the refusal.
    numbers: &'a [u32],
    // The number where the byte is a tab, which makes a field more.
    tab: u32,
}

fn refuse_fields(rt: &impl Abort, heap: Global, kind: Kind<'_>) -> Result<(), Fail> {
    for odd in ODD {
        for (i, number) in kind.numbers.iter().copied().enumerate() {
            for before in [true, false] {
                let mut text = kind.front.to_vec(heap)?;
                push_line(&mut text, kind.fields, i, odd, before)?;
                let expected = if odd == b'\t' { kind.tab } else { number };
                refused(rt, heap, text.as_slice(), kind.line, expected)?;
            }
        }
    }
    Ok(())
}

#[test]
fn header(rt: HostRuntime) -> Result<(), Fail> {
    let kind = Kind {
        front: b"",
        fields: &["H", "DKK"],
        line: 1,
        numbers: &[62, 62],
        tab: 62,
    };
    refuse_fields(&rt, rt.alloc(), kind)
}

#[test]
fn post(rt: HostRuntime) -> Result<(), Fail> {
    let kind = Kind {
        front: b"H\tDKK\n",
        fields: &["P", "3", "12.50"],
        line: 2,
        numbers: &[63, 64, 66],
        tab: 63,
    };
    refuse_fields(&rt, rt.alloc(), kind)
}

#[test]
fn transfer(rt: HostRuntime) -> Result<(), Fail> {
    let kind = Kind {
        front: b"H\tDKK\n",
        fields: &["T", "3", "0", "2.50"],
        line: 2,
        numbers: &[63, 64, 64, 66],
        tab: 63,
    };
    refuse_fields(&rt, rt.alloc(), kind)
}
