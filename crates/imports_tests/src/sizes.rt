// Texts and lines of the greatest size, and one byte more.
use super::texts::{admitted, refused};
use imports::Totals;
use std::alloc::{AllocError, Global};
use std::test::Fail;

// A header, then so many lines of 9 bytes and of 10.
fn text_of(heap: Global, nines: u32, tens: u32) -> Result<Vec<u8>, AllocError> {
    let mut text = b"H\tDKK\n".to_vec(heap)?;
    text.extend_from_slice("P\t0\t0.00\n".repeat(heap, nines as usize)?.as_bytes())?;
    text.extend_from_slice("P\t10\t0.00\n".repeat(heap, tens as usize)?.as_bytes())?;
    Ok(text)
}

// A front, so many digits, and an end.
fn padded(heap: Global, front: &str, digits: u32, end: &str) -> Result<Vec<u8>, AllocError> {
    let mut text = front.as_bytes().to_vec(heap)?;
    text.extend_from_slice("1".repeat(heap, digits as usize)?.as_bytes())?;
    text.extend_from_slice(end.as_bytes())?;
    Ok(text)
}

#[test]
fn smallest(rt: HostRuntime) -> Result<(), Fail> {
    let heap = rt.alloc();
    refused(&rt, heap, b"", 0, 60)?;
    refused(&rt, heap, b"H", 1, 61)?;
    refused(&rt, heap, b"\n", 1, 62)
}

#[test]
fn greatest(rt: HostRuntime) -> Result<(), Fail> {
    let heap = rt.alloc();
    // 6 + 3638 * 9 + 2 * 10 bytes
    let most = text_of(heap, 3638, 2)?;
    assert_eq!(rt; most.len(), 32_768);
    admitted(
        &rt,
        heap,
        most.as_slice(),
        Totals {
            count: 3640,
            reach: 11,
            length: 7280,
        },
    )?;
    // 6 + 3637 * 9 + 3 * 10 bytes
    let more = text_of(heap, 3637, 3)?;
    assert_eq!(rt; more.len(), 32_769);
    refused(&rt, heap, more.as_slice(), 0, 60)
}

// A size that is refused counts before any fault of a line.
#[test]
fn too_long_and_faulty(rt: HostRuntime) -> Result<(), Fail> {
    let heap = rt.alloc();
    let most = padded(heap, "", 32_768, "")?;
    refused(&rt, heap, most.as_slice(), 1, 61)?;
    let more = padded(heap, "", 32_769, "")?;
    refused(&rt, heap, more.as_slice(), 0, 60)
}

#[test]
fn line_lengths(rt: HostRuntime) -> Result<(), Fail> {
    let heap = rt.alloc();
    // H, a tab and 78 or 79 digits.
    refused(&rt, heap, padded(heap, "H\t", 78, "\n")?.as_slice(), 1, 62)?;
    refused(&rt, heap, padded(heap, "H\t", 79, "\n")?.as_slice(), 1, 61)?;
    // P, a tab, 72 or 73 digits, a tab and an amount of 5 bytes.
    refused(
        &rt,
        heap,
        padded(heap, "H\tDKK\nP\t", 72, "\t12.50\n")?.as_slice(),
        2,
        64,
    )?;
    refused(
        &rt,
        heap,
        padded(heap, "H\tDKK\nP\t", 73, "\t12.50\n")?.as_slice(),
        2,
        61,
    )?;
    // A line above 80 bytes that is not ended either.
    refused(
        &rt,
        heap,
        padded(heap, "H\tDKK\n", 81, "")?.as_slice(),
        2,
        61,
    )
}
