// Handle and heap go side by side: a helper may not take the runtime, and a bound for both would make its vectors generic.
use input::{read_at_most, read_text};
use std::alloc::Global;
use std::io;
use std::io::Read;
use std::process::Abort;
use std::test::Fail;

// An input of so many more bytes, of which no more than some are given at once. They count 0 to 250, and from 0 again.
#[derive(Drop)]
struct Pieces {
    left: usize,
    at_once: usize,
    next: u8,
}

fn after(byte: u8) -> u8 {
    if byte >= 250 { 0 } else { byte + 1 }
}

impl Read for Pieces {
    fn read(&mut self, buf: &mut [u8]) -> io::Result<usize> {
        let given = self.left.min(self.at_once).min(buf.len());
        self.left -= given;
        for byte in buf[0..given].iter_mut() {
            *byte = self.next;
            self.next = after(self.next);
        }
        Ok(given)
    }
}

// Of an input of `size` bytes the first `most` are kept, and all are read.
fn keeps(
    rt: &impl Abort,
    heap: Global,
    size: usize,
    at_once: usize,
    most: usize,
) -> Result<(), Fail> {
    let mut input = Pieces {
        left: size,
        at_once,
        next: 0,
    };
    let expected: Vec<u8> = (0..size.min(most)).map(|i| (i % 251) as u8).collect(heap)?;
    let text = read_at_most(heap, &mut input, most)?;
    assert!(rt; text.as_slice() == expected.as_slice(), "what is kept");
    assert_eq!(rt; input.left, 0, "what is not read");
    Ok(())
}

#[test]
fn sizes(rt: HostRuntime) -> Result<(), Fail> {
    let heap = rt.alloc();
    for at_once in [1, 7, 4095, 4096, 5000] {
        for size in [0, 1, 4095, 4096, 4097, 9000] {
            for most in [0, 1, 4096, 4097, 8999, 9000, 9001] {
                keeps(&rt, heap, size, at_once, most)?;
            }
        }
    }
    Ok(())
}

// A text is kept whole, and of one that is too long a byte more than a text may have.
#[test]
fn texts(rt: HostRuntime) -> Result<(), Fail> {
    let heap = rt.alloc();
    for (size, kept) in [
        (0, 0),
        (1, 1),
        (32_768, 32_768),
        (32_769, 32_769),
        (40_000, 32_769),
    ] {
        let mut input = Pieces {
            left: size,
            at_once: 5000,
            next: 0,
        };
        let expected: Vec<u8> = (0..kept).map(|i| (i % 251) as u8).collect(heap)?;
        let text = read_text(heap, &mut input)?;
        assert!(rt;
            text.as_slice() == expected.as_slice(),
            "what is kept of a text of {size}"
        );
        assert_eq!(rt; input.left, 0, "what is not read");
    }
    Ok(())
}
