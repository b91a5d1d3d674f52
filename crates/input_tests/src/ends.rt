// Inputs that could be read on behind an end or an interruption, and are not.
use input::read_at_most;
use std::io;
use std::io::{ErrorKind, Read};
use std::process::Abort;
use std::test::Fail;

// What a reader gives at one read.
#[derive(Clone, Copy)]
enum Turn {
    Byte(u8),
    End,
    Interrupted,
}

use Turn::{Byte, End, Interrupted};

// A reader that has so many turns, and has ended behind the last.
#[derive(Drop)]
struct Turns<'a> {
    turns: &'a [Turn],
    taken: usize,
}

impl Read for Turns<'_> {
    fn read(&mut self, buf: &mut [u8]) -> io::Result<usize> {
        let turn = self.turns.get(self.taken).copied().unwrap_or(End);
        self.taken = self.taken.saturating_add(1);
        match turn {
            Byte(byte) => {
                let Some(first) = buf.first_mut() else {
                    return Ok(0);
                };
                *first = byte;
                Ok(1)
            }
            End => Ok(0),
            Interrupted => Err(io::Error::new(ErrorKind::Interrupted, "a signal came")),
        }
    }
}

// A terminal gives an end for each Ctrl-D, and can be read again behind it.
#[test]
fn first_end(rt: HostRuntime) -> Result<(), Fail> {
    let turns = [Byte(1), Byte(2), End, Byte(3), End];
    for (most, kept) in [
        (0, &[][..]),
        (1, &[1][..]),
        (2, &[1, 2][..]),
        (9, &[1, 2][..]),
    ] {
        let mut input = Turns {
            turns: &turns,
            taken: 0,
        };
        let text = read_at_most(rt.alloc(), &mut input, most)?;
        assert!(rt; text.as_slice() == kept, "what is kept of {most}");
        assert_eq!(rt; input.taken, 3, "the reads");
    }
    Ok(())
}

#[test]
fn interruptions(rt: HostRuntime) -> Result<(), Fail> {
    let turns = [Byte(1), Interrupted, Byte(2), End];
    for most in [0, 1, 9] {
        let mut input = Turns {
            turns: &turns,
            taken: 0,
        };
        match read_at_most(rt.alloc(), &mut input, most) {
            Ok(_) => return Err(Fail::new("an interruption is overlooked")),
            Err(error) => assert!(rt; error.kind() == ErrorKind::Interrupted, "the error"),
        }
        assert_eq!(rt; input.taken, 2, "the reads");
    }
    Ok(())
}
