// Reads an input to its end and keeps no more of it than is wanted, however long it is.
#![tactic(auto)]

ghost use Rattle.std.specs.Prelude.{◌≡◌, ◌+◌, ◌<◌, ◌≤◌, IfOk, IfSome, OnOk, length, take, vec_len};
ghost use Rattle.std.specs.Io.KnownBytes.{IsAtEnd};
ghost use Rattle.imports.specs.Texts.{most_bytes};

use imports::MOST_BYTES;
use std::alloc::Global;
use std::io;
use std::io::Read;

const PIECE: usize = 4096;

// The first bytes of the input, at most `most` of them. What follows is read and let go. The input is read to its first end and not
// beyond, since a terminal may be read again behind one, and a read that errs is not tried again: std's `read_to_end` and `copy`
// would do both.
pub fn read_at_most<R: Read>(heap: Global, input: &mut R, most: usize) -> io::Result<Vec<u8>>
    ensures most { IfOk result (λ text. vec_len text ≤ most) }
    ensures first { IfOk result (λ text. IfSome (R.remaining input.old) (λ bytes. text.items ≡ take most bytes)) }
    ensures end { OnOk result (IsAtEnd (R.remaining input.new)) }
{
    let mut text = Vec::new(heap);
    let mut piece = [0u8; PIECE];
    for _ in 0..u64::MAX {
        let n = input.read(&mut piece)?;
        if n == 0 {
            return Ok(text);
        }
        let wanted = n.min(most - text.len());
        text.extend_from_slice(&piece[..wanted])?;
    }
    // Behind 2^64 - 1 pieces, which nobody waits for, `text` is full.
    io::copy(input, &mut io::sink())?;
    Ok(text)
}

// The text of an import, whole where it is no longer than a text may be. Of a longer one a byte more is kept, so that it is seen to be
// too long.
pub fn read_text<R: Read>(heap: Global, input: &mut R) -> io::Result<Vec<u8>>
    ensures most { IfOk result (λ text. vec_len text ≤ most_bytes + 1) }
    ensures whole { IfOk result (λ text. IfSome (R.remaining input.old) (λ bytes. length bytes ≤ most_bytes → text.items ≡ bytes)) }
    ensures longer { IfOk result (λ text. IfSome (R.remaining input.old) (λ bytes. most_bytes < length bytes → most_bytes < vec_len text)) }
    ensures end { OnOk result (IsAtEnd (R.remaining input.new)) }
{
    read_at_most(heap, input, MOST_BYTES + 1)
}
