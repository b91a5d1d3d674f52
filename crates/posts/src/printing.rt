// What is printed: the lines of a journal, or the line of a refusal.
ghost use Rattle.std.specs.Prelude.{◌≡◌, [], ◌∷◌, ◌++◌, take, flat_map, IfOk, IfSome, string_bytes};
ghost use Rattle.journal.specs.Lines.{line_of};

use journal::Record;
use std::alloc::{AllocError, Global};
use std::fmt::Display;

// The lines of the first so many records. A slice of them would want a proof that the book uses no more than there are. Each line
// is taken from `Record::text`, which cannot fail: of `write!` no contract says when it fails, so that only memory is wanting here.
pub(crate) fn print_lines(
    heap: Global,
    journal: &[Record],
    used: usize,
) -> Result<String, AllocError>
    ensures { IfOk result (λ out. string_bytes out ≡ flat_map line_of (take used journal.now)) }
{
    let mut out = String::new(heap);
    for record in journal.iter().take(used) {
        out.push_str(record.text().as_str())?;
    }
    Ok(out)
}

// The line of a refusal, whose text is between the letter and the line's end.
pub(crate) fn print_refusal<R: Display>(heap: Global, refusal: &R) -> Result<String, AllocError>
    ensures { IfOk result (λ out. IfSome (R.output refusal.now) (λ text. string_bytes out ≡ 88 ∷ 9 ∷ (text ++ 10 ∷ []))) }
{
    format!(in heap; "X\t{refusal}\n")
}
