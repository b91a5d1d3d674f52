// The text of a record: its line, with the line's end.
ghost use Rattle.std.specs.Prelude.{◌≡◌, ◌+◌, ◌≤◌, ◌∷◌, ◌++◌, Some, decimal};
ghost use Rattle.arrayvec.specs.ArrayString.{array_string_len};
ghost use Rattle.journal.specs.Lines.{Distinct, line_of};

use super::record::Record;
use arrayvec::ArrayString;
use itoa::{Buffer, Integer};
use std::fmt;

// The longest line is that of a commit: a letter, five tabs with a number of ten digits behind each, and the end of the line.
pub const MOST_BYTES: usize = 57;

impl Record {
    // The line of the record, with its end. By pushes, since `write!` answers a `Result`, and making a text that fits cannot fail.
    #[tactic(auto, using(crate::proofs::Distinct::distinct))]
    pub fn text(self) -> ArrayString<MOST_BYTES>
        ensures line { result.bytes ≡ line_of self }
        ensures distinct { Distinct }
    {
        let mut text = ArrayString::new();
        match self {
            Record::Change {
                number,
                cell,
                amount,
            } => {
                text.push('W');
                push_number(&mut text, number);
                push_number(&mut text, cell);
                push_field(&mut text, amount);
            }
            Record::Commit {
                number,
                seat,
                kind,
                tag,
                count,
            } => {
                text.push('C');
                push_number(&mut text, number);
                push_number(&mut text, seat);
                push_number(&mut text, kind);
                push_number(&mut text, tag);
                push_number(&mut text, count);
            }
        }
        text.push('\n');
        text
    }
}

// A tab and a number of 32 bits. Most have one digit, which needs no buffer.
fn push_number(text: &mut ArrayString<MOST_BYTES>, n: u32)
    requires { array_string_len text.old + 11 ≤ MOST_BYTES }
    ensures bytes { text.new.bytes ≡ text.old.bytes ++ 9 ∷ decimal n }
    ensures len { array_string_len text.new ≤ array_string_len text.old + 11 }
{
    if n < 10 {
        text.push('\t');
        text.push(char::from(b'0' + n as u8));
    } else {
        push_field(text, n);
    }
}

// A tab and a number.
fn push_field<I: Integer>(text: &mut ArrayString<MOST_BYTES>, n: I)
    requires { array_string_len text.old + 1 + I.MAX_STR_LEN ≤ MOST_BYTES }
    ensures bytes { text.new.bytes ≡ text.old.bytes ++ 9 ∷ I.text n }
    ensures len { array_string_len text.new ≤ array_string_len text.old + 1 + I.MAX_STR_LEN }
{
    text.push('\t');
    text.push_str(Buffer::new().format(n));
}

impl fmt::Display for Record {
    ghost output = { λ r. Some (line_of r) };

    fn fmt<W: fmt::Write>(&self, f: &mut fmt::Formatter<W>) -> fmt::Result {
        f.write_str(self.text().as_str())
    }
}
