// Whole numbers of at most fifteen digits, with no needless zero in front.
ghost use Rattle.std.specs.Prelude.{◌≡◌, ◌≤◌, length, MatchOption};
ghost use Rattle.std.specs.Str.Parse.{AllDigits, digits_value};
ghost use Rattle.money.specs.Amounts.{ReadsNumber};

const MOST_DIGITS: usize = 15;

pub fn read_number(field: &[u8]) -> Option<u64>
    ensures { ReadsNumber field.now result }
{
    match field {
        [] | [b'0', _, ..] => None,
        _ if field.len() > MOST_DIGITS => None,
        _ => digits_value(field),
    }
}

// The value of a field of digits, zeros in front included. A `try_fold` was tried: its goal
// `try_fold-requires-clause-callable` stays open, since the closure's sum fits only by how few digits came before.
pub(crate) fn digits_value(field: &[u8]) -> Option<u64>
    requires { length field.now ≤ 15 }
    ensures { MatchOption result (AllDigits 10 field.now → ⊥) (λ n. AllDigits 10 field.now × (n ≡ digits_value 10 field.now)) }
{
    let mut n: u64 = 0;
    for b in field {
        if !b.is_ascii_digit() {
            return None;
        }
        n = n * 10 + u64::from(*b - b'0');
    }
    Some(n)
}
