// Amounts: what a field of an import says in the smallest unit of its currency.
ghost use Rattle.std.specs.Prelude.{◌≡◌, ◌≤◌};
ghost use Rattle.money.specs.Amounts.{ReadsSigned, ReadsUnits, places, within_limit};
ghost use Rattle.money.specs.Faults.{amount_fault_number, ReadsAmount};

use super::code::Code;
use super::number::{digits_value, read_number};

// No amount lies further than this from zero.
pub const LIMIT: u64 = 1_000_000_000_000_000;

#[derive(Clone, Copy, Debug, PartialEq, Eq)]
pub enum AmountFault {
    Form = 66,
    Limit = 67,
}

impl AmountFault {
    pub fn number(self) -> u32
        ensures { result ≡ amount_fault_number self }
    {
        self as u32
    }
}

pub fn read_amount(code: Code, field: &[u8]) -> Result<i64, AmountFault>
    ensures { ReadsAmount (places code.letters) field.now result }
{
    let amount = read_signed(code.places(), field).ok_or(AmountFault::Form)?;
    if is_within(amount) {
        Ok(amount)
    } else {
        Err(AmountFault::Limit)
    }
}

// Whether an amount is within the limit.
pub fn is_within(amount: i64) -> bool
    ensures { result ≡ within_limit amount }
{
    amount.unsigned_abs() <= LIMIT
}

// An amount, whether within the limit or not.
fn read_signed(places: u32, field: &[u8]) -> Option<i64>
    requires { places ≤ 2 }
    ensures { ReadsSigned places field.now result }
{
    let Some(unsigned) = field.strip_prefix(b"-") else {
        return Some(read_units(places, field)? as i64);
    };
    match read_units(places, unsigned)? {
        0 => None,
        units => Some(-(units as i64)),
    }
}

// An amount with no sign: the whole units, and `places` digits after a point.
fn read_units(places: u32, field: &[u8]) -> Option<u64>
    requires { places ≤ 2 }
    ensures { ReadsUnits places field.now result }
{
    if places == 0 {
        return read_number(field);
    }
    let point = field.len().checked_sub(places as usize + 1)?;
    let (whole, fraction) = field.split_at(point);
    let digits = fraction.strip_prefix(b".")?;
    let whole = read_number(whole)?;
    let part = digits_value(digits)?;
    Some(whole * 10u64.pow(places) + part)
}
