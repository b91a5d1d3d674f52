// Amounts of money: the limit, currency codes with their digits after the point, and reading an amount's text.
#![tactic(auto)]

mod amount;
mod code;
mod number;

pub use amount::{AmountFault, LIMIT, is_within, read_amount};
pub use code::Code;
pub use number::read_number;
