// What the check finds in a text that it admits: the parts of a checked import without its text, which stays with the caller.
use super::totals::Totals;
use money::Code;

#[derive(Clone, Copy)]
pub(crate) struct Survey {
    pub(crate) code: Code,
    pub(crate) totals: Totals,
}
