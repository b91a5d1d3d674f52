// All that a book knows beside its lists.
use super::chair::Chair;
use super::common::Common;
use super::limits::SEATS;
use lane::Sizes;

#[derive(Drop)]
pub(crate) struct Desk<B> {
    pub name: u32,
    pub helpers: u32,
    pub sizes: Sizes,
    pub common: Common,
    pub chairs: [Chair<B>; SEATS],
    // How many records of the journal are used.
    pub used: usize,
}
