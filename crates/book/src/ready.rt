// What a seat that may step is to do.
use lane::{Seated, Step};

#[derive(Clone, Copy)]
pub(crate) struct Ready {
    pub seated: Seated,
    pub step: Step,
    // The kind of its body, a number as the trait has it.
    pub kind: u32,
}
