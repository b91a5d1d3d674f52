// A book: what it knows beside the lists that are lent to it, kept sane.
ghost use Rattle.lane.specs.Sane.{Sane};
ghost use Rattle.book.specs.Chairs.{bodies_of};
ghost use Rattle.book.specs.Reaching.{AllReachWithin};
ghost use Rattle.book.specs.Views.{bare};

use super::desk::Desk;
use body::Body;

#[derive(Drop)]
pub struct Book<B: Body> {
    pub(crate) desk: Desk<B>,
    ghost sane: { ∥ Sane (bare desk) ∥₁ },
    // No body names a cell that the book has not.
    ghost within: { ∥ AllReachWithin B.Body.reach desk.sizes.cells (bodies_of desk.chairs) ∥₁ },
}
