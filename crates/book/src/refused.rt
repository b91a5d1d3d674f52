// Why a body is not seated.
use lane::SeatRefusal;

// A body that could not be seated comes back.
#[derive(Drop)]
pub struct SeatRefused<B> {
    pub refusal: SeatRefusal,
    pub body: B,
}
