// One of two kinds of body, which does as the one that it holds.
ghost use Rattle.either.specs.Either.{either, map_either};
ghost use Rattle.body.specs.Eithered.{either_lawful};

use super::body::Body;
use super::request::Request;
use either::{Either, for_both};

impl<A: Body, B: Body> Body for Either<A, B> {
    const KIND: u32 = 4;

    ghost KIND = { 4 };

    ghost asks = { either A.Body.asks B.Body.asks };

    ghost told = { λ e v. map_either (λ a. A.Body.told a v) (λ b. B.Body.told b v) e };

    ghost taken = { map_either A.Body.taken B.Body.taken };

    ghost begin = { map_either A.Body.begin B.Body.begin };

    ghost left = { either A.Body.left B.Body.left };

    ghost reach = { either A.Body.reach B.Body.reach };

    ghost len = { either A.Body.len B.Body.len };

    ghost lawful = { either_lawful A.Body.lawful B.Body.lawful };

    fn request(&self) -> Request {
        for_both!(self, body => body.request())
    }

    fn tell(&mut self, amount: i64) {
        for_both!(self, body => body.tell(amount))
    }

    fn took(&mut self) {
        for_both!(self, body => body.took())
    }

    fn restart(&mut self) {
        for_both!(self, body => body.restart())
    }

    fn reach_of(&self) -> usize {
        for_both!(self, body => body.reach_of())
    }

    fn length_of(&self) -> usize {
        for_both!(self, body => body.length_of())
    }
}
