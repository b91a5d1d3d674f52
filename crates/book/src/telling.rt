// What a step tells the body of its seat.
ghost use Rattle.std.specs.Prelude.{◌≡◌};
ghost use Rattle.lane.specs.Effects.{body_after};
ghost use Rattle.book.specs.Views.{if_there};

use body::Body;
use lane::Told;

// The history keeps what was told, and the promise of a step names it, so that it is an enum and no closure.
pub(crate) fn tell<B: Body>(body: &mut Option<B>, told: Told)
    ensures { body.new ≡ if_there (body_after B.Body told) body.old }
{
    if let Some(body) = body {
        match told {
            Told::Nothing => {}
            Told::Restarted(_) => body.restart(),
            Told::Handed(_, amount) => body.tell(amount),
            Told::Taken(_, _) => body.took(),
        }
    }
}
