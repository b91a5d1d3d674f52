// A seat's transaction and its body.
ghost use Rattle.std.specs.Prelude.{◌≡◌, None};

use lane::Seated;

#[derive(Drop)]
pub(crate) struct Chair<B> {
    // An idle seat has no transaction.
    pub seated: Option<Seated>,
    // The body of the transaction, or of the last one.
    pub body: Option<B>,
}

// No derived `Default`: it would ask for one of the body.
impl<B> Chair<B> {
    pub(crate) fn empty() -> Chair<B>
        ensures { result ≡ record { seated = None; body = None } }
    {
        Chair {
            seated: None,
            body: None,
        }
    }
}
