// Bodies call by call.
use body::{Body, Request};
use std::process::Abort;

#[derive(Clone, Copy)]
pub enum Call {
    Tell(i64),
    Took,
    Restart,
}

// After each call the body asks for this.
pub(crate) fn answers<B: Body>(rt: &impl Abort, body: &mut B, table: &[(Call, Request)]) {
    for (call, request) in table.iter().copied() {
        match call {
            Call::Tell(amount) => body.tell(amount),
            Call::Took => body.took(),
            Call::Restart => body.restart(),
        }
        assert_eq!(rt; body.request(), request);
    }
}
