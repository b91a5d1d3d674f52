// Transaction bodies: what the engine may know of one, and the kinds that there are.
#![tactic(auto)]

mod body;
mod either_body;
mod import_body;
mod import_new;
mod importing;
mod making;
mod request;
mod script;
mod steps;
mod sum;
mod total;

pub use body::Body;
pub use either::Either;
pub use importing::{Import, ImportStep};
pub use request::Request;
pub use steps::{Script, ScriptRefusal, ScriptStep};
pub use sum::{Total, TotalRefusal, TotalStep};
