// Runs of public calls: one call of any kind, a whole list of calls on a new manager, and the law that every such run obeys.
#![tactic(auto)]

mod calls;
mod maker;
mod performing;
mod whole;

pub use calls::{Answer, Call};
pub use maker::{any_calls_obey, new_manager};
pub use performing::perform;
pub use whole::{Run, run_calls};
