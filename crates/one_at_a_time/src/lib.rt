// Tasks done one at a time: each from its first step to its last before the next begins.
#![tactic(auto)]

mod alone;
mod journal;
mod stream;

pub use alone::perform;
pub use journal::{End, Entry, Journal, TaskRun};
pub use stream::run_stream;
