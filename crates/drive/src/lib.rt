// Calls built of the manager's calls: a turn of one task, the work line and the notice line, and one message of a stream.
#![tactic(auto)]

mod fed;
mod feeding;
mod laws;
mod lines;
mod turns;

pub use fed::{Fed, FeedFault};
pub use feeding::feed;
pub use laws::turn_refuses_only_empty;
pub use lines::{SentOut, Settled, dispatch, settle};
pub use turns::{Ran, turn};
