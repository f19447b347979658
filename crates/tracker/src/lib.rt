// The dependence tables: which addresses the unfinished tasks hold, who waits for which, and how much of the tables is in use.
#![tactic(auto)]

mod enters;
mod faults;
mod leaves;
pub mod lock;
mod lookups;
mod makes;
pub mod span;
pub mod tracker;
pub mod ways;

pub use span::Span;
pub use tracker::Tracker;
