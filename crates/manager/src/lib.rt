// The manager: seats, standings, the ready line and the free line over the dependence tables; submit, take, step and finish.
#![tactic(auto)]

pub mod inner;
pub mod manager;

pub use manager::Manager;
