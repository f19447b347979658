// What the programs that run cases share: a case of a stream as a line of text, its bytes, and whether two hosts hold the same stamps.
#![tactic(auto)]

mod hexadecimal;
mod running;
mod stamps;
mod stream_case;
#[cfg(test)]
mod tests;

pub use hexadecimal::from_hex;
pub use running::{CaseJob, run_cases, run_job_on_cases};
pub use stamps::same_stamps;
pub use stream_case::StreamCase;
