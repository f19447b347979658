// The two hosts, run on examples and at their limits.
#![tactic(auto)]

#[cfg(test)]
mod stamps;
#[cfg(test)]
mod tiles;
