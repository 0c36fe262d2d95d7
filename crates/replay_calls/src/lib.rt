// Whether the proved functions and calls give the stored answers: a module for the kinds of each layer, a function for each kind.
// docs/DIFFERENCES.md has the body of each kind.
#![tactic(auto)]

pub mod annotations;
pub mod look_ups;
pub mod numbers;
pub mod parts;
pub mod pools;
pub mod sessions;
#[cfg(test)]
mod tests;
pub mod texts;
