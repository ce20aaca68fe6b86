// Tests and numbers of all lanes together.
#![tactic(auto)]

pub mod regions;
pub mod rules;
pub mod tallies;
