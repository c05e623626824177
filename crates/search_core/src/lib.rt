// The steps of the search and their run, from any state.
#![tactic(auto)]

pub mod run;
pub mod steps;
