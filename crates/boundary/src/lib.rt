// The library's functions with their answers in numbers, for tests, measures and callers in other languages, to whom crate `boundary_c`
// exports them. The first number of an answer is that of a refusal, 0 where nothing is refused.
#![tactic(auto)]

pub mod answer; // answer.rt: the answers, in numbers
pub mod sheets; // sheets.rt: reading a sheet, and the check of an instance
pub mod lists; // lists.rt: counting and writing clauses, and clause text
pub mod runs; // runs.rt: search, read-back, and the whole run
