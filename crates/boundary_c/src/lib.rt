// The C boundary: the functions of crate `boundary` for tests, measures and callers in other languages, each with the same promises. A
// slice passes as its address and its length. The first number of an answer is that of a refusal, 0 where nothing is refused.
#![tactic(auto)]

pub mod sheets; // sheets.rt: reading a sheet, and the check of an instance
pub mod lists; // lists.rt: counting and writing clauses, and clause text
pub mod runs; // runs.rt: search, read-back, and the whole run
