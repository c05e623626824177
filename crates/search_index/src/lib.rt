// The index of a clause list: for each variable the chain of the words that name it, for each clause a weight that tells its status.
// A look at all clauses then costs what has changed since the last one, and at most a flag for each 16 clauses.
#![tactic(auto)]

pub mod blocks;
pub mod chains;
pub mod watch;
pub mod weights;
