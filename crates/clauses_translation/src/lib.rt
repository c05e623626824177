// The walk of the root (document 01, "Clauses"): expressions to matrices of literals, formulas to a literal.
#![tactic(auto)]

pub mod walk; // walk.rt: the walk
