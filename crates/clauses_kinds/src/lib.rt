// What the walk does at one node: the matrices of its leaves, and the operators by kind.
#![tactic(auto)]

pub mod apply; // apply.rt: the operators, by kind
pub mod leaves; // leaves.rt: the matrices of relations, variables, sorts and identities
pub mod source; // source.rt: what the clauses are made from
