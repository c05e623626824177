// What the check of an instance and the clauses share where they walk a sheet's nodes.
#![tactic(auto)]

pub mod environments; // environments.rt: the atoms that the variables stand for
pub mod forms; // forms.rt: a node, and its form
pub mod matrix; // matrix.rt: a matrix of flags or literals
pub mod sizes; // sizes.rt: sizes of matrices
