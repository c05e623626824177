// Matrices of literals, and the operators over them (document 01, "Clauses", the last list), made of the gates of
// `clauses_emission`.
#![tactic(auto)]

use nodes::matrix::Matrix;

pub mod operators; // operators.rt: union to closure
pub mod truths; // truths.rt: comparisons, and tests of an expression

// Literals, cell by cell: the words past the matrix are -1.
pub type Literals = Matrix<i32>;
