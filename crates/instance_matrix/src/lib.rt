// Values of expressions: matrices of flags by value, and the operators on them (document 01, "Kinds and meanings").
// The modules stand in the order of section 2.2 of source document 001, headed by the numbers of its parts.
#![tactic(auto)]

use nodes::matrix::Matrix;

pub mod basic; // basic.rt, 2.2.1: relations, variables, sorts, identities; union, intersection, difference
mod joins; // joins.rt, 2.2.2: join
mod products; // products.rt, 2.2.3: product
mod inverses; // inverses.rt, 2.2.4: inverse
mod closures; // closures.rt, 2.2.5: closure
pub mod operators; // operators.rt, 2.2.1 to 2.2.5: the operators by kind
pub mod truths; // truths.rt, 2.2.6: comparisons, tests, connectives, quantifiers
pub mod marks; // marks.rt, 2.1.2: the multiplicity of a row

// Flags, cell by cell: what lies past the matrix is false.
pub type Value = Matrix<bool>;
