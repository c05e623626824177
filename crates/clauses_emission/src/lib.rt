// Clauses and gates written into a lent list, and counted on a lent tape (document 01, "Clauses"): clauses one after the
// other, OR, AND, IFF, and what is made of two literals. Counting runs the same code over an empty list. The operators
// over matrices of literals are the crate `clauses_matrix`.
#![tactic(auto)]

pub mod gates; // gates.rt: OR, AND, IFF, and two literals
mod inputs; // inputs.rt: what remains of the inputs of an OR
pub mod list; // list.rt: one clause after the other

// The last next variable with which a gate is made: 16,000 variables are used then.
pub const LIMIT: usize = 16001;

// Where the translation stands: the next variable, and the clauses and words so far.
#[derive(Clone, Copy)]
pub struct Tape {
    pub next: usize,
    pub clauses: usize,
    pub words: usize,
}

// What is made of two literals: OR(p, q), AND(p, q), AND(p, -q), OR(-p, q), IFF(p, q), OR(-p, -q).
#[derive(Clone, Copy)]
pub enum Pairing {
    Either,
    Both,
    Without,
    Implies,
    Same,
    Apart,
}

// What is seen among literals where one is looked for: the literal itself, its opposite, or nothing of the two.
#[derive(Clone, Copy)]
pub enum Seen {
    Nothing,
    Itself,
    Opposite,
}
