// Alloy's logic over a sheet: its operators and what each kind stands for. Definitions are in specs/, theorems in
// proofs/.
#![tactic(auto)]

#[derive(Clone, Copy)]
pub enum Leaf {
    Relation,
    Variable,
    Atoms,
    Identity,
}

#[derive(Clone, Copy)]
pub enum Binary {
    Union,
    Intersection,
    Difference,
    Join,
    Product,
}

#[derive(Clone, Copy)]
pub enum Unary {
    Inverse,
    Closure,
}

#[derive(Clone, Copy)]
pub enum Comparison {
    Equal,
    Within,
}

#[derive(Clone, Copy)]
pub enum Test {
    Some,
    None,
    Lone,
}

#[derive(Clone, Copy)]
pub enum Connective {
    Conjunction,
    Disjunction,
    Implication,
    Equivalence,
}

#[derive(Clone, Copy)]
pub enum Quantifier {
    All,
    Some,
}

// What a kind stands for: an operator, or nothing where the kind is unknown.
#[derive(Clone, Copy)]
pub enum Symbol {
    Leaf(Leaf),
    Binary(Binary),
    Unary(Unary),
    Comparison(Comparison),
    Test(Test),
    Connective(Connective),
    Quantifier(Quantifier),
    Comprehension,
    Negation,
    Unknown,
}
