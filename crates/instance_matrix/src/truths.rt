// 2.2.6 Quantifiers and logical connectives: comparisons and tests of matrices, connectives, quantifiers.
ghost use Rattle.std.specs.Prelude.{◌≡◌, Bool, false};
ghost use Rattle.prelude.specs.Tests.{all};
ghost use Rattle.relational.specs.Trees as trees;
ghost use Rattle.relational.specs.declared.Symbol.TheVariants as symbol;
ghost use Rattle.relational.specs.Matrices as matrices;
ghost use Rattle.relational.specs.Evaluation as spec;
ghost use Rattle.relational.specs.Evaluation.{truth_connective};
ghost use Rattle.instance_matrix.specs.Values.{matrix_of, Fine};

use super::Value;
use super::basic::matched;
use nodes::forms::symbol_of;
use nodes::matrix::size;
use relational::{Comparison, Connective, Quantifier, Symbol, Test};

// Whether each pair of cells at the same place makes true.
fn all_matched<F: Fn(bool, bool) -> bool>(pair: F, p: Value, q: Value) -> bool
    requires pairs { (a b : Bool) → F.pre pair a b }
    requires fine { Fine p }
    requires fine_2 { Fine q }
    ensures { (paired : Bool × Bool → Bool) → ((a b r : Bool) → F.post pair a b r → r ≡ paired (a, b))
        → result ≡ all paired (matrices.matched false (matrix_of p) (matrix_of q)) }
{
    (0..size(p.rows, p.columns)).all(|k| pair(p.cells[k], q.cells[k]))
}

// Kinds 20 and 21: equal, within.
pub fn apply_comparison(operator: Comparison, p: Value, q: Value) -> bool
    requires fine { Fine p }
    requires fine_2 { Fine q }
    ensures { result ≡ spec.truth_comparison operator (matrix_of p) (matrix_of q) }
{
    match operator {
        Comparison::Equal => all_matched(|a, b| a == b, p, q),
        Comparison::Within => all_matched(|a, b| !a || b, p, q),
    }
}

// The same by the number of the kind.
pub fn compare(kind: usize, p: Value, q: Value) -> bool
    requires fine { Fine p }
    requires fine_2 { Fine q }
    ensures { (o : Comparison) → trees.symbol_of kind ≡ symbol.Comparison o
        → result ≡ spec.truth_comparison o (matrix_of p) (matrix_of q) }
{
    match symbol_of(kind) {
        Symbol::Comparison(operator) => apply_comparison(operator, p, q),
        _ => false,
    }
}

// How many cells are true.
pub(crate) fn count(p: Value) -> usize
    requires { Fine p }
    ensures { result ≡ spec.count (matrix_of p).cells }
{
    p.cells[..size(p.rows, p.columns)]
        .iter()
        .filter(|cell| **cell)
        .count()
}

// Kinds 22 to 24: some, none, at most one.
pub fn apply_test(operator: Test, p: Value) -> bool
    requires { Fine p }
    ensures { result ≡ spec.truth_test operator (matrix_of p).cells }
{
    let n = count(p);
    match operator {
        Test::Some => 1 <= n,
        Test::None => n == 0,
        Test::Lone => n <= 1,
    }
}

// The same by the number of the kind.
pub fn test(kind: usize, p: Value) -> bool
    requires { Fine p }
    ensures { (o : Test) → trees.symbol_of kind ≡ symbol.Test o → result ≡ spec.truth_test o (matrix_of p).cells }
{
    match symbol_of(kind) {
        Symbol::Test(operator) => apply_test(operator, p),
        _ => false,
    }
}

// Kinds 31 to 34: and, or, implies, iff.
pub fn apply_connective(operator: Connective, a: bool, b: bool) -> bool
    ensures { result ≡ truth_connective operator a b }
{
    match operator {
        Connective::Conjunction => a && b,
        Connective::Disjunction => a || b,
        Connective::Implication => !a || b,
        Connective::Equivalence => a == b,
    }
}

// The same by the number of the kind.
pub fn connect(kind: usize, a: bool, b: bool) -> bool
    ensures { (o : Connective) → trees.symbol_of kind ≡ symbol.Connective o → result ≡ truth_connective o a b }
{
    match symbol_of(kind) {
        Symbol::Connective(operator) => apply_connective(operator, a, b),
        _ => false,
    }
}

// Kinds 40 and 41, over the atoms and the set of those for which the body holds: for all, for some.
pub fn apply_quantifier(operator: Quantifier, atoms: Value, bodies: Value) -> bool
    requires fine { Fine atoms }
    requires fine_2 { Fine bodies }
    ensures { result ≡ spec.truth_quantifier operator (matrix_of atoms) (matrix_of bodies) }
{
    match operator {
        Quantifier::All => all_matched(|a, b| !a || b, atoms, bodies),
        Quantifier::Some => 1 <= count(matched(|a, b| a && b, atoms, bodies)),
    }
}

// The same by the number of the kind.
pub fn quantify(kind: usize, atoms: Value, bodies: Value) -> bool
    requires fine { Fine atoms }
    requires fine_2 { Fine bodies }
    ensures { (o : Quantifier) → trees.symbol_of kind ≡ symbol.Quantifier o
        → result ≡ spec.truth_quantifier o (matrix_of atoms) (matrix_of bodies) }
{
    match symbol_of(kind) {
        Symbol::Quantifier(operator) => apply_quantifier(operator, atoms, bodies),
        _ => false,
    }
}
