// 2.2.1 to 2.2.5: the operators on expressions.
ghost use Rattle.std.specs.Prelude.{◌≡◌};
ghost use Rattle.relational.specs.Trees as trees;
ghost use Rattle.relational.specs.declared.Symbol.TheVariants as symbol;
ghost use Rattle.relational.specs.Evaluation as spec;
ghost use Rattle.instance_matrix.specs.Values.{matrix_of, Fine, Gives};

use super::Value;
use super::basic::matched;
use super::closures::closure;
use super::inverses::inverse;
use super::joins::join;
use super::products::product;
use nodes::forms::symbol_of;
use relational::{Binary, Symbol, Unary};

// Kinds 5 to 9: union, intersection, difference, join, product.
pub fn apply_binary(operator: Binary, p: Value, q: Value) -> Value
    requires fine { Fine p }
    requires fine_2 { Fine q }
    ensures { Gives result (spec.value_binary operator (matrix_of p) (matrix_of q)) }
{
    match operator {
        // 2.2.1
        Binary::Union => matched(|a, b| a || b, p, q),
        Binary::Intersection => matched(|a, b| a && b, p, q),
        Binary::Difference => matched(|a, b| a && !b, p, q),
        // 2.2.2
        Binary::Join => join(p, q),
        // 2.2.3
        Binary::Product => product(p, q),
    }
}

// The same by the number of the kind, of which any is taken.
pub fn binary(kind: usize, p: Value, q: Value) -> Value
    requires fine { Fine p }
    requires fine_2 { Fine q }
    ensures { (o : Binary) → trees.symbol_of kind ≡ symbol.Binary o
        → Gives result (spec.value_binary o (matrix_of p) (matrix_of q)) }
{
    match symbol_of(kind) {
        Symbol::Binary(operator) => apply_binary(operator, p, q),
        _ => p,
    }
}

// Kinds 10 and 11: inverse, closure.
pub fn apply_unary(operator: Unary, p: Value) -> Value
    requires { Fine p }
    ensures { Gives result (spec.value_unary operator (matrix_of p)) }
{
    match operator {
        // 2.2.4
        Unary::Inverse => inverse(p),
        // 2.2.5
        Unary::Closure => closure(p),
    }
}

// The same by the number of the kind.
pub fn unary(kind: usize, p: Value) -> Value
    requires { Fine p }
    ensures { (o : Unary) → trees.symbol_of kind ≡ symbol.Unary o → Gives result (spec.value_unary o (matrix_of p)) }
{
    match symbol_of(kind) {
        Symbol::Unary(operator) => apply_unary(operator, p),
        _ => p,
    }
}
