// Shapes of expressions and formulas, and what shapes a kind takes and gives (specs/Shapes.antt).
#![tactic(auto)]

ghost use Rattle.std.specs.Prelude.{◌≡◌, cond, eqb};
ghost use Rattle.shapes.specs.Shapes as spec;

use kinds::Rule;

// A set of a sort, a relation from a sort to a sort, a formula, or operands that the kind does not take.
#[derive(Clone, Copy, PartialEq, Eq)]
pub enum Shape {
    Ill,
    Formula,
    SetOf(usize),
    RelationOf(usize, usize),
}

fn only(test: bool, s: Shape) -> Shape
    ensures { result ≡ spec.only test s }
{
    if test { s } else { Shape::Ill }
}

pub fn is_shaped(x: Shape) -> bool
    ensures { result ≡ spec.is_shaped x }
{
    !matches!(x, Shape::Ill)
}

pub fn is_formula(x: Shape) -> bool
    ensures { result ≡ spec.is_formula x }
{
    matches!(x, Shape::Formula)
}

fn is_expression(x: Shape) -> bool
    ensures { result ≡ spec.is_expression x }
{
    matches!(x, Shape::SetOf(_) | Shape::RelationOf(_, _))
}

fn equal_shape(x: Shape, y: Shape) -> bool
    ensures { result ≡ spec.equal_shape x y }
{
    is_expression(x) && x == y
}

fn join_shape(x: Shape, y: Shape) -> Shape
    ensures { result ≡ spec.join_shape x y }
{
    match (x, y) {
        (Shape::SetOf(s), Shape::RelationOf(t, u)) if s == t => Shape::SetOf(u),
        (Shape::RelationOf(s, t), Shape::SetOf(u)) if t == u => Shape::SetOf(s),
        (Shape::RelationOf(s, t), Shape::RelationOf(u, w)) if t == u => Shape::RelationOf(s, w),
        _ => Shape::Ill,
    }
}

fn product_shape(x: Shape, y: Shape) -> Shape
    ensures { result ≡ spec.product_shape x y }
{
    match (x, y) {
        (Shape::SetOf(s), Shape::SetOf(t)) => Shape::RelationOf(s, t),
        _ => Shape::Ill,
    }
}

fn inverse_shape(x: Shape) -> Shape
    ensures { result ≡ spec.inverse_shape x }
{
    match x {
        Shape::RelationOf(s, t) => Shape::RelationOf(t, s),
        _ => Shape::Ill,
    }
}

fn closure_shape(x: Shape) -> Shape
    ensures { result ≡ spec.closure_shape x }
{
    match x {
        Shape::RelationOf(s, t) if s == t => x,
        _ => Shape::Ill,
    }
}

// The shape of a declared relation, by its number of columns.
pub fn shape_of(columns: usize, first: usize, second: usize) -> Shape
    ensures { result ≡ cond (eqb columns 1) (Shape.SetOf first) (Shape.RelationOf first second) }
{
    if columns == 1 {
        Shape::SetOf(first)
    } else {
        Shape::RelationOf(first, second)
    }
}

// The shape that a rule gives, from field a, the shape of relation a, the sort of variable a,
// and the shapes of the nodes that the fields name.
pub fn shape_by(rule: Rule, a: usize, relation: Shape, sort: usize, x: Shape, y: Shape) -> Shape
    ensures { result ≡ spec.shape_by rule a relation sort x y }
{
    match rule {
        Rule::Unknown => Shape::Ill,
        Rule::OfRelation => relation,
        Rule::OfVariable => Shape::SetOf(sort),
        Rule::OfSort => Shape::SetOf(a),
        Rule::OfIdentity => Shape::RelationOf(a, a),
        Rule::Same => only(equal_shape(x, y), x),
        Rule::Join => join_shape(x, y),
        Rule::Product => product_shape(x, y),
        Rule::Inverse => inverse_shape(x),
        Rule::Closure => closure_shape(x),
        Rule::Comprehension => only(is_formula(y), Shape::SetOf(sort)),
        Rule::Comparison => only(equal_shape(x, y), Shape::Formula),
        Rule::Test => only(is_expression(x), Shape::Formula),
        Rule::Negation => only(is_formula(x), Shape::Formula),
        Rule::Connective => only(is_formula(x) && is_formula(y), Shape::Formula),
        Rule::Quantifier => only(is_formula(y), Shape::Formula),
    }
}
