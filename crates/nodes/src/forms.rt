// A node of the sheet: what its kind stands for, and its two fields.
ghost use Rattle.std.specs.Prelude.{◌≡◌, ◌≤◌, ◌<◌};
ghost use Rattle.sheet_rules.specs.Blocks.{sheet_of};
ghost use Rattle.relational.specs.Trees.{symbol_of};
ghost use Rattle.nodes.specs.Nodes.{node_at};

use cells::Sheet;
use relational::{Binary, Comparison, Connective, Leaf, Quantifier, Symbol, Test, Unary};
use sheet::bytes::field;

#[derive(Clone, Copy)]
pub struct Node {
    pub symbol: Symbol,
    pub a: usize,
    pub b: usize,
}

// What a kind stands for.
#[tactic(auto, unfolding(relational::specs::Trees::symbol_of))]
pub fn symbol_of(kind: usize) -> Symbol
    ensures { result ≡ symbol_of kind }
{
    match kind {
        1 => Symbol::Leaf(Leaf::Relation),
        2 => Symbol::Leaf(Leaf::Variable),
        3 => Symbol::Leaf(Leaf::Atoms),
        4 => Symbol::Leaf(Leaf::Identity),
        5 => Symbol::Binary(Binary::Union),
        6 => Symbol::Binary(Binary::Intersection),
        7 => Symbol::Binary(Binary::Difference),
        8 => Symbol::Binary(Binary::Join),
        9 => Symbol::Binary(Binary::Product),
        10 => Symbol::Unary(Unary::Inverse),
        11 => Symbol::Unary(Unary::Closure),
        12 => Symbol::Comprehension,
        20 => Symbol::Comparison(Comparison::Equal),
        21 => Symbol::Comparison(Comparison::Within),
        22 => Symbol::Test(Test::Some),
        23 => Symbol::Test(Test::None),
        24 => Symbol::Test(Test::Lone),
        30 => Symbol::Negation,
        31 => Symbol::Connective(Connective::Conjunction),
        32 => Symbol::Connective(Connective::Disjunction),
        33 => Symbol::Connective(Connective::Implication),
        34 => Symbol::Connective(Connective::Equivalence),
        40 => Symbol::Quantifier(Quantifier::All),
        41 => Symbol::Quantifier(Quantifier::Some),
        _ => Symbol::Unknown,
    }
}

// Node v of an accepted sheet.
pub fn read_node(sheet: &Sheet, v: usize) -> Node
    requires { v ≤ 200 }
    ensures { (result ≡ node_at (sheet_of sheet.now.bytes.now).nodes v) × (result.a < 256) }
{
    let nodes = sheet.nodes();
    Node {
        symbol: symbol_of(field(nodes, 3, v, 0)),
        a: field(nodes, 3, v, 1),
        b: field(nodes, 3, v, 2),
    }
}
