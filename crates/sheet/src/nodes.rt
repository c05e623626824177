// The reader of nodes: number 6, and what a field names.
ghost use Rattle.std.specs.Prelude.{◌≡◌, ◌<◌, ◌≤◌, ◌/◌, length};
ghost use Rattle.prelude.specs.Tests.{each};
ghost use Rattle.sheet_rules.specs.Blocks as blocks;
ghost use Rattle.sheet_rules.specs.Tables as tables;
ghost use Rattle.sheet_rules.specs.Reading.{field_fine, node_fine};
ghost use Rattle.sheet.specs.Nodes.{node_of};

use super::bytes::field;
use kinds::{Field, Row, is_known, row_of};

// A node: its kind's row, and its two fields.
#[derive(Clone, Copy)]
pub(crate) struct Node {
    pub row: Row,
    pub a: usize,
    pub b: usize,
}

pub(crate) fn node_at(nodes: &[u8], v: usize) -> Node
    requires { v ≤ 200 }
    ensures reads { (sheet : blocks.Sheet) → sheet.nodes ≡ nodes.now → result ≡ node_of sheet v }
    ensures a_bound { result.a < 256 }
{
    Node {
        row: row_of(field(nodes, 3, v, 0)),
        a: field(nodes, 3, v, 1),
        b: field(nodes, 3, v, 2),
    }
}

pub(crate) fn is_node(f: Field) -> bool
    ensures { result ≡ tables.is_node f }
{
    matches!(f, Field::Node)
}

pub(crate) fn is_variable(f: Field) -> bool
    ensures { result ≡ tables.is_variable f }
{
    matches!(f, Field::Variable)
}

// Field x of node v: what it names is there, a node is lower, an unused field is 0.
fn field_fine(
    f: Field,
    sorts: usize,
    variables: usize,
    relations: usize,
    v: usize,
    x: usize,
) -> bool
    ensures { (sheet : blocks.Sheet) → blocks.sort_count sheet ≡ sorts → blocks.variable_count sheet ≡ variables
        → blocks.relation_count sheet ≡ relations → result ≡ field_fine sheet f v x }
{
    match f {
        Field::Unused => x == 0,
        Field::Node => x < v,
        Field::Relation => x < relations,
        Field::Variable => x < variables,
        Field::Sort => x < sorts,
    }
}

fn node_fine(nodes: &[u8], sorts: usize, variables: usize, relations: usize, v: usize) -> bool
    requires { v ≤ 200 }
    ensures { (sheet : blocks.Sheet) → sheet.nodes ≡ nodes.now → blocks.sort_count sheet ≡ sorts
        → blocks.variable_count sheet ≡ variables → blocks.relation_count sheet ≡ relations
        → result ≡ node_fine sheet v }
{
    let node = node_at(nodes, v);
    is_known(node.row.rule)
        && field_fine(node.row.a, sorts, variables, relations, v, node.a)
        && field_fine(node.row.b, sorts, variables, relations, v, node.b)
}

// Number 6.
pub(crate) fn nodes_fine(nodes: &[u8], sorts: usize, variables: usize, relations: usize) -> bool
    requires { length nodes.now / 3 ≤ 200 }
    ensures { (sheet : blocks.Sheet) → sheet.nodes ≡ nodes.now → blocks.sort_count sheet ≡ sorts
        → blocks.variable_count sheet ≡ variables → blocks.relation_count sheet ≡ relations
        → result ≡ each (blocks.node_count sheet) (node_fine sheet) }
{
    (0..nodes.len() / 3).all(|v| node_fine(nodes, sorts, variables, relations, v))
}
