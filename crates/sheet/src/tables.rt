// What every node has, each entry made from those of the nodes before it: shapes, free variables, visits.
ghost use Rattle.std.specs.Prelude.{◌≡◌, not, false, ℕ, ◌+◌, ◌*◌, ◌<◌, ◌≤◌, ◌/◌, length, get_or};
ghost use Rattle.prelude.specs.Tests.{each, all};
ghost use Rattle.sheet_rules.specs.Blocks as blocks;
ghost use Rattle.sheet_rules.specs.Tables as spec;
ghost use Rattle.shapes.specs.Shapes.{is_shaped};
ghost use Rattle.sheet.specs.Filling.{Fills, capped as cap};

use super::bytes::{byte, field, scope_at};
use super::nodes::{is_node, is_variable, node_at};
use kinds::Row;
use shapes::{Shape, is_shaped, shape_by, shape_of};

// Stands for every larger number of visits.
const MANY_VISITS: u64 = 1_000_001;

// The entry of node i, or that of a table that is not filled there yet.
fn entry_at<T: Copy>(table: &[T], i: usize, none: T) -> T
    ensures { result ≡ get_or table.now i none }
{
    table.get(i).copied().unwrap_or(none)
}

fn declared_shape(relations: &[u8], r: usize) -> Shape
    requires { r < 256 }
    ensures { (sheet : blocks.Sheet) → sheet.relations ≡ relations.now → result ≡ spec.declared_shape sheet r }
{
    shape_of(
        field(relations, 4, r, 0),
        field(relations, 4, r, 2),
        field(relations, 4, r, 3),
    )
}

fn node_shape(variables: &[u8], relations: &[u8], nodes: &[u8], shapes: &[Shape], v: usize) -> Shape
    requires { v ≤ 200 }
    ensures { (sheet : blocks.Sheet) → sheet.variables ≡ variables.now → sheet.relations ≡ relations.now
        → sheet.nodes ≡ nodes.now → result ≡ spec.shape_step sheet v shapes.now }
{
    let node = node_at(nodes, v);
    shape_by(
        node.row.rule,
        node.a,
        declared_shape(relations, node.a),
        byte(variables, node.a),
        entry_at(shapes, node.a, Shape::Ill),
        entry_at(shapes, node.b, Shape::Ill),
    )
}

// The shapes of all nodes.
pub(crate) fn shapes_of(variables: &[u8], relations: &[u8], nodes: &[u8]) -> [Shape; 200]
    requires { length nodes.now / 3 ≤ 200 }
    ensures { (sheet : blocks.Sheet) → sheet.variables ≡ variables.now → sheet.relations ≡ relations.now
        → sheet.nodes ≡ nodes.now → Fills (λ x. x) Shape.Ill (spec.shapes sheet) result }
{
    let mut shapes = [Shape::Ill; 200];
    // Kept: here and below a loop of one line; a filler that takes the step as a closure is no shorter.
    for v in 0..nodes.len() / 3 {
        shapes[v] = node_shape(variables, relations, nodes, &shapes, v);
    }
    shapes
}

// Number 7: each node has a shape.
pub(crate) fn all_shaped(shapes: &[Shape]) -> bool
    ensures { result ≡ all is_shaped shapes.now }
{
    shapes.iter().all(|shape| is_shaped(*shape))
}

fn free_by(x: usize, row: Row, a: usize, p: bool, q: bool) -> bool
    ensures { result ≡ spec.free_by x row a p q }
{
    let names = is_variable(row.a) && a == x;
    let below = if is_node(row.b) { !names && q } else { names };
    is_node(row.a) && p || below
}

fn node_free(nodes: &[u8], x: usize, free: &[bool], v: usize) -> bool
    requires { v ≤ 200 }
    ensures { (sheet : blocks.Sheet) → sheet.nodes ≡ nodes.now → result ≡ spec.free_step sheet x v free.now }
{
    let node = node_at(nodes, v);
    let p = entry_at(free, node.a, false);
    let q = entry_at(free, node.b, false);
    free_by(x, node.row, node.a, p, q)
}

// The nodes in which variable x is free.
fn free_in(nodes: &[u8], x: usize) -> [bool; 200]
    requires { length nodes.now / 3 ≤ 200 }
    ensures { (sheet : blocks.Sheet) → sheet.nodes ≡ nodes.now → Fills (λ f. f) false (spec.free sheet x) result }
{
    let mut free = [false; 200];
    for v in 0..nodes.len() / 3 {
        free[v] = node_free(nodes, x, &free, v);
    }
    free
}

fn is_free_in_root(nodes: &[u8], x: usize) -> bool
    requires { (1 ≤ length nodes.now / 3) × (length nodes.now / 3 ≤ 200) }
    ensures { (sheet : blocks.Sheet) → sheet.nodes ≡ nodes.now
        → result ≡ get_or (spec.free sheet x) (blocks.root sheet) false }
{
    let root = nodes.len() / 3 - 1;
    free_in(nodes, x)[root]
}

// Number 8: no variable is free in the root.
pub(crate) fn closed(nodes: &[u8], variables: usize) -> bool
    requires { (1 ≤ length nodes.now / 3) × (length nodes.now / 3 ≤ 200) }
    ensures { (sheet : blocks.Sheet) → sheet.nodes ≡ nodes.now
        → result ≡ each variables (λ x. not (get_or (spec.free sheet x) (blocks.root sheet) false)) }
{
    (0..variables).all(|x| !is_free_in_root(nodes, x))
}

fn visits_by(row: Row, atoms: u64, p: u64, q: u64) -> u64
    requires { (atoms < 256) × (p ≤ 1000001) × (q ≤ 1000001) }
    ensures { result ≡ cap (spec.visits_by row atoms p q) }
{
    let left = if is_node(row.a) { p } else { 0 };
    let times = if is_variable(row.a) { atoms } else { 1 };
    let right = if is_node(row.b) { q } else { 0 };
    (1 + left + times * right).min(MANY_VISITS)
}

fn node_visits(sorts: &[u8], variables: &[u8], nodes: &[u8], visits: &[u64], v: usize) -> u64
    requires { (v ≤ 200) × ((i : ℕ) → get_or visits.now i 0 ≤ 1000001) }
    ensures { (sheet : blocks.Sheet) → sheet.sorts ≡ sorts.now → sheet.variables ≡ variables.now
        → sheet.nodes ≡ nodes.now → result ≡ cap (spec.visits_step sheet v visits.now) }
{
    let node = node_at(nodes, v);
    let atoms = scope_at(sorts, byte(variables, node.a)) as u64;
    let p = entry_at(visits, node.a, 0);
    let q = entry_at(visits, node.b, 0);
    visits_by(node.row, atoms, p, q)
}

// The visits of each node's walk, capped.
pub(crate) fn visits_of(sorts: &[u8], variables: &[u8], nodes: &[u8]) -> [u64; 200]
    requires { length nodes.now / 3 ≤ 200 }
    ensures { (sheet : blocks.Sheet) → sheet.sorts ≡ sorts.now → sheet.variables ≡ variables.now
        → sheet.nodes ≡ nodes.now → Fills cap 0 (spec.visits sheet) result }
{
    let mut visits = [0; 200];
    for v in 0..nodes.len() / 3 {
        visits[v] = node_visits(sorts, variables, nodes, &visits, v);
    }
    visits
}
