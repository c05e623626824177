// Numbers 2 to 9 over the four blocks, in the order of the table.
ghost use Rattle.std.specs.Prelude.{◌≡◌, ◌&&◌, ◌%◌, ◌/◌, ◌≤◌, eqb, leb, length};
ghost use Rattle.prelude.specs.Tests.{between};
ghost use Rattle.sheet_rules.specs.Blocks as blocks;
ghost use Rattle.sheet_rules.specs.Reading as spec;
ghost use Rattle.sheet.specs.Answers.{answer_of};

use super::declarations::{relations_fine, scopes_fine, variables_fine};
use super::nodes::nodes_fine;
use super::tables::{all_shaped, closed, shapes_of, visits_of};
use refusal::Refusal;
use shapes::is_formula;
use sheet_rules::{Block, Layout};

fn is_whole(relations: usize, nodes: usize) -> bool
    ensures { result ≡ (eqb (relations % 4) 0 && eqb (nodes % 3) 0) }
{
    relations % 4 == 0 && nodes % 3 == 0
}

fn is_counted(sorts: usize, variables: usize, relations: usize, nodes: usize) -> bool
    ensures { result ≡ (between 1 8 sorts && (leb variables 4 && (between 1 16 relations && between 1 200 nodes))) }
{
    1 <= sorts
        && sorts <= 8
        && variables <= 4
        && 1 <= relations
        && relations <= 16
        && 1 <= nodes
        && nodes <= 200
}

// Where each block stands, from the lengths of those before it.
fn layout(sorts: usize, variables: usize, relations: usize, nodes: usize) -> Layout
    requires { (sorts ≤ 8) × (variables ≤ 4) × (relations ≤ 100) × (nodes ≤ 1000) }
    ensures { (sheet : blocks.Sheet) → length sheet.sorts ≡ sorts → length sheet.variables ≡ variables
        → length sheet.relations ≡ relations → length sheet.nodes ≡ nodes → result ≡ spec.layout_of sheet }
{
    let variables_at = 3 + sorts + 2;
    let relations_at = variables_at + variables + 2;
    let nodes_at = relations_at + relations + 2;
    Layout {
        sorts: Block {
            start: 3,
            count: sorts,
        },
        variables: Block {
            start: variables_at,
            count: variables,
        },
        relations: Block {
            start: relations_at,
            count: relations / 4,
        },
        nodes: Block {
            start: nodes_at,
            count: nodes / 3,
        },
    }
}

// Numbers 7 to 9, over blocks whose declarations and nodes are right.
fn judge_walk(
    sorts: &[u8],
    variables: &[u8],
    relations: &[u8],
    nodes: &[u8],
) -> Result<Layout, Refusal>
    requires { (length sorts.now ≤ 8) × (length variables.now ≤ 4) × (length relations.now ≤ 100)
        × (1 ≤ length nodes.now / 3) × (length nodes.now / 3 ≤ 200) }
    ensures { answer_of result ≡ spec.walk_judged
        (blocks.four_blocks sorts.now variables.now relations.now nodes.now) }
{
    let count = nodes.len() / 3;
    let root = count - 1;
    let shapes = shapes_of(variables, relations, nodes);
    if !all_shaped(&shapes[..count]) {
        return Err(Refusal::Shape);
    }
    if !is_formula(shapes[root]) || !closed(nodes, variables.len()) {
        return Err(Refusal::Root);
    }
    let visits = visits_of(sorts, variables, nodes);
    if visits[root] > 1000000 {
        return Err(Refusal::Walk);
    }
    Ok(layout(sorts.len(), variables.len(), relations.len(), nodes.len()))
}

// Numbers 2 (whole records) to 9.
pub(crate) fn judge_blocks(
    sorts: &[u8],
    variables: &[u8],
    relations: &[u8],
    nodes: &[u8],
) -> Result<Layout, Refusal>
    ensures { answer_of result ≡ spec.whole_judged
        (blocks.four_blocks sorts.now variables.now relations.now nodes.now) }
{
    let sort_count = sorts.len();
    let variable_count = variables.len();
    let relation_count = relations.len() / 4;
    let node_count = nodes.len() / 3;
    if !is_whole(relations.len(), nodes.len()) {
        return Err(Refusal::Length);
    }
    if !is_counted(sort_count, variable_count, relation_count, node_count) {
        return Err(Refusal::Count);
    }
    if !scopes_fine(sorts) {
        return Err(Refusal::Scope);
    }
    if !variables_fine(variables, sort_count) || !relations_fine(relations, sort_count) {
        return Err(Refusal::Declaration);
    }
    if !nodes_fine(nodes, sort_count, variable_count, relation_count) {
        return Err(Refusal::Node);
    }
    judge_walk(sorts, variables, relations, nodes)
}
