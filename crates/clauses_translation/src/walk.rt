// The walk (document 01, "Clauses"): a node's operands in order, then the node's own cells. Expressions and formulas
// call each other with a falling node number. Past the limit of variables nothing is walked any more.
ghost use Rattle.std.specs.Prelude.{◌<◌};
ghost use Rattle.literal.specs.Words.{literal_of};
ghost use Rattle.sheet_rules.specs.Blocks.{sheet_of};
ghost use Rattle.nodes.specs.Nodes.{IsExpression, IsFormula};
ghost use Rattle.clauses_translation.specs.Walks.{Ready, WalksExpression, WalksFormula, WalksBodies};

use clauses_emission::{LIMIT, Tape};
use clauses_kinds::apply::{
    apply_binary, apply_comparison, apply_connective, apply_quantifier, apply_test, apply_unary,
    comprehend,
};
use clauses_kinds::leaves::{apply_leaf, nothing, set};
use clauses_kinds::source::WalkSource;
use clauses_matrix::Literals;
use nodes::environments::bind;
use nodes::forms::{Node, read_node};
use relational::Symbol;

// A node as an expression: its matrix.
#[cycle(bodies_expression_formula)]
fn expression(
    list: &mut [i32],
    tape: &mut Tape,
    source: &WalkSource,
    env: [usize; 4],
    at: usize,
) -> Literals
    requires ready { Ready source.now.given.now tape.old }
    requires expression { IsExpression (sheet_of source.now.sheet.bytes.now) at }
    ensures { WalksExpression (sheet_of source.now.sheet.bytes.now) source.now.given.now env at
        list.old tape.old result list.new tape.new }
{
    if LIMIT < tape.next {
        return nothing();
    }
    let node = read_node(&source.sheet, at);
    let Node { a, b, .. } = node;
    match node.symbol {
        Symbol::Leaf(operator) => apply_leaf(source, env, operator, a),
        Symbol::Binary(operator) => {
            let p = expression(list, tape, source, env, a);
            let q = expression(list, tape, source, env, b);
            apply_binary(list, tape, operator, p, q)
        }
        Symbol::Unary(operator) => {
            let p = expression(list, tape, source, env, a);
            apply_unary(list, tape, operator, p)
        }
        Symbol::Comprehension => {
            let row = bodies(list, tape, source, env, b, a);
            comprehend(list, tape, &source.sheet, source.given, a, row)
        }
        _ => unreachable!(),
    }
}

// A node as a formula: its literal.
#[cycle(bodies_expression_formula)]
pub fn formula(
    list: &mut [i32],
    tape: &mut Tape,
    source: &WalkSource,
    env: [usize; 4],
    at: usize,
) -> i32
    requires ready { Ready source.now.given.now tape.old }
    requires formula { IsFormula (sheet_of source.now.sheet.bytes.now) at }
    ensures { WalksFormula (sheet_of source.now.sheet.bytes.now) source.now.given.now env at
        list.old tape.old (literal_of result) list.new tape.new }
{
    if LIMIT < tape.next {
        return -1;
    }
    let node = read_node(&source.sheet, at);
    let Node { a, b, .. } = node;
    match node.symbol {
        Symbol::Comparison(operator) => {
            let p = expression(list, tape, source, env, a);
            let q = expression(list, tape, source, env, b);
            apply_comparison(list, tape, operator, p, q)
        }
        Symbol::Test(operator) => {
            let p = expression(list, tape, source, env, a);
            apply_test(list, tape, operator, p)
        }
        Symbol::Negation => literal::opposite(formula(list, tape, source, env, a)),
        Symbol::Connective(operator) => {
            let p = formula(list, tape, source, env, a);
            let q = formula(list, tape, source, env, b);
            apply_connective(list, tape, operator, p, q)
        }
        Symbol::Quantifier(operator) => {
            let row = bodies(list, tape, source, env, b, a);
            apply_quantifier(list, tape, &source.sheet, source.given, operator, a, row)
        }
        _ => unreachable!(),
    }
}

// The body of a binder of variable x, for each atom, ascending: its literals as a set.
#[cycle(bodies_expression_formula)]
fn bodies(
    list: &mut [i32],
    tape: &mut Tape,
    source: &WalkSource,
    env: [usize; 4],
    at: usize,
    x: usize,
) -> Literals
    requires ready { Ready source.now.given.now tape.old }
    requires formula { IsFormula (sheet_of source.now.sheet.bytes.now) at }
    requires x_bound { x < 4 }
    ensures { WalksBodies (sheet_of source.now.sheet.bytes.now) source.now.given.now env at
        list.old tape.old x result list.new tape.new }
{
    let columns = source.sheet.scope_of_variable(x);
    let mut cells = [-1; 64];
    for i in 0..columns {
        cells[i] = formula(list, tape, source, bind(env, x, i), at);
    }
    set(columns, cells)
}
