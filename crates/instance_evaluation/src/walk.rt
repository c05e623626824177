// 2.2.1 to 2.2.6 The walk: expressions contain formulas and formulas expressions, and the node number falls.
ghost use Rattle.std.specs.Prelude.{◌≡◌, ◌<◌};
ghost use Rattle.sheet_rules.specs.Blocks.{sheet_of};
ghost use Rattle.instance_matrix.specs.Values.{Gives};
ghost use Rattle.nodes.specs.Nodes.{IsExpression, IsFormula};
ghost use Rattle.instance_evaluation.specs.Walking.{value_at, truth_at, bodies_at};

use super::Instance;
use instance_matrix::Value;
use instance_matrix::operators::{apply_binary, apply_unary};
use instance_matrix::truths::{apply_comparison, apply_connective, apply_test};
use nodes::environments::bind;
use nodes::forms::read_node;
use relational::Symbol;

impl<'a> Instance<'a> {
    // The value of the expression at a node.
    #[cycle(bodies_expression_formula)]
    fn expression(&self, env: [usize; 4], at: usize) -> Value
        requires { IsExpression (sheet_of self.now.sheet.bytes.now) at }
        ensures { Gives result (value_at (sheet_of self.now.sheet.bytes.now) self.now.cells.now env at) }
    {
        let node = read_node(&self.sheet, at);
        match node.symbol {
            // 2.2.1 relation, variable, sort, identity
            Symbol::Leaf(leaf) => self.leaf(env, leaf, node.a),
            // 2.2.1 union, intersection, difference; 2.2.2 join; 2.2.3 product
            Symbol::Binary(operator) => {
                let p = self.expression(env, node.a);
                let q = self.expression(env, node.b);
                apply_binary(operator, p, q)
            }
            // 2.2.4 inverse; 2.2.5 closure
            Symbol::Unary(operator) => apply_unary(operator, self.expression(env, node.a)),
            // 2.2.6 comprehension: a binder, as the quantifiers
            Symbol::Comprehension => {
                let row = self.bodies(env, node.b, node.a);
                self.comprehend(node.a, row)
            }
            _ => unreachable!(),
        }
    }

    // The truth of the formula at a node.
    #[cycle(bodies_expression_formula)]
    pub(crate) fn formula(&self, env: [usize; 4], at: usize) -> bool
        requires { IsFormula (sheet_of self.now.sheet.bytes.now) at }
        ensures { result ≡ truth_at (sheet_of self.now.sheet.bytes.now) self.now.cells.now env at }
    {
        let node = read_node(&self.sheet, at);
        match node.symbol {
            // 2.2.6 inclusion and equality
            Symbol::Comparison(operator) => {
                let p = self.expression(env, node.a);
                let q = self.expression(env, node.b);
                apply_comparison(operator, p, q)
            }
            // 2.2.6 some, none, at most one
            Symbol::Test(operator) => apply_test(operator, self.expression(env, node.a)),
            // 2.2.6 the connectives
            Symbol::Negation => !self.formula(env, node.a),
            Symbol::Connective(operator) => {
                let p = self.formula(env, node.a);
                let q = self.formula(env, node.b);
                apply_connective(operator, p, q)
            }
            // 2.2.6 all and some
            Symbol::Quantifier(operator) => {
                let row = self.bodies(env, node.b, node.a);
                self.quantify_over(operator, node.a, row)
            }
            _ => unreachable!(),
        }
    }

    // The body of a binder of variable x, for each atom, ascending: the set of those for which it holds.
    #[cycle(bodies_expression_formula)]
    fn bodies(&self, env: [usize; 4], at: usize, x: usize) -> Value
        requires formula { IsFormula (sheet_of self.now.sheet.bytes.now) at }
        requires x_bound { x < 4 }
        ensures { Gives result (bodies_at (sheet_of self.now.sheet.bytes.now) self.now.cells.now env at x) }
    {
        let n = self.sheet.scope_of_variable(x);
        let mut cells = [false; 64];
        for k in 0..n {
            cells[k] = self.formula(bind(env, x, k), at);
        }
        Value {
            arity: 1,
            rows: 1,
            columns: n,
            cells,
        }
    }
}
