// 2.2.6 Quantifiers, and comprehensions: what a binder makes of its variable's atoms and of those for which the body
// holds.
ghost use Rattle.std.specs.Prelude.{◌≡◌};
ghost use Rattle.sheet_rules.specs.Blocks.{sheet_of};
ghost use Rattle.relational.specs.declared.Binary.TheVariants as binary_operator;
ghost use Rattle.relational.specs.Meaning.{Environment};
ghost use Rattle.relational.specs.Evaluation as spec;
ghost use Rattle.instance_matrix.specs.Values.{Fine, Gives, matrix_of};

use super::Instance;
use instance_matrix::Value;
use instance_matrix::operators::apply_binary;
use instance_matrix::truths::apply_quantifier;
use relational::{Binary, Quantifier};

impl<'a> Instance<'a> {
    // The atoms of variable x's sort.
    fn range(&self, x: usize) -> Value
        ensures { (env : Environment)
            → Gives result (spec.range (sheet_of self.now.sheet.bytes.now) self.now.cells.now x env) }
    {
        self.atoms(self.sheet.sort_of_variable(x))
    }

    // Kind 12, over the set of those for which the body holds: its members.
    pub(crate) fn comprehend(&self, x: usize, row: Value) -> Value
        requires { Fine row }
        ensures { (env : Environment) → Gives result (spec.value_binary binary_operator.Intersection
            (spec.range (sheet_of self.now.sheet.bytes.now) self.now.cells.now x env) (matrix_of row)) }
    {
        apply_binary(Binary::Intersection, self.range(x), row)
    }

    // Kinds 40 and 41, over that set: for all, for some.
    pub(crate) fn quantify_over(&self, operator: Quantifier, x: usize, row: Value) -> bool
        requires { Fine row }
        ensures { (env : Environment) → result ≡ spec.truth_quantifier operator
            (spec.range (sheet_of self.now.sheet.bytes.now) self.now.cells.now x env) (matrix_of row) }
    {
        apply_quantifier(operator, self.range(x), row)
    }
}
