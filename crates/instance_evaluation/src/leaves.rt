// 2.2.1 Basic expressions, the leaves: a relation, a variable, a sort, an identity.
ghost use Rattle.std.specs.Prelude.{◌≡◌, ◌<◌};
ghost use Rattle.sheet_rules.specs.Blocks.{sheet_of, relation_count};
ghost use Rattle.relational.specs.declared.Leaf.TheVariants as leaf_operator;
ghost use Rattle.relational.specs.Meaning.{Environment};
ghost use Rattle.relational.specs.Evaluation.{value_leaf};
ghost use Rattle.instance_matrix.specs.Values.{Gives};
ghost use Rattle.nodes.specs.Environments.{environment};

use super::Instance;
use instance_matrix::Value;
use instance_matrix::basic::{given, identity, single};
use nodes::environments::atom_at;
use relational::Leaf;

impl<'a> Instance<'a> {
    // Kind 1: the flags of a relation.
    fn relation(&self, r: usize) -> Value
        requires { r < relation_count (sheet_of self.now.sheet.bytes.now) }
        ensures { (env : Environment)
            → Gives result
            (value_leaf (sheet_of self.now.sheet.bytes.now) self.now.cells.now leaf_operator.Relation r env) }
    {
        let arity = self.sheet.arity(r);
        let rows = self.sheet.row_count(r);
        let columns = self.sheet.row_length(r);
        given(self.cells, self.starts[r], arity, rows, columns)
    }

    // Kinds 1 to 4: the value of a leaf over field a.
    pub(crate) fn leaf(&self, env: [usize; 4], leaf: Leaf, a: usize) -> Value
        requires { leaf ≡ leaf_operator.Relation → a < relation_count (sheet_of self.now.sheet.bytes.now) }
        ensures { Gives result
            (value_leaf (sheet_of self.now.sheet.bytes.now) self.now.cells.now leaf a (environment env)) }
    {
        match leaf {
            Leaf::Relation => self.relation(a),
            Leaf::Variable => single(self.sheet.scope_of_variable(a), atom_at(env, a)),
            Leaf::Atoms => self.atoms(a),
            Leaf::Identity => identity(self.atoms(a)),
        }
    }
}
