// 2.2.1 Basic expressions: the atoms of a sort, of a bounded one its members only (document 02, Change 8).
ghost use Rattle.std.specs.Prelude.{◌≡◌, ◌<◌};
ghost use Rattle.sheet_rules.specs.Blocks.{sheet_of};
ghost use Rattle.relational.specs.declared.Leaf.TheVariants as leaf_operator;
ghost use Rattle.relational.specs.Meaning.{Environment};
ghost use Rattle.relational.specs.Evaluation as spec;
ghost use Rattle.instance_matrix.specs.Values.{Gives};

use super::Instance;
use instance_matrix::Value;
use instance_matrix::basic::{full, given};
use sheet::bytes::byte;

impl<'a> Instance<'a> {
    // Whether atom i of a sort is a member.
    pub(crate) fn is_member(&self, sort: usize, i: usize) -> bool
        requires { i < 8 }
        ensures { result ≡ spec.member_at (sheet_of self.now.sheet.bytes.now) self.now.cells.now sort i }
    {
        if self.sheet.is_bounded(sort) {
            return byte(self.cells, self.sheet.first_member(sort) + i) == 1;
        }
        true
    }

    // Kind 3: the set of a sort's atoms.
    pub(crate) fn atoms(&self, sort: usize) -> Value
        ensures { (env : Environment)
            → Gives result
            (spec.value_leaf (sheet_of self.now.sheet.bytes.now) self.now.cells.now leaf_operator.Atoms sort env) }
    {
        let n = self.sheet.scope(sort);
        if self.sheet.is_bounded(sort) {
            return given(self.cells, self.sheet.first_member(sort), 1, 1, n);
        }
        full(n)
    }
}
