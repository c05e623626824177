// 2.2.3 Relational product.
ghost use Rattle.relational.specs.declared.Binary.TheVariants as binary_operator;
ghost use Rattle.relational.specs.Evaluation as spec;
ghost use Rattle.instance_matrix.specs.Values.{matrix_of, Fine, Gives};

use super::Value;
use nodes::matrix::places_by;

// Kind 9: atom i of p with atom j of q.
pub(crate) fn product(p: Value, q: Value) -> Value
    requires fine { Fine p }
    requires fine_2 { Fine q }
    ensures { Gives result (spec.value_binary binary_operator.Product (matrix_of p) (matrix_of q)) }
{
    Value {
        arity: 2,
        rows: p.columns,
        columns: q.columns,
        cells: places_by(p.columns, q.columns, false, |i, j| p.cells[i] && q.cells[j]),
    }
}
