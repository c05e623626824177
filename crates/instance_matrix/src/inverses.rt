// 2.2.4 Relational inverse.
ghost use Rattle.relational.specs.declared.Unary.TheVariants as unary_operator;
ghost use Rattle.relational.specs.Evaluation as spec;
ghost use Rattle.instance_matrix.specs.Values.{matrix_of, Fine, Gives};

use super::Value;
use nodes::matrix::{index, places_by};

// Kind 10: "Inverse transposes its operand's cells."
pub(crate) fn inverse(p: Value) -> Value
    requires { Fine p }
    ensures { Gives result (spec.value_unary unary_operator.Inverse (matrix_of p)) }
{
    Value {
        arity: 2,
        rows: p.columns,
        columns: p.rows,
        cells: places_by(
            p.columns,
            p.rows,
            false,
            |i, j| p.cells[index(j, p.columns, i)],
        ),
    }
}
