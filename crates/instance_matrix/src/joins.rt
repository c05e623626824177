// 2.2.2 Relational join.
ghost use Rattle.std.specs.Prelude.{◌≡◌, false, ◌<◌, ◌≤◌};
ghost use Rattle.prelude.specs.Tests.{any};
ghost use Rattle.relational.specs.declared.Binary.TheVariants as binary_operator;
ghost use Rattle.relational.specs.Matrices as matrices;
ghost use Rattle.relational.specs.Evaluation as spec;
ghost use Rattle.instance_matrix.specs.Values.{matrix_of, Fine, Gives};

use super::Value;
use nodes::matrix::{index, places_by, size};
use nodes::sizes::join_columns;

// "join OR over the middle atoms of AND": row i of p with column j of q.
fn join_cell(p: Value, q: Value, columns: usize, i: usize, j: usize) -> bool
    requires fine { Fine p }
    requires fine_2 { Fine q }
    requires columns_value { (columns ≡ matrices.join_columns (matrix_of q)) × ((columns ≤ 8) × ((i < 8) × (j < columns))) }
    ensures { result ≡ any spec.both (matrices.middles false (matrix_of p) (matrix_of q) (i, j)) }
{
    (0..p.columns).any(|k| p.cells[index(i, p.columns, k)] && q.cells[index(k, columns, j)])
}

// Kind 8: a set with a relation, a relation with a set, a relation with a relation.
pub(crate) fn join(p: Value, q: Value) -> Value
    requires fine { Fine p }
    requires fine_2 { Fine q }
    ensures { Gives result (spec.value_binary binary_operator.Join (matrix_of p) (matrix_of q)) }
{
    let columns = join_columns(q.arity, q.columns);
    let cells = places_by(
        p.rows,
        columns,
        false,
        |i, j| join_cell(p, q, columns, i, j),
    );
    if p.arity + q.arity == 4 {
        Value {
            arity: 2,
            rows: p.rows,
            columns,
            cells,
        }
    } else {
        Value {
            arity: 1,
            rows: 1,
            columns: size(p.rows, columns),
            cells,
        }
    }
}
