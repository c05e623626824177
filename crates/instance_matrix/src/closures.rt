// 2.2.5 Transitive closure.
ghost use Rattle.relational.specs.declared.Unary.TheVariants as unary_operator;
ghost use Rattle.relational.specs.Evaluation as spec;
ghost use Rattle.instance_matrix.specs.Values.{matrix_of, Fine, Gives};

use super::Value;
use super::basic::matched;
use super::joins::join;
use nodes::sizes::rounds;

// "A round works out the whole join of the matrix with itself, then OR of the old and new cell."
fn round(p: Value) -> Value
    requires { Fine p }
    ensures { Gives result (spec.round_of (matrix_of p)) }
{
    matched(|a, b| a || b, p, join(p, p))
}

// Kind 11: "as many rounds as the least k with 2^k at least n".
pub(crate) fn closure(p: Value) -> Value
    requires { Fine p }
    ensures { Gives result (spec.value_unary unary_operator.Closure (matrix_of p)) }
{
    let mut closed = p;
    for _ in 0..rounds(p.rows) {
        closed = round(closed);
    }
    closed
}
