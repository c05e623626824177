// 2.1.2 The multiplicity of a row, by the number of true cells.
ghost use Rattle.std.specs.Prelude.{◌≡◌, List, ℕ};
ghost use Rattle.sheet_rules.specs.Blocks.{Sheet};
ghost use Rattle.relational.specs.Evaluation as spec;
ghost use Rattle.instance_matrix.specs.Values.{matrix_of, Fine};

use super::Value;
use super::truths::count;

// "Mark 0 is free, 1 at most one value, 2 exactly one.", and of a row that is not bound at most one (document 02,
// Change 8).
pub fn row_holds(mark: usize, bound: bool, p: Value) -> bool
    requires { Fine p }
    ensures { (sheet : Sheet) (instance : List ℕ)
        → result ≡ spec.row_holds sheet instance mark bound (matrix_of p).cells }
{
    let n = count(p);
    match mark {
        0 => true,
        1 => n <= 1,
        _ => n <= 1 && (!bound || 1 <= n),
    }
}
