// 2.2.1 Basic expressions: what a relation, a variable, a sort and an identity stand for; union, intersection, difference.
ghost use Rattle.std.specs.Prelude.{◌≡◌, Bool, true, false, cond, map, ℕ, ◌*◌, ◌≤◌, eqb};
ghost use Rattle.relational.specs.Cells.{most_cells};
ghost use Rattle.relational.specs.Matrices as matrices;
ghost use Rattle.relational.specs.Matrices.{set_of, relation_of, upto, places, Place};
ghost use Rattle.instance_matrix.specs.Values.{matrix_of, Fine, Gives, SetOrRelation, sized, flags_from};

use super::Value;
use nodes::matrix::{cells_by, places_by, size};
use sheet::bytes::byte;

// Kind 1, a relation, or a row of one: its cells from the first on, true where the byte is 1.
pub fn given(instance: &[u8], first: usize, arity: usize, rows: usize, columns: usize) -> Value
    requires first_le_most_cells { (first ≤ most_cells) × ((rows ≤ 8) × (columns ≤ 8)) }
    requires set_or_relation { SetOrRelation arity rows }
    ensures { Gives result (sized arity rows columns (flags_from instance.now first (rows * columns))) }
{
    Value {
        arity,
        rows,
        columns,
        cells: cells_by(
            size(rows, columns),
            false,
            |k| byte(instance, first + k) == 1,
        ),
    }
}

// Kind 2, a variable: one atom of a sort of n.
pub fn single(n: usize, atom: usize) -> Value
    requires { n ≤ 8 }
    ensures { Gives result (set_of n (map (λ (i : ℕ). eqb i atom) (upto n))) }
{
    Value {
        arity: 1,
        rows: 1,
        columns: n,
        cells: cells_by(n, false, |k| k == atom),
    }
}

// Kind 3, a sort of n that is not bounded: all its atoms. (Of a bounded one, `given` reads its membership cells.)
pub fn full(n: usize) -> Value
    requires { n ≤ 8 }
    ensures { Gives result (set_of n (map (λ (i : ℕ). true) (upto n))) }
{
    Value {
        arity: 1,
        rows: 1,
        columns: n,
        cells: cells_by(n, false, |_| true),
    }
}

// Kind 4: the identity on the atoms of a set.
pub fn identity(p: Value) -> Value
    requires { Fine p }
    ensures { (n : ℕ) (f : ℕ → Bool) → matrix_of p ≡ set_of n (map f (upto n))
        → Gives result (relation_of n n (map (λ (t : Place). cond (eqb t.0 t.1) (f t.0) false) (places n n))) }
{
    let n = p.columns;
    Value {
        arity: 2,
        rows: n,
        columns: n,
        cells: places_by(n, n, false, |i, j| i == j && p.cells[i]),
    }
}

// Kinds 5 to 7, union, intersection, difference: the cells at the same place, pair by pair.
pub(crate) fn matched<F: Fn(bool, bool) -> bool>(pair: F, p: Value, q: Value) -> Value
    requires pairs { (a b : Bool) → F.pre pair a b }
    requires fine { Fine p }
    requires fine_2 { Fine q }
    ensures { (paired : Bool × Bool → Bool) → ((a b r : Bool) → F.post pair a b r → r ≡ paired (a, b))
        → Gives result (matrices.same_size (matrix_of p) (map paired (matrices.matched false (matrix_of p) (matrix_of q)))) }
{
    Value {
        arity: p.arity,
        rows: p.rows,
        columns: p.columns,
        cells: cells_by(
            size(p.rows, p.columns),
            false,
            |k| pair(p.cells[k], q.cells[k]),
        ),
    }
}
