// Sizes of matrices, for flags and for literals alike.
ghost use Rattle.std.specs.Prelude.{◌≡◌, cond, ◌≤◌, eqb};
ghost use Rattle.relational.specs.Matrices as matrices;

// How many columns the right operand of a join has: a set on the right is a column.
pub fn join_columns(arity: usize, columns: usize) -> usize
    requires { columns ≤ 8 }
    ensures { (result ≡ cond (eqb arity 1) 1 columns) × (result ≤ 8) }
{
    if arity == 1 { 1 } else { columns }
}

// "as many rounds as the least k with 2^k at least n"
pub fn rounds(n: usize) -> usize
    requires { n ≤ 8 }
    ensures { result ≡ matrices.rounds n }
{
    for k in 0..n {
        if n <= 1 << k {
            return k;
        }
    }
    n
}
