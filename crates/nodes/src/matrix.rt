// Matrices of flags and of literals: what both have in common.
ghost use Rattle.std.specs.Prelude.{◌≡◌, ℕ, ◌+◌, ◌*◌, ◌<◌, ◌≤◌, length, get_or};

// A set is a single row of arity 1, a relation has arity 2; scopes are at most 8. The first rows times columns cells are the matrix,
// in row order.
#[derive(Clone, Copy)]
pub struct Matrix<T> {
    pub arity: usize,
    pub rows: usize,
    pub columns: usize,
    pub cells: [T; 64],
}

// How many cells a matrix has.
pub fn size(rows: usize, columns: usize) -> usize
    requires { (rows ≤ 8) × (columns ≤ 8) }
    ensures { (result ≡ rows * columns) × (result ≤ 64) }
{
    rows * columns
}

// The cell of row i and column j, where a row has so many columns.
pub fn index(i: usize, columns: usize, j: usize) -> usize
    requires { (i < 8) × ((columns ≤ 8) × (j < columns)) }
    ensures { (result ≡ i * columns + j) × (result < 64) }
{
    i * columns + j
}

// The cells of a matrix of n, one after the other; what lies past them is the same everywhere.
pub fn cells_by<T: Copy, F: Fn(usize) -> T>(n: usize, past: T, cell: F) -> [T; 64]
    requires few { n ≤ 64 }
    requires takes { (k : ℕ) → k < n → F.pre cell k }
    ensures long { length result ≡ 64 }
    ensures each { (k : ℕ) → k < n → F.post cell k (get_or result k past) }
    ensures rest { (k : ℕ) → n ≤ k → get_or result k past ≡ past }
{
    let mut cells = [past; 64];
    for k in 0..n {
        cells[k] = cell(k);
    }
    cells
}

// The cells of a matrix, by row and column; what lies past them is the same everywhere.
pub fn places_by<T: Copy, F: Fn(usize, usize) -> T>(
    rows: usize,
    columns: usize,
    past: T,
    cell: F,
) -> [T; 64]
    requires few { (rows ≤ 8) × (columns ≤ 8) }
    requires takes { (i j : ℕ) → i < rows → j < columns → F.pre cell i j }
    ensures long { length result ≡ 64 }
    ensures each { (i j : ℕ) → i < rows → j < columns → F.post cell i j (get_or result (i * columns + j) past) }
    ensures rest { (k : ℕ) → rows * columns ≤ k → get_or result k past ≡ past }
{
    let mut cells = [past; 64];
    for i in 0..rows {
        for j in 0..columns {
            cells[index(i, columns, j)] = cell(i, j);
        }
    }
    cells
}
