// Expressions, operator by operator: cells in row order (document 01, "Clauses", the last list).
ghost use Rattle.std.specs.Prelude.{List, ◌*◌, ℤ};
ghost use Rattle.relational.specs.declared.Binary.TheVariants.{Join as join, Product as product};
ghost use Rattle.relational.specs.declared.Unary.TheVariants.{Inverse as inverse, Closure as closure};
ghost use Rattle.relational.specs.Matrices as matrices;
ghost use Rattle.clauses_rules.specs.Translation.{join_cells, translate_binary, translate_unary, round_of};
ghost use Rattle.clauses_emission.specs.declared.Tape.{Tape};
ghost use Rattle.clauses_emission.specs.Emission.{literals_of, Bounded, EmitsLiteral};
ghost use Rattle.clauses_matrix.specs.Matrices.{matrix_of, Operand, EmitsCells, EmitsBinary, EmitsUnary};
ghost use Rattle.clauses_matrix.specs.Matrices.{paired, paired_matrix, join_cell, row_middles, RowAndColumn};

use super::Literals;
use clauses_emission::gates::{both, or, pair};
use clauses_emission::{Pairing, Tape};
use nodes::matrix::{index, places_by};
use nodes::sizes::{join_columns, rounds};

// The cells at the same place of p and q, place by place.
pub fn matched_cells(
    list: &mut [i32],
    tape: &mut Tape,
    kind: Pairing,
    p: Literals,
    q: Literals,
) -> [i32; 64]
    requires bounded { Bounded tape.old }
    requires operand { Operand tape.old.next p }
    requires operand_2 { Operand tape.old.next q }
    ensures { EmitsCells (p.rows * p.columns) (paired kind (matrix_of p) (matrix_of q) tape.old.next)
        list.old tape.old result list.new tape.new }
{
    let mut cells = [-1; 64];
    for k in 0..p.rows * p.columns {
        cells[k] = pair(list, tape, kind, p.cells[k], q.cells[k]);
    }
    cells
}

// Union (Either), intersection (Both) and difference (Without).
pub fn matched(
    list: &mut [i32],
    tape: &mut Tape,
    kind: Pairing,
    p: Literals,
    q: Literals,
) -> Literals
    requires bounded { Bounded tape.old }
    requires operand { Operand tape.old.next p }
    requires operand_2 { Operand tape.old.next q }
    ensures { EmitsBinary (paired_matrix kind) p q
        list.old tape.old result list.new tape.new }
{
    Literals {
        arity: p.arity,
        rows: p.rows,
        columns: p.columns,
        cells: matched_cells(list, tape, kind, p, q),
    }
}

// One cell of a join: OR over the middle atoms of AND. `left` is a row of the left operand, `right` all cells of the
// right one.
fn join_cell(
    list: &mut [i32],
    tape: &mut Tape,
    left: &[i32],
    right: &[i32],
    columns: usize,
    j: usize,
) -> i32
    requires bounded { Bounded tape.old }
    requires row_and_column { RowAndColumn tape.old.next left.now right.now columns j }
    ensures { EmitsLiteral
        (join_cell (row_middles (literals_of left.now) (literals_of right.now) columns j) tape.old.next)
        list.old tape.old result list.new tape.new }
{
    let mut middles = [-1; 8];
    for (k, l) in left.iter().enumerate() {
        middles[k] = both(list, tape, *l, right[k * columns + j]);
    }
    or(list, tape, &mut middles[..left.len()])
}

// The cells of a join, row by row.
fn join_cells(list: &mut [i32], tape: &mut Tape, p: Literals, q: Literals) -> [i32; 64]
    requires bounded { Bounded tape.old }
    requires operand { Operand tape.old.next p }
    requires operand_2 { Operand tape.old.next q }
    ensures { EmitsCells (p.rows * matrices.join_columns (matrix_of q))
        (join_cells (matrix_of p) (matrix_of q) tape.old.next)
        list.old tape.old result list.new tape.new }
{
    let columns = join_columns(q.arity, q.columns);
    let n = p.columns;
    let left = p.cells;
    let right = q.cells;
    let mut cells = [-1; 64];
    for i in 0..p.rows {
        let start = i * n;
        for j in 0..columns {
            cells[index(i, columns, j)] = join_cell(
                list,
                tape,
                &left[start..start + n],
                &right,
                columns,
                j,
            );
        }
    }
    cells
}

pub fn join(list: &mut [i32], tape: &mut Tape, p: Literals, q: Literals) -> Literals
    requires bounded { Bounded tape.old }
    requires operand { Operand tape.old.next p }
    requires operand_2 { Operand tape.old.next q }
    ensures { EmitsBinary (translate_binary join) p q list.old tape.old result list.new tape.new }
{
    let columns = join_columns(q.arity, q.columns);
    let cells = join_cells(list, tape, p, q);
    if p.arity + q.arity == 4 {
        Literals {
            arity: 2,
            rows: p.rows,
            columns,
            cells,
        }
    } else {
        Literals {
            arity: 1,
            rows: 1,
            columns: p.rows * columns,
            cells,
        }
    }
}

// The product of two sets.
pub fn product(list: &mut [i32], tape: &mut Tape, p: Literals, q: Literals) -> Literals
    requires bounded { Bounded tape.old }
    requires operand { Operand tape.old.next p }
    requires operand_2 { Operand tape.old.next q }
    ensures { EmitsBinary (translate_binary product) p q list.old tape.old result list.new tape.new }
{
    let columns = q.columns;
    let mut cells = [-1; 64];
    for k in 0..p.columns * columns {
        cells[k] = both(list, tape, p.cells[k / columns], q.cells[k % columns]);
    }
    Literals {
        arity: 2,
        rows: p.columns,
        columns,
        cells,
    }
}

// The inverse of a relation: its cells transposed. Nothing is written.
pub fn inverse(p: Literals) -> Literals
    requires { Operand 16002 p }
    ensures { (list : List ℤ) → (tape : Tape) → Bounded tape → Operand tape.next p
        → EmitsUnary (translate_unary inverse) p list tape result list tape }
{
    Literals {
        arity: 2,
        rows: p.columns,
        columns: p.rows,
        cells: places_by(
            p.columns,
            p.rows,
            -1,
            |i, j| p.cells[index(j, p.columns, i)],
        ),
    }
}

// A round of the closure: the join of the matrix with itself, then OR of the old and new cell.
fn round(list: &mut [i32], tape: &mut Tape, p: Literals) -> Literals
    requires bounded { Bounded tape.old }
    requires operand { Operand tape.old.next p }
    ensures { EmitsUnary round_of p list.old tape.old result list.new tape.new }
{
    let joined = join(list, tape, p, p);
    matched(list, tape, Pairing::Either, p, joined)
}

// After a round that takes no variable and leaves the cells as they were, the others would change nothing: they are not
// worked out.
pub fn closure(list: &mut [i32], tape: &mut Tape, p: Literals) -> Literals
    requires bounded { Bounded tape.old }
    requires operand { Operand tape.old.next p }
    ensures { EmitsUnary (translate_unary closure) p list.old tape.old result list.new tape.new }
{
    let mut matrix = p;
    for _ in 0..rounds(p.rows) {
        let first = tape.next;
        let made = round(list, tape, matrix);
        if tape.next == first && made.cells == matrix.cells {
            return made;
        }
        matrix = made;
    }
    matrix
}
