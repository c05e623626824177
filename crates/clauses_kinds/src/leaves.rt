// The matrices of relations, variables, sorts and identities (document 01, "Clauses").
ghost use Rattle.std.specs.Prelude.{◌≡◌, true, map, ℕ, ◌≤◌, ◌<◌, eqb, length};
ghost use Rattle.sheet_rules.specs.Blocks.{relation_count, sort_of, sheet_of};
ghost use Rattle.relational.specs.Trees as trees;
ghost use Rattle.relational.specs.declared.Symbol.TheVariants as symbol;
ghost use Rattle.relational.specs.declared.Leaf.TheVariants as leaf_operator;
ghost use Rattle.relational.specs.Cells.{most_cells};
ghost use Rattle.relational.specs.Meaning.{Environment};
ghost use Rattle.relational.specs.Matrices.{set_of, upto};
ghost use Rattle.nodes.specs.Environments.{environment};
ghost use Rattle.clauses_rules.specs.Translation.{constant};
ghost use Rattle.clauses_matrix.specs.Matrices.{Operand};
ghost use Rattle.clauses_kinds.specs.Leaves.{Filled, cell_from, LeafIs, Constants, Diagonal, row_matrix};

use crate::source::WalkSource;
use cells::Sheet;
use clauses_emission::list::word_at;
use clauses_matrix::Literals;
use nodes::environments::atom_at;
use nodes::forms::symbol_of;
use relational::{Leaf, Symbol};

// The words of n cells, from the first on, and then -1s.
fn copied(given: &[i32], first: usize, n: usize) -> [i32; 64]
    requires { (first ≤ most_cells) × (n ≤ 64) }
    ensures { Filled (cell_from given.now first) n result }
{
    let mut cells = [-1; 64];
    for k in 0..n {
        cells[k] = word_at(given, first + k);
    }
    cells
}

// The literals of a relation's cells.
fn relation(source: &WalkSource, r: usize) -> Literals
    requires { r < relation_count (sheet_of source.now.sheet.bytes.now) }
    ensures { (env : Environment)
        → LeafIs (sheet_of source.now.sheet.bytes.now) source.now.given.now leaf_operator.Relation r env result }
{
    let rows = source.sheet.row_count(r);
    let columns = source.sheet.row_length(r);
    Literals {
        arity: source.sheet.arity(r),
        rows,
        columns,
        cells: copied(source.given, source.starts[r], rows * columns),
    }
}

// One row of cells.
pub fn set(columns: usize, cells: [i32; 64]) -> Literals
    ensures { result ≡ row_matrix columns cells }
{
    Literals {
        arity: 1,
        rows: 1,
        columns,
        cells,
    }
}

// One atom of a sort of n.
fn single(n: usize, atom: usize) -> Literals
    requires { n ≤ 8 }
    ensures { Constants (set_of n (map (λ (i : ℕ). constant (eqb i atom)) (upto n))) result }
{
    let mut cells = [-1; 64];
    if atom < n {
        cells[atom] = 1;
    }
    set(n, cells)
}

// All atoms of a sort of n that is not bounded.
fn full(n: usize) -> Literals
    requires { n ≤ 8 }
    ensures { Constants (set_of n (map (λ (i : ℕ). constant true) (upto n))) result }
{
    let mut cells = [-1; 64];
    cells[..n].fill(1);
    set(n, cells)
}

// The atoms of a sort: of a bounded one the literals of its membership cells (document 02, Change 8).
fn atoms(sheet: &Sheet, given: &[i32], sort: usize) -> Literals
    ensures { (env : Environment)
        → LeafIs (sheet_of sheet.now.bytes.now) given.now leaf_operator.Atoms sort env result }
{
    let n = sheet.scope(sort);
    if sheet.is_bounded(sort) {
        set(n, copied(given, sheet.first_member(sort), n))
    } else {
        full(n)
    }
}

// The atoms of variable x's sort.
pub(crate) fn range(sheet: &Sheet, given: &[i32], x: usize) -> Literals
    ensures { (env : Environment)
        → LeafIs (sheet_of sheet.now.bytes.now) given.now leaf_operator.Atoms
        (sort_of (sheet_of sheet.now.bytes.now) x) env result }
{
    atoms(sheet, given, sheet.sort_of_variable(x))
}

// The identity on the atoms of a set.
fn identity(p: Literals) -> Literals
    requires { (p.columns ≤ 8) × (length p.cells ≡ 64) }
    ensures { Diagonal p result }
{
    let n = p.columns;
    let mut cells = [-1; 64];
    for k in 0..n * n {
        cells[k] = if k / n == k % n { p.cells[k / n] } else { -1 };
    }
    Literals {
        arity: 2,
        rows: n,
        columns: n,
        cells,
    }
}

// Kinds 1 to 4, over field a: relation, variable, sort, identity.
pub fn apply_leaf(source: &WalkSource, env: [usize; 4], leaf: Leaf, a: usize) -> Literals
    requires { leaf ≡ leaf_operator.Relation → a < relation_count (sheet_of source.now.sheet.bytes.now) }
    ensures { LeafIs (sheet_of source.now.sheet.bytes.now) source.now.given.now leaf a (environment env) result }
{
    match leaf {
        Leaf::Relation => relation(source, a),
        Leaf::Variable => single(source.sheet.scope_of_variable(a), atom_at(env, a)),
        Leaf::Atoms => atoms(&source.sheet, source.given, a),
        Leaf::Identity => identity(atoms(&source.sheet, source.given, a)),
    }
}

// The same by the number of the kind, of which any is taken.
pub fn leaf(source: &WalkSource, env: [usize; 4], kind: usize, a: usize) -> Literals
    requires { kind ≡ 1 → a < relation_count (sheet_of source.now.sheet.bytes.now) }
    ensures { (l : Leaf) → trees.symbol_of kind ≡ symbol.Leaf l
        → LeafIs (sheet_of source.now.sheet.bytes.now) source.now.given.now l a (environment env) result }
{
    match symbol_of(kind) {
        Symbol::Leaf(leaf) => apply_leaf(source, env, leaf, a),
        _ => nothing(),
    }
}

// A matrix without cells, for a walk that is given up.
pub fn nothing() -> Literals
    ensures { (n : ℕ) → 2 ≤ n → Operand n result }
{
    set(0, [-1; 64])
}
