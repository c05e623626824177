// "a clause (-cell, member) for each relation cell and each of its columns over a limited sort, first column first,
// ahead of the marks" (document 02, Change 8).
ghost use Rattle.std.specs.Prelude.{◌≡◌, ◌<◌};
ghost use Rattle.literal.specs.Words.{literal_of};
ghost use Rattle.sheet_rules.specs.Blocks.{relation_count, sheet_of};
ghost use Rattle.relational.specs.Cells.{row_count};
ghost use Rattle.clauses_rules.specs.Whole.{member_clauses};
ghost use Rattle.clauses_emission.specs.Emission.{Inside, literals_of};
ghost use Rattle.clauses_marks.specs.Marking.{Small, Adds, atom_clauses, column_clauses, row_inside};
ghost use Rattle.clauses_marks.specs.Marking.{relation_inside};

use clauses_emission::Tape;
use clauses_emission::list::emit_clause;
use clauses_kinds::source::Source;

// (-cell, member) for atom i of a sort, if the sort is bounded.
fn atom_clause(list: &mut [i32], tape: &mut Tape, source: &Source, cell: i32, sort: usize, i: usize)
    requires small { Small 90000 tape.old }
    requires inside { Inside 16002 (literal_of cell) × (i < 8) }
    ensures { Adds 3
        (atom_clauses (sheet_of source.now.sheet.bytes.now) (literals_of source.now.given.now) (literal_of cell) sort i)
        list.old tape.old list.new tape.new }
{
    if source.sheet.is_bounded(sort) {
        emit_clause(
            list,
            tape,
            literal::opposite(cell),
            &[source.member(sort, i)],
        );
    }
}

// The clauses of the cell of row i and column j of relation r.
fn cell_clauses(
    list: &mut [i32],
    tape: &mut Tape,
    source: &Source,
    cell: i32,
    r: usize,
    i: usize,
    j: usize,
)
    requires small { Small 80000 tape.old }
    requires inside { Inside 16002 (literal_of cell) × ((r < 256) × ((i < 8) × (j < 8))) }
    ensures { Adds 6
        (column_clauses (sheet_of source.now.sheet.bytes.now) (literals_of source.now.given.now)
        (literal_of cell) r i j)
        list.old tape.old list.new tape.new }
{
    let first = source.sheet.first_sort(r);
    if source.sheet.arity(r) == 1 {
        atom_clause(list, tape, source, cell, first, j);
    } else {
        atom_clause(list, tape, source, cell, first, i);
        let second = source.sheet.second_sort(r);
        atom_clause(list, tape, source, cell, second, j);
    }
}

// The cells of row i of relation r.
fn row_inside(list: &mut [i32], tape: &mut Tape, source: &Source, r: usize, i: usize)
    requires small { Small 70000 tape.old }
    requires r_bound { r < relation_count (sheet_of source.now.sheet.bytes.now) }
    requires i_bound { i < row_count (sheet_of source.now.sheet.bytes.now) r }
    ensures { Adds 48 (row_inside (sheet_of source.now.sheet.bytes.now) (literals_of source.now.given.now) r i)
        list.old tape.old list.new tape.new }
{
    let row = source.row(r, i);
    for (j, cell) in row.iter().enumerate() {
        cell_clauses(list, tape, source, *cell, r, i, j);
    }
}

// The cells of relation r; it has clauses only where a column is over a bounded sort.
fn relation_inside(list: &mut [i32], tape: &mut Tape, source: &Source, r: usize)
    requires small { Small 50000 tape.old }
    requires r_bound { r < relation_count (sheet_of source.now.sheet.bytes.now) }
    ensures { Adds 384 (relation_inside (sheet_of source.now.sheet.bytes.now) (literals_of source.now.given.now) r)
        list.old tape.old list.new tape.new }
{
    if source.sheet.over_bounded(r) {
        for i in 0..source.sheet.row_count(r) {
            row_inside(list, tape, source, r, i);
        }
    }
}

// All relations.
pub fn members(list: &mut [i32], tape: &mut Tape, source: &Source)
    requires { Small 1000 tape.old }
    ensures { Adds 6144 (member_clauses (sheet_of source.now.sheet.bytes.now) (literals_of source.now.given.now))
        list.old tape.old list.new tape.new }
{
    for r in 0..source.sheet.layout.relations.count {
        relation_inside(list, tape, source, r);
    }
}
