// The clauses of the marks (document 01, "Clauses"): relation by relation, row by row.
#![tactic(auto)]

ghost use Rattle.std.specs.Prelude.{◌≡◌, map, ◌<◌};
ghost use Rattle.literal.specs.Words.{literal_of};
ghost use Rattle.sheet_rules.specs.Blocks.{relation_count, sheet_of};
ghost use Rattle.relational.specs.Cells.{row_count};
ghost use Rattle.relational.specs.Matrices.{pairs};
ghost use Rattle.clauses_rules.specs.Whole.{pair_clause, mark_clauses};
ghost use Rattle.clauses_emission.specs.Emission.{Inside, literals_of};
ghost use Rattle.clauses_marks.specs.Marking.{Small, Members, Adds, RowOf, pairs_with, is_guarded};
ghost use Rattle.clauses_marks.specs.Marking.{row_clause, row_marks, relation_clauses};

use cells::Sheet;
use clauses_emission::Tape;
use clauses_emission::list::emit_clause;
use clauses_kinds::source::Source;

pub mod members; // members.rt: cells of members only

// (-p, -q) for each q of the others, in order.
fn pairs_with(list: &mut [i32], tape: &mut Tape, p: i32, others: &[i32])
    requires small { Small 80000 tape.old }
    requires inside { Inside 16002 (literal_of p) }
    requires members { Members 7 others.now }
    ensures { Adds 21 (map pair_clause (pairs_with (literal_of p) (literals_of others.now)))
        list.old tape.old list.new tape.new }
{
    let first = literal::opposite(p);
    for q in others {
        emit_clause(list, tape, first, &[literal::opposite(*q)]);
    }
}

// "(-p, -q) for each pair in order"
fn row_pairs(list: &mut [i32], tape: &mut Tape, row: &[i32])
    requires small { Small 70000 tape.old }
    requires members { Members 8 row.now }
    ensures { Adds 168 (map pair_clause (pairs (literals_of row.now))) list.old tape.old list.new tape.new }
{
    for (k, p) in row.iter().enumerate() {
        pairs_with(list, tape, *p, &row[k + 1..]);
    }
}

// Whether the rows of relation r are bound only where they are of members: "Mark 2 on a relation of two columns with a
// limited first sort" (document 02, Change 8).
fn is_guarded(sheet: &Sheet, r: usize) -> bool
    requires { r < 256 }
    ensures { result ≡ is_guarded (sheet_of sheet.now.bytes.now) r }
{
    sheet.arity(r) != 1 && sheet.is_bounded(sheet.first_sort(r))
}

// The whole row, which starts with the opposite of the row's member if it is guarded.
fn row_clause(list: &mut [i32], tape: &mut Tape, source: &Source, r: usize, i: usize, row: &[i32])
    requires small { Small 70000 tape.old }
    requires row_of { RowOf r i row.now }
    ensures { Adds 10
        (row_clause (sheet_of source.now.sheet.bytes.now) (literals_of source.now.given.now) r i
        (literals_of row.now))
        list.old tape.old list.new tape.new }
{
    if is_guarded(&source.sheet, r) {
        let guard = literal::opposite(source.member(source.sheet.first_sort(r), i));
        emit_clause(list, tape, guard, row);
    } else {
        emit_clause(list, tape, row[0], &row[1..]);
    }
}

// "(-p, -q) for each pair in order, then for mark 2 the whole row"
fn row_marks(list: &mut [i32], tape: &mut Tape, source: &Source, r: usize, i: usize)
    requires small { Small 60000 tape.old }
    requires r_bound { r < relation_count (sheet_of source.now.sheet.bytes.now) }
    requires i_bound { i < row_count (sheet_of source.now.sheet.bytes.now) r }
    ensures { Adds 178 (row_marks (sheet_of source.now.sheet.bytes.now) (literals_of source.now.given.now) r i)
        list.old tape.old list.new tape.new }
{
    let mark = source.sheet.multiplicity(r);
    if mark == 0 {
        return;
    }
    let row = source.row(r, i);
    row_pairs(list, tape, row);
    if mark == 1 {
        return;
    }
    row_clause(list, tape, source, r, i, row);
}

// The rows of relation r.
fn relation_marks(list: &mut [i32], tape: &mut Tape, source: &Source, r: usize)
    requires small { Small 50000 tape.old }
    requires r_bound { r < relation_count (sheet_of source.now.sheet.bytes.now) }
    ensures { Adds 1424 (relation_clauses (sheet_of source.now.sheet.bytes.now) (literals_of source.now.given.now) r)
        list.old tape.old list.new tape.new }
{
    for i in 0..source.sheet.row_count(r) {
        row_marks(list, tape, source, r, i);
    }
}

// All relations.
pub fn marks(list: &mut [i32], tape: &mut Tape, source: &Source)
    requires { Small 10000 tape.old }
    ensures { Adds 22784 (mark_clauses (sheet_of source.now.sheet.bytes.now) (literals_of source.now.given.now))
        list.old tape.old list.new tape.new }
{
    for r in 0..source.sheet.layout.relations.count {
        relation_marks(list, tape, source, r);
    }
}
