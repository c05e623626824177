// The clauses of an accepted sheet, in the order of document 01: one translation serves counting and writing.
ghost use Rattle.std.specs.Prelude.{◌≤◌};
ghost use Rattle.sheet_rules.specs.Blocks.{sheet_of};
ghost use Rattle.relational.specs.Cells.{most_cells};
ghost use Rattle.clauses.specs.Translating.{CellWords, Translates};

use cells::{Cells, MOST_CELLS, Sheet};
use clauses_emission::Tape;
use clauses_emission::list::emit_clause;
use clauses_kinds::source::{Source, WalkSource};
use clauses_marks::marks;
use clauses_marks::members::members;
use clauses_translation::walk::formula;

// The literals of n cells: 2, 3 and so on.
fn cell_words(n: usize) -> [i32; MOST_CELLS]
    requires { n ≤ most_cells }
    ensures { CellWords n result }
{
    let mut words = [-1; MOST_CELLS];
    for i in 0..n {
        words[i] = literal::positive((2 + i) as u32);
    }
    words
}

// The clause (1); the clauses of the members; the marks; the root's walk; the root's literal alone.
pub(crate) fn translate(list: &mut [i32], sheet: &Sheet) -> Tape
    ensures { Translates (sheet_of sheet.now.bytes.now) list.old list.new result }
{
    let Cells { count, starts } = sheet.cells();
    let words = cell_words(count);
    let given = &words[..count];
    let source = Source {
        sheet: *sheet,
        given,
        starts,
    };
    let walk = WalkSource {
        sheet: *sheet,
        given,
        starts,
    };
    let mut tape = Tape {
        next: 2 + count,
        clauses: 0,
        words: 0,
    };
    emit_clause(list, &mut tape, 1, &[]);
    members(list, &mut tape, &source);
    marks(list, &mut tape, &source);
    let root = sheet.layout.nodes.count - 1;
    let truth = formula(list, &mut tape, &walk, [0; 4], root);
    emit_clause(list, &mut tape, truth, &[]);
    tape
}
