// 2.1.2 Multiplicities: "For a relation the mark holds for each atom of the first sort; a set is a single row."
ghost use Rattle.std.specs.Prelude.{◌≡◌, ◌<◌};
ghost use Rattle.sheet_rules.specs.Blocks.{sheet_of, relation_count};
ghost use Rattle.relational.specs.Cells.{row_count};
ghost use Rattle.relational.specs.Evaluation as spec;
ghost use Rattle.instance_evaluation.specs.Walking.{row_marked, rows_hold};

use super::Instance;
use instance_matrix::basic::given;
use instance_matrix::marks::row_holds;

impl<'a> Instance<'a> {
    // Whether row i of relation r is bound: "Mark 2 .. binds only rows of members"; "A set's row is bound as before."
    // (document 02, Change 8).
    fn row_bound(&self, r: usize, i: usize) -> bool
        requires { (r < 256) × (i < 8) }
        ensures { result ≡ spec.row_bound (sheet_of self.now.sheet.bytes.now) self.now.cells.now r i }
    {
        self.sheet.arity(r) == 1 || self.is_member(self.sheet.first_sort(r), i)
    }

    // Whether the mark of relation r holds in row i.
    fn row_marked(&self, r: usize, i: usize) -> bool
        requires r_bound { r < relation_count (sheet_of self.now.sheet.bytes.now) }
        requires i_bound { i < row_count (sheet_of self.now.sheet.bytes.now) r }
        ensures { result ≡ row_marked (sheet_of self.now.sheet.bytes.now) self.now.cells.now r i }
    {
        let row = given(
            self.cells,
            self.row_start(r, i),
            1,
            1,
            self.sheet.row_length(r),
        );
        row_holds(self.sheet.multiplicity(r), self.row_bound(r, i), row)
    }

    // The rows of relation r.
    fn rows_hold(&self, r: usize) -> bool
        requires { r < relation_count (sheet_of self.now.sheet.bytes.now) }
        ensures { result ≡ rows_hold (sheet_of self.now.sheet.bytes.now) self.now.cells.now r }
    {
        (0..self.sheet.row_count(r)).all(|i| self.row_marked(r, i))
    }

    // The rows of all relations.
    pub(crate) fn marks_hold(&self) -> bool
        ensures { result ≡ spec.marks_hold (sheet_of self.now.sheet.bytes.now) self.now.cells.now }
    {
        (0..self.sheet.layout.relations.count).all(|r| self.rows_hold(r))
    }
}
