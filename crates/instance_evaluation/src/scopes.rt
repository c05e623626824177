// 2.1.2 Fields are of atoms: "The check says no where a cell of a non-member is 1" (document 02, Change 8).
ghost use Rattle.std.specs.Prelude.{◌≡◌, ◌<◌};
ghost use Rattle.sheet_rules.specs.Blocks.{sheet_of, relation_count};
ghost use Rattle.relational.specs.Cells.{row_count};
ghost use Rattle.relational.specs.Evaluation as spec;
ghost use Rattle.instance_evaluation.specs.Walking.{of_members, row_inside, relation_inside};

use super::Instance;
use sheet::bytes::byte;

impl<'a> Instance<'a> {
    // Whether the atoms of row i and column j of relation r are members.
    fn of_members(&self, r: usize, i: usize, j: usize) -> bool
        requires { (r < 256) × ((i < 8) × (j < 8)) }
        ensures { result ≡ of_members (sheet_of self.now.sheet.bytes.now) self.now.cells.now r i j }
    {
        let first = self.sheet.first_sort(r);
        if self.sheet.arity(r) == 1 {
            return self.is_member(first, j);
        }
        self.is_member(first, i) && self.is_member(self.sheet.second_sort(r), j)
    }

    // The cells of row i of relation r.
    fn row_inside(&self, r: usize, i: usize) -> bool
        requires r_bound { r < relation_count (sheet_of self.now.sheet.bytes.now) }
        requires i_bound { i < row_count (sheet_of self.now.sheet.bytes.now) r }
        ensures { result ≡ row_inside (sheet_of self.now.sheet.bytes.now) self.now.cells.now r i }
    {
        let first = self.row_start(r, i);
        (0..self.sheet.row_length(r)).all(|j| byte(self.cells, first + j) != 1
            || self.of_members(r, i, j))
    }

    // The rows of relation r.
    fn rows_inside(&self, r: usize) -> bool
        requires { r < relation_count (sheet_of self.now.sheet.bytes.now) }
        ensures { result ≡ relation_inside (sheet_of self.now.sheet.bytes.now) self.now.cells.now r }
    {
        (0..self.sheet.row_count(r)).all(|i| self.row_inside(r, i))
    }

    // The cells of relation r; they are looked at only where a column is over a bounded sort.
    fn relation_inside(&self, r: usize) -> bool
        requires { r < relation_count (sheet_of self.now.sheet.bytes.now) }
        ensures { result ≡ relation_inside (sheet_of self.now.sheet.bytes.now) self.now.cells.now r }
    {
        !self.sheet.over_bounded(r) || self.rows_inside(r)
    }

    // The cells of all relations.
    pub(crate) fn cells_inside(&self) -> bool
        ensures { result ≡ spec.cells_inside (sheet_of self.now.sheet.bytes.now) self.now.cells.now }
    {
        (0..self.sheet.layout.relations.count).all(|r| self.relation_inside(r))
    }
}
