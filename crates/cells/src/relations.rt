// The declarations of an accepted sheet's relations, and their cells.
ghost use Rattle.std.specs.Prelude.{◌≡◌, ◌+◌, ◌*◌, ◌≤◌, ◌<◌};
ghost use Rattle.sheet_rules.specs.Blocks as spec;
ghost use Rattle.sheet_rules.specs.Blocks.{sheet_of};
ghost use Rattle.relational.specs.Cells.{most_cells, row_count, row_length, cell_count};
ghost use Rattle.cells.specs.Private.{Starts, over_bounded};

use crate::sheets::Sheet;
use sheet::bytes::field;

// How many cells there are, and the first cell of each relation.
#[derive(Clone, Copy)]
pub struct Cells {
    pub count: usize,
    pub starts: [usize; 16],
}

impl<'a> Sheet<'a> {
    // Byte k of the declaration of relation r.
    fn declared(&self, r: usize, k: usize) -> usize
        requires { (r < 256) × (k < 4) }
        ensures { result ≡ spec.byte (sheet_of self.now.bytes.now).relations (4 * r + k) }
    {
        field(self.relations(), 4, r, k)
    }

    // The columns of relation r: 1 a set, 2 a relation.
    pub fn arity(&self, r: usize) -> usize
        requires { r < 256 }
        ensures { result ≡ spec.columns (sheet_of self.now.bytes.now) r }
    {
        self.declared(r, 0)
    }

    // Its mark.
    pub fn multiplicity(&self, r: usize) -> usize
        requires { r < 256 }
        ensures { result ≡ spec.multiplicity (sheet_of self.now.bytes.now) r }
    {
        self.declared(r, 1)
    }

    // The sort of its first column.
    pub fn first_sort(&self, r: usize) -> usize
        requires { r < 256 }
        ensures { result ≡ spec.first_sort (sheet_of self.now.bytes.now) r }
    {
        self.declared(r, 2)
    }

    // The sort of its second column.
    pub fn second_sort(&self, r: usize) -> usize
        requires { r < 256 }
        ensures { result ≡ spec.second_sort (sheet_of self.now.bytes.now) r }
    {
        self.declared(r, 3)
    }

    // Whether a column of it is over a bounded sort. A set is asked for sort 0 too, which stands in the place of its
    // second.
    pub fn over_bounded(&self, r: usize) -> bool
        requires { r < 256 }
        ensures { result ≡ over_bounded (sheet_of self.now.bytes.now) r }
    {
        self.is_bounded(self.first_sort(r)) || self.is_bounded(self.second_sort(r))
    }

    // Its rows.
    pub fn row_count(&self, r: usize) -> usize
        requires { r < 256 }
        ensures { (result ≡ row_count (sheet_of self.now.bytes.now) r) × (result ≤ 8) }
    {
        if self.arity(r) == 1 {
            return 1;
        }
        self.scope(self.first_sort(r))
    }

    // The cells in one row of it.
    pub fn row_length(&self, r: usize) -> usize
        requires { r < 256 }
        ensures { (result ≡ row_length (sheet_of self.now.bytes.now) r) × (result ≤ 8) }
    {
        if self.arity(r) == 1 {
            return self.scope(self.first_sort(r));
        }
        self.scope(self.second_sort(r))
    }

    // How many cells there are, and where those of each relation begin, in one pass.
    pub fn cells(&self) -> Cells
        ensures { (result.count ≡ cell_count (sheet_of self.now.bytes.now)) ×
            ((result.count ≤ most_cells) × Starts (sheet_of self.now.bytes.now) result.starts) }
    {
        let mut starts = [0; 16];
        let mut count = self.first_member(self.layout.sorts.count);
        for r in 0..self.layout.relations.count {
            starts[r] = count;
            count += self.row_count(r) * self.row_length(r);
        }
        Cells { count, starts }
    }
}
