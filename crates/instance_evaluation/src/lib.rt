// The value of an expression and the truth of a formula in an instance (document 01, "Kinds and meanings"), whether the
// marks hold, and whether the cells are of members.
// The steps stand in the order of section 2.2 of source document 001, headed by the numbers of its parts.
#![tactic(auto)]

ghost use Rattle.std.specs.Prelude.{◌≡◌, ◌<◌, ◌≤◌};
ghost use Rattle.sheet_rules.specs.Blocks.{sheet_of, relation_count};
ghost use Rattle.relational.specs.Cells.{row_count, cell};
ghost use Rattle.cells.specs.Private.{Starts};
ghost use Rattle.relational.specs.Evaluation as spec;

use cells::Sheet;

mod members; // members.rt, 2.2.1: the atoms of a sort
mod leaves; // leaves.rt, 2.2.1: relations, variables, sorts, identities
mod binders; // binders.rt, 2.2.6: comprehensions, all and some
mod walk; // walk.rt, 2.2.1 to 2.2.6: expressions and formulas
mod marks; // marks.rt, 2.1.2: multiplicities
mod scopes; // scopes.rt, 2.1.2: fields are of atoms

// An instance of an accepted sheet: its cells, and the first cell of each relation.
#[derive(Clone, Copy)]
pub struct Instance<'a> {
    pub sheet: Sheet<'a>,
    pub cells: &'a [u8],
    pub starts: [usize; 16],
    pub ghost located: { Starts (sheet_of sheet.bytes.now) starts },
}

impl<'a> Instance<'a> {
    // The first cell of row i of relation r.
    pub(crate) fn row_start(&self, r: usize, i: usize) -> usize
        requires r_bound { r < relation_count (sheet_of self.now.sheet.bytes.now) }
        requires i_bound { i < row_count (sheet_of self.now.sheet.bytes.now) r }
        ensures { (result ≡ cell (sheet_of self.now.sheet.bytes.now) r i 0) × (result ≤ 1080) }
    {
        self.starts[r] + i * self.sheet.row_length(r)
    }

    // Whether the cells are of members, the marks hold and the root is true.
    pub fn holds(&self) -> bool
        ensures { result ≡ spec.holds (sheet_of self.now.sheet.bytes.now) self.now.cells.now }
    {
        let inside = self.cells_inside();
        let marked = self.marks_hold();
        let root = self.sheet.layout.nodes.count - 1;
        inside && marked && self.formula([0; 4], root)
    }
}
