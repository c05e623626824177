// What the clauses are made from: an accepted sheet, the literals of its cells, and where those of each relation begin.
ghost use Rattle.std.specs.Prelude.{◌≡◌, true, map, ◌+◌, ◌*◌, ◌≤◌, ◌<◌, length};
ghost use Rattle.literal.specs.Words.{literal_of};
ghost use Rattle.sheet_rules.specs.Blocks as spec;
ghost use Rattle.sheet_rules.specs.Blocks.{relation_count, sheet_of};
ghost use Rattle.relational.specs.Cells.{most_cells, cell_count, cells_of, row_count};
ghost use Rattle.relational.specs.Cells.{first_cell, first_member, member_cell};
ghost use Rattle.relational.specs.Matrices.{from};
ghost use Rattle.cells.specs.Private.{Starts};
ghost use Rattle.clauses_rules.specs.Translation.{literal_at};
ghost use Rattle.clauses_rules.specs.Whole.{row_literals};
ghost use Rattle.clauses_emission.specs.Emission.{AllInside, literals_of};

use cells::Sheet;
use clauses_emission::list::word_at;

// What a walk is made from. Of the literals nothing is known: past those that are given a cell has that of false.
#[derive(Clone, Copy)]
pub struct WalkSource<'a> {
    pub sheet: Sheet<'a>,
    pub given: &'a [i32],
    pub starts: [usize; 16],
    pub ghost located: { Starts (sheet_of sheet.bytes.now) starts },
}

// What the clauses of members and marks are made from: each cell has a literal.
#[derive(Clone, Copy)]
pub struct Source<'a> {
    pub sheet: Sheet<'a>,
    pub given: &'a [i32],
    pub starts: [usize; 16],
    pub ghost located: { Starts (sheet_of sheet.bytes.now) starts },
    pub ghost size: { length given.now ≡ cell_count (sheet_of sheet.bytes.now) },
    pub ghost inside: { AllInside 16002 (literals_of given.now) },
}

impl<'a> Source<'a> {
    // The literals of n cells, from one on.
    fn cells(&self, first: usize, n: usize) -> &[i32]
        requires { first + n ≤ cell_count (sheet_of self.now.sheet.bytes.now) }
        ensures { literals_of result.now ≡
            map (literal_at (sheet_of self.now.sheet.bytes.now) (literals_of self.now.given.now)) (from first n) }
    {
        &self.given[first..first + n]
    }

    // Those of a bounded sort's membership cells.
    pub fn members(&self, sort: usize) -> &[i32]
        requires { spec.is_bounded (sheet_of self.now.sheet.bytes.now) sort ≡ true }
        ensures { literals_of result.now ≡
            map (literal_at (sheet_of self.now.sheet.bytes.now) (literals_of self.now.given.now))
            (from (first_member (sheet_of self.now.sheet.bytes.now) sort)
            (spec.scope (sheet_of self.now.sheet.bytes.now) sort)) }
    {
        self.cells(self.sheet.first_member(sort), self.sheet.scope(sort))
    }

    // That of atom i's membership cell.
    pub fn member(&self, sort: usize, i: usize) -> i32
        requires { (sort < 8) × (i < 8) }
        ensures { literal_of result ≡
            literal_at (sheet_of self.now.sheet.bytes.now) (literals_of self.now.given.now)
            (member_cell (sheet_of self.now.sheet.bytes.now) sort i) }
    {
        word_at(self.given, self.sheet.first_member(sort) + i)
    }

    // The first cell of relation r.
    fn first_cell(&self, r: usize) -> usize
        requires { r < relation_count (sheet_of self.now.sheet.bytes.now) }
        ensures { (result ≡ first_cell (sheet_of self.now.sheet.bytes.now) r) × ((result ≤ most_cells) × (r < 16)) }
    {
        self.starts[r]
    }

    // Its literals.
    pub fn relation(&self, r: usize) -> &[i32]
        requires { r < relation_count (sheet_of self.now.sheet.bytes.now) }
        ensures { literals_of result.now ≡
            map (literal_at (sheet_of self.now.sheet.bytes.now) (literals_of self.now.given.now))
            (from (first_cell (sheet_of self.now.sheet.bytes.now) r)
            (cells_of (sheet_of self.now.sheet.bytes.now) r)) }
    {
        self.cells(
            self.first_cell(r),
            self.sheet.row_count(r) * self.sheet.row_length(r),
        )
    }

    // Those of its row i.
    pub fn row(&self, r: usize, i: usize) -> &[i32]
        requires r_bound { r < relation_count (sheet_of self.now.sheet.bytes.now) }
        requires i_bound { i < row_count (sheet_of self.now.sheet.bytes.now) r }
        ensures { literals_of result.now ≡
            row_literals (sheet_of self.now.sheet.bytes.now) (literals_of self.now.given.now) r i }
    {
        let n = self.sheet.row_length(r);
        self.cells(self.first_cell(r) + i * n, n)
    }
}

#[cfg(test)]
mod tests {
    use super::*;
    use cells::Cells;

    // Sorts of at most 1, of 2 and of at most 2 atoms; a set of the last, and a relation from the second to it.
    const SHEET: [u8; 26] = [
        1, 0, 3, 129, 2, 130, 0, 0, 0, 8, 1, 0, 2, 0, 2, 0, 1, 2, 0, 6, 1, 0, 0, 22, 0, 0,
    ];

    #[test]
    fn literals_of_members_and_relations(rt: HostRuntime) {
        let sheet = Sheet::read(&SHEET).ok().expect(&rt, "an accepted sheet");
        let Cells { count, starts } = sheet.cells();
        let given = [11, -12, 13, 14, -15, 16, -17, 18, 19];
        assert_eq!(rt; count, 9);
        let source = Source {
            sheet,
            given: &given,
            starts,
        };
        assert!(rt; sheet.is_bounded(0));
        assert!(rt; sheet.is_bounded(2));
        assert_eq!(rt; sheet.layout.relations.count, 2);
        assert_eq!(rt; source.members(0), [11].as_slice());
        assert_eq!(rt; source.members(2), [-12, 13].as_slice());
        assert_eq!(rt; source.relation(0), [14, -15].as_slice());
        assert_eq!(rt; source.relation(1), [16, -17, 18, 19].as_slice());
    }
}
