// What stands where in an accepted sheet: its blocks, scopes and membership cells, the declarations of its
// relations and their cells (document 01, "The sheet" and "Clauses").
#![tactic(auto)]

ghost use Rattle.std.specs.Prelude.{◌≡◌, leb};
ghost use Rattle.prelude.specs.Tests.{all};

pub mod relations; // relations.rt: the declarations of relations, and their cells
pub mod sheets; // sheets.rt: an accepted sheet, its blocks, sorts and variables

pub use relations::Cells;
pub use sheets::Sheet;

// No accepted sheet has more cells.
pub const MOST_CELLS: usize = 1088;

// "each 0 or 1"
pub fn are_bits(values: &[u8]) -> bool
    ensures { result ≡ all (λ b. leb b 1) values.now }
{
    values.iter().all(|&b| b <= 1)
}
