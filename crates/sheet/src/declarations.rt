// The readers of sorts, variables and relations: numbers 4 and 5.
ghost use Rattle.std.specs.Prelude.{◌≡◌, ◌<◌, ◌≤◌, ◌/◌, ltb, length};
ghost use Rattle.prelude.specs.Tests.{each, between};
ghost use Rattle.sheet_rules.specs.Blocks as blocks;
ghost use Rattle.sheet_rules.specs.Reading.{relation_declared};
ghost use Rattle.sheet.specs.Filling.{scope_in};

use super::bytes::{field, scope_at};

// Number 4: each scope, or upper limit, is one of 1 to 8.
pub(crate) fn scopes_fine(sorts: &[u8]) -> bool
    ensures { result ≡ each (length sorts.now) (λ k. between 1 8 (scope_in sorts.now k)) }
{
    (0..sorts.len()).all(|k| {
        let scope = scope_at(sorts, k);
        1 <= scope && scope <= 8
    })
}

// Number 5, of variables: each one's sort is there.
pub(crate) fn variables_fine(variables: &[u8], sorts: usize) -> bool
    ensures { result ≡ each (length variables.now) (λ x. ltb (blocks.byte variables.now x) sorts) }
{
    variables.iter().all(|sort| usize::from(*sort) < sorts)
}

// A set's last byte is 0, a relation's second sort is there; columns, mark and first sort.
fn relation_fine(relations: &[u8], sorts: usize, r: usize) -> bool
    requires { r ≤ 16 }
    ensures { (sheet : blocks.Sheet) → sheet.relations ≡ relations.now → length sheet.sorts ≡ sorts
        → result ≡ relation_declared sheet r }
{
    let columns = field(relations, 4, r, 0);
    let mark = field(relations, 4, r, 1);
    let first = field(relations, 4, r, 2);
    let second = field(relations, 4, r, 3);
    let last = if columns == 1 {
        second == 0
    } else {
        second < sorts
    };
    1 <= columns && columns <= 2 && mark <= 2 && first < sorts && last
}

// Number 5, of relations.
pub(crate) fn relations_fine(relations: &[u8], sorts: usize) -> bool
    requires { length relations.now / 4 ≤ 16 }
    ensures { (sheet : blocks.Sheet) → sheet.relations ≡ relations.now → length sheet.sorts ≡ sorts
        → result ≡ each (blocks.relation_count sheet) (relation_declared sheet) }
{
    (0..relations.len() / 4).all(|r| relation_fine(relations, sorts, r))
}
