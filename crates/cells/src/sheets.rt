// An accepted sheet: its blocks, the scopes and membership cells of its sorts, and its variables.
ghost use Rattle.std.specs.Prelude.{◌≡◌, IfOk, IfErr, ◌+◌, ◌*◌, ◌≤◌, length, take, drop};
ghost use Rattle.sheet_rules.specs.Blocks as spec;
ghost use Rattle.sheet_rules.specs.Blocks.{sheet_of};
ghost use Rattle.sheet_rules.specs.Reading.{accepted, reading, refused};
ghost use Rattle.refusal.specs.Refusals.{number_of};
ghost use Rattle.relational.specs.Cells.{members_of, first_member};

use refusal::Refusal;
use sheet::bytes::{byte, scope_at};
use sheet_rules::{Block, Layout};

// A sheet that was read and not refused, with where its blocks stand.
#[derive(Clone, Copy)]
pub struct Sheet<'a> {
    pub bytes: &'a [u8],
    pub layout: Layout,
    pub ghost taken: { reading bytes.now ≡ accepted layout },
}

// A block of so many bytes.
fn part(sheet: &[u8], start: usize, size: usize) -> &[u8]
    requires { start + size ≤ length sheet.now }
    ensures { result.now ≡ take size (drop start sheet.now) }
{
    &sheet[start..start + size]
}

impl<'a> Sheet<'a> {
    // Reads a sheet, or refuses it as `sheet::read` does.
    pub fn read(bytes: &'a [u8]) -> Result<Sheet<'a>, Refusal>
        ensures same_bytes { IfOk result (λ sheet. sheet.bytes.now ≡ bytes.now) }
        ensures refusal { IfErr result (λ refusal. reading bytes.now ≡ refused (number_of refusal)) }
    {
        let layout = sheet::read(bytes)?;
        Ok(Sheet { bytes, layout })
    }

    pub fn sorts(&self) -> &'a [u8]
        ensures { result.now ≡ (sheet_of self.now.bytes.now).sorts }
    {
        let Block { start, count } = self.layout.sorts;
        part(self.bytes, start, count)
    }

    pub fn variables(&self) -> &'a [u8]
        ensures { result.now ≡ (sheet_of self.now.bytes.now).variables }
    {
        let Block { start, count } = self.layout.variables;
        part(self.bytes, start, count)
    }

    pub fn relations(&self) -> &'a [u8]
        ensures { result.now ≡ (sheet_of self.now.bytes.now).relations }
    {
        let Block { start, count } = self.layout.relations;
        part(self.bytes, start, 4 * count)
    }

    pub fn nodes(&self) -> &'a [u8]
        ensures { result.now ≡ (sheet_of self.now.bytes.now).nodes }
    {
        let Block { start, count } = self.layout.nodes;
        part(self.bytes, start, 3 * count)
    }

    // The scope of a sort; of one that is not there, 0.
    pub fn scope(&self, sort: usize) -> usize
        ensures { (result ≡ spec.scope (sheet_of self.now.bytes.now) sort) × (result ≤ 8) }
    {
        scope_at(self.sorts(), sort)
    }

    // Whether a sort is bounded.
    pub fn is_bounded(&self, sort: usize) -> bool
        ensures { result ≡ spec.is_bounded (sheet_of self.now.bytes.now) sort }
    {
        129 <= byte(self.sorts(), sort)
    }

    // The membership cells of a sort.
    fn members_of(&self, sort: usize) -> usize
        ensures { (result ≡ members_of (sheet_of self.now.bytes.now) sort) × (result ≤ 8) }
    {
        if self.is_bounded(sort) {
            self.scope(sort)
        } else {
            0
        }
    }

    // The first membership cell of a sort: those of the sorts before it.
    pub fn first_member(&self, sort: usize) -> usize
        requires { sort ≤ 8 }
        ensures { (result ≡ first_member (sheet_of self.now.bytes.now) sort) × (result ≤ 8 * sort) }
    {
        let mut count = 0;
        for k in 0..sort {
            count += self.members_of(k);
        }
        count
    }

    // The sort of variable x.
    pub fn sort_of_variable(&self, x: usize) -> usize
        ensures { result ≡ spec.sort_of (sheet_of self.now.bytes.now) x }
    {
        byte(self.variables(), x)
    }

    // The scope of variable x's sort.
    pub fn scope_of_variable(&self, x: usize) -> usize
        ensures { (result ≡ spec.scope (sheet_of self.now.bytes.now) (spec.sort_of (sheet_of self.now.bytes.now) x)) × (result ≤ 8) }
    {
        self.scope(self.sort_of_variable(x))
    }
}
