// Bytes and lengths of a sheet.
ghost use Rattle.std.specs.Prelude.{◌≡◌, ◌+◌, ◌*◌, ◌<◌, ◌≤◌};
ghost use Rattle.sheet_rules.specs.Blocks as blocks;
ghost use Rattle.sheet.specs.Filling.{scope_in};

// The byte at i; past the end it counts as 0.
pub fn byte(s: &[u8], i: usize) -> usize
    ensures { (result ≡ blocks.byte s.now i) × (result < 256) }
{
    s.get(i).map_or(0, |b| usize::from(*b))
}

// Byte k of record i of a block whose records have so many bytes.
pub fn field(block: &[u8], size: usize, i: usize, k: usize) -> usize
    requires { (size ≤ 4) × ((i ≤ 256) × (k ≤ 4)) }
    ensures { (result ≡ blocks.byte block.now (size * i + k)) × (result < 256) }
{
    byte(block, size * i + k)
}

// The head of the block after the one whose head this is.
pub(crate) fn after(s: &[u8], head: usize) -> usize
    requires { head ≤ 200000 }
    ensures { (result ≡ blocks.after s.now head) × (result ≤ head + 65537) }
{
    head + 2 + (byte(s, head) * 256 + byte(s, head + 1))
}

// The atoms that sort k can have: a byte from 129 on is a limit.
pub fn scope_at(sorts: &[u8], k: usize) -> usize
    ensures { (result ≡ scope_in sorts.now k) × (result < 256) }
{
    let b = byte(sorts, k);
    if 129 <= b { b - 128 } else { b }
}
