// What stands for each clause, in one array; behind that a flag for each block of 16 clauses, which is up where one of them is a unit clause, the
// number of false clauses, and a block that no unit clause is before.
ghost use Rattle.std.specs.Prelude.{◌≡◌, cond, ℕ, ◌+◌, ◌<◌, ◌≤◌, eqb, length, get_or};
ghost use Rattle.search_index.specs.Index.{limit, blocks, weight_words, Raised};
ghost use Rattle.search_index.specs.Index.{falses_at, one, Tallied, Noted, Put};
ghost use Rattle.search_index.specs.Index.{Stopped, Same};

use crate::chains::{LIMIT, wide};
use crate::weights::status;

const BLOCK: usize = 16;

const FLAGS: usize = LIMIT;

const FALSES: usize = LIMIT + LIMIT / BLOCK;

const LOW: usize = FALSES + 1;

// Weights of no clause.
pub fn blank_weights() -> [u16; LOW + 1]
    ensures { (length result ≡ weight_words) × ((k : ℕ) → get_or result k 0 ≡ 0) }
{
    [0u16; LOW + 1]
}

// The number of false clauses where a clause of one status gets another.
fn recount(falses: u16, old: u16, new: u16) -> u16
    requires { (falses ≤ limit) × (old ≡ 1 → 1 ≤ falses) × (old ≡ new → ⊥) }
    ensures { result + cond (eqb old 1) 1 0 ≡ falses + cond (eqb new 1) 1 0 }
{
    if new == 1 {
        return falses + 1;
    }
    if old == 1 {
        return falses - 1;
    }
    falses
}

// The flag of a block goes up, and the search for a unit clause begins no later than there.
fn raise(weights: &mut [u16], b: usize)
    requires { (length weights.old ≡ weight_words) × (b < blocks) }
    ensures { Raised weights.old b weights.new }
{
    weights[FLAGS + b] = 1;
    if b < wide(weights[LOW]) {
        weights[LOW] = b as u16;
    }
}

// The block of clause c and the number of false clauses follow its status.
fn note_status(weights: &mut [u16], c: usize, old: u16, new: u16)
    requires weights_len { (length weights.old ≡ weight_words) × (c < limit) }
    requires weights_bound { (falses_at weights.old ≤ limit) × (old ≡ 1 → 1 ≤ falses_at weights.old) × (old ≡ new → ⊥) }
    ensures { Noted weights.old c old new weights.new }
{
    if new == 2 {
        raise(weights, c / BLOCK);
    }
    let falses = weights[FALSES];
    weights[FALSES] = recount(falses, old, new);
}

// Something else stands for clause c.
pub fn put(weights: &mut [u16], c: usize, w: u16)
    requires weights_len { (length weights.old ≡ weight_words) × (c < limit) }
    requires c_bound { (one (get_or weights.old c 0) ≤ falses_at weights.old) × (falses_at weights.old ≤ limit) }
    ensures { Put weights.old c w weights.new }
{
    let old = status(weights[c]);
    let new = status(w);
    weights[c] = w;
    if new != old {
        note_status(weights, c, old, new);
    }
}

// The first unit clause from one on and below another, or the latter.
fn unit_within(weights: &[u16], from: usize, end: usize) -> usize
    requires { (length weights.now ≡ weight_words) × (from ≤ end) × (end ≤ limit) }
    ensures { Stopped weights.now from end result }
{
    for c in from..end {
        if status(weights[c]) == 2 {
            return c;
        }
    }
    end
}

// The first unit clause of m clauses, or m. A flag that is up for no unit clause is lowered.
fn walk_blocks(weights: &mut [u16], m: usize) -> usize
    requires tallied { Tallied weights.old m }
    requires m_le_limit { m ≤ limit }
    ensures stopped { Stopped weights.old 0 m result }
    ensures same { Same weights.old weights.new × Tallied weights.new m }
{
    let mut b = wide(weights[LOW]);
    let mut at = BLOCK * b;
    while at < m {
        if weights[FLAGS + b] == 1 {
            let end = (at + BLOCK).min(m);
            let c = unit_within(weights, at, end);
            if c < end {
                return c;
            }
            weights[FLAGS + b] = 0;
        }
        b += 1;
        at += BLOCK;
    }
    m
}

// The same, and the next search begins there.
pub fn first_unit(weights: &mut [u16], m: usize) -> usize
    requires tallied { Tallied weights.old m }
    requires m_le_limit { m ≤ limit }
    ensures stopped { Stopped weights.old 0 m result }
    ensures same { Same weights.old weights.new × Tallied weights.new m }
{
    let c = walk_blocks(weights, m);
    weights[LOW] = (c / BLOCK) as u16;
    c
}

// The number of false clauses.
pub fn falses(weights: &[u16]) -> usize
    requires { length weights.now ≡ weight_words }
    ensures { result ≡ falses_at weights.now }
{
    wide(weights[FALSES])
}
