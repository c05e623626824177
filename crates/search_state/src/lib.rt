// Number 14 (document 02, Changes 1 and 3): whether values, trail and a length hold a state of the rules, and whether the steps are too many.
#![tactic(auto)]

ghost use Rattle.std.specs.Prelude.{◌≡◌, not, ◌&&◌, ◌+◌, ◌≤◌, pos, nat_abs, length, get_or};
ghost use Rattle.std.specs.Option.{SomeIff};
ghost use Rattle.prelude.specs.Tests.{each, any};
ghost use Rattle.literal.specs.Literals.{is_literal};
ghost use Rattle.search_rules.specs.Rules.{same_literal, place_of};
ghost use Rattle.search_rules.specs.Run.{total};
ghost use Rattle.search_rules.specs.Held.{goes_with, no_state, steps_of, step_limit, too_many};
ghost use Rattle.search_state.specs.Inner.{MarkedIf, Empty, settled};

use search_rules::Position;

// Whether a literal goes with the byte of its variable.
fn goes_with(l: i32, b: u8) -> bool
    requires { 1 ≤ nat_abs l }
    ensures { result ≡ goes_with l b }
{
    if literal::is_positive(l) {
        b == 1
    } else {
        matches!(b, 0 | 3)
    }
}

// Whether a word is a literal of the variables and goes with its value.
fn agrees(values: &[u8], l: i32) -> bool
    requires { length values.now ≤ 16000 }
    ensures { result ≡ (is_literal (length values.now) l && goes_with l (get_or values.now (place_of l) 2)) }
{
    let v = values.len() as u32;
    literal::is_literal(l, v) && goes_with(l, values[literal::place(l)])
}

// Marks the variables of the literals in an empty table, up to the first literal that strays, repeats or contradicts its value.
fn mark(values: &[u8], literals: &[i32], seen: &mut [bool]) -> bool
    requires values_len_bound { length values.now ≤ 16000 }
    requires values_in_bounds { length values.now ≤ length seen.old }
    requires empty { Empty seen.old }
    ensures { MarkedIf result values.now literals.now seen.new }
{
    for l in literals {
        if !agrees(values, *l) {
            return false;
        }
        let at = literal::place(*l);
        if seen[at] {
            return false;
        }
        seen[at] = true;
    }
    true
}

// Whether each value without a mark is open.
fn open_outside(values: &[u8], seen: &[bool]) -> bool
    requires { length values.now ≤ length seen.now }
    ensures { result ≡ each (length values.now) (settled values.now seen.now) }
{
    (0..values.len()).all(|i| seen[i] || values[i] == 2)
}

fn is_zero(word: i32) -> bool
    ensures { result ≡ same_literal word (pos 0) }
{
    word == 0
}

// Whether each word is 0.
fn all_zero(words: &[i32]) -> bool
    ensures { result ≡ not (any (λ w. not (same_literal w (pos 0))) words.now) }
{
    words.iter().copied().all(is_zero)
}

// Whether values and trail hold a state, with so many words of the trail in use; over a table with a flag for each variable.
fn holds<const N: usize>(values: &[u8], trail: &[i32], used: usize) -> bool
    requires values_in_bounds { length values.now ≤ N }
    requires table_bound { N ≤ 16000 }
    requires trail_len { length trail.now ≡ length values.now }
    requires used_in_bounds { used ≤ length values.now }
    ensures { result ≡ not (no_state (length values.now) values.now trail.now used) }
{
    let mut seen = [false; N];
    let (literals, rest) = trail.split_at(used);
    if !mark(values, literals, &mut seen) {
        return false;
    }
    open_outside(values, &seen) && all_zero(rest)
}

// Whether slices of one byte and one word for each variable hold a state, with so many words of the trail in use. Few variables take
// a small table, which is filled in less time than a step takes.
pub fn is_state(values: &[u8], trail: &[i32], used: usize) -> bool
    requires values_len_bound { length values.now ≤ 16000 }
    requires trail_len { length trail.now ≡ length values.now }
    ensures { result ≡ not (no_state (length values.now) values.now trail.now used) }
{
    if values.len() < used {
        return false;
    }
    if values.len() <= 256 {
        holds::<256>(values, trail, used)
    } else {
        holds::<16000>(values, trail, used)
    }
}

// The steps done, of all three kinds, and those allowed; none where they pass 2^64 - 1.
#[tactic(auto, unfolding(search_rules::specs::Run::total))]
fn all_steps(done: Position, budget: u64) -> Option<u64>
    ensures { SomeIff result
        (total (steps_of done) + budget ≤ step_limit)
        (total (steps_of done) + budget) }
{
    let steps = done.propagations.checked_add(done.decisions)?;
    steps.checked_add(done.backtracks)?.checked_add(budget)
}

// Whether the steps done and those allowed pass 2^64 - 1.
pub fn too_many(done: Position, budget: u64) -> bool
    ensures { result ≡ too_many (steps_of done) budget }
{
    all_steps(done, budget).is_none()
}
