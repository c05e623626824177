// The index at work: built from a list and its values, kept when a value changes, looked at. Where there are no weights there is no index: then the
// list is scanned, and nothing is kept.
ghost use Rattle.std.specs.Prelude.{◌≡◌, ℕ, ◌<◌, ◌≤◌, length, get_or, set};
ghost use Rattle.clause_list.specs.ClauseList.{clauses_of};
ghost use Rattle.literal.specs.Words.{last_variable};
ghost use Rattle.search_rules.specs.Inner.{Fine};
ghost use Rattle.search_scan.specs.Seen.{seen_as, seen};
ghost use Rattle.search_index.specs.Index.{limit, chain_words, weight_words, clause_at, Chains, Stands, Watched, Due};

use crate::blocks::{falses, first_unit, put};
use crate::chains::{count, enter, first, head, link, note_count, note_head, owner};
use crate::weights::{MIXED, gains, look_up, sight, sign, weigh};
use search_scan::{Seen, scan};

// The index of a list and its values, in blank arrays.
pub fn build(list: &[i32], values: &[u8], chains: &mut [u16], weights: &mut [u16])
    requires fine { Fine (length values.now) list.now }
    requires values_len_bound { (length values.now ≤ limit) × (length list.now ≤ limit) }
    requires chains_len { (length chains.old ≡ chain_words) × ((k : ℕ) → get_or chains.old k 0 ≡ 0) }
    requires weights_len { (length weights.old ≡ weight_words) × ((k : ℕ) → get_or weights.old k 0 ≡ 0) }
    ensures { Watched (clauses_of list.now) values.now chains.new weights.new }
{
    let mut at: usize = 0;
    let mut c: usize = 0;
    while at < list.len() {
        note_head(chains, c, at);
        let apart = enter(list, c, at, chains);
        let w = if apart {
            weigh(list, values, at)
        } else {
            look_up(list, values, at)
        };
        put(weights, c, w);
        at = at + 1 + literal::known_count(list[at]);
        c += 1;
    }
    note_count(chains, c);
}

// What stands for the clause of word i, where w stood for it before the byte of its variable changed. (A table, and no branch, tells the two signs
// apart: which one comes next is not to be foreseen.)
fn renewed(list: &[i32], values: &[u8], chains: &[u16], gains: &[u16; 2], i: usize, w: u16) -> u16
    requires fine { Fine (length values.now) list.now }
    requires values_len_bound { length values.now ≤ last_variable }
    requires chains { Chains (clauses_of list.now) chains.now }
    requires due { Due (clauses_of list.now) values.now gains.now i w }
    ensures { (d : Due (clauses_of list.now) values.now gains.now i w)
        → Stands values.now (clause_at (clauses_of list.now) d.spot.c) result }
{
    if w >= MIXED {
        let c = owner(chains, i);
        let at = head(chains, c);
        return look_up(list, values, at);
    }
    let s = sign(list[i]);
    w + gains[s] - 2
}

// The clauses that name a variable whose byte was another are put right.
pub fn touch(list: &[i32], values: &[u8], chains: &[u16], weights: &mut [u16], p: usize, was: u8)
    requires fine { Fine (length values.now) list.now }
    requires values_len_bound { length values.now ≤ last_variable }
    requires p_in_bounds { p < length values.now }
    requires watched { Watched (clauses_of list.now) (set values.now p was) chains.now weights.old }
    ensures { Watched (clauses_of list.now) values.now chains.now weights.new }
{
    if weights.len() == 0 {
        return;
    }
    let gains = gains(was, values[p]);
    let mut i = first(chains, p);
    while i > 0 {
        let c = owner(chains, i);
        let w = renewed(list, values, chains, &gains, i, weights[c]);
        put(weights, c, w);
        i = link(chains, i);
    }
}

// What a look over the clauses shows.
pub fn look(list: &[i32], values: &[u8], chains: &[u16], weights: &mut [u16]) -> Seen
    requires fine { Fine (length values.now) list.now }
    requires values_len_bound { length values.now ≤ last_variable }
    requires watched { Watched (clauses_of list.now) values.now chains.now weights.old }
    ensures result_value { seen_as result ≡ seen values.now (clauses_of list.now) }
    ensures watched_2 { Watched (clauses_of list.now) values.now chains.now weights.new }
{
    if weights.len() == 0 {
        return scan(list, values);
    }
    if falses(weights) > 0 {
        return Seen::Conflict;
    }
    let m = count(chains);
    let c = first_unit(weights, m);
    if c < m {
        let at = head(chains, c);
        return sight(list, values, at);
    }
    Seen::Neither
}
