// What stands for a clause: its weight or, where it names a variable twice, its status. One more than the weights of its literals is the weight of a
// clause; a false literal weighs 0, an open one 1, a true one 2.
ghost use Rattle.std.specs.Prelude.{◌≡◌, cond, [], ◌∷◌, ◌+◌, ◌<◌, ◌≤◌, nat_abs, length};
ghost use Rattle.clause_list.specs.ClauseList.{clauses_of};
ghost use Rattle.literal.specs.Words.{is_positive, last_variable};
ghost use Rattle.search_rules.specs.Inner.{Fine};
ghost use Rattle.search_scan.specs.Seen.{seen_as, seen};
ghost use Rattle.search_index.specs.Index.{limit, clause_at, IsHead, literal_weight, byte_weight};
ghost use Rattle.search_index.specs.Index.{Gains, byte_says, weight_of, status_of, mixed, told, one};

use search_scan::{Seen, scan};

// Above all weights: with a status added, what stands for a clause that names a variable twice.
pub const MIXED: u16 = 32768;

// The weight of the literal that says that its variable, which has this byte, is true: false 0, open 1, true 2.
// Kept: the build with a `match` here, an array in `gains` and more took 1.07 to 1.10 of the time over random lists.
fn byte_weight(x: u8) -> u16
    ensures { result ≡ byte_weight x }
{
    if x == 1 {
        return 2;
    }
    if x == 2 {
        return 1;
    }
    0
}

// 1 for a literal that says that its variable is true, else 0.
pub fn sign(l: i32) -> usize
    ensures { result ≡ cond (is_positive l) 1 0 }
{
    if literal::is_positive(l) { 1 } else { 0 }
}

// What the weights of the negative literal and of the positive one change by, and 2 more, where their variable's byte was another.
pub fn gains(was: u8, is: u8) -> [u16; 2]
    ensures { Gains was is result }
{
    let before = byte_weight(was);
    let after = byte_weight(is);
    let mut gains = [0u16; 2];
    gains[0] = 2 + before - after;
    gains[1] = 2 + after - before;
    gains
}

// The weight of a literal whose variable has this byte.
fn literal_weight(x: u8, l: i32) -> u16
    requires { 1 ≤ nat_abs l }
    ensures { result ≡ literal_weight (byte_says x l) }
{
    let w = byte_weight(x);
    if literal::is_positive(l) { w } else { 2 - w }
}

// The weight of the clause at a head.
pub fn weigh(list: &[i32], values: &[u8], head: usize) -> u16
    requires fine { Fine (length values.now) list.now }
    requires values_len_bound { length values.now ≤ last_variable }
    requires list_len_bound { length list.now ≤ limit }
    requires head { IsHead (clauses_of list.now) head }
    ensures { (h : IsHead (clauses_of list.now) head)
        → result ≡ weight_of values.now (clause_at (clauses_of list.now) h.c) }
{
    let end = head + 1 + literal::known_count(list[head]);
    let mut w: u16 = 1;
    let mut i = head + 1;
    while i < end {
        let l = list[i];
        let x = values[literal::place(l)];
        w += literal_weight(x, l);
        i += 1;
    }
    w
}

// What the values say of the clause at a head.
pub fn sight(list: &[i32], values: &[u8], head: usize) -> Seen
    requires fine { Fine (length values.now) list.now }
    requires values_len_bound { length values.now ≤ last_variable }
    requires head { IsHead (clauses_of list.now) head }
    ensures { (h : IsHead (clauses_of list.now) head)
        → seen_as result ≡ seen values.now (clause_at (clauses_of list.now) h.c ∷ []) }
{
    let end = head + 1 + literal::known_count(list[head]);
    scan(&list[head..end], values)
}

// What stands for the clause at a head where it names a variable twice.
pub fn look_up(list: &[i32], values: &[u8], head: usize) -> u16
    requires fine { Fine (length values.now) list.now }
    requires values_len_bound { length values.now ≤ last_variable }
    requires head { IsHead (clauses_of list.now) head }
    ensures { (h : IsHead (clauses_of list.now) head)
        → result ≡ mixed + status_of values.now (clause_at (clauses_of list.now) h.c) }
{
    let seen = sight(list, values, head);
    match seen {
        Seen::Conflict => MIXED + 1,
        Seen::UnitClause(_) => MIXED + 2,
        Seen::Neither => MIXED + 3,
    }
}

// The status that a weight tells: 1 false, 2 unit, 3 neither; 0 stands for no clause.
pub fn status(w: u16) -> u16
    ensures { result ≡ told w }
{
    if w >= MIXED {
        return w - MIXED;
    }
    if w >= 3 {
        return 3;
    }
    w
}
