// What the values say of a literal and of the clause list.
#![tactic(auto)]

ghost use Rattle.std.specs.Prelude.{◌≡◌, ◌≤◌, length};
ghost use Rattle.clause_list.specs.ClauseList.{clauses_of};
ghost use Rattle.literal.specs.Words.{last_variable};
ghost use Rattle.search_rules.specs.Rules.{literal};
ghost use Rattle.search_rules.specs.Held.{InRange};
ghost use Rattle.search_rules.specs.Inner.{Fine};
ghost use Rattle.search_scan.specs.Seen.{truth_code, seen_as, seen};

// What a look over the clauses shows.
#[derive(Clone, Copy)]
pub enum Seen {
    Conflict,
    UnitClause(i32),
    Neither,
}

// What the values say of a literal: 0 false, 1 true, 2 open.
fn truth(values: &[u8], l: i32) -> u8
    requires in_range { InRange (length values.now) l }
    requires values_len_bound { length values.now ≤ last_variable }
    ensures { result ≡ truth_code (literal values.now l) }
{
    let at = literal::place(l);
    let x = values[at];
    if x == 2 {
        return 2;
    }
    if literal::is_positive(l) {
        if x == 1 { 1 } else { 0 }
    } else {
        if x == 1 { 0 } else { 1 }
    }
}

// One pass: a clause with only false literals anywhere, else the first clause with no true literal whose open literals are all
// the same. A clause is left at a true literal, and as soon as it can be neither.
pub fn scan(list: &[i32], values: &[u8]) -> Seen
    requires fine { Fine (length values.now) list.now }
    requires values_len_bound { length values.now ≤ last_variable }
    ensures { seen_as result ≡ seen values.now (clauses_of list.now) }
{
    // Kept: document 01 names the form, a scan whose loop over a clause's literals is left by label at a true one.
    let mut at: usize = 0;
    let mut unit: i32 = 0;
    'clauses: while at < list.len() {
        let head = list[at];
        let count = literal::known_count(head);
        let mut i = at + 1;
        at = i + count;
        let mut open: i32 = 0;
        while i < at {
            let l = list[i];
            let t = truth(values, l);
            if t == 1 {
                continue 'clauses;
            }
            if t == 2 {
                if unit != 0 {
                    continue 'clauses;
                }
                if open == 0 {
                    open = l;
                } else if open != l {
                    continue 'clauses;
                }
            }
            i += 1;
        }
        if open == 0 {
            return Seen::Conflict;
        }
        unit = open;
    }
    if unit == 0 {
        return Seen::Neither;
    }
    Seen::UnitClause(unit)
}
