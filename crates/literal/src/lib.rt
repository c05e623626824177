// 32-bit literals (document 01, "Clauses"): a word is negated, its sign tested and its width changed here alone.
// A function that asks nothing takes every word, also the lowest number, which has no opposite.
#![tactic(auto)]

ghost use Rattle.std.specs.Prelude.{◌≡◌, min, ◌-◌, ◌≤◌, pos, nat_abs};
ghost use Rattle.literal.specs.Literals.{is_literal};
ghost use Rattle.literal.specs.Words.{is_positive, opposite_word, positive_word, count_of, last_variable};

// The last variable that a literal names.
const LAST_VARIABLE: u32 = i32::MAX as u32;

// The opposite literal; 0 for the lowest number.
pub fn opposite(l: i32) -> i32
    ensures { result ≡ opposite_word l }
{
    if l == i32::MIN {
        return 0;
    }
    -l
}

// The variable of a literal.
pub fn variable(l: i32) -> u32
    ensures { result ≡ nat_abs l }
{
    l.unsigned_abs()
}

// The place of a literal's variable, counted from 0. The word is known to be a literal: nothing is tested.
pub fn place(l: i32) -> usize
    requires { (1 ≤ nat_abs l) × (nat_abs l ≤ last_variable) }
    ensures { result ≡ nat_abs l - 1 }
{
    l.unsigned_abs() as usize - 1
}

// Whether a literal says that its variable is true.
pub fn is_positive(l: i32) -> bool
    ensures { result ≡ is_positive l }
{
    0 < l
}

// The literal that says that a variable is true; 0 for a variable that no word names.
pub fn positive(v: u32) -> i32
    ensures { result ≡ positive_word v }
{
    i32::try_from(v).unwrap_or(0)
}

// The count that a word gives; 0 for a word below 0.
pub fn count(w: i32) -> u32
    ensures { result ≡ count_of w }
{
    u32::try_from(w).unwrap_or(0)
}

// The count that a word gives. The word is known to be a count: nothing is tested.
pub fn known_count(w: i32) -> usize
    requires { w ≡ pos (count_of w) }
    ensures { result ≡ count_of w }
{
    w as usize
}

// Whether a word is a literal of the variables 1 to v. The lowest number is none, so v counts up to 2^31 - 1.
pub fn is_literal(l: i32, v: u32) -> bool
    ensures { result ≡ is_literal (min v last_variable) l }
{
    let n = l.unsigned_abs();
    1 <= n && n <= v.min(LAST_VARIABLE)
}
