// Clause lists in 32-bit words: the test of number 12 (document 01, "Answers that decline").
#![tactic(auto)]

ghost use Rattle.std.specs.Prelude.{◌≡◌, ◌≤◌};
ghost use Rattle.prelude.specs.Tests.{all};
ghost use Rattle.literal.specs.Literals.{is_literal};
ghost use Rattle.clause_list.specs.ClauseList.{is_list};

const MOST_VARIABLES: u32 = 16000;

const MOST_WORDS: usize = 2147483647;

// Whether each word is a literal of the variables 1 to v.
fn are_literals(words: &[i32], v: u32) -> bool
    requires { v ≤ 16000 }
    ensures { result ≡ all (is_literal v) words.now }
{
    words.iter().all(|word| literal::is_literal(*word, v))
}

// Whether number 12 does not apply to a list and its number of variables.
pub fn is_list(list: &[i32], v: u32) -> bool
    ensures { result ≡ is_list v list.now }
{
    if v < 1 || v > MOST_VARIABLES || list.len() > MOST_WORDS {
        return false;
    }
    let mut rest = list;
    while let Some((head, words)) = rest.split_first() {
        let count = literal::count(*head) as usize;
        if count < 1 {
            return false;
        }
        let Some((clause, after)) = words.split_at_checked(count) else {
            return false;
        };
        if !are_literals(clause, v) {
            return false;
        }
        rest = after;
    }
    true
}
