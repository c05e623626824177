// The walk over a list, from clause to clause.
ghost use Rattle.std.specs.Prelude.{◌≡◌, [], MatchOption};
ghost use Rattle.dimacs.specs.Private.{Cut, Front};

// The clause in front of a list, and the list after it.
pub fn split_clause(list: &[i32]) -> Option<(&[i32], &[i32])>
    requires { Cut list.now }
    ensures { MatchOption result (list.now ≡ []) (λ p. Front list.now p.0.now p.1.now) }
{
    let (head, words) = list.split_first()?;
    Some(words.split_at(literal::count(*head) as usize))
}
