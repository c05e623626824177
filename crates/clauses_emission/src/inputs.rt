// The inputs of an OR, in place: what is struck out, and what remains (document 02, Change 2).
ghost use Rattle.std.specs.Prelude.{◌≡◌, ◌∷◌, map};
ghost use Rattle.literal.specs.Literals.{opposite};
ghost use Rattle.literal.specs.Words.{literal_of};
ghost use Rattle.clauses_rules.specs.Translation.{absent};
ghost use Rattle.clauses_emission.specs.Emission.{Inside, AllInside, literals_of};
ghost use Rattle.clauses_emission.specs.Settling.{seen_in, Settles};

use super::Seen;

// Looks among the literals kept so far, and -1, for a literal and for its opposite.
fn look(kept: &[i32], l: i32) -> Seen
    requires { Inside 16002 (literal_of l) }
    ensures { result ≡ seen_in (absent ∷ literals_of kept.now) (literal_of l) }
{
    if l == -1 {
        return Seen::Itself;
    }
    if l == 1 {
        return Seen::Opposite;
    }
    let other = literal::opposite(l);
    for m in kept {
        if *m == l {
            return Seen::Itself;
        }
        if *m == other {
            return Seen::Opposite;
        }
    }
    Seen::Nothing
}

// Moves what remains of the inputs to the front, in order, and answers how many they are. Where the list gives 1, that is
// all that remains.
pub(crate) fn settle(inputs: &mut [i32]) -> usize
    requires { AllInside 16002 (literals_of inputs.old) }
    ensures { Settles inputs.old inputs.new result }
{
    let mut n: usize = 0;
    for k in 0..inputs.len() {
        let l = inputs[k];
        match look(&inputs[..n], l) {
            Seen::Nothing => {
                inputs[n] = l;
                n += 1;
            }
            Seen::Itself => {}
            Seen::Opposite => {
                inputs[0] = 1;
                return 1;
            }
        }
    }
    n
}

// Puts the opposite of each input in its place.
pub(crate) fn turn(inputs: &mut [i32])
    requires { AllInside 16002 (literals_of inputs.old) }
    ensures { literals_of inputs.new ≡ map opposite (literals_of inputs.old) }
{
    for l in inputs.iter_mut() {
        *l = literal::opposite(*l);
    }
}
