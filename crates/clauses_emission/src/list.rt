// Clauses in the lent list, each headed by its literal count: what lies past the list's end is counted and not stored.
ghost use Rattle.std.specs.Prelude.{◌≡◌, [], ◌∷◌, suc, ◌≤◌, pos, negsuc, length, get_or, set};
ghost use Rattle.prelude.specs.Stores.{put_all};
ghost use Rattle.literal.specs.Words.{literal_of};
ghost use Rattle.clauses_emission.specs.Emission.{literals_of, most_inputs, Appends, Room};

use super::Tape;

// Stores a word where the list has a place for it.
// Kept: with `get_mut` the check knows nothing of the element that was written (the kit's NOT_COVERED.md).
fn put(list: &mut [i32], at: usize, word: i32)
    ensures { list.new ≡ set list.old at word }
{
    if at < list.len() {
        list[at] = word;
    }
}

// The clause writer: writes a clause from the start of the part not yet filled.
fn write_clause(rest: &mut [i32], first: i32, others: &[i32])
    requires { length others.now ≤ most_inputs }
    ensures { rest.new ≡ put_all rest.old 0
        (pos (suc (length others.now)) ∷ first ∷ others.now) }
{
    put(rest, 0, literal::positive((1 + others.len()) as u32));
    put(rest, 1, first);
    for (k, l) in others.iter().enumerate() {
        put(rest, 2 + k, *l);
    }
}

// Lends the part not yet filled, if the list reaches that far, to the clause writer.
fn write_at(list: &mut [i32], at: usize, first: i32, others: &[i32])
    requires { length others.now ≤ most_inputs }
    ensures { list.new ≡ put_all list.old at
        (pos (suc (length others.now)) ∷ first ∷ others.now) }
{
    if at <= list.len() {
        write_clause(&mut list[at..], first, others);
    }
}

// One more clause: a first literal, and others.
pub fn emit_clause(list: &mut [i32], tape: &mut Tape, first: i32, others: &[i32])
    requires { Room tape.old others.now }
    ensures { Appends ((literal_of first ∷ literals_of others.now) ∷ []) list.old tape.old list.new tape.new }
{
    write_at(list, tape.words, first, others);
    tape.clauses += 1;
    tape.words += 2 + others.len();
}

// The word at i; past the end it counts as -1.
pub fn word_at(given: &[i32], i: usize) -> i32
    ensures { result ≡ get_or given.now i (negsuc 0) }
{
    given.get(i).copied().unwrap_or(-1)
}
