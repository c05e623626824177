// What the program `every` prints, call by call (document 02, Change 6), as text in a lent slice.
#![tactic(auto)]

ghost use Rattle.std.specs.Prelude.{◌≡◌, ◌≤◌, length, take};
ghost use Rattle.text.specs.Texts.{Prints};
ghost use Rattle.search.specs.Answers.{answer_of};
ghost use Rattle.search.specs.Resumed.{left};
ghost use Rattle.search.specs.Following.{following};
ghost use Rattle.solve_rules.specs.Finding.{instance_for};
ghost use Rattle.refusal.specs.Refusals.{number_of};
ghost use Rattle.clauses.specs.Answers.{count_answer};
ghost use Rattle.listing.specs.Printed.{finder_number, beginning, list_begun, begun_text, begun_of, bytes_in, standing, is_found, shown};

use answer::Piece;
use cells::MOST_CELLS;
use clauses::answer::Size;
use refusal::Refusal;
use report::finder::put_answer;
use search::answer::{End, Ended, Position, Resumed};
use search::followed;
use solve::read_back;
use text::put_end;

pub mod answer; // answer.rt: what the pieces of a listing answer

// What the finder says of an input that writing refuses: more than 2^31 - 1 words come before a list that is too short.
fn finder_refusal(input: &[u8], refused: Refusal) -> Refusal
    ensures { number_of result ≡ finder_number (count_answer input.now) (number_of refused) }
{
    let counted = clauses::count(input);
    match counted {
        Ok(size) if size.words > 2147483647 => Refusal::List,
        _ => refused,
    }
}

// Writes the clauses of an input to the list, with as many words as the finder has. A refusal is put to the front of the text, with the number
// that the finder prints (`SameRefusals`).
pub fn begin(input: &[u8], list: &mut [i32; 16384], text: &mut [u8; 2048]) -> Result<Size, usize>
    ensures value { result ≡ begun_of (beginning input.now list.old) }
    ensures list_after { list.new ≡ list_begun input.now list.old }
    ensures result_in_bounds { (bytes_in result ≤ length text.new) × (bytes_in result ≡ length (take (bytes_in result) text.new)) }
    ensures prints { Prints (begun_text (beginning input.now list.old)) text.old text.new (bytes_in result) }
{
    if input.len() > 4096 {
        return Err(put_end(text, b"refused ", 2));
    }
    let written = clauses::write(input, list);
    match written {
        Err(r) => {
            let told = finder_refusal(input, r);
            let bytes = put_end(text, b"refused ", refusal::number(told) as u64);
            Err(bytes)
        }
        Ok(size) => Ok(size),
    }
}

// Whether a call found a case.
fn is_found(answer: Result<Ended, Refusal>) -> bool
    ensures { result ≡ is_found (answer_of answer) }
{
    match answer {
        Ok(ended) => matches!(ended.end, End::Found),
        Err(_) => false,
    }
}

// One call for the next, and read-back of what it found.
fn find_next(
    input: &[u8],
    list: &[i32],
    v: u32,
    values: &mut [u8],
    trail: &mut [i32],
    position: Position,
    budget: u64,
    instance: &mut [u8],
) -> Resumed
    ensures position_after { left (answer_of result.answer) values.new trail.new result.position
        ≡ following list.now v values.old trail.old position budget }
    ensures instance_after { instance.new
        ≡ instance_for (answer_of result.answer) input.now (take v values.new) instance.old }
{
    let call = followed(list, v, values, trail, position, budget);
    let answer = call.answer;
    if is_found(answer) {
        let n = v as usize;
        let _ = read_back(input, &values[..n], instance);
        return call;
    }
    call
}

// One call for the next on a list of clauses, and read-back of what it found. The answer is put to the front of the text, with all steps since
// the record's zeros. `ShowsRead` says of a case that its lines are those of the instance read back.
pub fn next_text(
    input: &[u8],
    list: &[i32],
    v: u32,
    values: &mut [u8; 16000],
    trail: &mut [i32; 16000],
    position: Position,
    budget: u64,
    instance: &mut [u8; MOST_CELLS],
    text: &mut [u8; 2048],
) -> Piece
    ensures bytes_in_bounds { (result.bytes ≤ length text.new) × (result.bytes ≡ length (take result.bytes text.new)) }
    ensures prints { Prints
        (shown input.now list.now v (standing values.old trail.old position) budget
        instance.old).text
        text.old text.new result.bytes }
    ensures more_value { result.more
        ≡ (shown input.now list.now v (standing values.old trail.old position) budget
        instance.old).more }
    ensures position_after { standing values.new trail.new result.position
        ≡ (shown input.now list.now v (standing values.old trail.old position) budget
        instance.old).left }
    ensures instance_after { instance.new
        ≡ (shown input.now list.now v (standing values.old trail.old position) budget
        instance.old).instance }
{
    let call = find_next(input, list, v, values, trail, position, budget, instance);
    let answer = call.answer;
    let position = call.position;
    let bytes = put_answer(text, input, answer, instance);
    Piece {
        bytes,
        more: is_found(answer),
        position,
    }
}
