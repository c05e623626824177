// Counting and writing the clauses of a sheet (document 01, "Clauses").
#![tactic(auto)]

ghost use Rattle.std.specs.Prelude.{◌≡◌};
ghost use Rattle.clauses.specs.Answers.{fits, answer_of, count_answer, write_answer, list_after};
ghost use Rattle.clauses.specs.Translating.{Numbered, size_answer};

use answer::Size;
use cells::Sheet;
use clauses_emission::{LIMIT, Tape};
use refusal::Refusal;
use whole::translate;

pub mod answer; // answer.rt: what counting and writing answer
mod whole; // whole.rt: the clauses of an accepted sheet

// What a whole translation comes to.
fn size_of(tape: Tape) -> Result<Size, Refusal>
    requires { Numbered tape }
    ensures { answer_of result ≡ size_answer tape }
{
    if LIMIT < tape.next {
        return Err(Refusal::Size);
    }
    let size = Size {
        variables: tape.next - 1,
        clauses: tape.clauses,
        words: tape.words,
    };
    Ok(size)
}

// Counting: the translation over an empty list.
fn count_accepted(sheet: &Sheet) -> Result<Size, Refusal>
    ensures { answer_of result ≡ count_answer sheet.now.bytes.now }
{
    let mut nothing = [0i32; 1];
    size_of(translate(&mut nothing[..0], sheet))
}

// The numbers of variables, clauses and words of a sheet's clauses.
pub fn count(sheet: &[u8]) -> Result<Size, Refusal>
    ensures { answer_of result ≡ count_answer sheet.now }
{
    let sheet = Sheet::read(sheet)?;
    count_accepted(&sheet)
}

// Nothing is written before the count is known to fit: 13 if the list is too short, else the same translation over the
// list.
fn write_accepted(sheet: &Sheet, list: &mut [i32]) -> Result<Size, Refusal>
    ensures result_value { answer_of result ≡ write_answer sheet.now.bytes.now list.old }
    ensures list_after { list.new ≡ list_after sheet.now.bytes.now list.old }
{
    let size = count_accepted(sheet)?;
    if list.len() < size.words {
        return Err(Refusal::Short);
    }
    size_of(translate(list, sheet))
}

// Writes the words of a sheet's clauses into the list; what lies after them stays.
pub fn write(sheet: &[u8], list: &mut [i32]) -> Result<Size, Refusal>
    ensures result_value { answer_of result ≡ write_answer sheet.now list.old }
    ensures list_after { list.new ≡ list_after sheet.now list.old }
{
    let sheet = Sheet::read(sheet)?;
    write_accepted(&sheet, list)
}
