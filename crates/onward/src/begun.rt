// A search that was begun with no steps, and is taken up.
ghost use Rattle.std.specs.Prelude.{◌≡◌};
ghost use Rattle.clauses.specs.Answers.{fits, count_answer};
ghost use Rattle.search.specs.Answers.{answer_of};
ghost use Rattle.solve_rules.specs.Finding.{Slices, slices};
ghost use Rattle.solve.specs.Private.{Left};
ghost use Rattle.onward.specs.Limits.{most_steps};
ghost use Rattle.onward.specs.Private.{Begun, SomeBegun};

use super::calls::go_on;
use clauses::answer::Size;
use clauses::count;
use refusal::Refusal;
use search::answer::{End, Ended};
use solve::read_back;
use std::io::Stderr;

// The search over the clauses that were written, from open values on, and read-back after `found`.
fn run_on(
    sheet: &[u8],
    size: Size,
    list: &[i32],
    values: &mut [u8],
    trail: &mut [i32],
    instance: &mut [u8],
    errors: Stderr,
) -> Result<Ended, Refusal>
    requires sheet_value { count_answer sheet.now ≡ fits size.variables size.clauses size.words }
    requires some_begun { SomeBegun sheet.now (slices list.now values.old trail.old instance.old) }
    ensures { (lent : Slices)
        → Begun sheet.now lent
        (slices list.now values.old trail.old instance.old)
        → Left sheet.now lent most_steps (answer_of result)
        (slices list.now values.new trail.new instance.new) }
{
    let v = size.variables;
    let w = size.words;
    let run = go_on(&list[..w], v as u32, values, trail, errors);
    let ended = run.answer?;
    if let End::Found = ended.end {
        let _ = read_back(sheet, &values[..v], instance);
        return Ok(ended);
    }
    Ok(ended)
}

// Counting, and the search of a sheet of which a call with no steps was spent.
pub(crate) fn take_up(
    sheet: &[u8],
    list: &[i32],
    values: &mut [u8],
    trail: &mut [i32],
    instance: &mut [u8],
    errors: Stderr,
) -> Result<Ended, Refusal>
    requires { SomeBegun sheet.now (slices list.now values.old trail.old instance.old) }
    ensures { (lent : Slices)
        → Begun sheet.now lent
        (slices list.now values.old trail.old instance.old)
        → Left sheet.now lent most_steps (answer_of result)
        (slices list.now values.new trail.new instance.new) }
{
    let size = count(sheet)?;
    run_on(sheet, size, list, values, trail, instance, errors)
}
