// From a sheet to an answer, with a search that is taken up again until it ends.
#![tactic(auto)]

ghost use Rattle.std.specs.Prelude.{◌≡◌, ◌≤◌, length, take};
ghost use Rattle.text.specs.Texts.{Prints};
ghost use Rattle.search.specs.Answers.{answer_of};
ghost use Rattle.solve_rules.specs.Finding.{slices, finding};
ghost use Rattle.solve_rules.specs.Finds.{Finds};
ghost use Rattle.report.specs.Printed.{finding_text, slices_after};
ghost use Rattle.report.specs.Tells.{Tells};
ghost use Rattle.onward.specs.Limits.{most_steps};

use begun::take_up;
use cells::MOST_CELLS;
use refusal::Refusal;
use report::finder::put_report;
use search::answer::{End, Ended};
use solve::find;
use std::io::Stderr;
use text::put_end;

mod begun; // begun.rt: a search that was begun with no steps, and is taken up
mod calls; // calls.rt: the search, call by call
mod shown; // shown.rt: the steps done, on standard error

// From a sheet to an answer, as `solve::find`, and the search is taken up by 1,000,000 steps at a time until it ends. The answer and what
// it leaves are those of the definition `finding` with a budget of all those steps; `Finds` says in the paper's words what the answer means.
pub fn find_on(
    sheet: &[u8],
    list: &mut [i32],
    values: &mut [u8],
    trail: &mut [i32],
    instance: &mut [u8],
    errors: Stderr,
) -> Result<Ended, Refusal>
    ensures result_value { answer_of result
        ≡ (finding sheet.now
        (slices list.old values.old trail.old instance.old) most_steps).answer }
    ensures instance_after { slices list.new values.new trail.new instance.new
        ≡ (finding sheet.now
        (slices list.old values.old trail.old instance.old) most_steps).left }
    ensures finds { Finds sheet.now
        (slices list.old values.old trail.old instance.old) most_steps
        (answer_of result) (slices list.new values.new trail.new instance.new) }
{
    let begun = find(sheet, list, values, trail, instance, 0)?;
    if let End::Spent = begun.end {
        return take_up(sheet, list, values, trail, instance, errors);
    }
    Ok(begun)
}

// Reads the input as a sheet, and writes to the front of the text what the finder prints, of a search that is taken up until it ends. What
// the bytes are is said as of `report::finder::find_text`, with a budget of all the steps.
pub fn find_on_text(
    input: &[u8],
    list: &mut [i32; 16384],
    values: &mut [u8; 16000],
    trail: &mut [i32; 16000],
    instance: &mut [u8; MOST_CELLS],
    text: &mut [u8; 2048],
    errors: Stderr,
) -> usize
    ensures upper_bound { (result ≤ length text.new) × (result ≡ length (take result text.new)) }
    ensures prints { Prints
        (finding_text most_steps input.now
        (slices list.old values.old trail.old instance.old))
        text.old text.new result }
    ensures instance_after { slices list.new values.new trail.new instance.new
        ≡ slices_after most_steps input.now
        (slices list.old values.old trail.old instance.old) }
    ensures tells { Tells input.now (take result text.new) }
{
    if input.len() > 4096 {
        return put_end(text, b"refused ", 2);
    }
    let ended = find_on(input, list, values, trail, instance, errors);
    put_report(text, input, ended, instance)
}
