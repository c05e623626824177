// The search, call by call.
ghost use Rattle.std.specs.Prelude.{◌≡◌};
ghost use Rattle.search.specs.Answers.{answer_of};
ghost use Rattle.search.specs.Resumed.{left, resumption};
ghost use Rattle.search.specs.Resuming.{start};
ghost use Rattle.onward.specs.Limits.{most_steps};
ghost use Rattle.onward.specs.Private.{spent_in};

use super::shown::{end_line, show};
use refusal::Refusal;
use report::finder::step_figure;
use search::answer::{End, Ended, Position, Resumed, Steps};
use search::resumed;
use std::io::Stderr;

// The steps that one call is allowed.
const STEPS: u64 = 1000000;

// The calls that are made at most.
const CALLS: u64 = 18446744073709;

// The steps of a call that was spent.
fn spent_steps(answer: Result<Ended, Refusal>) -> Option<Steps>
    ensures { result ≡ spent_in (answer_of answer) }
{
    match answer {
        Ok(ended) => match ended.end {
            End::Spent => Some(ended.steps),
            End::Found => None,
            End::None => None,
        },
        Err(_) => None,
    }
}

// Takes the search up from a record of zeros on, call after call, until one is not spent. Its answer, its position and all that it
// leaves are those of one call of all the steps.
pub(crate) fn go_on(
    list: &[i32],
    v: u32,
    values: &mut [u8],
    trail: &mut [i32],
    errors: Stderr,
) -> Resumed
    ensures { left (answer_of result.answer) values.new trail.new result.position
        ≡ resumption list.now v values.old trail.old start most_steps }
{
    let mut position = Position {
        length: 0,
        propagations: 0,
        decisions: 0,
        backtracks: 0,
    };
    for done in 0..CALLS {
        let call = resumed(list, v, values, trail, position, STEPS);
        let Some(steps) = spent_steps(call.answer) else {
            // a call before this one was spent, and shown
            end_line(done > 0, errors);
            return call;
        };
        position = call.position;
        show(step_figure(steps), errors);
    }
    end_line(true, errors);
    resumed(list, v, values, trail, position, 0)
}
