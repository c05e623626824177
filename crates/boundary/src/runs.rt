// Search, a search taken up again, the call for the next, read-back, and the whole run over lent slices.
ghost use Rattle.std.specs.Prelude.{◌≡◌};
ghost use Rattle.search.specs.Answers as searched;
ghost use Rattle.search.specs.Answers.{outcome};
ghost use Rattle.search.specs.Resumed.{resumption};
ghost use Rattle.search.specs.Following.{following};
ghost use Rattle.solve_rules.specs.Answers as back;
ghost use Rattle.solve.specs.Answers.{answer_of};
ghost use Rattle.solve_rules.specs.Finding.{slices, finding};
ghost use Rattle.boundary.specs.Numbers.{end_numbers, search_numbers, FindsNumbers, copy_numbers};

use super::answer::{ReadBackAnswer, ResumedAnswer, SearchAnswer};
use refusal::Refusal;
use search::answer::{End, Ended, Position, Resumed, Steps};

fn end_numbers(end: u32, steps: Steps) -> SearchAnswer
    ensures { result ≡ end_numbers end steps }
{
    SearchAnswer {
        refusal: 0,
        end,
        propagations: steps.propagations,
        decisions: steps.decisions,
        backtracks: steps.backtracks,
    }
}

fn search_numbers(answer: Result<Ended, Refusal>) -> SearchAnswer
    ensures { result ≡ search_numbers (searched.answer_of answer) }
{
    match answer {
        Ok(ended) => match ended.end {
            End::Found => end_numbers(1, ended.steps),
            End::None => end_numbers(2, ended.steps),
            End::Spent => end_numbers(3, ended.steps),
        },
        Err(r) => SearchAnswer {
            refusal: refusal::number(r),
            end: 0,
            propagations: 0,
            decisions: 0,
            backtracks: 0,
        },
    }
}

pub fn fawnloom_search(
    list: &[i32],
    v: u32,
    values: &mut [u8],
    trail: &mut [i32],
    budget: u64,
) -> SearchAnswer
    ensures value { result ≡ search_numbers (outcome list.now v values.old trail.old budget).answer }
    ensures values_after { values.new ≡ (outcome list.now v values.old trail.old budget).values }
    ensures trail_after { trail.new ≡ (outcome list.now v values.old trail.old budget).trail }
{
    search_numbers(search::search(list, v, values, trail, budget))
}

// The numbers of a call that took up a state.
fn in_numbers(ended: Resumed) -> ResumedAnswer
    ensures { (result.answer ≡ search_numbers (searched.answer_of ended.answer)) × (result.position ≡ ended.position) }
{
    let end = ended.answer;
    let answer = search_numbers(end);
    let position = ended.position;
    ResumedAnswer { answer, position }
}

// The search taken up again, by value.
fn resumed_answer(
    list: &[i32],
    v: u32,
    values: &mut [u8],
    trail: &mut [i32],
    position: Position,
    budget: u64,
) -> ResumedAnswer
    ensures answer_value { result.answer
        ≡ search_numbers (resumption list.now v values.old trail.old position budget).outcome.answer }
    ensures values_after { values.new
        ≡ (resumption list.now v values.old trail.old position budget).outcome.values }
    ensures trail_after { trail.new
        ≡ (resumption list.now v values.old trail.old position budget).outcome.trail }
    ensures position_value { result.position
        ≡ (resumption list.now v values.old trail.old position budget).position }
{
    in_numbers(search::resumed(list, v, values, trail, position, budget))
}

// The search taken up again at the position that is lent by its address.
pub fn fawnloom_resume(
    list: &[i32],
    v: u32,
    values: &mut [u8],
    trail: &mut [i32],
    position: &mut Position,
    budget: u64,
) -> SearchAnswer
    ensures value { result
        ≡ search_numbers (resumption list.now v values.old trail.old position.old budget).outcome.answer }
    ensures values_after { values.new
        ≡ (resumption list.now v values.old trail.old position.old budget).outcome.values }
    ensures trail_after { trail.new
        ≡ (resumption list.now v values.old trail.old position.old budget).outcome.trail }
    ensures position_after { position.new
        ≡ (resumption list.now v values.old trail.old position.old budget).position }
{
    let p = *position;
    let ended = resumed_answer(list, v, values, trail, p, budget);
    *position = ended.position;
    ended.answer
}

// The call for the next, by value.
fn followed_answer(
    list: &[i32],
    v: u32,
    values: &mut [u8],
    trail: &mut [i32],
    position: Position,
    budget: u64,
) -> ResumedAnswer
    ensures answer_value { result.answer
        ≡ search_numbers (following list.now v values.old trail.old position budget).outcome.answer }
    ensures values_after { values.new
        ≡ (following list.now v values.old trail.old position budget).outcome.values }
    ensures trail_after { trail.new
        ≡ (following list.now v values.old trail.old position budget).outcome.trail }
    ensures position_value { result.position
        ≡ (following list.now v values.old trail.old position budget).position }
{
    in_numbers(search::followed(list, v, values, trail, position, budget))
}

// The call for the next at the position that is lent by its address.
pub fn fawnloom_next(
    list: &[i32],
    v: u32,
    values: &mut [u8],
    trail: &mut [i32],
    position: &mut Position,
    budget: u64,
) -> SearchAnswer
    ensures value { result
        ≡ search_numbers (following list.now v values.old trail.old position.old budget).outcome.answer }
    ensures values_after { values.new
        ≡ (following list.now v values.old trail.old position.old budget).outcome.values }
    ensures trail_after { trail.new
        ≡ (following list.now v values.old trail.old position.old budget).outcome.trail }
    ensures position_after { position.new
        ≡ (following list.now v values.old trail.old position.old budget).position }
{
    let p = *position;
    let ended = followed_answer(list, v, values, trail, p, budget);
    *position = ended.position;
    ended.answer
}

fn copy_numbers(answer: Result<usize, Refusal>) -> ReadBackAnswer
    ensures { result ≡ copy_numbers (answer_of answer) }
{
    match answer {
        Ok(cells) => ReadBackAnswer { refusal: 0, cells },
        Err(r) => ReadBackAnswer {
            refusal: refusal::number(r),
            cells: 0,
        },
    }
}

pub fn fawnloom_read_back(sheet: &[u8], values: &[u8], instance: &mut [u8]) -> ReadBackAnswer
    ensures value { result ≡ copy_numbers (back.read_back_answer sheet.now values.now instance.old) }
    ensures instance_after { instance.new ≡ back.instance_after sheet.now values.now instance.old }
{
    copy_numbers(solve::read_back(sheet, values, instance))
}

pub fn fawnloom_find(
    sheet: &[u8],
    list: &mut [i32],
    values: &mut [u8],
    trail: &mut [i32],
    instance: &mut [u8],
    budget: u64,
) -> SearchAnswer
    ensures value { result ≡ search_numbers
        (finding sheet.now
        (slices list.old values.old trail.old instance.old) budget).answer }
    ensures instance_after { slices list.new values.new trail.new instance.new
        ≡ (finding sheet.now
        (slices list.old values.old trail.old instance.old) budget).left }
    ensures finds_numbers { FindsNumbers sheet.now
        (slices list.old values.old trail.old instance.old) budget
        result (slices list.new values.new trail.new instance.new) }
{
    search_numbers(solve::find(sheet, list, values, trail, instance, budget))
}
