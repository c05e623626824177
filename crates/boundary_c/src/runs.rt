// Search, a search taken up again, the call for the next, read-back, and the whole run over lent slices.
ghost use Rattle.std.specs.Prelude.{◌≡◌};
ghost use Rattle.search.specs.Answers as searched;
ghost use Rattle.search.specs.Answers.{outcome};
ghost use Rattle.search.specs.Resumed.{resumption};
ghost use Rattle.search.specs.Following.{following};
ghost use Rattle.solve_rules.specs.Answers as back;
ghost use Rattle.solve.specs.Answers.{answer_of};
ghost use Rattle.solve_rules.specs.Finding.{slices, finding};
ghost use Rattle.boundary.specs.Numbers.{end_numbers, search_numbers, FindsNumbers, copy_numbers};

use boundary::answer::{ReadBackAnswer, SearchAnswer};
use search::answer::Position;

#[unsafe(no_mangle)]
pub extern "C" fn fawnloom_search(
    list: &[i32],
    v: u32,
    values: &mut [u8],
    trail: &mut [i32],
    budget: u64,
) -> SearchAnswer
    ensures value { result ≡ search_numbers (outcome list.now v values.old trail.old budget).answer }
    ensures values_after { values.new ≡ (outcome list.now v values.old trail.old budget).values }
    ensures trail_after { trail.new ≡ (outcome list.now v values.old trail.old budget).trail }
{
    boundary::runs::fawnloom_search(list, v, values, trail, budget)
}

// The search taken up again at the position that is lent by its address.
#[unsafe(no_mangle)]
pub extern "C" fn fawnloom_resume(
    list: &[i32],
    v: u32,
    values: &mut [u8],
    trail: &mut [i32],
    position: &mut Position,
    budget: u64,
) -> SearchAnswer
    ensures value { result
        ≡ search_numbers (resumption list.now v values.old trail.old position.old budget).outcome.answer }
    ensures values_after { values.new
        ≡ (resumption list.now v values.old trail.old position.old budget).outcome.values }
    ensures trail_after { trail.new
        ≡ (resumption list.now v values.old trail.old position.old budget).outcome.trail }
    ensures position_after { position.new
        ≡ (resumption list.now v values.old trail.old position.old budget).position }
{
    boundary::runs::fawnloom_resume(list, v, values, trail, position, budget)
}

// The call for the next at the position that is lent by its address.
#[unsafe(no_mangle)]
pub extern "C" fn fawnloom_next(
    list: &[i32],
    v: u32,
    values: &mut [u8],
    trail: &mut [i32],
    position: &mut Position,
    budget: u64,
) -> SearchAnswer
    ensures value { result
        ≡ search_numbers (following list.now v values.old trail.old position.old budget).outcome.answer }
    ensures values_after { values.new
        ≡ (following list.now v values.old trail.old position.old budget).outcome.values }
    ensures trail_after { trail.new
        ≡ (following list.now v values.old trail.old position.old budget).outcome.trail }
    ensures position_after { position.new
        ≡ (following list.now v values.old trail.old position.old budget).position }
{
    boundary::runs::fawnloom_next(list, v, values, trail, position, budget)
}

#[unsafe(no_mangle)]
pub extern "C" fn fawnloom_read_back(
    sheet: &[u8],
    values: &[u8],
    instance: &mut [u8],
) -> ReadBackAnswer
    ensures value { result ≡ copy_numbers (back.read_back_answer sheet.now values.now instance.old) }
    ensures instance_after { instance.new ≡ back.instance_after sheet.now values.now instance.old }
{
    boundary::runs::fawnloom_read_back(sheet, values, instance)
}

#[unsafe(no_mangle)]
pub extern "C" fn fawnloom_find(
    sheet: &[u8],
    list: &mut [i32],
    values: &mut [u8],
    trail: &mut [i32],
    instance: &mut [u8],
    budget: u64,
) -> SearchAnswer
    ensures value { result ≡ search_numbers
        (finding sheet.now
        (slices list.old values.old trail.old instance.old) budget).answer }
    ensures instance_after { slices list.new values.new trail.new instance.new
        ≡ (finding sheet.now
        (slices list.old values.old trail.old instance.old) budget).left }
    ensures finds_numbers { FindsNumbers sheet.now
        (slices list.old values.old trail.old instance.old) budget
        result (slices list.new values.new trail.new instance.new) }
{
    boundary::runs::fawnloom_find(sheet, list, values, trail, instance, budget)
}
