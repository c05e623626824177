// Reading a sheet, and the check of an instance.
ghost use Rattle.std.specs.Prelude.{◌≡◌};
ghost use Rattle.sheet_rules.specs.Reading.{reading};
ghost use Rattle.sheet.specs.Answers.{answer_of};
ghost use Rattle.instance.specs.Answers as checked;
ghost use Rattle.instance.specs.Held.{check_answer};
ghost use Rattle.boundary.specs.Numbers.{read_number, check_numbers, Checked};

use super::answer::CheckAnswer;
use refusal::Refusal;
use sheet_rules::Layout;

fn read_number(answer: Result<Layout, Refusal>) -> u32
    ensures { result ≡ read_number (answer_of answer) }
{
    match answer {
        Ok(_) => 0,
        Err(r) => refusal::number(r),
    }
}

// The number of a sheet's refusal, 0 for an accepted sheet.
pub fn fawnloom_read(sheet: &[u8]) -> u32
    ensures { result ≡ read_number (reading sheet.now) }
{
    read_number(sheet::read(sheet))
}

fn check_numbers(answer: Result<bool, Refusal>) -> CheckAnswer
    ensures { result ≡ check_numbers (checked.answer_of answer) }
{
    match answer {
        Ok(satisfies) => CheckAnswer {
            refusal: 0,
            satisfies: u32::from(satisfies),
        },
        Err(r) => CheckAnswer {
            refusal: refusal::number(r),
            satisfies: 0,
        },
    }
}

pub fn fawnloom_check(sheet: &[u8], instance: &[u8]) -> CheckAnswer
    ensures checked { Checked sheet.now instance.now result }
    ensures value { result ≡ check_numbers (check_answer sheet.now instance.now) }
{
    check_numbers(instance::check(sheet, instance))
}
