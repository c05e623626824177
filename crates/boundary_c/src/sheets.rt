// Reading a sheet, and the check of an instance.
ghost use Rattle.std.specs.Prelude.{◌≡◌};
ghost use Rattle.sheet_rules.specs.Reading.{reading};
ghost use Rattle.sheet.specs.Answers.{answer_of};
ghost use Rattle.instance.specs.Answers as checked;
ghost use Rattle.instance.specs.Held.{check_answer};
ghost use Rattle.boundary.specs.Numbers.{read_number, check_numbers, Checked};

use boundary::answer::CheckAnswer;

// The number of a sheet's refusal, 0 for an accepted sheet.
#[unsafe(no_mangle)]
pub extern "C" fn fawnloom_read(sheet: &[u8]) -> u32
    ensures { result ≡ read_number (reading sheet.now) }
{
    boundary::sheets::fawnloom_read(sheet)
}

#[unsafe(no_mangle)]
pub extern "C" fn fawnloom_check(sheet: &[u8], instance: &[u8]) -> CheckAnswer
    ensures checked { Checked sheet.now instance.now result }
    ensures value { result ≡ check_numbers (check_answer sheet.now instance.now) }
{
    boundary::sheets::fawnloom_check(sheet, instance)
}
