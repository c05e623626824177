// The check of an instance: is it within the scopes of a sheet, and does it satisfy marks and formula (document 01,
// "Kinds and meanings")?
// Its steps are in `instance_evaluation` and `instance_matrix`, in the order of section 2.2 of source document 001.
#![tactic(auto)]

ghost use Rattle.std.specs.Prelude.{◌≡◌};
ghost use Rattle.instance.specs.Answers.{CheckAnswers, answer_of};
ghost use Rattle.instance.specs.Held.{check_answer};

use cells::{Cells, Sheet, are_bits};
use instance_evaluation::Instance;
use refusal::Refusal;

// The check over an accepted sheet.
fn check_accepted(sheet: &Sheet, instance: &[u8]) -> Result<bool, Refusal>
    ensures { answer_of result ≡ check_answer sheet.now.bytes.now instance.now }
{
    let Cells { count, starts } = sheet.cells();
    if instance.len() != count || !are_bits(instance) {
        return Err(Refusal::Cells);
    }
    let given = Instance {
        sheet: *sheet,
        cells: instance,
        starts,
    };
    Ok(given.holds())
}

// Whether the instance is within the scopes and satisfies marks and formula: what the answer means, and which it is.
pub fn check(sheet: &[u8], instance: &[u8]) -> Result<bool, Refusal>
    ensures check_answers { CheckAnswers sheet.now instance.now (answer_of result) }
    ensures result_value { answer_of result ≡ check_answer sheet.now instance.now }
{
    let sheet = Sheet::read(sheet)?;
    check_accepted(&sheet, instance)
}
