// The cells' values, tested and copied (document 01, "Answers that decline": read-back; document 02, Change 6).
ghost use Rattle.std.specs.Prelude.{◌≡◌, ◌++◌, map, suc, ◌≤◌, leb, length, take, drop};
ghost use Rattle.prelude.specs.Tests.{all};
ghost use Rattle.search_rules.specs.Rules.{settle};
ghost use Rattle.solve.specs.Answers.{answer_of};
ghost use Rattle.solve.specs.Private.{cells_answer, cells_left};

use refusal::Refusal;

// The bit that a value gives: 3, false by decision, is taken as 0.
fn settled(b: u8) -> u8
    ensures { result ≡ settle b }
{
    if b == 3 { 0 } else { b }
}

// Whether each value gives a bit: it is 0, 1 or 3.
fn give_bits(values: &[u8]) -> bool
    ensures { result ≡ all (λ b. leb b 1) (map settle values.now) }
{
    values.iter().all(|b| settled(*b) <= 1)
}

// The bits of the cells' values, which start at the second, to the front of the instance.
pub(crate) fn copy_cells(cells: usize, values: &[u8], instance: &mut [u8])
    requires cells_in_bounds { suc cells ≤ length values.now }
    requires cells_in_bounds_2 { cells ≤ length instance.old }
    ensures { instance.new ≡ take cells (drop 1 (map settle values.now)) ++ drop cells instance.old }
{
    // Kept: an index into the values; the proof with zip did not close (of a zip of iter_mut no written element is known).
    for (i, bit) in instance[..cells].iter_mut().enumerate() {
        *bit = settled(values[i + 1]);
    }
}

// Numbers 11 and 13 over values of v variables, and the copy.
pub(crate) fn read_cells(
    v: usize,
    cells: usize,
    values: &[u8],
    instance: &mut [u8],
) -> Result<usize, Refusal>
    requires { suc cells ≤ v }
    ensures result_value { answer_of result ≡ cells_answer v cells values.now (length instance.old) }
    ensures instance_after { instance.new ≡ cells_left v cells values.now instance.old }
{
    if values.len() != v {
        return Err(Refusal::Cells);
    }
    let end = cells + 1;
    if !give_bits(&values[1..end]) {
        return Err(Refusal::Cells);
    }
    if instance.len() < cells {
        return Err(Refusal::Short);
    }
    copy_cells(cells, values, instance);
    Ok(cells)
}
