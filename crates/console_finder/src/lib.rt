// The finder program: a sheet is read, and what `report` makes of it is printed on standard output. Crates `console_finder_on` and
// `console_every` read and print with the same functions.
#![tactic(auto)]

ghost use Rattle.std.specs.Prelude.{◌≡◌, ◌≤◌, length, take, IfOk, IfErr};

use cells::MOST_CELLS;
use report::finder::find_text;
use std::io::{Read, Stderr, Stdout};

// The clause words of the finder.
const WORDS: usize = 16384;

// Reads an input. One byte more than the longest input is read, so that a longer one is seen.
pub fn read_sheet<I: Read>(
    from: &mut I,
    input: &mut [u8; 4097],
    errors: Stderr,
) -> Result<usize, usize>
    ensures all { IfOk result (λ n. (n ≤ length input.new) × (n ≡ length (take n input.new))) }
    ensures some { IfErr result (λ n. (n ≤ length input.new) × (n ≡ length (take n input.new))) }
{
    console::read_input(from, input, b"finder: reading standard input", errors)
}

// Prints a text, and answers whether it was written.
pub fn print_text(text: &[u8], output: Stdout, errors: Stderr) -> bool {
    console::print(text, b"finder: writing standard output", output, errors)
}

// Prints an answer to an input, says of a refused one whether its list is too long, and answers whether the answer was written.
pub fn print_answer(input: &[u8], answer: &[u8], output: Stdout, errors: Stderr) -> bool {
    if !print_text(answer, output, errors) {
        return false;
    }
    // `refused` is the only answer that starts with an r
    if answer.len() > 0 && answer[0] == b'r' {
        console::say_short(b"finder", input, WORDS, errors);
    }
    true
}

// Prints the answer to an input, with room for all variables and cells that there can be.
fn answer(input: &[u8], output: Stdout, errors: Stderr) -> bool {
    let mut list = [0i32; WORDS];
    let mut values = [0u8; 16000];
    let mut trail = [0i32; 16000];
    let mut instance = [0u8; MOST_CELLS];
    let mut text = [0u8; 2048];
    let k = find_text(
        input,
        &mut list,
        &mut values,
        &mut trail,
        &mut instance,
        &mut text,
    );
    print_answer(input, &text[..k], output, errors)
}

// Reads an input, prints the answer, and answers whether both went well.
pub fn find<I: Read>(from: &mut I, output: Stdout, errors: Stderr) -> bool {
    let mut input = [0u8; 4097];
    let Ok(n) = read_sheet(from, &mut input, errors) else {
        return false;
    };
    answer(&input[..n], output, errors)
}
