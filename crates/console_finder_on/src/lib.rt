// The program of `./find --on`: the finder, with a search that goes on until it ends. It shows the steps done on standard error.
#![tactic(auto)]

use cells::MOST_CELLS;
use console_finder::{print_answer, read_sheet};
use onward::find_on_text;
use std::io::{Read, Stderr, Stdout};

// Prints the answer to an input, with as much room as the finder has.
fn answer(input: &[u8], output: Stdout, errors: Stderr) -> bool {
    let mut list = [0i32; 16384];
    let mut values = [0u8; 16000];
    let mut trail = [0i32; 16000];
    let mut instance = [0u8; MOST_CELLS];
    let mut text = [0u8; 2048];
    let k = find_on_text(
        input,
        &mut list,
        &mut values,
        &mut trail,
        &mut instance,
        &mut text,
        errors,
    );
    print_answer(input, &text[..k], output, errors)
}

// Reads an input, prints the answer, and answers whether both went well.
pub fn find_on<I: Read>(from: &mut I, output: Stdout, errors: Stderr) -> bool {
    let mut input = [0u8; 4097];
    let Ok(n) = read_sheet(from, &mut input, errors) else {
        return false;
    };
    answer(&input[..n], output, errors)
}
