// The program `cnf`: a sheet is read, and its clause text is printed on standard output.
#![tactic(auto)]

ghost use Rattle.std.specs.Prelude.{◌≡◌, ◌≤◌, length, take};

use cnf_text::clause_text;
use std::io::{Read, Stderr, Stdout};

// The clause words of `cnf`.
pub const WORDS: usize = 262144;

// No text of so many words is longer: 7 bytes for each word, and 14 more (`written-fits`, crate `cnf_text`).
pub const BYTES: usize = 1835022;

// Prints the first n bytes of a text.
fn print_text(text: &[u8], n: usize, output: Stdout, errors: Stderr) -> bool
    requires { (n ≤ length text.now) × (n ≡ length (take n text.now)) }
{
    console::print(&text[..n], b"cnf: writing standard output", output, errors)
}

// Prints the clause text of an input.
fn answer(
    input: &[u8],
    list: &mut [i32; WORDS],
    text: &mut [u8; BYTES],
    output: Stdout,
    errors: Stderr,
) -> bool {
    let k = clause_text(input, list, text);
    if !print_text(text, k, output, errors) {
        return false;
    }
    // `refused`, and no clause text, starts with an r
    if text[0] == b'r' {
        console::say_short(b"cnf", input, WORDS, errors);
    }
    true
}

// Reads an input, prints its clause text, and answers whether both went well. One byte more than the longest input is read, so that
// a longer one is seen.
pub fn print_clauses<I: Read>(
    from: &mut I,
    list: &mut [i32; WORDS],
    text: &mut [u8; BYTES],
    output: Stdout,
    errors: Stderr,
) -> bool {
    let mut input = [0u8; 4097];
    let Ok(n) = console::read_input(from, &mut input, b"cnf: reading standard input", errors) else {
        return false;
    };
    answer(&input[..n], list, text, output, errors)
}
