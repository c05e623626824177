// The program of `./find --every`: the cases of a sheet, one after another, each printed as it is found.
#![tactic(auto)]

ghost use Rattle.std.specs.Prelude.{◌≡◌, ◌≤◌, length, take};
ghost use Rattle.search.specs.Resuming.{start};
ghost use Rattle.search.specs.Every.{Fresh};
ghost use Rattle.listing.specs.Printed.{standing};
ghost use Rattle.console_every.specs.Listed.{opened, BeginGives, Listed, ListedOrRefused};

use cells::MOST_CELLS;
use console_finder::{print_answer, print_text, read_sheet};
use listing::{begin, next_text};
use search::answer::Position;
use std::io::{Read, Stderr, Stdout};

// The steps that one call is allowed.
const STEPS: u64 = 1000000;

// The calls that are made at most: so many have no more steps than a 64-bit number counts.
const CALLS: u64 = 18446744073709;

// Prints the first bytes of a text, and answers whether they were written.
fn print_front(text: &[u8], bytes: usize, output: Stdout, errors: Stderr) -> bool
    requires { (bytes ≤ length text.now) × (bytes ≡ length (take bytes text.now)) }
{
    print_text(&text[..bytes], output, errors)
}

// Prints what each call for the next comes to, until one finds no case, and answers whether all was written.
fn print_cases(
    input: &[u8],
    list: &[i32],
    v: u32,
    values: &mut [u8; 16000],
    trail: &mut [i32; 16000],
    instance: &mut [u8; MOST_CELLS],
    text: &mut [u8; 2048],
    output: Stdout,
    errors: Stderr,
) -> bool
    requires begin_gives { BeginGives input.now list.now v }
    requires fresh { Fresh v (standing values.old trail.old start) }
    ensures { Listed input.now list.now v
        (standing values.old trail.old start) result text.new }
{
    let mut at = Position {
        length: 0,
        propagations: 0,
        decisions: 0,
        backtracks: 0,
    };
    for _ in 0..CALLS {
        let piece = next_text(input, list, v, values, trail, at, STEPS, instance, text);
        if !print_front(text, piece.bytes, output, errors) {
            return false;
        }
        if !piece.more {
            return true;
        }
        at = piece.position;
    }
    // no more steps can be counted: a call with none says whether the search has ended
    let piece = next_text(input, list, v, values, trail, at, 0, instance, text);
    print_front(text, piece.bytes, output, errors)
}

// Prints the cases of a list of clauses over v variables, from open values on.
fn list_cases(
    input: &[u8],
    list: &[i32],
    v: u32,
    text: &mut [u8; 2048],
    output: Stdout,
    errors: Stderr,
) -> bool
    requires { BeginGives input.now list.now v }
    ensures { Listed input.now list.now v opened result text.new }
{
    let mut values = [2u8; 16000];
    let mut trail = [0i32; 16000];
    let mut instance = [0u8; MOST_CELLS];
    print_cases(
        input,
        list,
        v,
        &mut values,
        &mut trail,
        &mut instance,
        text,
        output,
        errors,
    )
}

// Prints the first bytes of a text as the refusal of an input, and answers whether they were written.
fn print_refusal(input: &[u8], text: &[u8], bytes: usize, output: Stdout, errors: Stderr) -> bool
    requires { (bytes ≤ length text.now) × (bytes ≡ length (take bytes text.now)) }
{
    print_answer(input, &text[..bytes], output, errors)
}

// Prints the cases of an input, or its refusal, with as much room as the finder has.
fn answer(input: &[u8], text: &mut [u8; 2048], output: Stdout, errors: Stderr) -> bool
    ensures { ListedOrRefused input.now result text.new }
{
    let mut list = [0i32; 16384];
    let begun = begin(input, &mut list, text);
    match begun {
        Err(k) => print_refusal(input, text, k, output, errors),
        Ok(size) => {
            let w = size.words;
            list_cases(
                input,
                &list[..w],
                size.variables as u32,
                text,
                output,
                errors,
            )
        }
    }
}

// Reads an input, prints its cases, and answers whether both went well.
pub fn every<I: Read>(from: &mut I, output: Stdout, errors: Stderr) -> bool {
    let mut input = [0u8; 4097];
    let Ok(n) = read_sheet(from, &mut input, errors) else {
        return false;
    };
    let mut text = [0u8; 2048];
    answer(&input[..n], &mut text, output, errors)
}
