// Reading and printing for the programs. A read or a write that fails is told on standard error, and never passes for the end of
// the input or for a text that was printed.
#![tactic(auto)]

ghost use Rattle.std.specs.Prelude.{◌≡◌, ◌≤◌, length, take, IfSome, IfOk, IfErr};

use arrayvec::ArrayString;
use std::fmt::Write;
use std::io::{Error, Read, Stderr, Stdout};

// Says on standard error what failed, and the system's reason.
fn say_failure(what: &[u8], failure: Error, errors: Stderr) {
    let mut said = ArrayString::<128>::new();
    let _ = write!(said, "{failure}");
    let words = said.as_str();
    // std puts the number of an error behind the system's words
    let reason = match words.split_once(" (os error ") {
        Some((before, _)) => before,
        None => words,
    };
    let _ = errors.write_all(what);
    let _ = errors.println(format_args!(": {reason}"));
}

// One read: the bytes that came, 0 at the end of the input, or None where it failed. A failure is said as that of `what`, with the
// system's reason.
fn read_some<I: Read>(from: &mut I, part: &mut [u8], what: &[u8], errors: Stderr) -> Option<usize>
    ensures { IfSome result (λ n. (n ≤ length part.new) × (n ≡ length (take n part.new))) }
{
    match from.read(part) {
        Ok(n) => Some(n),
        Err(failure) => {
            say_failure(what, failure, errors);
            None
        }
    }
}

// Reads from a reader until buf is full or the input ends, and answers how many bytes it read. Err has those that came before a read that
// failed, which is said.
pub fn read_input<I: Read>(
    from: &mut I,
    buf: &mut [u8],
    what: &[u8],
    errors: Stderr,
) -> Result<usize, usize>
    ensures all { IfOk result (λ n. (n ≤ length buf.new) × (n ≡ length (take n buf.new))) }
    ensures some { IfErr result (λ n. (n ≤ length buf.new) × (n ≡ length (take n buf.new))) }
{
    let mut done: usize = 0;
    while done < buf.len() {
        let Some(n) = read_some(from, &mut buf[done..], what, errors) else {
            return Err(done);
        };
        if n == 0 {
            return Ok(done);
        }
        done += n;
    }
    Ok(done)
}

// Prints a text on standard output, and answers whether all of it was written.
pub fn print(text: &[u8], what: &[u8], output: Stdout, errors: Stderr) -> bool {
    match output.write_all(text) {
        Ok(()) => true,
        Err(failure) => {
            say_failure(what, failure, errors);
            false
        }
    }
}

// Says on standard error how many words a list has, and how many there is room for.
fn say_words(name: &[u8], words: usize, room: usize, errors: Stderr) {
    let _ = errors.write_all(name);
    let _ = errors.println(format_args!(
        ": the clauses have {words} words, and there is room for {room}"
    ));
}

// Says of a refused input whether its list has more words than the program has room for. An input of over 4,096 bytes has none.
pub fn say_short(name: &[u8], input: &[u8], room: usize, errors: Stderr) {
    if input.len() > 4096 {
        return;
    }
    if let Ok(size) = clauses::count(input) {
        if size.words > room {
            say_words(name, size.words, room, errors);
        }
    }
}
