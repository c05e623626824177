// The entry of cnf, for C.
#![tactic(auto)]

ghost use Rattle.std.specs.Prelude.{◌≤◌};

use console_cnf::{BYTES, WORDS};
use std::io::{Stderr, Stdin, Stdout};

// The program's exit status: 0, or 1 where reading or printing failed. The caller lends what is too large for a stack. The three streams
// take no bytes: C passes nothing for them.
#[unsafe(no_mangle)]
pub extern "C" fn fawnloom_cnf(
    list: &mut [i32; WORDS],
    text: &mut [u8; BYTES],
    mut input: Stdin,
    output: Stdout,
    errors: Stderr,
) -> u32
    ensures { result ≤ 1 }
{
    if console_cnf::print_clauses(&mut input, list, text, output, errors) {
        0
    } else {
        1
    }
}
