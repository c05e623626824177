// The entry of every, which prints all cases of a sheet, for C.
#![tactic(auto)]

ghost use Rattle.std.specs.Prelude.{◌≤◌};

use std::io::{Stderr, Stdin, Stdout};

// The program's exit status: 0, or 1 where reading or printing failed. The three streams take no bytes: C passes nothing for them.
#[unsafe(no_mangle)]
pub extern "C" fn fawnloom_every(mut input: Stdin, output: Stdout, errors: Stderr) -> u32
    ensures { result ≤ 1 }
{
    if console_every::every(&mut input, output, errors) {
        0
    } else {
        1
    }
}
