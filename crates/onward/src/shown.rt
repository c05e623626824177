// The steps done, on standard error.
use std::io::{IsTerminal, Stderr};

// Shows the steps done: on a terminal over those shown before, else in a line of their own.
pub(crate) fn show(steps: u64, errors: Stderr) {
    if errors.is_terminal() {
        let _ = errors.print(format_args!("\rfind: {steps} steps"));
    } else {
        let _ = errors.println(format_args!("find: {steps} steps"));
    }
}

// Ends the line of steps, where one is shown on a terminal.
pub(crate) fn end_line(shown: bool, errors: Stderr) {
    if !shown {
        return;
    }
    if errors.is_terminal() {
        let _ = errors.println("");
    }
}
