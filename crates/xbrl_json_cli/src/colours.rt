//! The colours of lines on a terminal.
//!
//! Not proved: all of this file.

use std::env;
use std::io::IsTerminal;

/// What goes before the line of a fault: bold and red.
const FAULT: &str = "\x1b[1;31m";

/// What goes before the place of a fault: bold.
const PLACE: &str = "\x1b[1m";

/// What ends both.
const END: &str = "\x1b[0m";

/// Whether lines have colours.
#[derive(Clone, Copy)]
pub struct Colours {
    are_on: bool,
}

/// Returns whether a variable of the environment has a text that is not empty.
fn is_set(rt: &HostRuntime, name: &str) -> bool {
    match env::var(rt, name) {
        Ok(text) => !text.is_empty(),
        Err(_) => false,
    }
}

/// Returns whether the terminal is one without colours.
fn is_dumb(rt: &HostRuntime) -> bool {
    match env::var(rt, "TERM") {
        Ok(text) => text.as_str() == "dumb",
        Err(_) => false,
    }
}

impl Colours {
    /// Returns whether standard error gets colours: a terminal does, unless `NO_COLOR` is set or
    /// `TERM` is `dumb`.
    pub fn of(rt: &HostRuntime) -> Colours {
        Colours {
            are_on: rt.stderr().is_terminal() && !is_set(rt, "NO_COLOR") && !is_dumb(rt),
        }
    }

    /// Prints the lines of faults.
    pub fn print_faults(&self, rt: &HostRuntime, lines: &str) {
        let _ = if self.are_on && !lines.is_empty() {
            eprint!(rt; "{FAULT}{lines}{END}")
        } else {
            rt.eprint(lines)
        };
    }

    /// Prints an explanation, whose first line is a place.
    pub fn print_explanation(&self, rt: &HostRuntime, lines: &str) {
        let _ = match lines.split_once('\n') {
            Some((place, rest)) if self.are_on => eprint!(rt; "{PLACE}{place}{END}\n{rest}"),
            _ => rt.eprint(lines),
        };
    }
}
