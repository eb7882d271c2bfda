//! Printing a run's outcome for people.
//!
//! Not proved: that the lines of an outcome are printed at all, even if memory does not run out.

ghost use Rattle.std.specs.Prelude.{◌≡◌, if◌then◌else◌, [], ◌∷◌, ◌++◌, Bool, Option, Some, None, IfOk, IfSome, string_bytes};
ghost use Rattle.oim_run.specs.Lines.{line_of, status_of, terminal_line_of};
ghost use Rattle.oim_run.specs.Outputs.{Said, Says};

use crate::outcome::{Outcome, line, status, terminal_line};
use std::alloc::{AllocError, Global};

/// A printer of lines for people: standard error.
pub trait Teller {
    /// The texts that it was given so far, in order, if contracts see them.
    ghost said: { Self → Option Said } = { λ _. None };

    /// Whether it is a terminal, if contracts see that.
    ghost terminal: { Self → Option Bool } = { λ _. None };

    /// Returns whether it is a terminal, which gets no control character of a path.
    fn is_terminal(&self) -> bool
        ensures { IfSome (terminal self.now) (λ is. result ≡ is) };

    /// Prints a text. Drops what cannot be printed.
    fn say(&mut self, text: &str)
        ensures said { IfSome (said self.old) (λ earlier. said self.new ≡ Some (earlier ++ text.now ∷ [])) }
        ensures same { terminal self.new ≡ terminal self.old };
}

/// Returns the lines of an outcome, for a terminal or not.
fn lines_for(alloc: Global, outcome: &Outcome, is_terminal: bool) -> Result<String, AllocError>
    ensures { IfOk result (λ s. string_bytes s ≡ (if is_terminal then terminal_line_of outcome.now else line_of outcome.now)) }
{
    if is_terminal {
        terminal_line(alloc, outcome)
    } else {
        line(alloc, outcome)
    }
}

/// Prints the lines of an outcome, as one text, and returns its exit status. Prints nothing if
/// memory runs out for the lines. A terminal gets no control or invisible character of a path.
pub fn tell<L: Teller>(to: &mut L, alloc: Global, outcome: &Outcome) -> u8
    ensures status { result ≡ status_of outcome.now }
    ensures says { Says (L.terminal to.old) outcome.now (L.said to.old) (L.said to.new) }
    ensures same { L.terminal to.new ≡ L.terminal to.old }
{
    if let Ok(lines) = lines_for(alloc, outcome, to.is_terminal()) {
        to.say(lines.as_str());
    }
    status(outcome)
}
