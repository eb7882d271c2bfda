//! A function that ties a lent value to its lender, only for the proof.

ghost use Rattle.std.specs.Prelude.{◌≡◌};

/// Does nothing. If a returned reference is used here, the proof ties it to the parameter that lent
/// it.
pub(crate) fn take_back<T>(x: &mut T)
    ensures { x.new ≡ x.old }
{}
