//! The two kinds of units.

/// The kind of a unit (xBRL-JSON 1.0, unit).
#[derive(Clone, Copy, Debug, PartialEq, Eq)]
pub enum UnitKind {
    /// The unit of pure numbers: its only measure is `pure` of `http://www.xbrl.org/2003/instance`.
    Pure,
    /// Any other unit. A document has it as it was written.
    Written,
}
