//! The things that the workers of a crew share.

use crate::claims::Claims;

/// The things that the workers of a crew share: the runtime's handle, the data to serve from, the
/// server, the spare server for the case that no worker can be started, and the claims of the
/// items.
#[derive(Drop)]
pub struct Site<'s, V, S, T, C> {
    pub rt: &'s T,
    pub shared: &'s C,
    pub server: &'s S,
    pub spare: &'s S,
    pub claims: &'s Claims<V>,
}
