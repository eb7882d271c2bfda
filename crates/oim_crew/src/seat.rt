//! A seat of the claims, with which one thread draws.

ghost use Rattle.std.specs.Prelude.{◌≡◌, false, cond};
ghost use Rattle.oim_crew.specs.state.Views.{drawer};

use crate::view::BoardSeat;
use std::marker::Model;

/// A seat, which draws from one `Claims`. Contracts see which claims they are, the numbers that it
/// drew, in order, and whether it was answered `None`.
#[derive(Drop)]
pub struct Seat<V> {
    pub(crate) token: BoardSeat<V>,
    pub(crate) finished: bool,
}

impl<V> Model for Seat<V> {
    ghost use Rattle.std.specs.Prelude.{◌≡◌, cond};
    ghost use Rattle.oim_crew.specs.Claims.{Drawer};
    ghost use Rattle.oim_crew.specs.state.Claims.{drawer_coded};

    ghost Value = { Drawer V };

    ghost coded = { drawer_coded V.code };

    ghost use Rattle.oim_crew.specs.state.Views.{drawer};

    ghost view = { λ s. drawer s.token.table_id s.token.me.0 s.finished };

    ghost invariant = { λ s. (s.token.me.0.share ≡ 1) × (s.token.me.0.finished ≡ cond s.finished 1 0) };
}

impl<V> Seat<V> {
    /// Returns a seat that has drawn nothing.
    pub(crate) fn of(token: BoardSeat<V>) -> Seat<V>
        requires { (token.me.0.share ≡ 1) × (token.me.0.finished ≡ 0) }
        ensures { result ≡ drawer token.table_id token.me.0 false }
    {
        Seat {
            token,
            finished: false,
        }
    }

    /// Returns the seat at the board.
    pub(crate) fn into_token(self) -> BoardSeat<V>
        ensures view { drawer result.table_id result.me.0 self.finished ≡ self }
        ensures one { (result.me.0.share ≡ 1) × (result.me.0.finished ≡ cond self.finished 1 0) }
    {
        let Seat { token, finished: _ } = self;
        token
    }
}
