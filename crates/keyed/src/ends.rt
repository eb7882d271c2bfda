//! The ends of a channel whose items all match one key.

ghost use Rattle.std.specs.Prelude.{◌≡◌, ◌<◌, IfErr, IfOk, IfSome, IsSome};

use crate::rule::{First, Fit, Keyed, Later, Same, Took};
use crossbeam_channel::{Pass, RuledReceiver, RuledSender, TryRecvError, bounded_with};
use std::alloc::Global;
use std::marker::Model;
use std::sync::Wait;

/// An end that receives items. Contracts see the key.
pub struct Taker<T: Drop, K, F: Fit<K, T>> {
    from: RuledReceiver<T, Option<K>, Keyed<F>, Global>,
    pass: Pass<T, Option<K>>,
}

// Written by hand, so that a drop in another crate is one call.
impl<T: Drop, K, F: Fit<K, T>> Drop for Taker<T, K, F> {
    fn drop(self) {
        let Self { from: _, pass: _ } = self;
    }
}

impl<T: Drop, K, F: Fit<K, T>> Model for Taker<T, K, F> {
    ghost use Rattle.std.specs.Prelude.{Option, IsSome};
    ghost use Rattle.crossbeam_channel.specs.Claims.{IsSeatAt, view as known};
    ghost use Rattle.crossbeam_channel.specs.Ends.{receives_on};

    ghost Value = { Option K };

    ghost view = { λ a. known a.pass };

    ghost invariant = { λ a. IsSeatAt (receives_on a.from) a.pass × IsSome (known a.pass) };
}

/// An end that sends and receives items. Contracts see the key.
pub struct Giver<T: Drop, K, F: Fit<K, T>> {
    to: RuledSender<T, Option<K>, Keyed<F>, Global>,
    from: RuledReceiver<T, Option<K>, Keyed<F>, Global>,
    pass: Pass<T, Option<K>>,
}

// Written by hand, so that a drop in another crate is one call.
impl<T: Drop, K, F: Fit<K, T>> Drop for Giver<T, K, F> {
    fn drop(self) {
        let Self {
            to: _,
            from: _,
            pass: _,
        } = self;
    }
}

impl<T: Drop, K, F: Fit<K, T>> Model for Giver<T, K, F> {
    ghost use Rattle.std.specs.Prelude.{◌≡◌, Option, IsSome};
    ghost use Rattle.crossbeam_channel.specs.Claims.{IsSeatAt, view as known};
    ghost use Rattle.crossbeam_channel.specs.Ends.{receives_on, sends_on};

    ghost Value = { Option K };

    ghost view = { λ a. known a.pass };

    ghost invariant = { λ a. IsSeatAt (sends_on a.to) a.pass × (receives_on a.from ≡ sends_on a.to) × IsSome (known a.pass) };
}

impl<T: Drop, K, F: Fit<K, T>> Giver<T, K, F> {
    /// Makes a channel for `size` items, with its first item, and returns both ends. Returns the
    /// item if memory runs out.
    pub fn open<R: Wait>(
        rt: &R,
        alloc: Global,
        size: usize,
        item: T,
    ) -> Result<(Giver<T, K, F>, Taker<T, K, F>), T>
        requires size { 0 < size }
        requires known { IsSome (F.key item) }
        requires fits { IfSome (F.key item) (λ k. F.fits k item) }
        ensures ok { IfOk result (λ ends. (ends.0 ≡ F.key item) × (ends.1 ≡ F.key item)) }
        ensures err { IfErr result (λ back. back ≡ item) }
    {
        let Ok((to, from, mut pass)) = bounded_with::<T, Option<K>, Keyed<F>, Global>(alloc, size)
        else {
            return Err(item);
        };
        let Ok(mine) = from.try_clone() else {
            return Err(item);
        };
        match to.try_send_as::<First<F>, R>(rt, &mut pass, item) {
            Ok(()) => {}
            Err(e) => return Err(e.into_inner()),
        }
        let other = to.another::<Same>(&mut pass);
        let taker = Taker {
            from: mine,
            pass: other,
        };
        Ok((Giver { to, from, pass }, taker))
    }

    /// Sends an item. Returns it if the channel is full.
    pub fn give<R: Wait>(&mut self, rt: &R, item: T) -> Result<(), T>
        requires { IfSome self.old (λ k. F.fits k item) }
        ensures same { self.new ≡ self.old }
        ensures err { IfErr result (λ back. back ≡ item) }
    {
        match self.to.try_send_as::<Later<F>, R>(rt, &mut self.pass, item) {
            Ok(()) => Ok(()),
            Err(e) => Err(e.into_inner()),
        }
    }

    /// Receives an item without waiting, or returns `None` if the channel is empty.
    pub fn look<R: Wait>(&mut self, rt: &R) -> Option<T>
        ensures same { self.new ≡ self.old }
        ensures item { IfSome result (λ x. IfSome self.old (λ k. F.fits k x)) }
    {
        self.from.try_recv_as::<Took<F>, R>(rt, &mut self.pass).ok()
    }

    /// Makes another receiving end. Returns `None` if the channel has too many.
    pub fn taker(&mut self) -> Option<Taker<T, K, F>>
        ensures same { self.new ≡ self.old }
        ensures taker { IfSome result (λ t. t ≡ self.old) }
    {
        let Ok(from) = self.from.try_clone() else {
            return None;
        };
        let pass = self.to.another::<Same>(&mut self.pass);
        Some(Taker { from, pass })
    }
}

impl<T: Drop, K, F: Fit<K, T>> Taker<T, K, F> {
    /// Receives an item without waiting.
    ///
    /// Fails with `Empty` if the channel is empty, and with `Disconnected` if it will get no more
    /// items.
    pub fn look<R: Wait>(&mut self, rt: &R) -> Result<T, TryRecvError>
        ensures same { self.new ≡ self.old }
        ensures item { IfOk result (λ x. IfSome self.old (λ k. F.fits k x)) }
    {
        self.from.try_recv_as::<Took<F>, R>(rt, &mut self.pass)
    }

    /// Receives an item, and waits for it. Returns `None` if the channel will get no more items.
    pub fn take<R: Wait>(&mut self, rt: &R) -> Option<T>
        ensures same { self.new ≡ self.old }
        ensures item { IfSome result (λ x. IfSome self.old (λ k. F.fits k x)) }
    {
        self.from.recv_as::<Took<F>, R>(rt, &mut self.pass).ok()
    }
}
