//! One worker, which draws items until none are left and serves each of them.

ghost use Rattle.std.specs.Prelude.{◌≡◌, ◌≤◌, ℕ, [], true, false, length, IfOk, IfErr, MatchResult, vec_capacity};
ghost use Rattle.oim_crew.specs.Claims.{fresh};
ghost use Rattle.oim_crew.specs.Shifts.{CanServeAll, IsShift, IsStarted, IsStation};

use crate::claims::Claims;
use crate::seat::Seat;
use crate::site::Site;
use std::snapshot::Snapshot;
use std::sync::atomic::{AtomicBool, Ordering};
use std::thread::{Promise, PromisedHandle, Scope};

/// Serves the items that workers draw. A server works with the runtime's handle `T` and with `C`,
/// the data that all workers share.
pub trait Serve<V, O, T, C> {
    /// What must hold of the item under a number before it is served.
    ghost can_serve: { Self → C → ℕ → V → Type 0 };

    /// The result for the item under a number.
    ghost gives: { Self → C → ℕ → V → O → Type 0 };

    /// Serves the item under a number.
    fn serve(&self, rt: &T, shared: &C, number: usize, item: V) -> O
        requires { can_serve self.now shared.now number item }
        ensures { gives self.now shared.now number item result };
}

/// A worker's start: a seat that has drawn nothing, and memory for its results.
#[derive(Drop)]
pub struct Station<V, O> {
    pub seat: Seat<V>,
    pub done: Vec<O>,
}

/// A worker's seat and results, which it hands back.
#[derive(Drop)]
pub struct Shift<V, O> {
    pub seat: Seat<V>,
    pub done: Vec<O>,
    /// Whether the worker was stopped before it drew.
    pub stopped: bool,
}

/// The promise of a worker: a shift of these claims by this server. Only contracts read it.
#[derive(Drop)]
pub struct ShiftOf<V, S, T, C> {
    pub claims: Snapshot<Claims<V>>,
    pub server: Snapshot<S>,
    pub rt: Snapshot<T>,
    pub shared: Snapshot<C>,
}

impl<V, O, S: Serve<V, O, T, C>, T, C> Promise<Shift<V, O>> for ShiftOf<V, S, T, C> {
    ghost use Rattle.oim_crew.specs.Shifts.{IsShift};

    ghost kept_by = { λ p shift. IsShift (S.gives p.server.value p.shared.value) p.claims.value shift };
}

/// Draws until no item is left, and serves each item that it draws.
pub(crate) fn work<V, O, S: Serve<V, O, T, C>, T, C>(
    rt: &T,
    shared: &C,
    server: &S,
    claims: &Claims<V>,
    station: Station<V, O>,
) -> Shift<V, O>
    requires items { CanServeAll (S.can_serve server.now shared.now) claims.now.items }
    requires station { IsStation claims.now station }
    ensures { IsShift (S.gives server.now shared.now) claims.now result }
{
    let Station { mut seat, mut done } = station;
    while let Some((number, item)) = claims.draw(&mut seat) {
        done.push_reserved(server.serve(rt, shared, number, item));
    }
    Shift {
        seat,
        done,
        stopped: false,
    }
}

/// Works as `work` does, or does nothing if the worker was stopped before.
fn work_unless<V, O, S: Serve<V, O, T, C>, T, C>(
    rt: &T,
    shared: &C,
    server: &S,
    claims: &Claims<V>,
    station: Station<V, O>,
    stop: &AtomicBool,
) -> Shift<V, O>
    requires items { CanServeAll (S.can_serve server.now shared.now) claims.now.items }
    requires station { IsStation claims.now station }
    ensures { IsShift (S.gives server.now shared.now) claims.now result }
{
    if stop.load(Ordering::SeqCst) {
        return idle(station);
    }
    work(rt, shared, server, claims, station)
}

/// Returns the shift of a worker that was not started.
fn idle<V, O>(station: Station<V, O>) -> Shift<V, O>
    ensures { (result.seat ≡ station.seat) × (result.done ≡ station.done) × (result.stopped ≡ true) }
{
    let Station { seat, done } = station;
    Shift {
        seat,
        done,
        stopped: true,
    }
}

/// Starts a worker if it may be started. If no thread can be made for it, sets its flag and returns
/// its shift as the error.
pub(crate) fn start<
    's,
    E,
    V: Drop + Send + 's,
    O: Drop + Send + 's,
    S: Serve<V, O, T, C> + Drop + Sync + 's,
    T: Sync + 's,
    C: Sync + 's,
>(
    scope: &Scope<'s, E>,
    site: &Site<'s, V, S, T, C>,
    station: Station<V, O>,
    stop: &'s AtomicBool,
    may_start: bool,
) -> Result<PromisedHandle<Shift<V, O>, ShiftOf<V, S, T, C>>, Shift<V, O>>
    requires items { CanServeAll (S.can_serve site.now.server.now site.now.shared.now) site.now.claims.now.items }
    requires station { IsStation site.now.claims.now station }
    ensures started { IfOk result (λ h. IsStarted site.now.server.now site.now.shared.now site.now.claims.now h) }
    ensures refused { IfErr result (λ shift. IsShift (S.gives site.now.server.now site.now.shared.now) site.now.claims.now shift) }
    ensures unasked { may_start ≡ false → MatchResult result (λ _. ⊥) (λ shift. shift.stopped ≡ true) }
{
    if !may_start {
        return Err(idle(station));
    }
    let (rt, shared, server, claims) = (site.rt, site.shared, site.server, site.claims);
    let promise = ShiftOf {
        claims: Snapshot::of(claims),
        server: Snapshot::of(server),
        rt: Snapshot::of(rt),
        shared: Snapshot::of(shared),
    };
    let shift = move || work_unless(rt, shared, server, claims, station, stop);
    match scope.spawn_with(promise, shift) {
        Ok(handle) => Ok(handle),
        Err(refused) => {
            stop.store(true, Ordering::SeqCst);
            Err((refused.value)())
        }
    }
}
