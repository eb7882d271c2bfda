//! A crew of workers: how it is made, started and joined.
//!
//! Not proved: that any worker is started.

ghost use Rattle.std.specs.Prelude.{◌≡◌, ◌≤◌, ◌<◌, ◌+◌, ◌^◌, [], false, All, IfOk, cond, length, replicate, vec_len, vec_capacity};
ghost use Rattle.std.specs.List.{list_all};
ghost use Rattle.oim_crew.specs.Claims.{fresh};
ghost use Rattle.oim_crew.specs.Shifts.{ArePosts, AreUnderWay, CanServeAll, IsCrew, IsShift, IsStation, IsUnderWay, serving};
ghost use Rattle.oim_crew.specs.state.Shifts.{IsAlone};

use crate::claims::Claims;
use crate::seat::Seat;
use crate::site::Site;
use crate::worker::{Serve, Shift, ShiftOf, Station, start, work};
use std::alloc::{AllocError, Global};
use std::sync::atomic::AtomicBool;
use std::thread::{PromisedHandle, Scope, Threads};

/// Memory for the workers of a crew, made before any of them starts: the handles of the started
/// workers, and the shifts of the others.
#[derive(Drop)]
pub struct Room<V, O, S: Serve<V, O, T, C>, T, C> {
    pub started: Vec<PromisedHandle<Shift<V, O>, ShiftOf<V, S, T, C>>>,
    pub shifts: Vec<Shift<V, O>>,
}

/// The workers of a crew that is at work.
#[derive(Drop)]
pub struct UnderWay<V, O, S: Serve<V, O, T, C>, T, C> {
    pub room: Room<V, O, S, T, C>,
    /// Whether the server is in use, and not the spare one.
    pub served: bool,
}

/// The shifts that the workers of a crew handed back.
#[derive(Drop)]
pub struct Shifts<V, O> {
    pub list: Vec<Shift<V, O>>,
    /// Whether the server was in use, and not the spare one.
    pub served: bool,
}

/// Starts a worker at each of the first `starts` stations, if the system gives it a thread.
fn start_each<
    's,
    E,
    V: Drop + Send + 's,
    O: Drop + Send + 's,
    S: Serve<V, O, T, C> + Drop + Sync + 's,
    T: Sync + 's,
    C: Sync + 's,
>(
    scope: &Scope<'s, E>,
    site: &Site<'s, V, S, T, C>,
    stations: Vec<Station<V, O>>,
    stops: &'s [AtomicBool],
    starts: usize,
    room: &mut Room<V, O, S, T, C>,
)
    requires items { CanServeAll (S.can_serve site.now.server.now site.now.shared.now) site.now.claims.now.items }
    requires stations { All (IsStation site.now.claims.now) stations.items }
    requires stops { length stops.now ≡ vec_len stations }
    requires empty { (room.old.started.items ≡ []) × (room.old.shifts.items ≡ []) }
    requires room { (vec_len stations ≤ vec_capacity room.old.started) × (vec_len stations ≤ vec_capacity room.old.shifts) }
    ensures under_way { IsUnderWay S.gives site.now.server.now site.now.shared.now site.now.claims.now room.new.started.items room.new.shifts.items }
    ensures count { vec_len room.new.started + vec_len room.new.shifts ≡ vec_len stations }
    ensures room { vec_len stations ≤ vec_capacity room.new.shifts }
    ensures alone { starts ≡ 0 → IsAlone room.new.started.items room.new.shifts.items }
{
    let mut place = 0;
    for station in stations {
        match start(scope, site, station, &stops[place], place < starts) {
            Ok(handle) => room.started.push_reserved(handle),
            Err(shift) => room.shifts.push_reserved(shift),
        }
        place += 1;
    }
}

/// Returns whether every worker was stopped before it drew.
pub fn all_idle<V, O>(shifts: &[Shift<V, O>]) -> bool
    ensures { result ≡ list_all (λ shift. shift.stopped) shifts.now }
{
    shifts.iter().all(|shift| shift.stopped)
}

/// Draws all items on this thread and serves each with the spare server, if no worker was started.
/// Returns whether the server is in use, and not the spare one.
fn spare_unless_started<V: Drop, O: Drop, S: Serve<V, O, T, C> + Drop, T, C>(
    site: &Site<'_, V, S, T, C>,
    room: &mut Room<V, O, S, T, C>,
) -> bool
    requires items { CanServeAll (S.can_serve site.now.spare.now site.now.shared.now) site.now.claims.now.items }
    requires under_way { IsUnderWay S.gives site.now.server.now site.now.shared.now site.now.claims.now room.old.started.items room.old.shifts.items }
    ensures under_way { IsUnderWay S.gives (serving result site.now) site.now.shared.now site.now.claims.now room.new.started.items room.new.shifts.items }
    ensures count { (vec_len room.new.started ≡ vec_len room.old.started) × (vec_len room.new.shifts ≡ vec_len room.old.shifts) }
    ensures room { vec_capacity room.new.shifts ≡ vec_capacity room.old.shifts }
    ensures alone { IsAlone room.old.started.items room.old.shifts.items → result ≡ false }
    ensures none { result ≡ false → room.new.started.items ≡ [] }
{
    if room.started.len() > 0 || !all_idle(room.shifts.as_slice()) {
        return true;
    }
    let Some(shift) = room.shifts.pop() else {
        return false;
    };
    let Shift {
        seat,
        done,
        stopped: _,
    } = shift;
    let station = Station { seat, done };
    let served = work(site.rt, site.shared, site.spare, site.claims, station);
    room.shifts.push_reserved(served);
    false
}

/// Starts workers at the first `starts` posts. If none starts, serves all items on this thread with
/// the spare server.
pub fn start_crew<
    's,
    E,
    V: Drop + Send + 's,
    O: Drop + Send + 's,
    S: Serve<V, O, T, C> + Drop + Sync + 's,
    T: Sync + 's,
    C: Sync + 's,
>(
    scope: &Scope<'s, E>,
    site: &Site<'s, V, S, T, C>,
    posts: Posts<V, O, S, T, C>,
    stops: &'s [AtomicBool],
    starts: usize,
) -> UnderWay<V, O, S, T, C>
    requires items { CanServeAll (S.can_serve site.now.server.now site.now.shared.now) site.now.claims.now.items }
    requires spare { CanServeAll (S.can_serve site.now.spare.now site.now.shared.now) site.now.claims.now.items }
    requires posts { ArePosts site.now.claims.now posts }
    requires stops { length stops.now ≡ site.now.claims.now.workers }
    ensures under_way { AreUnderWay S.gives site.now result }
    ensures alone { starts ≡ 0 → result.served ≡ false }
{
    let Posts { stations, mut room } = posts;
    start_each(scope, site, stations, stops, starts, &mut room);
    let served = spare_unless_started(site, &mut room);
    UnderWay { room, served }
}

/// Joins the started workers, and returns the shifts of all workers.
pub fn join_crew<V: Drop, O: Drop, S: Serve<V, O, T, C> + Drop, T: Threads, C>(
    site: &Site<'_, V, S, T, C>,
    under_way: UnderWay<V, O, S, T, C>,
) -> Shifts<V, O>
    requires under_way { AreUnderWay S.gives site.now under_way }
    ensures shifts { All (IsShift (S.gives (serving result.served site.now) site.now.shared.now) site.now.claims.now) result.list.items }
    ensures count { vec_len result.list ≡ site.now.claims.now.workers }
    ensures served { result.served ≡ under_way.served }
{
    let UnderWay { room, served } = under_way;
    let Room {
        started,
        mut shifts,
    } = room;
    for handle in started {
        shifts.push_reserved(handle.join(site.rt));
    }
    Shifts {
        list: shifts,
        served,
    }
}

/// The stations at which the workers of a crew begin, and memory for the workers.
#[derive(Drop)]
pub struct Posts<V, O, S: Serve<V, O, T, C>, T, C> {
    pub stations: Vec<Station<V, O>>,
    pub room: Room<V, O, S, T, C>,
}

/// Everything that a crew needs, made before any of its workers starts.
#[derive(Drop)]
pub struct Crew<V, O, S: Serve<V, O, T, C>, T, C> {
    pub claims: Claims<V>,
    pub posts: Posts<V, O, S, T, C>,
    pub stops: Vec<AtomicBool>,
}

/// Returns a flag for each worker.
fn flags(alloc: Global, workers: usize) -> Result<Vec<AtomicBool>, AllocError>
    ensures { IfOk result (λ stops. vec_len stops ≡ workers) }
{
    let mut stops = Vec::with_capacity(alloc, workers)?;
    for _made in 0..workers {
        stops.push_reserved(AtomicBool::new(false));
    }
    Ok(stops)
}

/// Returns a station for each seat.
fn stations_of<V: Drop, O: Drop>(
    alloc: Global,
    claims: &Claims<V>,
    seats: Vec<Seat<V>>,
    items: usize,
) -> Result<Vec<Station<V, O>>, AllocError>
    requires fresh { All (λ seat. seat ≡ fresh claims.now) seats.items }
    requires items { items ≡ length claims.now.items }
    ensures stations { IfOk result (λ made. All (IsStation claims.now) made.items) }
    ensures count { IfOk result (λ made. vec_len made ≡ vec_len seats) }
{
    let mut made = Vec::with_capacity(alloc, seats.len())?;
    for seat in seats {
        let done: Vec<O> = Vec::with_capacity(alloc, items)?;
        made.push_reserved(Station { seat, done });
    }
    Ok(made)
}

/// Returns claims of the items, and everything that `workers` workers need to serve them. There
/// must be at least one worker, and fewer than 2^64 items and workers together.
pub fn crew_of<V: Drop, O: Drop, S: Serve<V, O, T, C> + Drop, T, C>(
    alloc: Global,
    items: Vec<V>,
    workers: usize,
) -> Result<Crew<V, O, S, T, C>, AllocError>
    requires workers { 0 < workers }
    requires room { vec_len items + workers < 2 ^ 64 }
    ensures claims { IfOk result (λ crew. crew.claims.items ≡ items.items) }
    ensures workers { IfOk result (λ crew. crew.claims.workers ≡ workers) }
    ensures ready { IfOk result (λ crew. IsCrew crew) }
{
    let count = items.len();
    let stops = flags(alloc, workers)?;
    let room = Room {
        started: Vec::with_capacity(alloc, workers)?,
        shifts: Vec::with_capacity(alloc, workers)?,
    };
    let (claims, seats) = Claims::new(alloc, items, workers)?;
    let stations = stations_of(alloc, &claims, seats, count)?;
    Ok(Crew {
        claims,
        posts: Posts { stations, room },
        stops,
    })
}
