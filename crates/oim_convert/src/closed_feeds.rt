//! The tokens of all tables, by which their drains are settled.

ghost use Rattle.std.specs.Prelude.{◌≡◌, ◌≤◌, [], None, length, map, All, Contains, IfNone, IfSome, slice_set, vec_len, vec_capacity};
ghost use Rattle.oim_convert.specs.Tasks.{Each};
ghost use Rattle.oim_convert.specs.state.Tasks.{AreTables, EachClosedFeed, Fulfills, Gives, IsEnded, placed, results_of};
ghost use Rattle.oim_crew.specs.Shifts.{IsShift};

use crate::table_task::{TableTask, TaskResult};
use oim_crew::{Claims, Seat, Shift};
use oim_report::{Limits, Report};
use oim_ring::{Closed, Drain, Drained};
use std::io::Read;

/// The terms by which a conversion's tables were decoded. Only clauses use it.
#[derive(Drop)]
pub(crate) struct Terms<'a, R> {
    pub(crate) report: &'a Report,
    pub(crate) limits: Limits,
    /// Whether workers served the tables. Otherwise all are refused because no thread could be
    /// made.
    pub(crate) served: bool,
    pub(crate) claims: &'a Claims<TableTask<R>>,
}

/// Puts the token of a result into its table's place.
fn place<R: Read>(
    terms: &Terms<'_, R>,
    task_result: TaskResult,
    closed_feeds: &mut [Option<Closed>],
)
    requires task_result { Fulfills R.remaining terms.now.report.now terms.now.limits.rows terms.now.served terms.now.claims.now.items task_result }
    requires closed_feeds { EachClosedFeed R.remaining terms.now.report.now terms.now.limits.rows terms.now.served terms.now.claims.now.items closed_feeds.old }
    requires room { length closed_feeds.old ≡ length terms.now.claims.now.items }
    ensures closed_feeds { EachClosedFeed R.remaining terms.now.report.now terms.now.limits.rows terms.now.served terms.now.claims.now.items closed_feeds.new }
    ensures placed { closed_feeds.new ≡ slice_set closed_feeds.old task_result.table task_result.closed }
{
    let _ = terms;
    let TaskResult { table, closed } = task_result;
    closed_feeds[table] = closed;
}

/// Puts the tokens of a shift into their tables' places, and returns its seat.
fn place_shift<R: Read + Drop>(
    terms: &Terms<'_, R>,
    shift: Shift<TableTask<R>, TaskResult>,
    closed_feeds: &mut [Option<Closed>],
) -> Seat<TableTask<R>>
    requires shift { IsShift (Gives R.remaining terms.now.report.now terms.now.limits.rows terms.now.served) terms.now.claims.now shift }
    requires closed_feeds { EachClosedFeed R.remaining terms.now.report.now terms.now.limits.rows terms.now.served terms.now.claims.now.items closed_feeds.old }
    requires room { length closed_feeds.old ≡ length terms.now.claims.now.items }
    ensures closed_feeds { EachClosedFeed R.remaining terms.now.report.now terms.now.limits.rows terms.now.served terms.now.claims.now.items closed_feeds.new }
    ensures placed { closed_feeds.new ≡ placed shift.done.items closed_feeds.old }
    ensures seat { result ≡ shift.seat }
{
    let Shift {
        seat,
        done,
        stopped: _,
    } = shift;
    for task_result in done {
        place(terms, task_result, closed_feeds);
    }
    seat
}

/// Puts the tokens of all shifts into their tables' places, and returns their seats.
pub(crate) fn place_all<R: Read + Drop>(
    terms: &Terms<'_, R>,
    shifts: Vec<Shift<TableTask<R>, TaskResult>>,
    closed_feeds: &mut [Option<Closed>],
    seats: Vec<Seat<TableTask<R>>>,
) -> Vec<Seat<TableTask<R>>>
    requires shifts { All (IsShift (Gives R.remaining terms.now.report.now terms.now.limits.rows terms.now.served) terms.now.claims.now) shifts.items }
    requires closed_feeds { EachClosedFeed R.remaining terms.now.report.now terms.now.limits.rows terms.now.served terms.now.claims.now.items closed_feeds.old }
    requires room { length closed_feeds.old ≡ length terms.now.claims.now.items }
    requires seats { (seats.items ≡ []) × (vec_len shifts ≤ vec_capacity seats) }
    ensures closed_feeds { EachClosedFeed R.remaining terms.now.report.now terms.now.limits.rows terms.now.served terms.now.claims.now.items closed_feeds.new }
    ensures placed { closed_feeds.new ≡ placed (results_of shifts.items) closed_feeds.old }
    ensures seats { result.items ≡ map (λ shift. shift.seat) shifts.items }
    ensures count { vec_len result ≡ vec_len shifts }
{
    let mut seats = seats;
    for shift in shifts {
        seats.push_reserved(place_shift(terms, shift, closed_feeds));
    }
    seats
}

/// Settles each drain with its table's token. Returns `None` if a table has no token.
pub(crate) fn settle_all<R: Read>(
    terms: &Terms<'_, R>,
    drains: Vec<Drain>,
    closed_feeds: &mut [Option<Closed>],
    settled: Vec<Drained>,
) -> Option<Vec<Drained>>
    requires drains { Each (IsEnded terms.now.claims.now.items) 0 drains.items }
    requires closed_feeds { EachClosedFeed R.remaining terms.now.report.now terms.now.limits.rows terms.now.served terms.now.claims.now.items closed_feeds.old }
    requires feed_count { length closed_feeds.old ≡ vec_len drains }
    requires settled { settled.items ≡ [] }
    requires room { vec_len drains ≤ vec_capacity settled }
    ensures taken { IfSome result (λ all. all.items ≡ map (λ d. d.taken) drains.items) }
    ensures tables { IfSome result (λ all.
        AreTables R.remaining terms.now.report.now terms.now.limits.rows terms.now.served terms.now.claims.now.items all.items) }
    ensures lost { IfNone result (Contains closed_feeds.old None) }
{
    let _ = terms;
    let mut settled = settled;
    for drain in drains {
        let at = settled.len();
        let closed = closed_feeds[at].take()?;
        settled.push_reserved(drain.settle(closed));
    }
    Some(settled)
}
