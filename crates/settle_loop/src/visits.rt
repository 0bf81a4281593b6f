//! Visits of the children of a world.

ghost use Rattle.std.specs.Prelude.{◌≡◌, ◌<◌, ◌^◌, ◌-◌, ◌↔◌, ℕ, true, IsTrue, Some, length, slice_get, slice_set};
ghost use Rattle.model_stage.specs.Order.{Picks};
ghost use Rattle.wrapper_core.specs.declared.wrapped.Wrapped.{Wrapped};
ghost use Rattle.wrapper_core.specs.Snapshot.{Calm};
ghost use Rattle.wrapper_core.specs.World.{IsWorld, moment_of};
ghost use Rattle.settle_loop.specs.Sweeps.{unmarked, IsStale, IsVisit, unvisited, IsVisitedBelow, IsPast};

use model_stage::{Child, Order};
use wrapper_core::{Event, World, enabled, step};

/// Whether an update is enabled.
pub fn is_stale<C: Child>(w: &World<C>) -> bool
    requires world { IsWorld C.model C.ready C.struck w.now }
    ensures { IsTrue result ↔ IsStale C.model (moment_of w.now) }
{
    for i in 0..w.children() {
        if enabled(w, Event::Update(i)) {
            return true;
        }
    }
    false
}

/// The child at a place among those that are not yet visited, where all children before `first` are.
pub fn unvisited_at<C: Child>(w: &World<C>, first: u32, place: u32) -> u32
    requires world { IsWorld C.model C.ready C.struck w.now }
    requires first { IsVisitedBelow first (moment_of w.now).visited }
    requires place { place < length (unvisited (moment_of w.now).visited) }
    ensures { slice_get (unvisited (moment_of w.now).visited) place ≡ Some result }
{
    let mut before = place;
    for i in first..w.children() {
        if !w.is_visited(i) {
            if before == 0 {
                return i;
            }
            before -= 1;
        }
    }
    0
}

/// How many of the first children are known to be visited, after `first` were and child `i` was visited.
pub fn visited_below(first: u32, i: u32) -> u32
    requires { first < 2 ^ 32 - 1 }
    ensures { IsPast first i result }
{
    if i == first { first + 1 } else { first }
}

/// Updates a child where that is enabled, runs the own code, and marks the visit.
pub fn visit<C: Child, F: Fn(u32, u32) -> u32 + Drop>(w: &mut World<C>, i: u32, order: &Order<F>)
    requires world { IsWorld C.model C.ready C.struck w.old }
    requires calm { (moment_of w.old).phase ≡ Calm }
    requires child { i < length (moment_of w.old).children }
    requires room { (c : Wrapped C) → slice_get (moment_of w.old).children i ≡ Some c → 0 < (C.model c.child).room }
    requires order { Picks (F.pre order.now.f) (F.post order.now.f) }
    ensures world { IsWorld C.model C.ready C.struck w.new }
    ensures visit { IsVisit C.model i (unmarked (moment_of w.old)) (unmarked (moment_of w.new)) }
    ensures marked { (moment_of w.new).visited ≡ slice_set (moment_of w.old).visited i true }
{
    if enabled(w, Event::Update(i)) {
        step(w, Event::Update(i), order);
    }
    step(w, Event::Own, order);
    w.visit(i);
}
