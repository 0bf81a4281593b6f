//! Sweeps over the children of a world until no update is enabled.

ghost use Rattle.std.specs.Prelude.{◌≡◌, ◌↔◌, ◌+◌, ◌<◌, ◌≤◌, ◌^◌, ℕ, false, List, length, replicate};
ghost use Rattle.code_isa.specs.Checks.{IsChecked};
ghost use Rattle.code_isa.specs.Tree.{States};
ghost use Rattle.code_isa.specs.Settled.{IsSettled};
ghost use Rattle.model_stage.specs.Order.{Picks};
ghost use Rattle.wrapper_core.specs.Snapshot.{Calm, Snapshot, tree_in, state_in};
ghost use Rattle.wrapper_core.specs.declared.event.Event.{Event};
ghost use Rattle.wrapper_core.specs.Events.{DoesOwn, HasRoom, IsQuiescent, Schedule};
ghost use Rattle.wrapper_core.specs.World.{IsWorld, moment_of};
ghost use Rattle.settle_loop.specs.Sweeps.{unmarked, IsStale, IsSweep, Sweeps, Settles};
ghost use Rattle.settle_loop.specs.Kept.{Keeps};
ghost use Rattle.settle_loop.specs.Finality.{IsFresh, IsEnd, IsFinal};

use crate::visits::{is_stale, unvisited_at, visit, visited_below};
use model_stage::{Child, Order};
use wrapper_core::{Event, World, step};

/// Makes one sweep with this number: visits each child once, in the order given.
fn sweep<C: Child, F: Fn(u32, u32) -> u32 + Drop>(w: &mut World<C>, number: u32, order: &Order<F>)
    requires world { IsWorld C.model C.ready C.struck w.old }
    requires checked { IsChecked (moment_of w.old).code }
    requires calm { (moment_of w.old).phase ≡ Calm }
    requires clear { moment_of w.old ≡ unmarked (moment_of w.old) }
    requires fresh { IsFresh (moment_of w.old) }
    requires room { HasRoom C.model 1 (moment_of w.old) }
    requires order { Picks (F.pre order.now.f) (F.post order.now.f) }
    ensures world { IsWorld C.model C.ready C.struck w.new }
    ensures clear { moment_of w.new ≡ unmarked (moment_of w.new) }
    ensures fresh { IsFresh (moment_of w.new) }
    ensures sweep { IsSweep C.model (F.post order.now.f) number (moment_of w.old) (moment_of w.new) }
    ensures keeps { Keeps C.model 1 (moment_of w.old) (moment_of w.new) }
    ensures end { (u : List ℕ) (states : States) → IsEnd C.model (moment_of w.old) u states → IsEnd C.model (moment_of w.new) u states }
    ensures nearer { (n : ℕ) (u : List ℕ) (states : States) → IsEnd C.model (moment_of w.old) u states → IsFinal C.model n u (moment_of w.old) → IsFinal C.model (n + 1) u (moment_of w.new) }
{
    let mut left = w.children();
    let mut first = 0;
    'visits: while left > 0 {
        let place = order.pick(number, left);
        let i = unvisited_at(w, first, place);
        visit(w, i, order);
        first = visited_below(first, i);
        left -= 1;
    }
    w.end_sweep();
}

/// Makes sweeps while an update is enabled, and answers how many.
fn sweeps<C: Child, F: Fn(u32, u32) -> u32 + Drop>(w: &mut World<C>, order: &Order<F>) -> u32
    requires world { IsWorld C.model C.ready C.struck w.old }
    requires checked { IsChecked (moment_of w.old).code }
    requires calm { (moment_of w.old).phase ≡ Calm }
    requires clear { moment_of w.old ≡ unmarked (moment_of w.old) }
    requires fresh { IsFresh (moment_of w.old) }
    requires room { HasRoom C.model ((moment_of w.old).code.chain + 1) (moment_of w.old) }
    requires order { Picks (F.pre order.now.f) (F.post order.now.f) }
    ensures world { IsWorld C.model C.ready C.struck w.new }
    ensures within { result ≤ (moment_of w.old).code.chain + 1 }
    ensures fresh { IsFresh (moment_of w.new) }
    ensures sweeps { Sweeps C.model (F.post order.now.f) result (moment_of w.old) (moment_of w.new) }
    ensures none { IsStale C.model (moment_of w.new) → ⊥ }
    ensures keeps { Keeps C.model result (moment_of w.old) (moment_of w.new) }
{
    let mut count = 0;
    'sweeps: while is_stale(w) {
        count += 1;
        sweep(w, count, order);
    }
    count
}

/// Settles a calm world: runs the own code, and then makes sweeps while an update of a child is enabled. A sweep visits
/// each child once, in the order that `order` gives for the sweep, counted from 1, and the number of children that are left;
/// a visit updates the child where that is enabled and then runs the own code. Answers the number of sweeps, which is at
/// most the chain of the machine and one more. Takes no memory.
pub fn settle<C: Child, F: Fn(u32, u32) -> u32 + Drop>(w: &mut World<C>, order: &Order<F>) -> u32
    requires world { IsWorld C.model C.ready C.struck w.old }
    requires calm { (moment_of w.old).phase ≡ Calm }
    requires room { HasRoom C.model ((moment_of w.old).code.chain + 1) (moment_of w.old) }
    requires order { Picks (F.pre order.now.f) (F.post order.now.f) }
    ensures world { IsWorld C.model C.ready C.struck w.new }
    ensures quiescent { IsQuiescent C.model (moment_of w.new) }
    ensures settled { IsSettled (tree_in C.model (moment_of w.new)) (state_in C.model (moment_of w.new)) }
    ensures within { result ≤ (moment_of w.old).code.chain + 1 }
    ensures zero { (first : Snapshot C) → DoesOwn (moment_of w.old) first → (result ≡ 0) ↔ (IsStale C.model first → ⊥) }
    ensures settles { Settles C.model (F.post order.now.f) result (unmarked (moment_of w.old)) (moment_of w.new) }
    ensures schedule { (events : List Event) × Schedule C.model events (unmarked (moment_of w.old)) (moment_of w.new) }
    ensures keeps { Keeps C.model result (moment_of w.old) (moment_of w.new) }
{
    w.machine();
    w.end_sweep();
    step(w, Event::Own, order);
    sweeps(w, order)
}
