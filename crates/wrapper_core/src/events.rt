//! When an event of a world is enabled, what it does, and lists of events.

ghost use Rattle.std.specs.Prelude.{◌≡◌, ◌<◌, ◌≤◌, ◌↔◌, ℕ, Bool, true, List, IsTrue, Some, length, take, slice_get};
ghost use Rattle.code_isa.specs.Settled.{IsSettled};
ghost use Rattle.model_stage.specs.Order.{Picks};
ghost use Rattle.wrapper_core.specs.declared.event.Event.{Event};
ghost use Rattle.wrapper_core.specs.declared.wrapped.Wrapped.{Wrapped};
ghost use Rattle.wrapper_core.specs.Snapshot.{Calm, Snapshot, tree_in, state_in};
ghost use Rattle.wrapper_core.specs.Events.{IsUpdatable, IsSamplable, IsStrikable, IsCommittable, IsEnabled, DoesOwn, DoesUpdate, DoesStrikeOwn, DoesStrike, DoesCommit, Does, Schedule, IsQuiescent, HasRoom, HasRoomFor};
ghost use Rattle.wrapper_core.specs.Striking.{IsStriking, ShowsSame, TakesAllEdges, BeginsStrike};
ghost use Rattle.wrapper_core.specs.code.Cores.{HasUnstruck};
ghost use Rattle.wrapper_core.specs.World.{IsWorld, moment_of};

use crate::buffer::differs;
use crate::event::Event;
use crate::unit::{publish_all, strike_at, update_at};
use crate::world::World;
use model_stage::{Child, Order};

impl<C: Child> World<C> {
    /// Whether no strike is under way.
    fn is_calm(&self) -> bool
        ensures { IsTrue result ↔ ((moment_of self.now).phase ≡ Calm) }
    {
        !self.striking
    }

    /// Whether a child is there and holds other inputs than the slots that it is joined to, while no strike is under way.
    fn is_stale(&self, i: usize) -> bool
        requires world { IsWorld C.model C.ready C.struck self.now }
        ensures { IsTrue result ↔ IsUpdatable C.model (moment_of self.now) i }
    {
        if self.striking {
            return false;
        }
        if i >= self.children.len() {
            return false;
        }
        let places = self.block.code.as_ref().machine().kids.as_slice()[i]
            .ins
            .as_slice();
        differs(&self.children[i].child, self.block.slots.as_slice(), places)
    }

    /// Whether a strike is under way, and the registers are not sampled in it.
    fn is_samplable(&self) -> bool
        ensures { IsTrue result ↔ IsSamplable (moment_of self.now) }
    {
        self.striking && !self.sampled
    }

    /// Whether a child is there that is not struck.
    fn is_unstruck(&self, i: usize) -> bool
        ensures { IsTrue result ↔ HasUnstruck self.now.children.items i }
    {
        if i >= self.children.len() {
            return false;
        }
        !self.children[i].struck
    }

    /// Whether a strike is under way, and a child is there that is not struck in it.
    fn is_strikable(&self, i: usize) -> bool
        ensures { IsTrue result ↔ IsStrikable (moment_of self.now) i }
    {
        self.striking && self.is_unstruck(i)
    }

    /// Whether all children are struck.
    fn all_struck(&self) -> bool
        ensures { IsTrue result ↔ ((i : ℕ) (c : Wrapped C) → slice_get self.now.children.items i ≡ Some c → c.struck ≡ true) }
    {
        for i in 0..self.children.len() {
            if !self.children[i].struck {
                return false;
            }
        }
        true
    }

    /// Whether a strike is under way in which the registers are sampled and all children are struck.
    fn is_committable(&self) -> bool
        ensures { IsTrue result ↔ IsCommittable (moment_of self.now) }
    {
        if !self.striking {
            return false;
        }
        if !self.sampled {
            return false;
        }
        self.all_struck()
    }

    /// Runs the own code.
    fn own(&mut self)
        requires world { IsWorld C.model C.ready C.struck self.old }
        requires calm { (moment_of self.old).phase ≡ Calm }
        ensures world { IsWorld C.model C.ready C.struck self.new }
        ensures does { DoesOwn (moment_of self.old) (moment_of self.new) }
    {
        self.block.own();
    }

    /// Delivers to a child the slots that it is joined to, and takes its outputs.
    fn update<F: Fn(u32, u32) -> u32 + Drop>(&mut self, i: usize, order: &Order<F>)
        requires world { IsWorld C.model C.ready C.struck self.old }
        requires enabled { IsUpdatable C.model (moment_of self.old) i }
        requires room { (c : Wrapped C) → slice_get (moment_of self.old).children i ≡ Some c → 0 < (C.model c.child).room }
        requires order { Picks (F.pre order.now.f) (F.post order.now.f) }
        ensures world { IsWorld C.model C.ready C.struck self.new }
        ensures does { DoesUpdate C.model i (moment_of self.old) (moment_of self.new) }
    {
        update_at(
            &mut self.block,
            &mut self.children,
            &mut self.buffers,
            i,
            order,
        );
    }

    /// Samples the registers whose edge occurs.
    fn strike_own(&mut self)
        requires world { IsWorld C.model C.ready C.struck self.old }
        requires enabled { IsSamplable (moment_of self.old) }
        ensures world { IsWorld C.model C.ready C.struck self.new }
        ensures does { DoesStrikeOwn (moment_of self.old) (moment_of self.new) }
    {
        let code = self.block.code.as_ref();
        self.sampling.sample(
            code,
            self.block.slots.as_slice(),
            self.before.as_slice(),
            self.levels.as_slice(),
        );
        self.sampled = true;
    }

    /// Strikes a child with the levels that it is joined to.
    fn strike<F: Fn(u32, u32) -> u32 + Drop>(&mut self, i: usize, order: &Order<F>)
        requires world { IsWorld C.model C.ready C.struck self.old }
        requires enabled { IsStrikable (moment_of self.old) i }
        requires room { (c : Wrapped C) → slice_get (moment_of self.old).children i ≡ Some c → 0 < (C.model c.child).room }
        requires order { Picks (F.pre order.now.f) (F.post order.now.f) }
        ensures world { IsWorld C.model C.ready C.struck self.new }
        ensures does { DoesStrike C.model i (moment_of self.old) (moment_of self.new) }
    {
        let levels = self.levels.as_slice();
        strike_at(
            &self.block,
            levels,
            &mut self.children,
            &mut self.buffers,
            i,
            order,
        );
    }

    /// Gives the registers what was sampled, and publishes all children.
    fn commit(&mut self)
        requires world { IsWorld C.model C.ready C.struck self.old }
        requires enabled { IsCommittable (moment_of self.old) }
        ensures world { IsWorld C.model C.ready C.struck self.new }
        ensures does { DoesCommit C.model (moment_of self.old) (moment_of self.new) }
    {
        let first = self.first_register();
        self.sampling.commit(&mut self.block, first);
        publish_all(&mut self.block, &mut self.children, &mut self.buffers);
        self.sampled = false;
        self.striking = false;
    }
}

/// Whether an event is enabled. Takes no memory.
pub fn enabled<C: Child>(w: &World<C>, e: Event) -> bool
    requires world { IsWorld C.model C.ready C.struck w.now }
    ensures { IsTrue result ↔ IsEnabled C.model (moment_of w.now) e }
{
    match e {
        Event::Own => w.is_calm(),
        Event::Update(i) => w.is_stale(i as usize),
        Event::StrikeOwn => w.is_samplable(),
        Event::Strike(i) => w.is_strikable(i as usize),
        Event::Commit => w.is_committable(),
    }
}

/// Performs an event that is enabled. Takes no memory.
pub fn step<C: Child, F: Fn(u32, u32) -> u32 + Drop>(w: &mut World<C>, e: Event, order: &Order<F>)
    requires world { IsWorld C.model C.ready C.struck w.old }
    requires enabled { IsEnabled C.model (moment_of w.old) e }
    requires room { HasRoomFor C.model (moment_of w.old) e }
    requires order { Picks (F.pre order.now.f) (F.post order.now.f) }
    ensures world { IsWorld C.model C.ready C.struck w.new }
    ensures does { Does C.model e (moment_of w.old) (moment_of w.new) }
{
    match e {
        Event::Own => w.own(),
        Event::Update(i) => w.update(i as usize, order),
        Event::StrikeOwn => w.strike_own(),
        Event::Strike(i) => w.strike(i as usize, order),
        Event::Commit => w.commit(),
    }
}

/// Performs the events up to the first that is not enabled, and answers how many. Takes no memory.
pub fn run_events<C: Child, F: Fn(u32, u32) -> u32 + Drop>(
    w: &mut World<C>,
    events: &Vec<Event>,
    order: &Order<F>,
) -> usize
    requires world { IsWorld C.model C.ready C.struck w.old }
    requires room { HasRoom C.model (length events.now.items) (moment_of w.old) }
    requires order { Picks (F.pre order.now.f) (F.post order.now.f) }
    ensures world { IsWorld C.model C.ready C.struck w.new }
    ensures within { result ≤ length events.now.items }
    ensures schedule { Schedule C.model (take result events.now.items) (moment_of w.old) (moment_of w.new) }
    ensures longest { (e : Event) → slice_get events.now.items result ≡ Some e → IsEnabled C.model (moment_of w.new) e → ⊥ }
    ensures settled { IsQuiescent C.model (moment_of w.new) → IsSettled (tree_in C.model (moment_of w.new)) (state_in C.model (moment_of w.new)) }
    ensures unchanged { (start : Snapshot C) (levels : List Bool) → BeginsStrike C.model levels start (moment_of w.old) → IsStriking (moment_of w.new) → ShowsSame C.model start (moment_of w.new) }
    ensures edges { (start : Snapshot C) (levels : List Bool) → BeginsStrike C.model levels start (moment_of w.old) → (moment_of w.new).phase ≡ Calm → TakesAllEdges C.model levels start (moment_of w.new) }
{
    let mut done = 0;
    for e in events {
        if enabled(w, *e) {
            step(w, *e, order);
            done += 1;
        } else {
            return done;
        }
    }
    done
}
