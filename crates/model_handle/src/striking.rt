//! Steps of the clocks in a world.

ghost use Rattle.std.specs.Prelude.{◌≡◌, length};
ghost use Rattle.bit_ops.specs.Lists.{words, widths};
ghost use Rattle.code_isa.specs.Faces.{clock_count, output_count, output_widths};
ghost use Rattle.code_isa.specs.Tree.{words_at};
ghost use Rattle.model_stage.specs.Order.{Picks};
ghost use Rattle.wrapper_core.specs.Snapshot.{Calm};
ghost use Rattle.wrapper_core.specs.Events.{HasRoom, IsQuiescent};
ghost use Rattle.wrapper_core.specs.Striking.{TakesAllEdges};
ghost use Rattle.wrapper_core.specs.World.{IsWorld, moment_of};
ghost use Rattle.model_handle.specs.Striking.{IsSampled, StrikesFirst, StepsClocks};

use bit_ops::Bits;
use model_stage::{Child, Order};
use wrapper_core::{Event, World, step};

/// Copies the outputs of a world.
pub fn keep<C: Child>(shown: &mut Vec<Bits>, w: &World<C>)
    requires world { IsWorld C.model C.ready C.struck w.now }
    requires sized { length shown.old.items ≡ output_count (moment_of w.now).code.face }
    ensures words { words shown.new.items ≡ words_at (moment_of w.now).slots (moment_of w.now).code.outs }
    ensures widths { widths shown.new.items ≡ output_widths (moment_of w.now).code.face }
{
    for k in 0..shown.len() {
        shown[k] = w.out(k);
    }
}

/// Strikes every child.
fn strike_children<C: Child, F: Fn(u32, u32) -> u32 + Drop>(w: &mut World<C>, order: &Order<F>)
    requires world { IsWorld C.model C.ready C.struck w.old }
    requires sampled { IsSampled (moment_of w.old) }
    requires room { HasRoom C.model 1 (moment_of w.old) }
    requires order { Picks (F.pre order.now.f) (F.post order.now.f) }
    ensures world { IsWorld C.model C.ready C.struck w.new }
    ensures strikes { StrikesFirst C.model (length (moment_of w.new).children) (moment_of w.old) (moment_of w.new) }
{
    for i in 0..w.children() {
        step(w, Event::Strike(i), order);
    }
}

/// Makes a step of the clocks to these levels, one for each in port order. What own code and the children make of it is
/// not settled then.
pub fn step_clocks<C: Child, F: Fn(u32, u32) -> u32 + Drop>(
    w: &mut World<C>,
    clocks: &[bool],
    order: &Order<F>,
)
    requires world { IsWorld C.model C.ready C.struck w.old }
    requires quiescent { IsQuiescent C.model (moment_of w.old) }
    requires levels { length clocks.now ≡ clock_count (moment_of w.old).code.face }
    requires room { HasRoom C.model 1 (moment_of w.old) }
    requires order { Picks (F.pre order.now.f) (F.post order.now.f) }
    ensures world { IsWorld C.model C.ready C.struck w.new }
    ensures calm { (moment_of w.new).phase ≡ Calm }
    ensures edges { TakesAllEdges C.model clocks.now (moment_of w.old) (moment_of w.new) }
    ensures steps { StepsClocks C.model clocks.now (moment_of w.old) (moment_of w.new) }
{
    w.set_levels(clocks);
    step(w, Event::StrikeOwn, order);
    strike_children(w, order);
    step(w, Event::Commit, order);
}
