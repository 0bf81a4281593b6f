//! In which order the sealed children of a unit are settled.

ghost use Rattle.std.specs.Prelude.{◌≡◌, ◌<◌};
ghost use Rattle.model_stage.specs.Order.{Picks};

/// An order of settling: asked for a sweep, counted from 1, and the number of children not yet visited in it, its
/// closure answers which of them is next, counted from 0.
#[derive(Drop)]
pub struct Order<F> {
    f: F,
}

impl<F: Fn(u32, u32) -> u32 + Drop> Order<F> {
    /// The order of a closure that answers less than the number of children that are left.
    pub fn new(f: F) -> Order<F>
        requires { Picks (F.pre f) (F.post f) }
        ensures { result.f ≡ f }
    {
        Order { f }
    }

    /// The place of the next child among `left` children that are not yet visited, as the closure answers it.
    pub fn pick(&self, sweep: u32, left: u32) -> u32
        requires order { Picks (F.pre self.now.f) (F.post self.now.f) }
        requires some { 0 < left }
        ensures less { result < left }
        ensures asked { F.post self.now.f sweep left result }
    {
        (self.f)(sweep, left)
    }
}
