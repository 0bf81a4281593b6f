ghost use Rattle.std.specs.Prelude.{List, ℕ, ◌≡◌};
ghost use Rattle.levelise.specs.Graph.{IsLevelling, LiesOnCycle};
ghost use Rattle.levelise.specs.declared.graph.LevelFault.TheVariants.{NoMemory};

use std::alloc::AllocError;
use sv_base::Sequence;

/// What each node reads: row `a` lists the nodes that node `a` depends on, counted from 0. A node may be
/// listed more than once.
#[derive(Debug, Drop)]
pub struct Graph {
    pub reads: Sequence<Sequence<u32>>,
}

/// Why a graph was not levelled.
#[derive(Clone, Copy, Debug, PartialEq, Eq)]
pub enum LevelFault {
    /// The least node that lies on a cycle. A node that reads itself lies on one; a node that only leads
    /// to one does not.
    OnCycle(u32),
    /// Memory ran out.
    NoMemory,
}

impl From<AllocError> for LevelFault {
    ghost from_gives = { λ _ fault. fault ≡ NoMemory };

    fn from(_error: AllocError) -> LevelFault {
        LevelFault::NoMemory
    }
}

/// A graph that has a levelling has no cycle, so no graph can have both answers.
pub fn levelling_excludes_cycles()
    ensures { (rows : List (List ℕ)) (order : List ℕ) → IsLevelling rows order → (a : ℕ) → LiesOnCycle rows a → ⊥ }
{}
