ghost use Rattle.std.specs.Prelude.{IfOk, IfErr};
ghost use Rattle.levelise.specs.Graph.{HasFewRows, ReadsOnlyNodes, IsLevelling};
ghost use Rattle.levelise.specs.LevelFault.{TellsLeastOnCycle};

use crate::graph::{Graph, LevelFault};
use crate::search::searched;
use std::alloc::Global;
use sv_base::Sequence;

/// Every node of the graph, each after all that it reads, or the least node that lies on a cycle.
///
/// The nodes come depth first: by rising number, each after what it reads, and of what one node reads the last
/// entry of its row first. Time and memory grow with the number of nodes and entries, whatever the answer, and
/// the stack does not grow with the graph.
pub fn order(alloc: Global, g: &Graph) -> Result<Sequence<u32>, LevelFault>
    requires few { HasFewRows g.now.reads }
    requires inside { ReadsOnlyNodes g.now.reads }
    ensures ok { IfOk result (IsLevelling g.now.reads) }
    ensures cycle { IfErr result (TellsLeastOnCycle g.now.reads) }
{
    let search = searched(alloc, g)?;
    match search.least {
        Some(node) => Err(LevelFault::OnCycle(node)),
        None => Ok(Sequence::from_vec(search.done)),
    }
}
