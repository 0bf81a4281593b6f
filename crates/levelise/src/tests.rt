ghost use Rattle.std.specs.Prelude.{◌<◌, ◌↔◌, IsTrue, All};
ghost use Rattle.levelise.specs.Graph.{HasFewRows, ReadsOnlyNodes};

use crate::{Graph, LevelFault, order};
use std::alloc::{AllocError, Global};
use std::process::Abort;
use std::test::Fail;
use sv_base::Sequence;

fn graph_of(alloc: Global, rows: &[&[u32]]) -> Result<Graph, AllocError> {
    let mut reads = Sequence::new(alloc);
    for row in rows {
        reads.push(Sequence::from_vec(row.to_vec(alloc)?))?;
    }
    Ok(Graph { reads })
}

fn is_below(row: &[u32], nodes: usize) -> bool
    ensures { IsTrue result ↔ All (λ b. b < nodes) row.now }
{
    row.iter().all(|node| (*node as usize) < nodes)
}

/// Whether the graph is one that `order` takes.
fn is_closed(g: &Graph) -> bool
    ensures few { IsTrue result → HasFewRows g.now.reads }
    ensures inside { IsTrue result → ReadsOnlyNodes g.now.reads }
{
    let rows = g.reads.as_slice();
    let nodes = rows.len();
    nodes < 4_294_967_296 && rows.iter().all(|row| is_below(row.as_slice(), nodes))
}

/// Where a node stands in a list.
fn place(order: &[u32], node: u32) -> Option<usize> {
    order.iter().position(|other| *other == node)
}

/// As many entries as nodes, each node among them, and what it reads before it.
fn assert_levels(rt: &impl Abort, g: &Graph, order: &[u32]) {
    assert_eq!(rt; order.len(), g.reads.len());
    let mut node = 0;
    for row in g.reads.as_slice() {
        let here = place(order, node);
        assert!(rt; here.is_some(), "node {node}");
        for read in row.as_slice() {
            assert!(rt; place(order, *read).is_some());
            assert!(rt; place(order, *read) < here, "node {node} reads {read}");
        }
        node = node.wrapping_add(1);
    }
}

#[test]
fn levels_small_graphs(rt: HostRuntime) -> Result<(), Fail> {
    let graphs: [(&[&[u32]], &[u32]); 6] = [
        (&[], &[]),
        (&[&[]], &[0]),
        (&[&[1, 2], &[3], &[3], &[]], &[3, 2, 1, 0]),
        (&[&[1, 1], &[]], &[1, 0]),
        (&[&[], &[0], &[0, 1]], &[0, 1, 2]),
        (&[&[], &[3], &[], &[2, 0]], &[0, 2, 3, 1]),
    ];
    for (rows, want) in graphs {
        let g = graph_of(rt.alloc(), rows)?;
        assert!(rt; is_closed(&g));
        match order(rt.alloc(), &g) {
            Ok(levels) => assert_eq!(rt; levels.as_slice(), want, "{g:?}"),
            Err(fault) => assert!(rt; false, "{fault:?} at {g:?}"),
        }
    }
    Ok(())
}

#[test]
fn tells_the_least_node_on_a_cycle(rt: HostRuntime) -> Result<(), Fail> {
    let graphs: [(&[&[u32]], u32); 7] = [
        // a node that reads itself, alone and after one that leads to it
        (&[&[0]], 0),
        (&[&[1], &[1]], 1),
        // node 0 leads to the cycle of 1 and 2
        (&[&[1], &[2], &[1]], 1),
        // of two cycles, that of 1 and 4 is met after that of 2 and 3
        (&[&[1, 2], &[4], &[3], &[2], &[1]], 1),
        (&[&[2, 4], &[4], &[3], &[2], &[1]], 1),
        // the least node of a cycle is met last on it
        (&[&[3], &[2], &[3], &[1]], 1),
        // node 1 stands between two cycles, and on none, and node 0 only leads to one
        (&[&[4], &[2], &[3], &[2], &[5], &[4, 1]], 2),
    ];
    for (rows, want) in graphs {
        let g = graph_of(rt.alloc(), rows)?;
        assert!(rt; is_closed(&g));
        match order(rt.alloc(), &g) {
            Ok(levels) => assert!(rt; false, "{levels:?} at {g:?}"),
            Err(fault) => assert_eq!(rt; fault, LevelFault::OnCycle(want), "{g:?}"),
        }
    }
    Ok(())
}

#[test]
fn levels_a_long_chain_in_both_directions(rt: HostRuntime) -> Result<(), Fail> {
    let nodes = 200_000;
    let mut up = Sequence::new(rt.alloc());
    let mut down = Sequence::new(rt.alloc());
    for node in 0..nodes {
        let mut next = Vec::new(rt.alloc());
        if node + 1 < nodes {
            next.push(node + 1)?;
        }
        up.push(Sequence::from_vec(next))?;
        let mut previous = Vec::new(rt.alloc());
        if node > 0 {
            previous.push(node - 1)?;
        }
        down.push(Sequence::from_vec(previous))?;
    }
    let up = Graph { reads: up };
    assert!(rt; is_closed(&up));
    let levels = order(rt.alloc(), &up).ok().ok_or("the chain has no cycle")?;
    assert!(rt; levels.as_slice().iter().copied().eq((0..nodes).rev()));
    let down = Graph { reads: down };
    assert!(rt; is_closed(&down));
    let levels = order(rt.alloc(), &down)
        .ok()
        .ok_or("the chain has no cycle")?;
    assert!(rt; levels.as_slice().iter().copied().eq(0..nodes));
    Ok(())
}

/// Numbers that look random, from a linear congruence; the high bits of each are used.
#[derive(Drop)]
struct Numbers(u64);

impl Numbers {
    fn below(&mut self, n: u64) -> u64
        requires { 0 < n }
    {
        self.0 = self
            .0
            .wrapping_mul(6_364_136_223_846_793_005)
            .wrapping_add(1_442_695_040_888_963_407);
        (self.0 >> 33) % n
    }
}

/// Which nodes each leads to, by one step or more: the plain closure of what they read.
fn closure(edges: [[bool; 8]; 8]) -> [[bool; 8]; 8] {
    let mut leads = edges;
    for through in 0..8 {
        for from in 0..8 {
            for to in 0..8 {
                if leads[from][through] && leads[through][to] {
                    leads[from][to] = true;
                }
            }
        }
    }
    leads
}

fn first_on_cycle(leads: [[bool; 8]; 8]) -> Option<usize> {
    (0..8).find(|node| leads[*node][*node])
}

#[test]
fn agrees_with_the_closure_on_random_graphs(rt: HostRuntime) -> Result<(), Fail> {
    let mut numbers = Numbers(1800);
    for turn in 0..2000 {
        let nodes = numbers.below(9);
        // from one edge in two pairs to one in sixteen
        let sparse = 2 + turn % 15;
        let mut edges = [[false; 8]; 8];
        let mut reads = Sequence::new(rt.alloc());
        for from in 0..8 {
            if from < nodes {
                let mut row = Vec::new(rt.alloc());
                for to in 0..8 {
                    if to < nodes && numbers.below(sparse) == 0 {
                        edges[from as usize][to as usize] = true;
                        row.push(to as u32)?;
                    }
                }
                reads.push(Sequence::from_vec(row))?;
            }
        }
        let g = Graph { reads };
        assert!(rt; is_closed(&g));
        match (order(rt.alloc(), &g), first_on_cycle(closure(edges))) {
            (Ok(levels), None) => assert_levels(&rt, &g, levels.as_slice()),
            (Err(LevelFault::OnCycle(node)), Some(want)) => assert_eq!(rt;
                node as usize,
                want,
                "{g:?}"
            ),
            (answer, want) => assert!(rt; false, "{answer:?}, not {want:?}, at {g:?}"),
        }
    }
    Ok(())
}
