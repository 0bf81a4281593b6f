ghost use Rattle.std.specs.Prelude.{◌≡◌, ◌<◌, ◌≤◌, ◌++◌, [], ℕ, length, fold, All, Contains, OnOk, IfOk, IfSome, IfNone};
ghost use Rattle.levelise.specs.Graph.{row_of, HasFewRows, ReadsOnlyNodes};
ghost use Rattle.levelise.specs.Search.{mark_of, edges_from, noted, AreByPlace, IsLast, NotesPart, Rises, IsSound};

use crate::graph::Graph;
use std::alloc::{AllocError, Global};

/// How far the search has come with a node.
#[derive(Clone, Copy)]
pub enum Mark {
    /// Not met yet.
    New,
    /// On the path, at this place.
    Open(usize),
    /// Levelled.
    Done,
}

/// A read that is still to be followed: the place on the path of the node that reads, and the node read.
#[derive(Clone, Copy)]
pub struct Edge {
    pub from: usize,
    pub to: u32,
}

/// A search for cycles along what the nodes read, depth first. The nodes on the path form parts, in which
/// each node leads to each other; a part begins at one of `starts`, places of the path, and ends before the next.
/// `pending` are the edges that are still to be followed, `done` the nodes that are levelled, and `least` is the
/// least node that is known to lie on a cycle. Each node is put on the path and taken off it once, and each edge is
/// followed once.
#[derive(Drop)]
pub struct Search {
    pub marks: Vec<Mark>,
    pub path: Vec<u32>,
    pub starts: Vec<usize>,
    pub pending: Vec<Edge>,
    pub done: Vec<u32>,
    pub least: Option<u32>,
}

impl Search {
    ghost use Rattle.levelise.specs.Search.{Opens, KeepsMet, steps_left};

    /// The search that has met no node.
    fn new(alloc: Global, g: &Graph) -> Result<Search, AllocError>
        ensures sound { IfOk result (IsSound g.now.reads) }
        ensures empty { IfOk result (λ s. s.path.items ≡ []) }
    {
        Ok(Search {
            marks: vec![in alloc; Mark::New; g.reads.len()]?,
            path: Vec::new(alloc),
            starts: Vec::new(alloc),
            pending: Vec::new(alloc),
            done: Vec::new(alloc),
            least: None,
        })
    }

    /// Puts a node on the path, as a part of its own, and adds its edges.
    fn open(&mut self, g: &Graph, node: u32) -> Result<(), AllocError>
        requires node { node < length g.now.reads }
        requires sized { length self.old.marks.items ≡ length g.now.reads }
        ensures opened { OnOk result (Opens g.now.reads self.old self.new node) }
    {
        let place = self.path.len();
        self.marks[node as usize] = Mark::Open(place);
        self.path.push(node)?;
        self.starts.push(place)?;
        add_edges(&mut self.pending, place, row_at(g, node))
    }

    /// Follows the last edge.
    fn follow(&mut self, g: &Graph, edge: Edge) -> Result<(), AllocError>
        requires inside { ReadsOnlyNodes g.now.reads }
        requires sound { IsSound g.now.reads self.old }
        requires last { IsLast self.old.pending.items edge }
        requires in_last_part { (s : ℕ) → Contains self.old.starts.items s → s ≤ edge.from }
        ensures sound { OnOk result (IsSound g.now.reads self.new) }
        ensures kept { OnOk result (KeepsMet self.old.marks.items self.new.marks.items) }
        ensures nearer { OnOk result (steps_left g.now.reads self.new < steps_left g.now.reads self.old) }
    {
        self.pending.pop();
        match self.marks[edge.to as usize] {
            Mark::New => self.open(g, edge.to)?,
            Mark::Open(place) => {
                self.least = note(self.least, edge.to);
                join_parts(&mut self.starts, place);
            }
            Mark::Done => {}
        }
        Ok(())
    }

    /// Takes the part that begins at a place, the last one, off the path.
    fn close(&mut self, g: &Graph, start: usize) -> Result<(), AllocError>
        requires inside { start ≤ length self.old.path.items }
        requires sound { IsSound g.now.reads self.old }
        requires last { IsLast self.old.starts.items start }
        requires followed { All (λ e. e.from < start) self.old.pending.items }
        ensures sound { OnOk result (IsSound g.now.reads self.new) }
        ensures kept { OnOk result (KeepsMet self.old.marks.items self.new.marks.items) }
        ensures nearer { OnOk result (steps_left g.now.reads self.new < steps_left g.now.reads self.old) }
    {
        let part = &self.path[start..];
        self.least = note_part(self.least, part);
        settle(&mut self.marks, &mut self.done, part)?;
        self.path.truncate(start);
        self.starts.pop();
        Ok(())
    }

    /// One step on in the last part: the next edge is followed, or the part is whole.
    fn advance(&mut self, g: &Graph, start: usize) -> Result<(), AllocError>
        requires inside { ReadsOnlyNodes g.now.reads }
        requires sound { IsSound g.now.reads self.old }
        requires last { IsLast self.old.starts.items start }
        ensures sound { OnOk result (IsSound g.now.reads self.new) }
        ensures kept { OnOk result (KeepsMet self.old.marks.items self.new.marks.items) }
        ensures nearer { OnOk result (steps_left g.now.reads self.new < steps_left g.now.reads self.old) }
    {
        match next_edge(&self.pending, start) {
            Some(edge) => self.follow(g, edge),
            None => self.close(g, start),
        }
    }

    /// Goes on until the path is empty.
    fn explore(&mut self, g: &Graph) -> Result<(), AllocError>
        requires inside { ReadsOnlyNodes g.now.reads }
        requires sound { IsSound g.now.reads self.old }
        ensures sound { OnOk result (IsSound g.now.reads self.new) }
        ensures kept { OnOk result (KeepsMet self.old.marks.items self.new.marks.items) }
        ensures empty { OnOk result (self.new.path.items ≡ []) }
    {
        while let Some(&start) = self.starts.last() {
            self.advance(g, start)?;
        }
        Ok(())
    }

    /// Levels a node, and all that it leads to.
    fn visit(&mut self, g: &Graph, node: u32) -> Result<(), AllocError>
        requires node { node < length g.now.reads }
        requires inside { ReadsOnlyNodes g.now.reads }
        requires sound { IsSound g.now.reads self.old }
        requires empty { self.old.path.items ≡ [] }
        ensures sound { OnOk result (IsSound g.now.reads self.new) }
        ensures kept { OnOk result (KeepsMet self.old.marks.items self.new.marks.items) }
        ensures met { OnOk result (mark_of self.new.marks.items node ≡ Mark.New → ⊥) }
        ensures empty { OnOk result (self.new.path.items ≡ []) }
    {
        if let Mark::New = self.marks[node as usize] {
            self.open(g, node)?;
            self.explore(g)?;
        }
        Ok(())
    }

    /// Levels every node.
    fn visit_all(&mut self, g: &Graph) -> Result<(), AllocError>
        requires few { HasFewRows g.now.reads }
        requires inside { ReadsOnlyNodes g.now.reads }
        requires sound { IsSound g.now.reads self.old }
        requires empty { self.old.path.items ≡ [] }
        ensures sound { OnOk result (IsSound g.now.reads self.new) }
        ensures all { OnOk result ((a : ℕ) → a < length g.now.reads → mark_of self.new.marks.items a ≡ Mark.Done) }
    {
        for node in 0..g.reads.len() {
            self.visit(g, node as u32)?;
        }
        Ok(())
    }
}

/// The search of the whole graph.
pub fn searched(alloc: Global, g: &Graph) -> Result<Search, AllocError>
    requires few { HasFewRows g.now.reads }
    requires inside { ReadsOnlyNodes g.now.reads }
    ensures sound { IfOk result (λ s. IsSound g.now.reads s) }
    ensures all { IfOk result (λ s. (a : ℕ) → a < length g.now.reads → mark_of s.marks.items a ≡ Mark.Done) }
{
    let mut search = Search::new(alloc, g)?;
    search.visit_all(g)?;
    Ok(search)
}

/// The nodes that a node reads.
fn row_at(g: &Graph, node: u32) -> &[u32]
    requires { node < length g.now.reads }
    ensures { result.now ≡ row_of g.now.reads node }
{
    g.reads.as_slice()[node as usize].as_slice()
}

/// The next edge to follow that leaves a place from `start` on.
fn next_edge(pending: &[Edge], start: usize) -> Option<Edge>
    requires { AreByPlace pending.now }
    ensures last { IfSome result (IsLast pending.now) }
    ensures from { IfSome result (λ edge. start ≤ edge.from) }
    ensures none { IfNone result (All (λ edge. edge.from < start) pending.now) }
{
    match pending.last() {
        Some(&edge) if edge.from >= start => Some(edge),
        _ => None,
    }
}

/// Adds the edges of the node at the place `from`.
fn add_edges(pending: &mut Vec<Edge>, from: usize, row: &[u32]) -> Result<(), AllocError>
    ensures { OnOk result (pending.new.items ≡ pending.old.items ++ edges_from from row.now) }
{
    for to in row {
        pending.push(Edge { from, to: *to })?;
    }
    Ok(())
}

/// Joins all parts from the one that holds a place on: only the starts up to the place are left.
fn join_parts(starts: &mut Vec<usize>, place: usize)
    requires { Rises starts.old.items }
    ensures rises { Rises starts.new.items }
    ensures kept { (s : ℕ) → Contains starts.old.items s → s ≤ place → Contains starts.new.items s }
    ensures only { (s : ℕ) → Contains starts.new.items s → Contains starts.old.items s }
    ensures up_to { (s : ℕ) → Contains starts.new.items s → s ≤ place }
    ensures fewer { length starts.new.items ≤ length starts.old.items }
{
    while let Some(&start) = starts.last() {
        if start <= place {
            break;
        }
        starts.pop();
    }
}

/// The least node on a cycle, now that this one is known to lie on one.
fn note(least: Option<u32>, node: u32) -> Option<u32>
    ensures { result ≡ noted least node }
{
    match least {
        None => Some(node),
        Some(known) => Some(known.min(node)),
    }
}

/// The least node on a cycle, now that all these are known to lie on one.
fn note_all(mut least: Option<u32>, part: &[u32]) -> Option<u32>
    ensures { result ≡ fold noted least part.now }
{
    for node in part {
        least = note(least, *node);
    }
    least
}

/// The least node on a cycle, once a part is whole: each node of a part of two or more lies on one.
fn note_part(least: Option<u32>, part: &[u32]) -> Option<u32>
    ensures { NotesPart least part.now result }
{
    if part.len() > 1 {
        note_all(least, part)
    } else {
        least
    }
}

/// Marks the nodes of a part as done, and adds them to the list.
fn settle(marks: &mut Vec<Mark>, done: &mut Vec<u32>, part: &[u32]) -> Result<(), AllocError>
    requires { All (λ a. a < length marks.old.items) part.now }
    ensures size { OnOk result (length marks.new.items ≡ length marks.old.items) }
    ensures settled { OnOk result ((a : ℕ) → Contains part.now a → mark_of marks.new.items a ≡ Mark.Done) }
    ensures others { OnOk result ((a : ℕ) → (Contains part.now a → ⊥) → mark_of marks.new.items a ≡ mark_of marks.old.items a) }
    ensures list { OnOk result (done.new.items ≡ done.old.items ++ part.now) }
{
    for node in part {
        marks[*node as usize] = Mark::Done;
        done.push(*node)?;
    }
    Ok(())
}
