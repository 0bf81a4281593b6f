//! Whether leaves are the children that a machine names.

ghost use Rattle.std.specs.Prelude.{◌≡◌, ◌<◌, IsTrue, length, replicate};
ghost use Rattle.code_isa.specs.Traces.{level_at, levels_at};
ghost use Rattle.leaf_model.specs.Leaf.{model_of, IsReadyLeaf};
ghost use Rattle.wrapper_core.specs.Start.{IsJoined, AreJoined};
ghost use Rattle.settle_loop_tests.specs.Board.{AreReady};

use code_isa::{Kid, Machine};
use leaf_model::Leaf;
use sv_base::{Face, Port, Sequence, Summary};

fn is_port(p: &Port, q: &Port) -> bool
    ensures { IsTrue result → p.now ≡ q.now }
{
    p.name.is(&q.name) && p.class == q.class && p.signed == q.signed && p.width == q.width
}

fn are_ports(ps: &[Port], qs: &[Port]) -> bool
    ensures { IsTrue result → ps.now ≡ qs.now }
{
    if ps.len() != qs.len() {
        return false;
    }
    for k in 0..ps.len() {
        if !is_port(&ps[k], &qs[k]) {
            return false;
        }
    }
    true
}

fn is_face(f: &Face, g: &Face) -> bool
    ensures { IsTrue result → f.now ≡ g.now }
{
    f.name.is(&g.name) && are_ports(f.ports.as_slice(), g.ports.as_slice())
}

fn is_row(row: &Sequence<u32>, other: &Sequence<u32>) -> bool
    ensures { IsTrue result → row.now ≡ other.now }
{
    row.as_slice() == other.as_slice()
}

fn are_rows(rows: &[Sequence<u32>], others: &[Sequence<u32>]) -> bool
    ensures { IsTrue result → rows.now ≡ others.now }
{
    if rows.len() != others.len() {
        return false;
    }
    for k in 0..rows.len() {
        if !is_row(&rows[k], &others[k]) {
            return false;
        }
    }
    true
}

fn is_summary(s: &Summary, t: &Summary) -> bool
    ensures { IsTrue result → s.now ≡ t.now }
{
    are_rows(s.rows.as_slice(), t.rows.as_slice())
}

/// Whether this is the level of a clock.
fn is_level(own: bool, levels: &[bool], clock: u32) -> bool
    ensures { IsTrue result → own ≡ level_at levels.now clock }
{
    (clock as usize) < levels.len() && own == levels[clock as usize]
}

/// Whether these levels are those of these clocks.
fn are_levels(own: &[bool], levels: &[bool], clocks: &[u32]) -> bool
    ensures { IsTrue result → own.now ≡ levels_at levels.now clocks.now }
{
    if own.len() != clocks.len() {
        return false;
    }
    for k in 0..own.len() {
        if !is_level(own[k], levels, clocks[k]) {
            return false;
        }
    }
    true
}

fn is_joined(kid: &Kid, levels: &[bool], leaf: &Leaf) -> bool
    requires { IsReadyLeaf leaf.now }
    ensures { IsTrue result → IsJoined model_of IsReadyLeaf levels.now kid.now leaf.now }
{
    let m = leaf.code().machine();
    let same = is_face(&m.face, &kid.face) && is_summary(&m.summary, &kid.summary);
    same && are_levels(leaf.levels(), levels, kid.clocks.as_slice())
}

/// Whether each leaf is the child that the machine names, at the levels that it is joined to.
pub fn are_joined(m: &Machine, levels: &[bool], leaves: &[Leaf]) -> bool
    requires { AreReady leaves.now }
    ensures { IsTrue result → AreJoined model_of IsReadyLeaf m.now levels.now leaves.now }
{
    let kids = m.kids.as_slice();
    if kids.len() != leaves.len() {
        return false;
    }
    for k in 0..kids.len() {
        if !is_joined(&kids[k], levels, &leaves[k]) {
            return false;
        }
    }
    true
}

/// Whether each has this many bits: those of the data inputs of a face.
pub fn are_all(widths: &[u32], width: u32) -> bool
    ensures { IsTrue result → widths.now ≡ replicate (length widths.now) width }
{
    for k in 0..widths.len() {
        if widths[k] != width {
            return false;
        }
    }
    true
}
