//! The figures of the tree below each unit, each of which stops one above its limit.

ghost use Rattle.std.specs.Prelude.{◌≡◌, ◌<◌, length, All, IfOk, IfSome, IfNone, OnOk};
ghost use Rattle.code_isa.specs.Checks.{IsChecked};
ghost use Rattle.code_isa.specs.Tree.{Tree};
ghost use Rattle.linked_units.specs.Figures.{factor_of, IsWithinLimits};
ghost use Rattle.linked_units.specs.Units.{AreJoined, AreChecked, Passes};
ghost use Rattle.linked_units.specs.code.Counting.{joined, all_joined, with_factor, AreOf, AreFigures};

use crate::fault::LinkFault;
use crate::limits::{DEPTH_LIMIT, MODEL_LIMIT, PRODUCT_LIMIT};
use crate::unit::Unit;
use code_isa::Machine;
use std::alloc::{AllocError, Global};

/// How many models stand below a unit on one nesting path at most, the greatest product of a nesting path, and how many
/// models there are. None goes further than one above its limit.
#[derive(Clone, Copy, Debug)]
pub struct Figures {
    pub depth: u32,
    pub product: u64,
    pub models: u64,
}

/// The figures of a unit with one kid more.
fn joined(others: Figures, kid: Figures) -> Figures
    ensures { result ≡ joined others kid }
{
    Figures {
        depth: others
            .depth
            .max(kid.depth.saturating_add(1))
            .min(DEPTH_LIMIT + 1),
        product: others.product.max(kid.product),
        models: others
            .models
            .saturating_add(kid.models)
            .min(MODEL_LIMIT + 1),
    }
}

/// The figures of a unit with these kids, its own factor apart.
fn all_joined(figures: &[Figures], kids: &[u32]) -> Figures
    requires { All (λ kid. kid < length figures.now) kids.now }
    ensures { result ≡ all_joined figures.now kids.now }
{
    let mut all = Figures {
        depth: 0,
        product: 1,
        models: 1,
    };
    for kid in kids {
        all = joined(all, figures[*kid as usize]);
    }
    all
}

/// 2 more than the chain of a machine that has children, and 1 for one that has none.
fn factor_of(m: &Machine) -> u64
    ensures { result ≡ factor_of m.now }
{
    if m.kids.is_empty() {
        1
    } else {
        m.chain as u64 + 2
    }
}

/// The figures of a unit, from those of the units before it.
fn figures_of(figures: &[Figures], unit: &Unit) -> Figures
    requires { All (λ kid. kid < length figures.now) unit.now.kids }
    ensures figures { result ≡ with_factor (factor_of unit.now.code) (all_joined figures.now unit.now.kids) }
    ensures checked { IsChecked unit.now.code }
{
    let factor = factor_of(unit.code.machine());
    let all = all_joined(figures, unit.kids.as_slice());
    Figures {
        depth: all.depth,
        product: factor.saturating_mul(all.product).min(PRODUCT_LIMIT + 1),
        models: all.models,
    }
}

/// The figures of each unit.
pub fn all_figures(alloc: Global, units: &[Unit]) -> Result<Vec<Figures>, AllocError>
    requires joined { AreJoined units.now }
    ensures each { IfOk result (λ figures. length figures.items ≡ length units.now) }
    ensures right { IfOk result (λ figures. AreFigures figures.items units.now) }
    ensures checked { OnOk result (AreChecked units.now) }
{
    let mut figures = Vec::new(alloc);
    for unit in units {
        let own = figures_of(figures.as_slice(), unit);
        figures.push(own)?;
    }
    Ok(figures)
}

/// The first limit that a tree with these figures passes.
pub fn passed(figures: Figures) -> Option<LinkFault>
    ensures none { IfNone result ((t : Tree) → AreOf figures t → IsWithinLimits t) }
    ensures some { IfSome result (λ fault. (t : Tree) → AreOf figures t → Passes t fault) }
{
    if figures.depth > DEPTH_LIMIT {
        return Some(LinkFault::Deep {
            depth: figures.depth,
        });
    }
    if figures.product > PRODUCT_LIMIT {
        return Some(LinkFault::Heavy {
            product: figures.product,
        });
    }
    if figures.models > MODEL_LIMIT {
        return Some(LinkFault::Crowded {
            models: figures.models,
        });
    }
    None
}
