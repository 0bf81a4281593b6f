//! Whether a source has the form that is supported so far.

ghost use Rattle.std.specs.Prelude.{◌≡◌};
ghost use Rattle.std.specs.List.{list_all};
ghost use Rattle.sealer.specs.Supported as spec;

use sv_ast::{CaseItem, Item, Module, Stmt};

/// Whether the modules of a source are one module without parameters, of declarations, continuous assignments and clocked
/// processes without loops. Takes time in the size of the source.
pub fn is_supported(modules: &[Module]) -> bool
    ensures { result ≡ spec.is_supported modules.now }
{
    match modules {
        [module] => module.params.is_empty() && are_supported(module.items.as_slice()),
        _ => false,
    }
}

/// Whether each item is such a one.
fn are_supported(items: &[Item]) -> bool
    ensures { result ≡ list_all spec.is_supported_item items.now }
{
    for item in items {
        if !is_supported_item(item) {
            return false;
        }
    }
    true
}

/// Whether an item is a declaration, a continuous assignment, a clocked process without loops, or empty.
fn is_supported_item(item: &Item) -> bool
    ensures { result ≡ spec.is_supported_item item.now }
{
    match item {
        Item::Declare(_, _) | Item::Assign(_) | Item::Empty => true,
        Item::Clocked(_, _, body) => is_loopless(body),
        Item::Param(_, _, _)
        | Item::Genvar(_)
        | Item::Comb(_, _)
        | Item::Instance(_, _, _)
        | Item::Generate(_)
        | Item::For(_, _, _, _)
        | Item::If(_, _, _, _) => false,
    }
}

/// Whether a statement has no loop, at any depth.
#[cycle(loopless)]
fn is_loopless(statement: &Stmt) -> bool
    ensures { result ≡ spec.is_loopless statement.now }
{
    match statement {
        Stmt::Block(_, parts) => are_loopless(parts.as_slice()),
        Stmt::If(_, _, first, second) => {
            let first = is_loopless(first.get());
            let second = match second {
                Some(second) => is_loopless(second.get()),
                None => true,
            };
            first && second
        }
        Stmt::Case(_, _, arms) => are_loopless_arms(arms.as_slice()),
        Stmt::For(_, _, _) => false,
        Stmt::Assign(_, _, _) | Stmt::Empty => true,
    }
}

/// Whether none of these statements has one.
#[cycle(loopless)]
fn are_loopless(statements: &[Stmt]) -> bool
    ensures { result ≡ list_all spec.is_loopless statements.now }
{
    for statement in statements {
        if !is_loopless(statement) {
            return false;
        }
    }
    true
}

/// Whether none of these arms of a `case` has one.
#[cycle(loopless)]
fn are_loopless_arms(arms: &[CaseItem]) -> bool
    ensures { result ≡ list_all spec.is_loopless_arm arms.now }
{
    for arm in arms {
        if !is_loopless(&arm.body) {
            return false;
        }
    }
    true
}
