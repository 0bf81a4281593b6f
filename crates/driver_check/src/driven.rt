//! Who drives each bit, and the first bit that more than one would drive.

ghost use Rattle.std.specs.Prelude.{◌≡◌, ◌≤◌, [], ◌∷◌, map, length, replicate, None, IfOk, IsErr, IfErr, MatchResult};
ghost use Rattle.sv_base.specs.Faults.{IfRefused};
ghost use Rattle.net_ir.specs.Value.{widths_of};
ghost use Rattle.net_ir.specs.Lawful.{IsLawfulSpec};
ghost use Rattle.driver_check.specs.Refused.{IsFirst};
ghost use Rattle.driver_check.specs.Driven.{is_input, overlaps, IsDriverMap};
ghost use Rattle.driver_check.specs.code.Marks.{undriven, HasShape, IsInside, AreInside, is_marked, conflict, flaw_of, flaws_of, IsMarked, AreMarked};

use crate::DriverFault;
use crate::runs::{Run, Taken};
use crate::sources::{Source, written_bits};
use net_ir::{Role, Spec, Var};
use std::alloc::{AllocError, Global};
use std::mem;
use sv_base::{Kind, Name, Place, Refusal, Sequence};

/// A row for each variable, with an entry for each of its bits: the number of the bit's driver, or none.
#[derive(Drop)]
pub struct DriverMap {
    pub rows: Sequence<Sequence<Option<usize>>>,
}

/// The driver of each bit, by its place among the sources that `written_bits` lists. Refuses the first driver that takes a bit of an input
/// of the module, or one that a driver before it takes. Bits that one driver takes twice are driven once.
pub fn driven_once(alloc: Global, spec: &Spec) -> Result<DriverMap, DriverFault>
    requires { IsLawfulSpec spec.now }
    ensures map { IfOk result (λ map. IsDriverMap spec.now map.rows) }
    ensures judged { MatchResult result (λ _. overlaps spec.now ≡ []) (IsFirst (overlaps spec.now)) }
{
    let vars = spec.vars.as_slice();
    let sources = written_bits(alloc, spec)?;
    let mut rows = undriven(alloc, vars)?;
    for number in 0..sources.len() {
        let source = &sources.as_slice()[number];
        judge_source(alloc, vars, rows.as_slice(), source)?;
        mark_source(alloc, source, number, &mut rows);
    }
    Ok(DriverMap {
        rows: Sequence::from_vec(rows),
    })
}

/// A row for each variable: no bit has a driver yet.
fn undriven(alloc: Global, vars: &[Var]) -> Result<Vec<Sequence<Option<usize>>>, AllocError>
    ensures { IfOk result (λ rows. rows.items ≡ map undriven vars.now) }
{
    let mut rows = Vec::new(alloc);
    for var in vars {
        let row = undriven_row(alloc, var.width as usize)?;
        rows.push(Sequence::from_vec(row))?;
    }
    Ok(rows)
}

/// So many bits without a driver.
fn undriven_row(alloc: Global, width: usize) -> Result<Vec<Option<usize>>, AllocError>
    ensures { IfOk result (λ row. row.items ≡ replicate width None) }
{
    let mut row = Vec::with_capacity(alloc, width)?;
    for _ in 0..width {
        row.push(None)?;
    }
    Ok(row)
}

/// Refuses the first run of bits that a driver may not drive. All its runs are judged before one is marked, since it may take a bit twice.
fn judge_source(
    alloc: Global,
    vars: &[Var],
    rows: &[Sequence<Option<usize>>],
    source: &Source,
) -> Result<(), DriverFault>
    requires shape { HasShape vars.now rows.now }
    requires inside { AreInside (widths_of vars.now) source.now.taken }
    ensures { MatchResult result (λ _. flaws_of vars.now rows.now source.now ≡ []) (IsFirst (flaws_of vars.now rows.now source.now)) }
{
    for taken in source.taken.as_slice() {
        judge_taken(alloc, vars, rows, source.place, *taken)?;
    }
    Ok(())
}

/// Refuses a run of bits that may not be driven.
fn judge_taken(
    alloc: Global,
    vars: &[Var],
    rows: &[Sequence<Option<usize>>],
    place: Place,
    taken: Taken,
) -> Result<(), DriverFault>
    requires shape { HasShape vars.now rows.now }
    requires inside { IsInside (widths_of vars.now) taken }
    ensures { MatchResult result (λ _. flaw_of vars.now rows.now place taken ≡ []) (IsFirst (flaw_of vars.now rows.now place taken)) }
{
    let var = &vars[taken.var as usize];
    match conflict(var.role, rows[taken.var as usize].as_slice(), taken.run) {
        Some(kind) => refuse(alloc, kind, place, &var.name),
        None => Ok(()),
    }
}

/// Why a run of a variable's bits may not be driven, where it may not.
fn conflict(role: Role, row: &[Option<usize>], run: Run) -> Option<Kind>
    requires { run.end ≤ length row.now }
    ensures { result ≡ conflict role row.now run }
{
    if is_input(role) {
        if run.low < run.end {
            Some(Kind::InputDriven)
        } else {
            None
        }
    } else if is_marked(row, run) {
        Some(Kind::TwoDrivers)
    } else {
        None
    }
}

/// Whether a variable is an input of the module itself.
fn is_input(role: Role) -> bool
    ensures { result ≡ is_input role }
{
    match role {
        Role::Input => true,
        Role::Output | Role::Inner => false,
    }
}

/// Whether some bit of a run has a driver.
fn is_marked(row: &[Option<usize>], run: Run) -> bool
    requires { run.end ≤ length row.now }
    ensures { result ≡ is_marked row.now run }
{
    for k in run.low..run.end {
        if row[k as usize].is_some() {
            return true;
        }
    }
    false
}

/// Refuses a driver by the name of a variable.
fn refuse(alloc: Global, kind: Kind, place: Place, name: &Name) -> Result<(), DriverFault>
    ensures refused { IsErr result }
    ensures why { IfErr result (IfRefused (λ refusal. refusal ≡ record { kind = kind; place = place; name = name.now })) }
{
    Err(DriverFault::Refused(Refusal {
        kind,
        place,
        name: Name::of(alloc, name.bytes())?,
    }))
}

/// Gives the bits that a driver takes its number.
fn mark_source(
    alloc: Global,
    source: &Source,
    number: usize,
    rows: &mut Vec<Sequence<Option<usize>>>,
)
    requires { AreInside (map length rows.old.items) source.now.taken }
    ensures { AreMarked source.now.taken number rows.old.items rows.new.items }
{
    for taken in source.taken.as_slice() {
        mark_taken(alloc, *taken, number, rows);
    }
}

/// Gives the bits of a run a driver's number. The row is taken out for it, and an empty one takes no memory.
fn mark_taken(alloc: Global, taken: Taken, number: usize, rows: &mut Vec<Sequence<Option<usize>>>)
    requires { IsInside (map length rows.old.items) taken }
    ensures { AreMarked (taken ∷ []) number rows.old.items rows.new.items }
{
    let x = taken.var as usize;
    let mut row = mem::replace(&mut rows[x], Sequence::new(alloc)).into_vec();
    mark_run(taken.run, number, &mut row);
    rows[x] = Sequence::from_vec(row);
}

/// Gives the bits of a run of a row a driver's number.
fn mark_run(run: Run, number: usize, row: &mut Vec<Option<usize>>)
    requires { run.end ≤ length row.old.items }
    ensures { IsMarked run number row.old.items row.new.items }
{
    for k in run.low..run.end {
        row[k as usize] = Some(number);
    }
}
