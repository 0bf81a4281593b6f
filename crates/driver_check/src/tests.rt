//! Assignments by the wrong sign, to nets, and to what is no target.

use crate::written::{Within, written_rightly};
use bit_ops::Bits;
use net_ir::{Driver, Instance, Made, Output, Role, Spec, Stmt, Target, Term, Var};
use sqlite_items::{Boxed, Items};
use std::alloc::{AllocError, Global};
use std::process::Abort;
use std::test::Fail;
use sv_base::{Fault, Kind, Name, Place, Sequence};

const VARIABLE: u32 = 0;

const NET: u32 = 1;

fn at(line: u32) -> Place {
    Place { file: 1, line }
}

fn var(alloc: Global, name: &[u8], wire: bool) -> Result<Var, AllocError> {
    Ok(Var {
        name: Name::of(alloc, name)?,
        place: at(1),
        role: Role::Inner,
        width: 1,
        low: 0,
        ranged: false,
        signed: false,
        wire,
        init: Bits::zero(1),
    })
}

fn target(alloc: Global, var: Option<u32>, name: &[u8], line: u32) -> Result<Target, AllocError> {
    Ok(Target::Of {
        var,
        name: Name::of(alloc, name)?,
        place: at(line),
        pos: None,
    })
}

fn value() -> Term {
    Term::Const(Bits::zero(1))
}

fn assignment(target: Target, blocking: bool) -> Stmt {
    Stmt::Assign {
        blocking,
        target,
        value: value(),
    }
}

/// An item with one assignment.
fn item(alloc: Global, within: Within, blocking: bool, target: Target) -> Driver {
    match within {
        Within::Module => Driver::Assign {
            target,
            value: value(),
            place: at(2),
        },
        Within::Combinational => Driver::Comb {
            body: assignment(target, blocking),
            place: at(2),
        },
        Within::Clocked => Driver::Clocked {
            triggers: Sequence::new(alloc),
            body: assignment(target, blocking),
            place: at(2),
        },
    }
}

/// A module with a variable `y`, a net `w` and this item.
fn design(alloc: Global, driver: Driver) -> Result<Spec, AllocError> {
    let mut drivers = Sequence::new(alloc);
    drivers.push(driver)?;
    let mut vars = Sequence::new(alloc);
    vars.push(var(alloc, b"y", false)?)?;
    vars.push(var(alloc, b"w", true)?)?;
    Ok(Spec {
        module: Name::empty(alloc),
        place: at(1),
        params: Sequence::new(alloc),
        vars,
        drivers,
    })
}

/// The line and the name of the refusal, where the item is refused.
fn assert_refused(
    rt: &impl Abort,
    alloc: Global,
    driver: Driver,
    wanted: Option<(u32, &[u8])>,
) -> Result<(), Fail> {
    match (written_rightly(alloc, &design(alloc, driver)?), wanted) {
        (Ok(()), None) => Ok(()),
        (Err(Fault::Refused(refusal)), Some((line, name))) => {
            assert_eq!(rt; refusal.kind, Kind::WrongAssign);
            assert_eq!(rt; refusal.place, at(line));
            assert_eq!(rt; refusal.name.bytes(), name);
            Ok(())
        }
        _ => Err("another answer")?,
    }
}

#[test]
fn refuses_signs_nets_and_names(rt: HostRuntime) -> Result<(), Fail> {
    let alloc = rt.alloc();
    let rows: [(Within, bool, Option<u32>, Option<(u32, &[u8])>); 9] = [
        (Within::Module, true, Some(VARIABLE), None),
        (Within::Module, true, Some(NET), None),
        (Within::Module, true, None, Some((3, b"t"))),
        (Within::Combinational, true, Some(VARIABLE), None),
        (
            Within::Combinational,
            false,
            Some(VARIABLE),
            Some((3, b"t")),
        ),
        (Within::Combinational, true, Some(NET), Some((3, b"t"))),
        (Within::Clocked, false, Some(VARIABLE), None),
        (Within::Clocked, true, Some(VARIABLE), Some((3, b"t"))),
        (Within::Clocked, false, None, Some((3, b"t"))),
    ];
    for (within, blocking, var, wanted) in rows {
        let driver = item(alloc, within, blocking, target(alloc, var, b"t", 3)?);
        assert_refused(&rt, alloc, driver, wanted)?;
    }
    Ok(())
}

/// `{y, w} = 0` in a clocked process: the names come before the sign.
#[test]
fn names_come_before_the_sign(rt: HostRuntime) -> Result<(), Fail> {
    let alloc = rt.alloc();
    let mut parts = Items::new(alloc);
    parts.push(target(alloc, Some(VARIABLE), b"y", 3)?)?;
    parts.push(target(alloc, Some(NET), b"w", 4)?)?;
    let driver = item(alloc, Within::Clocked, true, Target::List(parts));
    assert_refused(&rt, alloc, driver, Some((4, b"w")))
}

/// A blocking assignment to what is no target.
fn wrong_branch(alloc: Global, name: &[u8], line: u32) -> Result<Boxed<Stmt>, AllocError> {
    let target = target(alloc, None, name, line)?;
    Boxed::new(alloc, assignment(target, true))
}

/// The first in the order of the text: a branch before its `else`.
#[test]
fn refuses_the_first_in_the_text(rt: HostRuntime) -> Result<(), Fail> {
    let alloc = rt.alloc();
    let second = wrong_branch(alloc, b"z", 5)?;
    let first = wrong_branch(alloc, b"y", 4)?;
    let driver = Driver::Comb {
        body: Stmt::If(value(), first, Some(second)),
        place: at(2),
    };
    assert_refused(&rt, alloc, driver, Some((4, b"y")))
}

/// An output that is joined to what is no target, at its connection.
#[test]
fn refuses_an_output_without_a_target(rt: HostRuntime) -> Result<(), Fail> {
    let alloc = rt.alloc();
    let mut outputs = Sequence::new(alloc);
    outputs.push(Output {
        port: 1,
        target: Some(target(alloc, Some(NET), b"w", 6)?),
        place: at(6),
    })?;
    outputs.push(Output {
        port: 0,
        target: None,
        place: at(7),
    })?;
    let driver = Driver::Instance(Instance {
        name: Name::empty(alloc),
        place: at(6),
        child: Made::Spec(0),
        inputs: Sequence::new(alloc),
        outputs,
    });
    assert_refused(&rt, alloc, driver, Some((7, b"")))
}
