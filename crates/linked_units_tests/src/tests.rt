//! Units that were typed by hand.

ghost use Rattle.std.specs.Prelude.{◌≡◌, IfOk};

use code_check::{check, has_few_slots};
use code_isa::Checked;
use linked_units::{LinkFault, Unit, are_joined, from_units};
use machine_text::{Words, read_machine};
use std::alloc::Global;
use std::process::Abort;
use std::test::Fail;
use sv_base::Sequence;

/// Units, and what comes of them. Each unit is its chain and then the numbers of its kids; a `/` ends it.
const UNITS: [(&str, &str); 22] = [
    ("0 /", "1 unit"),
    ("5 / 0 0 / 7 1 1 0 /", "3 units"),
    // 16 models below the root, one below another, and 17
    (
        "0 / 0 0 / 0 1 / 0 2 / 0 3 / 0 4 / 0 5 / 0 6 / 0 7 / 0 8 / 0 9 / 0 10 / 0 11 / 0 12 / 0 13 / 0 14 / 0 15 /",
        "17 units",
    ),
    (
        "0 / 0 0 / 0 1 / 0 2 / 0 3 / 0 4 / 0 5 / 0 6 / 0 7 / 0 8 / 0 9 / 0 10 / 0 11 / 0 12 / 0 13 / 0 14 / 0 15 / 0 16 /",
        "Deep 17",
    ),
    (
        "0 / 0 0 / 0 1 / 0 2 / 0 3 / 0 4 / 0 5 / 0 6 / 0 7 / 0 8 / 0 9 / 0 10 / 0 11 / 0 12 / 0 13 / 0 14 / 0 15 / 0 16 / 0 17 /",
        "Deep 17",
    ),
    // the longest path counts, whichever kid it goes through
    (
        "0 / 0 0 / 0 1 / 0 2 / 0 3 / 0 4 / 0 5 / 0 6 / 0 7 / 0 8 / 0 9 / 0 10 / 0 11 / 0 12 / 0 13 / 0 14 / 0 15 / 0 16 0 /",
        "Deep 17",
    ),
    (
        "0 / 0 0 / 0 1 / 0 2 / 0 3 / 0 4 / 0 5 / 0 6 / 0 7 / 0 8 / 0 9 / 0 10 / 0 11 / 0 12 / 0 13 / 0 14 / 0 15 / 0 0 16 /",
        "Deep 17",
    ),
    // units that the root does not reach do not count
    (
        "0 / 0 0 / 0 1 / 0 2 / 0 3 / 0 4 / 0 5 / 0 6 / 0 7 / 0 8 / 0 9 / 0 10 / 0 11 / 0 12 / 0 13 / 0 14 / 0 15 / 0 16 / 0 15 /",
        "19 units",
    ),
    // a product of 2^38, and of 1 more
    ("0 / 524286 0 / 524286 1 /", "3 units"),
    ("0 / 523263 0 / 525311 1 /", "Heavy 274877906945"),
    ("0 / 4294967294 0 / 62 1 /", "3 units"),
    ("0 / 4294967294 0 / 63 1 /", "Heavy 274877906945"),
    (
        "0 / 4294967294 0 / 4294967294 1 / 4294967294 2 /",
        "Heavy 274877906945",
    ),
    // a unit without children adds nothing, and two paths are not multiplied
    ("4294967294 / 524286 0 / 524286 1 /", "3 units"),
    ("0 / 523263 0 / 0 0 / 525311 2 1 /", "Heavy 274877906945"),
    ("0 / 523263 0 / 0 0 / 525311 1 2 /", "Heavy 274877906945"),
    ("0 / 524286 0 / 0 0 / 524286 1 2 1 /", "4 units"),
    // 65,536 models, and 1 more
    (
        "0 / 0 0 0 / 0 1 1 / 0 2 2 / 0 3 3 / 0 4 4 / 0 5 5 / 0 6 6 / 0 7 7 / 0 8 8 / 0 9 9 / 0 10 10 / 0 11 11 / 0 12 12 / 0 13 13 / 0 14 14 / 0 15 /",
        "17 units",
    ),
    (
        "0 / 0 0 0 / 0 1 1 / 0 2 2 / 0 3 3 / 0 4 4 / 0 5 5 / 0 6 6 / 0 7 7 / 0 8 8 / 0 9 9 / 0 10 10 / 0 11 11 / 0 12 12 / 0 13 13 / 0 14 14 / 0 15 0 /",
        "Crowded 65537",
    ),
    (
        "0 / 0 0 0 / 0 1 1 / 0 2 2 / 0 3 3 / 0 4 4 / 0 5 5 / 0 6 6 / 0 7 7 / 0 8 8 / 0 9 9 / 0 10 10 / 0 11 11 / 0 12 12 / 0 13 13 / 0 14 14 / 0 15 15 /",
        "Crowded 65537",
    ),
    // depth comes first, and then the product
    (
        "0 / 999999999 0 0 / 999999999 1 1 / 0 2 2 / 0 3 3 / 0 4 4 / 0 5 5 / 0 6 6 / 0 7 7 / 0 8 8 / 0 9 9 / 0 10 10 / 0 11 11 / 0 12 12 / 0 13 13 / 0 14 14 / 0 15 15 / 0 16 16 /",
        "Deep 17",
    ),
    (
        "0 / 999999999 0 0 / 999999999 1 1 / 0 2 2 / 0 3 3 / 0 4 4 / 0 5 5 / 0 6 6 / 0 7 7 / 0 8 8 / 0 9 9 / 0 10 10 / 0 11 11 / 0 12 12 / 0 13 13 / 0 14 14 / 0 15 15 /",
        "Heavy 274877906945",
    ),
];

/// A machine without ports and code that has this chain and so many children without ports.
fn checked(rt: &impl Abort, alloc: Global, chain: u64, kids: usize) -> Result<Checked, Fail> {
    let mut text = format!(in alloc; "0 / {chain} / 0 / {kids}")?;
    for _ in 0..kids {
        text.push_str(" 0")?;
    }
    text.push_str(" / 0 /")?;
    let m = read_machine(alloc, &mut Words::of(text.as_str()))?;
    assert!(rt; has_few_slots(&m));
    Ok(check(alloc, m)?)
}

/// A unit: its chain, and then the numbers of its kids.
fn unit(rt: &impl Abort, alloc: Global, text: &str) -> Result<Unit, Fail> {
    let mut words = Words::of(text);
    let chain = words.number()?;
    let mut kids = Sequence::new(alloc);
    for _ in 0..text.len() / 2 {
        match words.below(0x1_0000_0000) {
            Ok(kid) => kids.push(kid as u32)?,
            Err(_) => break,
        }
    }
    let code = checked(rt, alloc, chain, kids.len())?;
    Ok(Unit { code, kids })
}

fn units(rt: &impl Abort, alloc: Global, text: &str) -> Result<Vec<Unit>, Fail> {
    let mut units = Vec::new(alloc);
    for part in text.split('/') {
        if !part.trim().is_empty() {
            units.push(unit(rt, alloc, part.trim())?)?;
        }
    }
    Ok(units)
}

/// What comes of units.
fn verdict(rt: &impl Abort, alloc: Global, units: Vec<Unit>) -> Result<String, Fail> {
    assert!(rt; !units.is_empty() && units.len() < 0x1_0000_0000);
    assert!(rt; are_joined(units.as_slice()));
    let count = units.len();
    match from_units(alloc, units) {
        Ok(linked) => {
            assert_eq!(rt; linked.root() as usize, count - 1);
            Ok(format!(in alloc; "{count} unit{}", if count == 1 { "" } else { "s" })?)
        }
        Err(LinkFault::Deep { depth }) => Ok(format!(in alloc; "Deep {depth}")?),
        Err(LinkFault::Heavy { product }) => Ok(format!(in alloc; "Heavy {product}")?),
        Err(LinkFault::Crowded { models }) => Ok(format!(in alloc; "Crowded {models}")?),
        Err(other) => Ok(format!(in alloc; "{other}")?),
    }
}

#[test]
fn units_are_judged_by_their_tree(rt: HostRuntime) -> Result<(), Fail> {
    for (text, expected) in &UNITS {
        let units = units(&rt, rt.alloc(), *text)?;
        let told = verdict(&rt, rt.alloc(), units)?;
        assert_eq!(rt; told.as_str(), *expected, "{text:?}");
    }
    Ok(())
}
