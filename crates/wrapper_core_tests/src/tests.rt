use crate::rows::{ROWS_1, ROWS_2, ROWS_3, ROWS_4, ROWS_5, ROWS_6, ROWS_7, ROWS_8};
use crate::script::{play, world};
use std::alloc::Global;
use std::process::Abort;
use std::test::Fail;

/// `t(input clk, input [3:0] x, output [3:0] y)` with `p u(.i(x), .o(m)); p v(.i(m), .o(n)); g w(.clk(clk), .d(n), .q(y));`,
/// where `p` adds 1 and `g` samples at rising edges.
const CHAIN: &str = "p10-p11-g20-o3--l2--";

/// What a script tells of a world.
fn told(rt: &impl Abort, alloc: Global, text: &str, script: &str) -> Result<Vec<u8>, Fail> {
    let mut b = world(rt, alloc, text.as_bytes())?;
    Ok(play(rt, alloc, &mut b, script.as_bytes())?)
}

/// Each script tells this of a new world.
fn each_tells(
    rt: &impl Abort,
    alloc: Global,
    text: &str,
    rows: &[(&str, &str)],
) -> Result<(), Fail> {
    for (script, wanted) in rows {
        let said = told(rt, alloc, text, script)?;
        assert_eq!(rt; said.as_slice(), wanted.as_bytes(), "{script}");
    }
    Ok(())
}

/// Schedules that end quiescent. The first three visit the children by sweeps: in the order 0, 1, 2; in the order 2, 1, 0;
/// and where sweep s takes the child at place s modulo the number of those that are left. Own code runs after each visit.
/// They differ in length and in how often each child is updated, and end alike: with `x` 3 `m` is 4 and `n` 5.
const SCHEDULES: [(&str, &str); 5] = [
    ("x3-o--u0-o--u1-o--u2-o--;--", "07!0341045105010,"),
    (
        "x3-o--u2-o--u1-o--u0-o--u2-o--u1-o--o--u2-o--o--o--;--",
        "0g!0341045205030,",
    ),
    (
        "x3-o--u1-o--u2-o--u0-o--o--o--u1-o--o--u2-o--o--;--",
        "0f!0341045205020,",
    ),
    ("x3-o--u0-o--u1-o--u2-o--o--o--;--", "09!0341045105010,"),
    ("x3-o--u0-u1-u2-o--u1-u2-o--u2-o--;--", "0a!0341045205030,"),
];

#[test]
fn schedules_that_end_quiescent_end_alike(rt: HostRuntime) -> Result<(), Fail> {
    each_tells(&rt, rt.alloc(), CHAIN, &SCHEDULES)
}

/// Lists of events that are cut before the first that is not enabled.
const CUT: [(&str, &str); 12] = [
    ("x3-u0-;--", "00!0010001000000,"),
    ("x3-o--u0-u0-o--;--", "02?0341001000000,"),
    ("x3-o--s--o--;--", "01?0010001000000,"),
    ("x3-o--k0-o--;--", "01?0010001000000,"),
    ("x3-o--c--o--;--", "01?0010001000000,"),
    ("x3-o--u3-o--;--", "01?0010001000000,"),
    (
        "x3-o--u0-o--u1-o--u2-o--;--t1-o--s--;--",
        "07!0341045105010,00!0341045105010,",
    ),
    (
        "x3-o--u0-o--u1-o--u2-o--;--t1-u0-s--;--",
        "07!0341045105010,00!0341045105010,",
    ),
    (
        "x3-o--u0-o--u1-o--u2-o--;--t1-s--s--k0-;--",
        "07!0341045105010,01!0341045105010,",
    ),
    (
        "x3-o--u0-o--u1-o--u2-o--;--t1-k1-s--k1-k0-;--",
        "07!0341045105010,02!0341045115010,",
    ),
    (
        "x3-o--u0-o--u1-o--u2-o--;--t1-s--k0-k1-c--k2-;--",
        "07!0341045105010,03!0341145115010,",
    ),
    (
        "x3-o--u0-o--u1-o--u2-o--;--t1-k0-k1-k2-c--s--;--",
        "07!0341045105010,03!0341145115011,",
    ),
];

#[test]
fn a_list_is_cut_before_an_event_that_is_not_enabled(rt: HostRuntime) -> Result<(), Fail> {
    each_tells(&rt, rt.alloc(), CHAIN, &CUT)
}

/// The strikes in three orders, and moment by moment: to the commit nothing that is shown changes, nor any held input.
const STRIKES: [(&str, &str); 4] = [
    (
        "x3-o--u0-o--u1-o--u2-o--;--t1-s--k0-k1-k2-c--o--;--",
        "07!0341045105010,06!5341145115511,",
    ),
    (
        "x3-o--u0-o--u1-o--u2-o--;--t1-k2-k1-s--k0-c--o--;--",
        "07!0341045105010,06!5341145115511,",
    ),
    (
        "x3-o--u0-o--u1-o--u2-o--;--t1-k1-k2-k0-s--c--o--;--",
        "07!0341045105010,06!5341145115511,",
    ),
    (
        "x3-o--u0-o--u1-o--u2-o--;--t1-;--s--;--k2-;--k0-k1-;--c--;--o--;--",
        "07!0341045105010,00!0341045105010,01!0341045105010,01!0341045105011,02!0341145115011,01!0341145115511,01!5341145115511,",
    ),
];

#[test]
fn strikes_show_nothing_before_the_commit(rt: HostRuntime) -> Result<(), Fail> {
    each_tells(&rt, rt.alloc(), CHAIN, &STRIKES)
}

/// Registers of input 0 at rising edges of clock 0, of clock 1, and at falling edges of clock 0; children that sample
/// input 1 at rising edges of clock 0, and at falling edges of clock 1. A register whose edge does not occur is kept.
const CLOCKS: [(&str, &str); 1] = [(
    "x97o--u0-u1-o--;--t10s--k0-k1-c--o--;--x65o--u0-u1-o--;--t11s--k0-k1-c--o--;--t00s--k0-k1-c--o--;--t00s--k0-k1-c--o--;--",
    "04!1012470107010,05!9792477117011,04!9792457215021,05!9796457225022,05!9796657235523,05!9796657245524,",
)];

#[test]
fn registers_whose_edge_does_not_occur_are_kept(rt: HostRuntime) -> Result<(), Fail> {
    each_tells(&rt, rt.alloc(), "r100r210q400g10-f11-o2--o5--l1--", &CLOCKS)
}

/// The script of a row tells what stands there.
fn assert_told(rt: &impl Abort, alloc: Global, row: &(&str, &str, &str)) -> Result<(), Fail> {
    let said = told(rt, alloc, row.0, row.1)?;
    assert_eq!(rt; said.as_slice(), row.2.as_bytes(), "{} {}", row.0, row.1);
    Ok(())
}

/// So does that of each row.
fn each_row_tells(rt: &impl Abort, alloc: Global, rows: &[(&str, &str, &str)]) -> Result<(), Fail> {
    for row in rows {
        assert_told(rt, alloc, row)?;
    }
    Ok(())
}

#[test]
fn first_random_worlds_go_by_their_definition(rt: HostRuntime) -> Result<(), Fail> {
    each_row_tells(&rt, rt.alloc(), &ROWS_1)
}

#[test]
fn second_random_worlds_go_by_their_definition(rt: HostRuntime) -> Result<(), Fail> {
    each_row_tells(&rt, rt.alloc(), &ROWS_2)
}

#[test]
fn third_random_worlds_go_by_their_definition(rt: HostRuntime) -> Result<(), Fail> {
    each_row_tells(&rt, rt.alloc(), &ROWS_3)
}

#[test]
fn fourth_random_worlds_go_by_their_definition(rt: HostRuntime) -> Result<(), Fail> {
    each_row_tells(&rt, rt.alloc(), &ROWS_4)
}

#[test]
fn fifth_random_worlds_go_by_their_definition(rt: HostRuntime) -> Result<(), Fail> {
    each_row_tells(&rt, rt.alloc(), &ROWS_5)
}

#[test]
fn sixth_random_worlds_go_by_their_definition(rt: HostRuntime) -> Result<(), Fail> {
    each_row_tells(&rt, rt.alloc(), &ROWS_6)
}

#[test]
fn seventh_random_worlds_go_by_their_definition(rt: HostRuntime) -> Result<(), Fail> {
    each_row_tells(&rt, rt.alloc(), &ROWS_7)
}

#[test]
fn eighth_random_worlds_go_by_their_definition(rt: HostRuntime) -> Result<(), Fail> {
    each_row_tells(&rt, rt.alloc(), &ROWS_8)
}
