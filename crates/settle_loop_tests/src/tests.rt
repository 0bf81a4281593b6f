use crate::rows::{ROWS_1, ROWS_2, ROWS_3};
use crate::script::{play, world};
use std::alloc::Global;
use std::process::Abort;
use std::test::Fail;

/// `t(input clk, input [3:0] x, output [3:0] y)` with `p u(.i(x), .o(m)); p v(.i(m), .o(n)); g w(.clk(clk), .d(n), .q(y));`,
/// where `p` adds 1 and `g` samples at rising edges. The chain is 2.
const CHAIN: &str = "p10-p11-g20-o3--l2--";

/// Eight adders in a row, the last of which is joined to the input. The chain is 8.
const BACKWARDS: &str = "p12-p13-p14-p15-p16-p17-p18-p10-o1--l8--";

/// The sum of two adders of one input. The chain is 1.
const BESIDE: &str = "p10-p20-+12-o3--l1--";

/// The script of a row tells what stands there.
fn assert_told(rt: &impl Abort, alloc: Global, row: &(&str, &str, &str)) -> Result<(), Fail> {
    let mut b = world(rt, alloc, row.0.as_bytes())?;
    let said = play(rt, alloc, &mut b, row.1.as_bytes())?;
    assert_eq!(rt; said.as_slice(), row.2.as_bytes(), "{} {}", row.0, row.1);
    Ok(())
}

/// So does that of each row.
fn each_row_tells(rt: &impl Abort, alloc: Global, rows: &[(&str, &str, &str)]) -> Result<(), Fail> {
    for row in rows {
        assert_told(rt, alloc, row)?;
    }
    Ok(())
}

/// From the settled state for 0 to the one for 3, in which `m` is 4 and `n` 5, it takes as many sweeps as the order needs: 1
/// where each child comes after those that it reads, and one more than the chain where it comes before. Then it takes none.
const SWEEPS: [(&str, &str, &str); 9] = [
    (
        CHAIN,
        "x0-n0-x3-n0-n0-",
        "01!0010012102010,01!0341045205020,00!0341045205020,",
    ),
    (
        CHAIN,
        "x0-n0-x3-n1-n1-",
        "01!0010012102010,03!0341045205020,00!0341045205020,",
    ),
    (
        CHAIN,
        "x0-n0-x3-n2-n2-",
        "01!0010012102010,03!0341045205020,00!0341045205020,",
    ),
    (CHAIN, "x3-n0-", "01!0341045105010,"),
    (CHAIN, "x3-n1-", "03!0341045205030,"),
    (CHAIN, "x3-n2-", "03!0341045205020,"),
    (BACKWARDS, "x3-n0-", "08!bab809a70896078506740563045203410,"),
    (BACKWARDS, "x3-n1-", "01!bab109a10891078106710561045103410,"),
    (
        BESIDE,
        "x5-n0-n1-x6-n1-",
        "01!d56105710,00!d56105710,01!f67206820,",
    ),
];

#[test]
fn sweeps_are_as_many_as_the_order_needs(rt: HostRuntime) -> Result<(), Fail> {
    each_row_tells(&rt, rt.alloc(), &SWEEPS)
}

/// A chain that is above the true one changes nothing. After a step of the clocks the world is settled again.
const OTHERS: [(&str, &str, &str); 3] = [
    ("p10-p11-g20-o3--l9--", "x3-n1-", "03!0341045205030,"),
    (
        CHAIN,
        "x3-n1-t1-s--k0-k1-k2-c--;--n0-",
        "03!0341045205030,05!0341145215531,00!5341145215531,",
    ),
    ("g00-o1--l1--", "x5-n0-", "01!05010,"),
];

#[test]
fn other_worlds_are_settled(rt: HostRuntime) -> Result<(), Fail> {
    each_row_tells(&rt, rt.alloc(), &OTHERS)
}

#[test]
fn first_random_worlds_settle(rt: HostRuntime) -> Result<(), Fail> {
    each_row_tells(&rt, rt.alloc(), &ROWS_1)
}

#[test]
fn second_random_worlds_settle(rt: HostRuntime) -> Result<(), Fail> {
    each_row_tells(&rt, rt.alloc(), &ROWS_2)
}

#[test]
fn third_random_worlds_settle(rt: HostRuntime) -> Result<(), Fail> {
    each_row_tells(&rt, rt.alloc(), &ROWS_3)
}
