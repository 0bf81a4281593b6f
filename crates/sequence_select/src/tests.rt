ghost use Rattle.std.specs.Prelude.{◌≡◌, ◌<◌, length, IfOk};
ghost use Rattle.sequence_select.specs.Shown.{shown};

use crate::Wrapper;
use bit_ops::Bits;
use std::alloc::{AllocError, Global};
use std::process::Abort;
use std::test::Fail;

/// Two outputs of a byte each.
fn outputs(first: u8, second: u8) -> [Bits; 2] {
    [
        Bits::truncated(8, first as u64),
        Bits::truncated(8, second as u64),
    ]
}

/// A wrapper whose lists differ, which nobody has given an update or a step.
fn wrapper(alloc: Global) -> Result<Wrapper, AllocError>
    ensures { IfOk result (λ w. (w.combo_no ≡ 0) × (w.seq_no ≡ 0) × (length w.out_combo ≡ 2) × (length w.out_seq ≡ 2)) }
{
    let combo = Vec::from_array(alloc, outputs(1, 2))?;
    let seq = Vec::from_array(alloc, outputs(3, 4))?;
    Ok(Wrapper::new(combo, seq))
}

fn assert_shows(rt: &impl Abort, w: &Wrapper, first: u64, second: u64) {
    assert_eq!(rt; w.outputs().len(), 2);
    assert_eq!(rt; w.shown(0).word, first);
    assert_eq!(rt; w.shown(1).word, second);
}

#[test]
fn equal_numbers_show_the_update(rt: HostRuntime) -> Result<(), Fail> {
    let w = wrapper(rt.alloc())?;
    assert_shows(&rt, &w, 1, 2);
    Ok(())
}

#[test]
fn the_last_taken_are_shown(rt: HostRuntime) -> Result<(), Fail> {
    let mut w = wrapper(rt.alloc())?;
    w.take_seq(1, &outputs(5, 6));
    assert_shows(&rt, &w, 5, 6);
    w.take_seq(2, &outputs(7, 8));
    assert_shows(&rt, &w, 7, 8);
    w.take_combo(3, &outputs(9, 10));
    assert_shows(&rt, &w, 9, 10);
    w.take_seq(8, &outputs(11, 12));
    assert_shows(&rt, &w, 11, 12);
    Ok(())
}
