//! Headers and lines that were typed by hand.

ghost use Rattle.std.specs.Prelude.{◌≡◌, map, IfOk};
ghost use Rattle.bit_ops.specs.Lists.{widths};

use crate::*;
use bit_ops::{Bits, Word};
use std::alloc::{AllocError, Global};
use std::process::Abort;
use sv_base::{Class, Face, Name, Port, Sequence};

/// The number of a step, the widths and words of its values, and its line.
const LINES: [(u64, &[(u32, Word)], &str); 10] = [
    (0, &[], "0\n"),
    (9, &[(1, 1), (8, 0xa5)], "9 1 a5\n"),
    (10, &[(1, 0), (8, 0)], "10 0 00\n"),
    (
        16777215,
        &[(64, 0xfedcba9876543210)],
        "16777215 fedcba9876543210\n",
    ),
    (1, &[(64, 0xab)], "1 00000000000000ab\n"),
    (2, &[(3, 7), (4, 15), (5, 31), (5, 9)], "2 7 f 1f 09\n"),
    (3, &[(9, 0x1cd), (9, 0xe), (8, 0xb)], "3 1cd 00e 0b\n"),
    (
        100,
        &[(63, 0x7fffffffffffffff), (64, 1)],
        "100 7fffffffffffffff 0000000000000001\n",
    ),
    (
        18446744073709551615,
        &[(12, 0x5a)],
        "18446744073709551615 05a\n",
    ),
    (
        4090,
        &[(4, 10), (4, 11), (4, 12), (4, 13), (4, 14)],
        "4090 a b c d e\n",
    ),
];

fn port(alloc: Global, name: &str, class: Class, width: u32) -> Result<Port, AllocError>
    ensures { IfOk result (λ port. port.width ≡ width) }
{
    Ok(Port {
        name: Name::of(alloc, name.as_bytes())?,
        class,
        signed: false,
        width,
    })
}

/// A face with a port for each value.
fn face_for(alloc: Global, values: &[Bits]) -> Result<Face, AllocError>
    ensures { IfOk result (λ face. map (λ p. p.width) face.ports ≡ widths values.now) }
{
    let mut ports = Vec::new(alloc);
    for value in values {
        ports.push(port(alloc, "p", Class::Value, value.width)?)?;
    }
    Ok(Face {
        name: Name::of(alloc, b"m")?,
        ports: Sequence::from_vec(ports),
    })
}

fn value<R: Abort>(rt: &R, width: u32, word: Word) -> Bits
    ensures { result.width ≡ width }
{
    assert!(rt; 1 <= width && width <= 64);
    Bits::truncated(width, word)
}

#[test]
fn headers(rt: HostRuntime) -> Result<(), AllocError> {
    let alloc = rt.alloc();
    let mut ports = Vec::new(alloc);
    ports.push(port(alloc, "a", Class::Value, 1)?)?;
    ports.push(port(alloc, "b_2$", Class::Idle, 8)?)?;
    ports.push(port(alloc, "clk", Class::Clock, 1)?)?;
    ports.push(port(alloc, "Out", Class::Output, 64)?)?;
    let face = Face {
        name: Name::of(alloc, b"m")?,
        ports: Sequence::from_vec(ports),
    };
    assert_eq!(rt;
        header(alloc, &face)?.as_slice(),
        b"step a:1 b_2$:8 clk:1 Out:64\n".as_slice()
    );
    let none = face_for(alloc, &[])?;
    assert_eq!(rt; header(alloc, &none)?.as_slice(), b"step\n".as_slice());
    Ok(())
}

#[test]
fn lines(rt: HostRuntime) -> Result<(), AllocError> {
    let alloc = rt.alloc();
    for (number, given, want) in LINES {
        let mut values = Vec::new(alloc);
        for (width, word) in given {
            values.push(value(&rt, *width, *word))?;
        }
        let mut text = Vec::new(alloc);
        reserve_line(alloc, &face_for(alloc, &values)?, &mut text)?;
        line(number, &values, &mut text);
        assert_eq!(rt; text.as_slice(), want.as_bytes(), "{want}");
    }
    Ok(())
}

#[test]
fn one_buffer(rt: HostRuntime) -> Result<(), AllocError> {
    let alloc = rt.alloc();
    let first = [value(&rt, 8, 0xff), value(&rt, 1, 1)];
    let second = [value(&rt, 8, 0x0c), value(&rt, 1, 0)];
    let mut text = Vec::new(alloc);
    reserve_line(alloc, &face_for(alloc, &first)?, &mut text)?;
    line(1234, &first, &mut text);
    assert_eq!(rt; text.as_slice(), b"1234 ff 1\n".as_slice());
    line(7, &second, &mut text);
    assert_eq!(rt; text.as_slice(), b"7 0c 0\n".as_slice());
    let mut decimal = Vec::from_slice(alloc, b"line ")?;
    push_decimal(alloc, &mut decimal, 1024)?;
    assert_eq!(rt; decimal.as_slice(), b"line 1024".as_slice());
    Ok(())
}
