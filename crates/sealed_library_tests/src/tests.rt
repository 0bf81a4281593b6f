//! Libraries that were typed by hand, read and written, and bytes that are none.

ghost use Rattle.std.specs.Prelude.{◌≡◌, IfOk, IfSome};

use code_isa::{Checked, CodeFault};
use sealed_library::{LIBRARY_LIMIT, LibFault, decode, digest, encode};
use std::alloc::{AllocError, Global};
use std::process::Abort;
use std::test::Fail;

/// The library of `assign y = ~a` in a module `inv`.
const INVERTER: [u8; 73] = [
    // name of the format, version
    0x48, 0x49, 0x45, 0x52, 0x4c, 0x49, 0x42, 0x01,
    // face: name, count of ports, port a, port y
    0x00, 0x03, 0x69, 0x6e, 0x76, 0x00, 0x02, 0x00, 0x01, 0x61, 0x00, 0x00, 0x01, 0x00, 0x01, 0x79,
    0x03, 0x00, 0x01,
    // row of y: a
    0x00, 0x01, 0x00, 0x00,
    // chain
    0x00, 0x00, 0x00, 0x00,
    // count of registers
    0x00, 0x00, 0x00, 0x00, 0x00, 0x00, 0x00, 0x00,
    // count of children
    0x00, 0x00, 0x00, 0x00,
    // count of instructions
    0x00, 0x00, 0x00, 0x00, 0x00, 0x00, 0x00, 0x01,
    // Not of slot 0, 1 bit
    0x05, 0x01, 0x00, 0x00, 0x00, 0x00, 0x00, 0x00, 0x00, 0x00,
    // slot of y
    0x00, 0x00, 0x00, 0x00, 0x00, 0x00, 0x00, 0x01,
];

/// The SHA-256 of these bytes, by another program.
const INVERTER_DIGEST: &str = "a14591dca6030c263bb9f89e2f1d08f760ca91eaec34f1958696e4f68ea85aea";

/// The library of a machine with three registers, two children and every operation, in hexadecimal digits.
/// Its slots are the data inputs a, b and c, the registers from 3 on, the children's outputs from 6 on, and
/// the instructions from 9 on.
const MANY: [&str; 57] = [
    // name of the format, version
    "484945524c494201",
    // face: name, count of ports
    "00036269670007",
    // port clk
    "0003636c6b010001",
    // port a
    "000161000008",
    // port b
    "000162000108",
    // port c
    "000163000001",
    // port n
    "00016e020004",
    // port y
    "000179030008",
    // port z
    "00017a030101",
    // row of y: a
    "00010000",
    // row of z: a, b
    "000200000001",
    // chain
    "00000001",
    // count of registers
    "0000000000000003",
    // register of 8 bits: rises, next slot 35
    "0800000000000000a500000000000000000000000023",
    // register of 1 bit: falls, next slot 29
    "0100000000000000010000000001000000000000001d",
    // register of 64 bits: rises, next slot 5
    "40ffffffffffffffff00000000000000000000000005",
    // count of children
    "00000002",
    // digest
    "000102030405060708090a0b0c0d0e0f101112131415161718191a1b1c1d1e1f",
    // face of the first child
    "00046c656166000200016900000800016f030008",
    // row of o: i
    "00010000",
    // i is joined to slot 36
    "0000000000000024",
    // digest
    "e0e1e2e3e4e5e6e7e8e9eaebecedeeeff0f1f2f3f4f5f6f7f8f9fafbfcfdfeff",
    // face of the second child
    "0004666c6f7000040003636c6b010001000164000001000171030001000165030104",
    // row of q
    "0000",
    // row of e: d
    "00010000",
    // d is joined to slot 30, clk to clock 0
    "000000000000001e00000000",
    // count of instructions
    "000000000000001c",
    // Const
    "0008000000000000005a",
    // Zext
    "01100000000000000000",
    // Sext
    "02100000000000000001",
    // Slice
    "0304000000000000000002",
    // Concat
    "041000000000000000000000000000000001",
    // Not
    "05080000000000000000",
    // Neg
    "06080000000000000001",
    // And
    "070800000000000000000000000000000001",
    // Or
    "080800000000000000000000000000000001",
    // Xor
    "090800000000000000000000000000000001",
    // Add
    "0a0800000000000000000000000000000001",
    // Sub
    "0b0800000000000000000000000000000001",
    // Mul
    "0c0800000000000000000000000000000001",
    // DivU
    "0d0800000000000000000000000000000001",
    // DivS
    "0e0800000000000000000000000000000001",
    // ModU
    "0f0800000000000000000000000000000001",
    // ModS
    "100800000000000000000000000000000001",
    // Shl
    "11080000000000000000000000000000000c",
    // ShrU
    "12080000000000000000000000000000000c",
    // ShrS
    "13080000000000000001000000000000000c",
    // Eq
    "140100000000000000000000000000000001",
    // LtU
    "150100000000000000000000000000000001",
    // LtS
    "160100000000000000000000000000000001",
    // RedAnd
    "17010000000000000000",
    // RedOr
    "18010000000000000000",
    // RedXor
    "19010000000000000000",
    // Mux
    "1a080000000000000002000000000000000e0000000000000013",
    // Insert
    "1b080000000000000000000000000000000c04",
    // slot of y
    "0000000000000006",
    // slot of z
    "000000000000001f",
];

/// Its SHA-256, by another program.
const MANY_DIGEST: &str = "ecf3879121cf1751ddf646098f5a56689f155631e1ce7c1e09663e34bce776e1";

/// Changes of bytes of the inverter's library, each with its answer.
const CHANGES: [(&[(usize, u8)], &str); 36] = [
    (&[], "accepted"),
    (&[(34, 0x01)], "accepted"),
    (
        &[(31, 0xff), (32, 0xff), (33, 0xff), (34, 0xfe)],
        "accepted",
    ),
    (&[(72, 0x00)], "accepted"),
    (&[(0, 0x68)], "BadMagic"),
    (&[(6, 0x62)], "BadMagic"),
    (&[(7, 0xff)], "BadVersion"),
    (&[(7, 0x00)], "BadVersion"),
    (&[(7, 0x02)], "BadVersion"),
    // lengths and forms of names
    (&[(9, 0x00)], "BadField"),
    (&[(8, 0x01), (9, 0x00)], "BadField"),
    (&[(9, 0xff)], "Truncated"),
    (&[(10, 0x31)], "BadField"),
    (&[(12, 0x20)], "BadField"),
    (&[(12, 0x24)], "accepted"),
    // count of ports
    (&[(13, 0x04), (14, 0x01)], "BadField"),
    // class, sign, width
    (&[(18, 0x04)], "BadField"),
    (&[(19, 0x01)], "accepted"),
    (&[(19, 0x02)], "BadField"),
    (&[(20, 0x00)], "BadField"),
    (&[(20, 0x41)], "BadField"),
    (&[(20, 0x40)], "SlotWidth"),
    // chain, operation, width of a result
    (
        &[(31, 0xff), (32, 0xff), (33, 0xff), (34, 0xff)],
        "BadField",
    ),
    (&[(55, 0x1c)], "BadField"),
    (&[(56, 0x00)], "BadField"),
    (&[(56, 0x41)], "BadField"),
    // one register, whose width would be 0; an operation that has one slot more
    (&[(42, 0x01)], "BadField"),
    (&[(55, 0x07)], "Truncated"),
    // faults of the machine
    (&[(18, 0x02)], "PortShape"),
    (&[(23, 0x61)], "PortShape"),
    (&[(30, 0x01)], "PortShape"),
    (&[(56, 0x02)], "SlotWidth"),
    (&[(64, 0x01)], "SlotOrder"),
    (&[(72, 0x02)], "SlotOrder"),
    // a count above 2^63, judged at the width of the second instruction
    (&[(47, 0xff)], "BadField"),
    // an earlier refusal is told before a later one
    (&[(20, 0x00), (55, 0x1c), (7, 0xff)], "BadVersion"),
];

/// Fronts of the inverter's library, some with bytes changed, each with its answer: a name's length is
/// judged where it ends, and its form where all its bytes are there.
const FRONTS: [(usize, &[(usize, u8)], &str); 6] = [
    (9, &[], "Truncated"),
    (10, &[], "Truncated"),
    (10, &[(9, 0x00)], "BadField"),
    (12, &[(10, 0x31)], "Truncated"),
    (13, &[(10, 0x31)], "BadField"),
    (34, &[(31, 0xff), (32, 0xff), (33, 0xff)], "Truncated"),
];

fn fault_name(fault: CodeFault) -> &'static str {
    match fault {
        CodeFault::PortShape => "PortShape",
        CodeFault::SlotOrder => "SlotOrder",
        CodeFault::SlotWidth => "SlotWidth",
        CodeFault::CycleInside => "CycleInside",
        CodeFault::SummaryShort => "SummaryShort",
        CodeFault::ChainShort => "ChainShort",
    }
}

fn refusal_name(fault: LibFault) -> &'static str {
    match fault {
        LibFault::BadMagic => "BadMagic",
        LibFault::BadVersion => "BadVersion",
        LibFault::Truncated => "Truncated",
        LibFault::BadField => "BadField",
        LibFault::Trailing => "Trailing",
        LibFault::Code(fault) => fault_name(fault),
        LibFault::NoMemory => "NoMemory",
    }
}

/// What is said of some bytes.
fn answer(alloc: Global, bytes: &[u8]) -> &'static str {
    if bytes.len() > LIBRARY_LIMIT {
        return "too long";
    }
    match decode(alloc, bytes) {
        Ok(_) => "accepted",
        Err(fault) => refusal_name(fault),
    }
}

/// What is read of the library of a machine, and nothing where it is too long: an equal machine.
fn reread(alloc: Global, m: &Checked) -> Result<Option<Checked>, LibFault>
    ensures { IfOk result (λ read. IfSome read (λ c. c ≡ m.now)) }
{
    let Ok(bytes) = encode(alloc, m) else {
        return Err(LibFault::NoMemory);
    };
    if bytes.len() > LIBRARY_LIMIT {
        return Ok(None);
    }
    let read = decode(alloc, &bytes)?;
    Ok(Some(read))
}

/// A machine is read from the bytes, and its library is the bytes again.
fn assert_both_ways<R: Abort>(rt: &R, alloc: Global, bytes: &[u8]) -> Result<(), AllocError> {
    assert!(rt; bytes.len() <= LIBRARY_LIMIT);
    match decode(alloc, bytes) {
        Ok(m) => {
            let again = encode(alloc, &m)?;
            assert_eq!(rt; again.as_slice(), bytes);
            assert!(rt; matches!(reread(alloc, &m), Ok(Some(_))));
        }
        Err(fault) => panic!(rt; "{}", refusal_name(fault)),
    }
    Ok(())
}

fn assert_digest<R: Abort>(
    rt: &R,
    alloc: Global,
    bytes: &[u8],
    want: &str,
) -> Result<(), AllocError> {
    let digits = hex::encode(alloc, &digest(bytes))?;
    assert_eq!(rt; digits.as_bytes(), want.as_bytes());
    Ok(())
}

/// The bytes of the large library.
fn many(alloc: Global) -> Result<Vec<u8>, Fail> {
    let mut digits = Vec::new(alloc);
    for line in &MANY {
        digits.extend_from_slice(line.as_bytes())?;
    }
    Ok(hex::decode(alloc, &digits)?)
}

#[test]
fn libraries(rt: HostRuntime) -> Result<(), Fail> {
    let alloc = rt.alloc();
    assert_both_ways(&rt, alloc, &INVERTER)?;
    assert_digest(&rt, alloc, &INVERTER, INVERTER_DIGEST)?;
    let many = many(alloc)?;
    assert_eq!(rt; many.len(), 765);
    assert_both_ways(&rt, alloc, &many)?;
    assert_digest(&rt, alloc, &many, MANY_DIGEST)?;
    Ok(())
}

/// The first bytes with some changed.
fn changed(
    alloc: Global,
    bytes: &[u8],
    count: usize,
    changes: &[(usize, u8)],
) -> Result<Vec<u8>, AllocError> {
    let mut front = Vec::new(alloc);
    for (at, byte) in bytes.iter().enumerate() {
        if at < count {
            let mut byte = *byte;
            for (place, other) in changes {
                if *place == at {
                    byte = *other;
                }
            }
            front.push(byte)?;
        }
    }
    Ok(front)
}

#[test]
fn changed_bytes(rt: HostRuntime) -> Result<(), Fail> {
    let alloc = rt.alloc();
    for (row, (changes, want)) in CHANGES.iter().enumerate() {
        let bytes = changed(alloc, &INVERTER, INVERTER.len(), changes)?;
        assert_eq!(rt; answer(alloc, &bytes), *want, "change {row}");
    }
    for (count, changes, want) in &FRONTS {
        let bytes = changed(alloc, &INVERTER, *count, changes)?;
        assert_eq!(rt; answer(alloc, &bytes), *want, "front {count}");
    }
    Ok(())
}

/// Every front that is not the whole is refused, and so are the bytes with one more behind them.
fn assert_whole<R: Abort>(rt: &R, alloc: Global, bytes: &[u8]) -> Result<(), Fail> {
    for count in 0..bytes.len() {
        let want = if count < 7 { "BadMagic" } else { "Truncated" };
        let front = changed(alloc, bytes, count, &[])?;
        assert_eq!(rt; answer(alloc, &front), want, "front {count}");
    }
    let mut more = Vec::from_slice(alloc, bytes)?;
    more.push(0)?;
    assert_eq!(rt; answer(alloc, &more), "Trailing");
    Ok(())
}

#[test]
fn fronts(rt: HostRuntime) -> Result<(), Fail> {
    let alloc = rt.alloc();
    assert_whole(&rt, alloc, &INVERTER)?;
    assert_whole(&rt, alloc, &many(alloc)?)
}

/// The front of the inverter's library, and further bytes in hexadecimal digits.
fn continued(alloc: Global, count: usize, digits: &str) -> Result<Vec<u8>, Fail> {
    let mut bytes = changed(alloc, &INVERTER, count, &[])?;
    let more = hex::decode(alloc, digits)?;
    bytes.extend_from_slice(&more)?;
    Ok(bytes)
}

/// Beginnings of the inverter's library that go on otherwise: how many of its bytes are kept, what stands
/// behind them, and the answer.
const CONTINUED: [(usize, &str, &str); 9] = [
    // the row of y is empty
    (
        27,
        "0000000000000000000000000000000000000000000000000001050100000000000000000000000000000001",
        "SummaryShort",
    ),
    // 2^60 registers, of which one and a part are there
    (
        35,
        "1000000000000000010000000000000001000000000100000000000000010100000000000000",
        "Truncated",
    ),
    // 2^60 registers, of which the second has no bits
    (
        35,
        "100000000000000001000000000000000100000000010000000000000001000000000000000000",
        "BadField",
    ),
    // 2^32 - 1 children, none of which is there
    (43, "ffffffff", "Truncated"),
    // 2^60 instructions, of which one is there
    (47, "100000000000000005010000000000000000", "Truncated"),
    // a register's initial word is wider than the register, or its edge is none
    (35, "0000000000000001010000000000000002", "BadField"),
    (
        35,
        "0000000000000001010000000000000001000000000200000000000000ff",
        "BadField",
    ),
    // a constant is as wide as its width, or wider
    (47, "000000000000000100080000000000000100", "BadField"),
    (47, "0000000000000001000800000000000000ff", "Truncated"),
];

#[test]
fn counts(rt: HostRuntime) -> Result<(), Fail> {
    let alloc = rt.alloc();
    for (row, (count, digits, want)) in CONTINUED.iter().enumerate() {
        let bytes = continued(alloc, *count, digits)?;
        assert_eq!(rt; answer(alloc, &bytes), *want, "row {row}");
    }
    Ok(())
}
