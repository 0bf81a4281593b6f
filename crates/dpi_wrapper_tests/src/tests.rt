//! Wrapper texts that were typed by hand, written and read.

use dpi_wrapper::{read_wrapper, write_wrapper};
use std::alloc::{AllocError, Global};
use std::process::Abort;
use sv_base::{Class, Face, Name, Port, Sequence, Summary, WrapperFace};

/// A wrapper with a clock, an idle port, signed ports and two rows.
const ACC: &[&str] = &[
    "// hier_wrapper 1",
    "// digest 000102030405060708090a0b0c0d0e0f101112131415161718191a1b1c1d1e1f",
    "// port clk clock u 1",
    "// port a data s 8",
    "// port n idle u 4",
    "// port b$2 data u 16",
    "// port y output s 64",
    "// port z output u 1",
    "// depends 0 0 1",
    "// depends 1 1",
    "module acc (",
    "  input logic [0:0] clk,",
    "  input logic signed [7:0] a,",
    "  input logic [3:0] n,",
    "  input logic [15:0] b$2,",
    "  output logic signed [63:0] y,",
    "  output logic [0:0] z",
    ");",
    "  import \"DPI-C\" function chandle acc_create();",
    "  import \"DPI-C\" function longint acc_combo(input chandle h, input bit [7:0] a, input bit [15:0] b$2, output bit [63:0] y, output bit [0:0] z);",
    "  import \"DPI-C\" function longint acc_seq(input chandle h, input bit [0:0] clk, output bit [63:0] y, output bit [0:0] z);",
    "  import \"DPI-C\" function void acc_final(input chandle h);",
    "  chandle hw_h = acc_create();",
    "  longint hw_combo_no, hw_seq_no, hw_next_no;",
    "  bit [63:0] hw_combo_y, hw_seq_y, hw_next_y;",
    "  bit [0:0] hw_combo_z, hw_seq_z, hw_next_z;",
    "  always_comb hw_combo_no = acc_combo(hw_h, a, b$2, hw_combo_y, hw_combo_z);",
    "  always @(clk) begin",
    "    hw_next_no = acc_seq(hw_h, clk, hw_next_y, hw_next_z);",
    "    hw_seq_no <= hw_next_no;",
    "    hw_seq_y <= hw_next_y;",
    "    hw_seq_z <= hw_next_z;",
    "  end",
    "  assign y = hw_seq_no > hw_combo_no ? hw_seq_y : hw_combo_y;",
    "  assign z = hw_seq_no > hw_combo_no ? hw_seq_z : hw_combo_z;",
    "  final acc_final(hw_h);",
    "endmodule",
];

/// A module without ports.
const NO_PORTS: &[&str] = &[
    "// hier_wrapper 1",
    "// digest 000102030405060708090a0b0c0d0e0f101112131415161718191a1b1c1d1e1f",
    "module nil (",
    ");",
    "  import \"DPI-C\" function chandle nil_create();",
    "  import \"DPI-C\" function longint nil_combo(input chandle h);",
    "  import \"DPI-C\" function longint nil_seq(input chandle h);",
    "  import \"DPI-C\" function void nil_final(input chandle h);",
    "  chandle hw_h = nil_create();",
    "  longint hw_combo_no, hw_seq_no, hw_next_no;",
    "  always_comb hw_combo_no = nil_combo(hw_h);",
    "  final nil_final(hw_h);",
    "endmodule",
];

/// A module whose one port is an output, which depends on nothing. Both names are reserved words.
const NO_INPUTS: &[&str] = &[
    "// hier_wrapper 1",
    "// digest 000102030405060708090a0b0c0d0e0f101112131415161718191a1b1c1d1e1f",
    "// port logic output u 10",
    "// depends 0",
    "module module (",
    "  output logic [9:0] logic",
    ");",
    "  import \"DPI-C\" function chandle module_create();",
    "  import \"DPI-C\" function longint module_combo(input chandle h, output bit [9:0] logic);",
    "  import \"DPI-C\" function longint module_seq(input chandle h, output bit [9:0] logic);",
    "  import \"DPI-C\" function void module_final(input chandle h);",
    "  chandle hw_h = module_create();",
    "  longint hw_combo_no, hw_seq_no, hw_next_no;",
    "  bit [9:0] hw_combo_logic, hw_seq_logic, hw_next_logic;",
    "  always_comb hw_combo_no = module_combo(hw_h, hw_combo_logic);",
    "  assign logic = hw_seq_no > hw_combo_no ? hw_seq_logic : hw_combo_logic;",
    "  final module_final(hw_h);",
    "endmodule",
];

/// A module with three clocks and without outputs.
const NO_OUTPUTS: &[&str] = &[
    "// hier_wrapper 1",
    "// digest 000102030405060708090a0b0c0d0e0f101112131415161718191a1b1c1d1e1f",
    "// port c1 clock u 1",
    "// port c2 clock s 1",
    "// port _ data u 1",
    "// port c3 clock u 1",
    "module m (",
    "  input logic [0:0] c1,",
    "  input logic signed [0:0] c2,",
    "  input logic [0:0] _,",
    "  input logic [0:0] c3",
    ");",
    "  import \"DPI-C\" function chandle m_create();",
    "  import \"DPI-C\" function longint m_combo(input chandle h, input bit [0:0] _);",
    "  import \"DPI-C\" function longint m_seq(input chandle h, input bit [0:0] c1, input bit [0:0] c2, input bit [0:0] c3);",
    "  import \"DPI-C\" function void m_final(input chandle h);",
    "  chandle hw_h = m_create();",
    "  longint hw_combo_no, hw_seq_no, hw_next_no;",
    "  always_comb hw_combo_no = m_combo(hw_h, _);",
    "  always @(c1 or c2 or c3) begin",
    "    hw_next_no = m_seq(hw_h, c1, c2, c3);",
    "    hw_seq_no <= hw_next_no;",
    "  end",
    "  final m_final(hw_h);",
    "endmodule",
];

type PortRow = (&'static str, Class, bool, u32);

const ACC_PORTS: &[PortRow] = &[
    ("clk", Class::Clock, false, 1),
    ("a", Class::Value, true, 8),
    ("n", Class::Idle, false, 4),
    ("b$2", Class::Value, false, 16),
    ("y", Class::Output, true, 64),
    ("z", Class::Output, false, 1),
];

const NO_INPUTS_PORTS: &[PortRow] = &[("logic", Class::Output, false, 10)];

const NO_OUTPUTS_PORTS: &[PortRow] = &[
    ("c1", Class::Clock, false, 1),
    ("c2", Class::Clock, true, 1),
    ("_", Class::Value, false, 1),
    ("c3", Class::Clock, false, 1),
];

const DIGEST: [u8; 32] = [
    0, 1, 2, 3, 4, 5, 6, 7, 8, 9, 10, 11, 12, 13, 14, 15, 16, 17, 18, 19, 20, 21, 22, 23, 24, 25,
    26, 27, 28, 29, 30, 31,
];

fn port(alloc: Global, row: PortRow) -> Result<Port, AllocError> {
    let (name, class, signed, width) = row;
    Ok(Port {
        name: Name::of(alloc, name.as_bytes())?,
        class,
        signed,
        width,
    })
}

fn face(alloc: Global, name: &str, ports: &[PortRow]) -> Result<Face, AllocError> {
    let mut made = Vec::new(alloc);
    for row in ports {
        made.push(port(alloc, *row)?)?;
    }
    Ok(Face {
        name: Name::of(alloc, name.as_bytes())?,
        ports: Sequence::from_vec(made),
    })
}

fn summary(alloc: Global, rows: &[&[u32]]) -> Result<Summary, AllocError> {
    let mut made = Vec::new(alloc);
    for row in rows {
        made.push(Sequence::from_vec(Vec::from_slice(alloc, row)?))?;
    }
    Ok(Summary {
        rows: Sequence::from_vec(made),
    })
}

fn wrapper(
    alloc: Global,
    name: &str,
    ports: &[PortRow],
    rows: &[&[u32]],
) -> Result<WrapperFace, AllocError> {
    let summary = summary(alloc, rows)?;
    Ok(WrapperFace {
        face: face(alloc, name, ports)?,
        summary,
        digest: DIGEST,
    })
}

/// What is written of a face.
fn written(
    alloc: Global,
    name: &str,
    ports: &[PortRow],
    rows: &[&[u32]],
) -> Result<Vec<u8>, AllocError> {
    write_wrapper(alloc, &wrapper(alloc, name, ports, rows)?)
}

/// Whether a text is that of a good face.
fn is_read(alloc: Global, text: &[u8]) -> Result<bool, AllocError> {
    Ok(read_wrapper(alloc, text)?.is_some())
}

fn push_line(into: &mut Vec<u8>, line: &str, end: &str) -> Result<(), AllocError> {
    into.extend_from_slice(line.as_bytes())?;
    into.extend_from_slice(end.as_bytes())
}

/// The lines, each with this at its end.
fn text(alloc: Global, lines: &[&str], end: &str) -> Result<Vec<u8>, AllocError> {
    let mut text = Vec::new(alloc);
    for line in lines {
        push_line(&mut text, line, end)?;
    }
    Ok(text)
}

/// The lines without one of them.
fn without_line(alloc: Global, lines: &[&str], at: usize) -> Result<Vec<u8>, AllocError> {
    let mut text = Vec::new(alloc);
    for (k, line) in lines.iter().enumerate() {
        if k != at {
            push_line(&mut text, line, "\n")?;
        }
    }
    Ok(text)
}

/// The lines with one of them twice.
fn with_line_twice(alloc: Global, lines: &[&str], at: usize) -> Result<Vec<u8>, AllocError> {
    let mut text = Vec::new(alloc);
    for (k, line) in lines.iter().enumerate() {
        push_line(&mut text, line, "\n")?;
        if k == at {
            push_line(&mut text, line, "\n")?;
        }
    }
    Ok(text)
}

/// A text with one byte changed.
fn with_byte(alloc: Global, text: &[u8], at: usize, byte: u8) -> Result<Vec<u8>, AllocError> {
    let mut changed = Vec::from_slice(alloc, text)?;
    if at < changed.len() {
        changed[at] = byte;
    }
    Ok(changed)
}

fn assert_ports<R: Abort>(rt: &R, ports: &[Port], want: &[PortRow]) {
    assert_eq!(rt; ports.len(), want.len());
    for (port, row) in ports.iter().zip(want) {
        assert_eq!(rt; port.name.bytes(), row.0.as_bytes());
        assert_eq!(rt; port.class, row.1);
        assert_eq!(rt; port.signed, row.2);
        assert_eq!(rt; port.width, row.3);
    }
}

fn assert_rows<R: Abort>(rt: &R, rows: &[Sequence<u32>], want: &[&[u32]]) {
    assert_eq!(rt; rows.len(), want.len());
    for (row, positions) in rows.iter().zip(want) {
        assert_eq!(rt; row.as_slice(), *positions);
    }
}

fn assert_is<R: Abort>(rt: &R, w: &WrapperFace, name: &str, ports: &[PortRow], rows: &[&[u32]]) {
    assert_eq!(rt; w.face.name.bytes(), name.as_bytes());
    assert_ports(rt, w.face.ports.as_slice(), ports);
    assert_rows(rt, w.summary.rows.as_slice(), rows);
}

/// The face is written as these lines, and read from them.
fn assert_text<R: Abort>(
    rt: &R,
    alloc: Global,
    lines: &[&str],
    name: &str,
    ports: &[PortRow],
    rows: &[&[u32]],
) -> Result<(), AllocError> {
    let want = text(alloc, lines, "\n")?;
    let found = written(alloc, name, ports, rows)?;
    assert_eq!(rt; found.as_slice(), want.as_slice());
    let read = read_wrapper(alloc, &want)?;
    assert!(rt; read.is_some());
    if let Some(w) = read {
        assert_is(rt, &w, name, ports, rows);
        assert_eq!(rt; w.digest.as_slice(), DIGEST.as_slice());
    }
    Ok(())
}

#[test]
fn texts(rt: HostRuntime) -> Result<(), AllocError> {
    let alloc = rt.alloc();
    assert_text(&rt, alloc, ACC, "acc", ACC_PORTS, &[&[0, 1], &[1]])?;
    assert_text(&rt, alloc, NO_PORTS, "nil", &[], &[])?;
    assert_text(&rt, alloc, NO_INPUTS, "module", NO_INPUTS_PORTS, &[&[]])?;
    assert_text(&rt, alloc, NO_OUTPUTS, "m", NO_OUTPUTS_PORTS, &[])
}

/// No text of the lines without one of them, or with one of them twice, is read.
fn assert_whole<R: Abort>(rt: &R, alloc: Global, lines: &[&str]) -> Result<(), AllocError> {
    for at in 0..lines.len() {
        assert!(rt;
            !is_read(alloc, &without_line(alloc, lines, at)?)?,
            "without line {at}"
        );
        assert!(rt;
            !is_read(alloc, &with_line_twice(alloc, lines, at)?)?,
            "line {at} twice"
        );
    }
    Ok(())
}

#[test]
fn other_lines(rt: HostRuntime) -> Result<(), AllocError> {
    let alloc = rt.alloc();
    assert_whole(&rt, alloc, ACC)?;
    assert_whole(&rt, alloc, NO_OUTPUTS)?;
    for end in ["\r\n", "", " \n", "\n\n"] {
        assert!(rt; !is_read(alloc, &text(alloc, ACC, end)?)?);
    }
    assert!(rt; !is_read(alloc, b"")?);
    Ok(())
}

/// Where the one position of the last row stands in the text of the first wrapper.
const LAST_POSITION: usize = 248;

/// The places of the digits of the digest, and of the one position of the last row, in the text of the first wrapper.
fn is_another(at: usize, digit: u8) -> bool {
    28 <= at && at < 92 || at == LAST_POSITION && digit == b'0'
}

/// With one digit changed to another, only a text with another digest or another row is read.
fn assert_digits<R: Abort>(rt: &R, alloc: Global, text: &[u8]) -> Result<(), AllocError> {
    for (at, b) in text.iter().enumerate() {
        for digit in [b'0', b'1', b'2', b'9'] {
            if b.is_ascii_digit() && *b != digit {
                let changed = with_byte(alloc, text, at, digit)?;
                assert_eq!(rt;
                    is_read(alloc, &changed)?,
                    is_another(at, digit),
                    "byte {at}"
                );
            }
        }
    }
    Ok(())
}

#[test]
fn other_digits(rt: HostRuntime) -> Result<(), AllocError> {
    let alloc = rt.alloc();
    let text = text(alloc, ACC, "\n")?;
    assert_digits(&rt, alloc, &text)?;
    if let Some(w) = read_wrapper(alloc, &with_byte(alloc, &text, LAST_POSITION, b'0')?)? {
        assert_is(&rt, &w, "acc", ACC_PORTS, &[&[0, 1], &[0]]);
    }
    assert!(rt; is_read(alloc, &with_byte(alloc, &text, 28, b'f')?)?);
    assert!(rt;
        !is_read(alloc, &with_byte(alloc, &text, 49, b'A')?)?,
        "upper case"
    );
    Ok(())
}

/// A module with so many data inputs.
fn wide(alloc: Global, count: u32) -> Result<WrapperFace, AllocError> {
    let mut ports = Vec::new(alloc);
    for k in 0..count {
        let name = format!(in alloc; "p{k}")?;
        ports.push(Port {
            name: Name::of(alloc, name.as_bytes())?,
            class: Class::Value,
            signed: false,
            width: 1,
        })?;
    }
    let summary = summary(alloc, &[])?;
    Ok(WrapperFace {
        face: Face {
            name: Name::of(alloc, b"wide")?,
            ports: Sequence::from_vec(ports),
        },
        summary,
        digest: DIGEST,
    })
}

#[test]
fn many_ports(rt: HostRuntime) -> Result<(), AllocError> {
    let alloc = rt.alloc();
    for (count, is_good) in [(1024, true), (1025, false)] {
        let given = write_wrapper(alloc, &wide(alloc, count)?)?;
        assert_eq!(rt; is_read(alloc, &given)?, is_good, "{count}");
    }
    Ok(())
}

/// No face is read from what is written of a face that is not good.
fn assert_bad<R: Abort>(
    rt: &R,
    alloc: Global,
    name: &str,
    ports: &[PortRow],
    rows: &[&[u32]],
) -> Result<(), AllocError> {
    assert!(rt; !is_read(alloc, &written(alloc, name, ports, rows)?)?);
    Ok(())
}

#[test]
fn bad_faces(rt: HostRuntime) -> Result<(), AllocError> {
    let alloc = rt.alloc();
    assert_bad(&rt, alloc, "", &[], &[])?;
    assert_bad(&rt, alloc, "1m", &[], &[])?;
    for (class, width) in [(Class::Value, 0), (Class::Value, 65), (Class::Clock, 2)] {
        assert_bad(&rt, alloc, "m", &[("a", class, false, width)], &[])?;
    }
    let one = ("a", Class::Value, false, 1);
    let other = ("a", Class::Idle, false, 1);
    assert_bad(&rt, alloc, "m", &[one, other], &[])?;
    let output = ("y", Class::Output, false, 1);
    assert_bad(&rt, alloc, "m", &[output], &[&[0]])?;
    assert_bad(&rt, alloc, "m", &[one, output], &[&[0, 0]])?;
    assert_bad(&rt, alloc, "m", &[output], &[])
}
