//! Stimuli with what they say, typed by hand.

ghost use Rattle.std.specs.Prelude.{◌≡◌, map, IfOk};
ghost use Rattle.std.specs.List.{AllByRecursion, IsDistinct};
ghost use Rattle.std.specs.Str.{bytes_eq};
ghost use Rattle.bit_ops.specs.Width.{IsWidth};
ghost use Rattle.sv_base.specs.declared.face.Class.TheVariants.{Clock};

use crate::{StepFault, StepKind, StepReader};
use bit_ops::Bits;
use io_edge::MemSource;
use std::alloc::{AllocError, AllocGlobal, Global};
use std::process::Abort;
use std::test::Fail;
use sv_base::{Class, Face, Name, Port, Sequence};

fn port(alloc: Global, name: &[u8], class: Class, width: u32) -> Result<Port, AllocError>
    ensures name { IfOk result (λ p. p.name ≡ name.now) }
    ensures class { IfOk result (λ p. p.class ≡ class) }
    ensures width { IfOk result (λ p. p.width ≡ width) }
{
    Ok(Port {
        name: Name::of(alloc, name)?,
        class,
        signed: false,
        width,
    })
}

// The data inputs `a` of one bit, `w` of 8 and `q` of 64, the output `y`, the clock `clk`, and the idle inputs `e` of
// one bit and `i` of 8.
fn face(alloc: Global) -> Result<Face, AllocError>
    ensures widths { IfOk result (λ face. AllByRecursion (λ p. IsWidth p.width) face.ports) }
    ensures clocks { IfOk result
        (λ face. AllByRecursion (λ p. p.class ≡ Clock → p.width ≡ 1) face.ports) }
    ensures distinct { IfOk result (λ face. IsDistinct bytes_eq (map (λ p. p.name) face.ports)) }
{
    let mut ports = Sequence::new(alloc);
    ports.push(port(alloc, b"a", Class::Value, 1)?)?;
    ports.push(port(alloc, b"y", Class::Output, 1)?)?;
    ports.push(port(alloc, b"w", Class::Value, 8)?)?;
    ports.push(port(alloc, b"q", Class::Value, 64)?)?;
    ports.push(port(alloc, b"clk", Class::Clock, 1)?)?;
    ports.push(port(alloc, b"e", Class::Idle, 1)?)?;
    ports.push(port(alloc, b"i", Class::Idle, 8)?)?;
    Ok(Face {
        name: Name::of(alloc, b"m")?,
        ports,
    })
}

// A source of these bytes, of which a read takes at most so many, and at least one.
fn source(alloc: Global, bytes: &[u8], most: usize) -> Result<MemSource, AllocError> {
    Ok(MemSource {
        bytes: Vec::from_slice(alloc, bytes)?,
        at: 0,
        fail: Vec::new(alloc),
        calls: 0,
        most: most.max(1),
    })
}

// The values that a reader has, as `INPUTS/LEVELS`, each with a blank in front.
fn push_values(
    rt: &(impl AllocGlobal + Abort),
    told: &mut String,
    reader: &StepReader,
) -> Result<(), Fail> {
    for v in reader.inputs() {
        let value = format!(in rt.alloc(); " {}", v.word)?;
        told.push_str(value.as_str())?;
    }
    told.push_str("/")?;
    for level in reader.levels() {
        told.push_str(if *level { " 1" } else { " 0" })?;
    }
    Ok(())
}

// The steps that a reader still gives: a step as `;d INPUTS/LEVELS` or `;c ..`, a read that failed as `?`, then the end
// as `.` or the bad line as `! LINE REASON WORD`.
fn told(
    rt: &(impl AllocGlobal + Abort),
    reader: &mut StepReader,
    source: &mut MemSource,
) -> Result<String, Fail> {
    let mut told = String::new(rt.alloc());
    for _ in 0..1000 {
        match reader.next_step(source) {
            Ok(Some(StepKind::Values)) => {
                told.push_str(";d")?;
                push_values(rt, &mut told, reader)?;
            }
            Ok(Some(StepKind::Clocks)) => {
                told.push_str(";c")?;
                push_values(rt, &mut told, reader)?;
            }
            Ok(None) => {
                told.push_str(".")?;
                return Ok(told);
            }
            Err(StepFault::Bad { line, reason }) => {
                let word = str::from_utf8(reader.word())?;
                let bad = format!(in rt.alloc(); "! {} {:?} {}", line, reason, word)?;
                told.push_str(bad.as_str())?;
                return Ok(told);
            }
            Err(StepFault::ReadFault) => told.push_str("?")?,
        }
    }
    Ok(told)
}

const STIMULI: [(&str, &str); 48] = [
    ("", "."),
    ("\n\n \t\n", "."),
    ("d a=1\n", ";d 1 0 0/ 0."),
    ("d a=1", ";d 1 0 0/ 0."),
    ("d\n", ";d 0 0 0/ 0."),
    (" \td\ta=1  w=fF ", ";d 1 255 0/ 0."),
    ("d a=1\r\nd a=0\r\n", ";d 1 0 0/ 0;d 0 0 0/ 0."),
    (" # x\n#d a=2\nd a=1\n", ";d 1 0 0/ 0."),
    ("#\rd a=1\r", "."),
    ("d w=0000000000000001", ";d 0 1 0/ 0."),
    ("d q=fedcba9876543210", ";d 0 0 18364758544493064720/ 0."),
    ("d q=FFFFFFFFFFFFFFFF", ";d 0 0 18446744073709551615/ 0."),
    ("d b=1\n", "! 1 NoInput b"),
    ("d y=1\n", "! 1 NoInput y"),
    ("c y=1\n", "! 1 NoInput y"),
    ("d a=1 a=0\n", "! 1 SetTwice a"),
    ("d a=1 a=z\n", "! 1 SetTwice a"),
    ("d a=2\n", "! 1 NoValue 2"),
    ("d w=100\n", "! 1 NoValue 100"),
    ("d w=00000000000000001\n", "! 1 NoValue 00000000000000001"),
    ("d w=0x1\n", "! 1 NoValue 0x1"),
    ("d a=1=1\n", "! 1 NoValue 1=1"),
    ("d a=\n", "! 1 NoSetting a="),
    ("d =1\n", "! 1 NoSetting =1"),
    ("d a\n", "! 1 NoSetting a"),
    ("d 1a=1\n", "! 1 NoSetting 1a=1"),
    ("x a=1\n", "! 1 NoStep x"),
    ("  x  a=1\n", "! 1 NoStep x"),
    ("dd a=1\n", "! 1 NoStep dd"),
    ("da=1\n", "! 1 NoStep da=1"),
    ("d a=1\r", "! 1 NoValue 1\r"),
    ("d a=2 \r\n", "! 1 NoValue 2"),
    ("d\r", "! 1 NoStep d\r"),
    ("d a=1\n\n# c\nd w=2 z=1 v\n", ";d 1 0 0/ 0! 4 NoInput z"),
    ("d a=1 w=2\nd w=3\n", ";d 1 2 0/ 0;d 1 3 0/ 0."),
    (
        "c clk=1\nd a=1\nc clk=0\n",
        ";c 0 0 0/ 1;d 1 0 0/ 1;c 1 0 0/ 0.",
    ),
    ("c clk=1\nd clk=0\n", ";c 0 0 0/ 1! 2 IsClock clk"),
    ("d clk=2\n", "! 1 IsClock clk"),
    ("c clk=2\n", "! 1 NoValue 2"),
    ("c clk=01\n", "! 1 NoValue 01"),
    ("c a=1\n", "! 1 NoClock a"),
    ("c i=1\n", "! 1 NoClock i"),
    ("c e=1 clk=1\n", ";c 0 0 0/ 1."),
    ("d e=1 i=ff\n", ";d 0 0 0/ 0."),
    ("c clk=1 clk=0\n", "! 1 SetTwice clk"),
    ("c e=1 e=1\n", "! 1 SetTwice e"),
    ("c\n", ";c 0 0 0/ 0."),
    ("c clk\n", "! 1 NoSetting clk"),
];

#[test]
fn stimuli_say_their_steps(rt: HostRuntime) -> Result<(), Fail> {
    let face = face(rt.alloc())?;
    for (text, wanted) in STIMULI {
        for most in [1, 2, 7, 4_096] {
            let mut source = source(rt.alloc(), text.as_bytes(), most)?;
            let mut reader = StepReader::new(rt.alloc(), &face)?;
            let told = told(&rt, &mut reader, &mut source)?;
            assert_eq!(rt; told.as_str(), wanted, "{text:?} {most}");
        }
    }
    Ok(())
}

// The first of these lines comes in 17 pieces of 4,096 bytes.
#[test]
fn a_line_has_at_most_65536_bytes(rt: HostRuntime) -> Result<(), Fail> {
    let alloc = rt.alloc();
    let face = face(alloc)?;
    for (count, end, wanted) in [
        (65_536, "\nd a=1\n", ";d 1 0 0/ 0."),
        (65_536, "", "."),
        (65_537, "\nd a=1\n", "! 1 LineTooLong "),
        (65_537, "", "! 1 LineTooLong "),
        (65_535, "\r\nd a=1\n", ";d 1 0 0/ 0."),
        (65_536, "\r\nd a=1\n", "! 1 LineTooLong "),
    ] {
        for most in [7, 4_096] {
            let mut bytes = vec![in alloc; b'#'; count]?;
            bytes.extend_from_slice(end.as_bytes())?;
            let mut source = source(alloc, &bytes, most)?;
            let mut reader = StepReader::new(alloc, &face)?;
            let told = told(&rt, &mut reader, &mut source)?;
            assert_eq!(rt; told.as_str(), wanted, "{count} {most}");
        }
    }
    Ok(())
}

// A comment of so many bytes, and then a step whose LF begins the second piece, whose CR does, or whose number.
#[test]
fn a_line_may_be_cut_anywhere(rt: HostRuntime) -> Result<(), Fail> {
    let alloc = rt.alloc();
    let face = face(alloc)?;
    for count in [4_089, 4_090, 4_091] {
        let mut bytes = vec![in alloc; b'#'; count]?;
        bytes.extend_from_slice(b"\nd a=1\r\nd w=2\r\n")?;
        let mut source = source(alloc, &bytes, 4_096)?;
        let mut reader = StepReader::new(alloc, &face)?;
        let told = told(&rt, &mut reader, &mut source)?;
        assert_eq!(rt; told.as_str(), ";d 1 0 0/ 0;d 1 2 0/ 0.", "{count}");
    }
    Ok(())
}

// The reads that take 7 bytes end the first line, stand in the second twice, stand in the third, end it, and find the end.
// One read takes all, and a second finds the end.
#[test]
fn a_read_that_failed_loses_nothing(rt: HostRuntime) -> Result<(), Fail> {
    let alloc = rt.alloc();
    let face = face(alloc)?;
    for (most, k, wanted) in [
        (7, 1, "?;d 0 2 0/ 0;d 1 3 0/ 0;d 0 3 0/ 0."),
        (7, 2, ";d 0 2 0/ 0?;d 1 3 0/ 0;d 0 3 0/ 0."),
        (7, 3, ";d 0 2 0/ 0?;d 1 3 0/ 0;d 0 3 0/ 0."),
        (7, 4, ";d 0 2 0/ 0;d 1 3 0/ 0?;d 0 3 0/ 0."),
        (7, 5, ";d 0 2 0/ 0;d 1 3 0/ 0;d 0 3 0/ 0?."),
        (7, 6, ";d 0 2 0/ 0;d 1 3 0/ 0;d 0 3 0/ 0."),
        (4_096, 1, "?;d 0 2 0/ 0;d 1 3 0/ 0;d 0 3 0/ 0."),
        (4_096, 2, ";d 0 2 0/ 0;d 1 3 0/ 0;d 0 3 0/ 0?."),
        (4_096, 3, ";d 0 2 0/ 0;d 1 3 0/ 0;d 0 3 0/ 0."),
    ] {
        let mut source = source(alloc, b"d w=2\r\nd a=1 w=3\nd a=0\n", most)?;
        source.fail.push(k)?;
        let mut reader = StepReader::new(alloc, &face)?;
        let told = told(&rt, &mut reader, &mut source)?;
        assert_eq!(rt; told.as_str(), wanted, "{most} {k}");
    }
    Ok(())
}

// One read takes both lines, and only behind them a second finds the end, after which there is none.
#[test]
fn whole_lines_are_given_before_a_read(rt: HostRuntime) -> Result<(), Fail> {
    let alloc = rt.alloc();
    let face = face(alloc)?;
    let mut source = source(alloc, b"d a=1\nc clk=1", 4_096)?;
    let mut reader = StepReader::new(alloc, &face)?;
    assert_eq!(rt; reader.next_step(&mut source), Ok(Some(StepKind::Values)));
    assert_eq!(rt; source.calls, 1);
    assert_eq!(rt; reader.next_step(&mut source), Ok(Some(StepKind::Clocks)));
    assert_eq!(rt; source.calls, 2);
    for _ in 0..3 {
        assert_eq!(rt; reader.next_step(&mut source), Ok(None));
        assert_eq!(rt; source.calls, 2);
    }
    Ok(())
}

#[test]
fn a_bad_line_is_told_again(rt: HostRuntime) -> Result<(), Fail> {
    let alloc = rt.alloc();
    let face = face(alloc)?;
    let mut source = source(alloc, b"\nd a=1\nd w=7 a=3 q=1\nd a=0\n", 1)?;
    let mut reader = StepReader::new(alloc, &face)?;
    assert_eq!(rt; reader.line_number(), 0);
    assert!(rt; reader.word().is_empty());
    assert_eq!(rt; reader.next_step(&mut source), Ok(Some(StepKind::Values)));
    assert_eq!(rt; reader.line_number(), 2);
    for _ in 0..3 {
        let told = told(&rt, &mut reader, &mut source)?;
        assert_eq!(rt; told.as_str(), "! 3 NoValue 3");
        assert_eq!(rt; reader.line_number(), 3);
        assert_eq!(rt; source.at, 21);
    }
    let inputs = reader.inputs();
    assert_eq!(rt; inputs.len(), 3);
    let word = reader.into_word();
    assert_eq!(rt; word.as_slice(), b"3".as_slice());
    Ok(())
}

// The value of the port at this place, unless it is an output.
fn value_at(face: &Face, reader: &StepReader, place: usize) -> Option<Bits>
    requires { reader.now.ports ≡ face.now.ports }
{
    let port = face.ports.get(place)?;
    match port.class {
        Class::Output => None,
        Class::Value | Class::Clock | Class::Idle => Some(reader.value(place)),
    }
}

// The value of each port in port order, `-` where it is an output, each with a blank behind it.
fn values(rt: &(impl AllocGlobal + Abort), face: &Face, reader: &StepReader) -> Result<String, Fail>
    requires { reader.now.ports ≡ face.now.ports }
{
    let mut told = String::new(rt.alloc());
    for place in 0..face.ports.len() {
        match value_at(face, reader, place) {
            Some(value) => {
                let value = format!(in rt.alloc(); "{}'{} ", value.width, value.word)?;
                told.push_str(value.as_str())?;
            }
            None => told.push_str("- ")?,
        }
    }
    Ok(told)
}

#[test]
fn values_are_those_of_the_places(rt: HostRuntime) -> Result<(), Fail> {
    let alloc = rt.alloc();
    let face = face(alloc)?;
    let mut source = source(alloc, b"d i=a5 q=9 e=1\nc e=0 clk=1\n", 4_096)?;
    let mut reader = StepReader::new(alloc, &face)?;
    assert_eq!(rt; reader.next_step(&mut source), Ok(Some(StepKind::Values)));
    let told = values(&rt, &face, &reader)?;
    assert_eq!(rt; told.as_str(), "1'0 - 8'0 64'9 1'0 1'1 8'165 ");
    assert_eq!(rt; reader.next_step(&mut source), Ok(Some(StepKind::Clocks)));
    let told = values(&rt, &face, &reader)?;
    assert_eq!(rt; told.as_str(), "1'0 - 8'0 64'9 1'1 1'0 8'165 ");
    assert_eq!(rt; reader.next_step(&mut source), Ok(None));
    let word = reader.into_word();
    assert!(rt; word.is_empty());
    Ok(())
}
