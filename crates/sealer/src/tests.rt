//! Designs and refusals of sources.

use crate::front::{BuildFault, front};
use bit_ops::Op;
use net_ir::{Driver, Role, Spec, Stmt, Target, Term, Trigger};
use std::alloc::Global;
use std::test::Fail;
use sv_base::{Kind, Refusal};

/// What a source of the top `t` is.
fn design(alloc: Global, source: &str) -> Result<Result<Spec, Refusal>, Fail> {
    match front(alloc, b"t", source.as_bytes()) {
        Ok(spec) => Ok(Ok(spec)),
        Err(BuildFault::Refused(refusal)) => Ok(Err(refusal)),
        Err(BuildFault::NoMemory) => Err("no memory")?,
    }
}

/// The variable of a target that is the whole of one.
fn whole_var(target: &Target) -> Option<u32> {
    match target {
        Target::Of { var, pos: None, .. } => *var,
        _ => None,
    }
}

/// Whether a term is the exclusive or of two variables of one bit.
fn is_xor(term: &Term, first: u32, second: u32) -> bool {
    match term {
        Term::Apply {
            op: Op::Xor,
            width: 1,
            args,
            ..
        } => match args.as_slice() {
            [Term::Read { var: a, .. }, Term::Read { var: b, .. }] => *a == first && *b == second,
            _ => false,
        },
        _ => false,
    }
}

/// Whether a driver assigns to a variable the exclusive or of two.
fn is_assigned_xor(driver: &Driver, to: u32, of: (u32, u32)) -> bool {
    match driver {
        Driver::Assign { target, value, .. } => {
            whole_var(target) == Some(to) && is_xor(value, of.0, of.1)
        }
        Driver::Comb { .. } | Driver::Clocked { .. } | Driver::Instance(_) => false,
    }
}

/// Whether a term is the negation of a variable of one bit.
fn is_negation(term: &Term, of: u32) -> bool {
    match term {
        Term::Apply {
            op: Op::Not,
            width: 1,
            args,
            ..
        } => match args.as_slice() {
            [Term::Read { var, .. }] => *var == of,
            _ => false,
        },
        _ => false,
    }
}

/// Whether this is one rising edge, of this variable, on this line.
fn is_clock(triggers: &[Trigger], clock: u32, line: u32) -> bool {
    match triggers {
        [trigger] => trigger.var == Some(clock) && !trigger.falling && trigger.place.line == line,
        _ => false,
    }
}

/// Whether a statement samples the negation of a variable: its target, and that variable.
fn is_sample(statement: &Stmt, want: (u32, u32)) -> bool {
    match statement {
        Stmt::Assign {
            blocking: false,
            target,
            value,
        } => whole_var(target) == Some(want.0) && is_negation(value, want.1),
        _ => false,
    }
}

/// Whether a statement is a block of two such samples.
fn are_samples(body: &Stmt, first: (u32, u32), second: (u32, u32)) -> bool {
    match body {
        Stmt::Block(parts) => match parts.as_slice() {
            [a, b] => is_sample(a, first) && is_sample(b, second),
            _ => false,
        },
        _ => false,
    }
}

const FULL_ADDER: &str = "\
module t(input logic a, input logic b, input logic carry_in, output logic sum, output logic carry);
  logic half;
  assign half = a ^ b;
  assign sum = half ^ carry_in;
  logic both;
  assign both = a & b;
  logic passed;
  assign passed = half & carry_in;
  assign carry = both | passed;
endmodule
";

#[test]
fn full_adder_is_a_design(rt: HostRuntime) -> Result<(), Fail> {
    let spec = design(rt.alloc(), FULL_ADDER)?.ok().ok_or("no design")?;
    assert_eq!(rt; spec.vars.len(), 8);
    assert_eq!(rt; spec.drivers.len(), 5);
    let sum = spec.drivers.as_slice().get(1).ok_or("no driver")?;
    assert!(rt; is_assigned_xor(sum, 3, (5, 2)));
    Ok(())
}

const SHIFT_REGISTER: &str = "\
module t(input logic clk, input logic d, output logic q);
  logic mid;
  always_ff @(posedge clk) begin
    mid <= ~d;
    q <= ~mid;
  end
endmodule
";

#[test]
fn shift_register_is_a_design(rt: HostRuntime) -> Result<(), Fail> {
    let spec = design(rt.alloc(), SHIFT_REGISTER)?.ok().ok_or("no design")?;
    assert_eq!(rt; spec.vars.len(), 4);
    let mid = spec.vars.as_slice().get(3).ok_or("no variable")?;
    assert_eq!(rt; mid.role, Role::Inner);
    assert_eq!(rt; mid.place.line, 2);
    match spec.drivers.as_slice() {
        [Driver::Clocked { triggers, body, .. }] => {
            assert!(rt; is_clock(triggers.as_slice(), 0, 3));
            assert!(rt; are_samples(body, (3, 1), (2, 3)));
        }
        _ => Err("other drivers")?,
    }
    Ok(())
}

/// What the module with a clock, an input `a`, two outputs and these items, which begin on line 2, is.
fn small(alloc: Global, items: &str) -> Result<Result<Spec, Refusal>, Fail> {
    let ports = "input logic clk, input logic a, output logic x, output logic y";
    let source = format!(in alloc; "module t({ports});\n{items}\nendmodule\n")?;
    design(alloc, source.as_str())
}

/// Items, and the refusal of the first that is bad.
const BAD_ITEMS: [(&str, Kind, u32, &str); 18] = [
    ("logic a;", Kind::DuplicateName, 2, "a"),
    ("logic r;\nlogic r;", Kind::DuplicateName, 3, "r"),
    ("logic x;\nassign z = ~a;", Kind::DuplicateName, 2, "x"),
    ("assign z = ~a;\nlogic x;", Kind::UnknownName, 2, "z"),
    ("assign z = ~a;", Kind::UnknownName, 2, "z"),
    ("assign x = ~c;", Kind::UnknownName, 2, "c"),
    ("assign x = a | c;", Kind::UnknownName, 2, "c"),
    ("assign x = ~r;\nlogic r;", Kind::UnknownName, 2, "r"),
    (
        "always_ff @(posedge ck)\nx <= ~c;",
        Kind::UnknownName,
        2,
        "ck",
    ),
    (
        "always_ff @(posedge clk) begin\nx <= ~a;\nz <= ~a;\nend",
        Kind::UnknownName,
        4,
        "z",
    ),
    (
        "always_ff @(posedge clk) if (a)\nx <= ~a;\nelse z <= ~a;",
        Kind::UnknownName,
        4,
        "z",
    ),
    (
        "always_ff @(posedge clk) case (a)\nc: x <= ~a;\nendcase",
        Kind::UnknownName,
        3,
        "c",
    ),
    (
        "always_ff @(posedge clk) begin : a\nx <= ~a;\nend",
        Kind::DuplicateName,
        2,
        "a",
    ),
    ("logic r = a;", Kind::NotConstant, 2, "a"),
    ("logic [a:0] r;", Kind::NotConstant, 2, "a"),
    ("logic [64:0] r;", Kind::TooWide, 2, "r"),
    ("logic [0:3] r;", Kind::BadRange, 2, "r"),
    // a bad name before two drivers of one variable, which stand earlier in the text
    (
        "assign x = ~a;\nassign x = ~a;\nassign y = ~c;",
        Kind::UnknownName,
        4,
        "c",
    ),
];

#[test]
fn first_bad_item_is_told(rt: HostRuntime) -> Result<(), Fail> {
    for (items, kind, line, name) in BAD_ITEMS {
        let refusal = small(rt.alloc(), items)?.err().ok_or("a design")?;
        assert_eq!(rt; refusal.kind, kind, "{items}");
        assert_eq!(rt; refusal.place.line, line, "{items}");
        assert_eq!(rt; refusal.name.bytes(), name.as_bytes(), "{items}");
    }
    Ok(())
}

/// Items of plain designs.
const PLAIN: [&str; 15] = [
    "",
    ";",
    "assign x = ~a;\nassign y = ~x;",
    // a register that an assignment before its process reads
    "assign x = ~y;\nalways_ff @(posedge clk) y <= ~a;",
    "assign x = a + a;",
    "always_ff @(negedge clk) x <= a;",
    "logic [3:0] r;",
    "logic [3:0] r = 4'd9;\nassign x = r[2], y = r[a];",
    "wire w = ~a;\nassign x = w;",
    "logic signed [7:0] r;\nassign r = a ? -8'sd1 : 8'sd3;\nassign x = r < 0;",
    "assign {x, y} = {2{a}};",
    "always_ff @(posedge clk) if (a) x <= ~x; else begin : e\ny <= x;\nend",
    "always_ff @(posedge clk) case (a) 1'b0: x <= 1; default: y <= a; endcase",
    "logic [3:0] r = 3;\nalways_ff @(posedge clk) r[a] <= ~r[0];\nassign x = r[3];",
    "always @(posedge clk) begin\nx <= ~a; ;\nend",
];

#[test]
fn plain_designs(rt: HostRuntime) -> Result<(), Fail> {
    for items in PLAIN {
        assert!(rt; small(rt.alloc(), items)?.is_ok(), "{items}");
    }
    Ok(())
}

/// Items of a form that is not supported, or of a design that is not plain.
const NOT_PLAIN: [&str; 21] = [
    // two drivers, a driven input, a read before the driver, a read of itself
    "assign x = ~a;\nassign x = ~a;",
    "assign a = ~a;",
    "assign x = ~y;\nassign y = ~a;",
    "assign x = ~x;",
    // a clock that is read, a clock that is an output, and a variable that is assigned and clocked
    "always_ff @(posedge clk) x <= ~clk;",
    "always_ff @(posedge y) x <= ~a;",
    "assign x = ~a;\nalways_ff @(posedge clk) x <= ~a;",
    // a clock of two bits, a label as a clock, a process that writes a net, and one that assigns at once
    "logic [1:0] c;\nalways_ff @(posedge c) x <= ~a;",
    "always_ff @(posedge clk) begin : l\nx <= ~a;\nend\nalways_ff @(posedge l) y <= ~a;",
    "wire w;\nalways_ff @(posedge clk) w <= ~a;",
    "always_ff @(posedge clk) x = ~a;",
    // parts of one variable in two drivers
    "logic [1:0] r;\nassign r[0] = a;\nassign r[1] = a;",
    // items of another form, before any bad name
    "localparam P = 1;",
    "genvar g;\nassign z = ~a;",
    "always_comb x = ~a;",
    "always @* x = ~a;",
    "u v();",
    "assign z = ~a;\ngenerate endgenerate",
    "if (1) assign x = ~a;",
    "for (genvar g = 0; g < 1; g++) assign x = ~a;",
    "always_ff @(posedge clk) case (a) 0: for (int i = 0; i < 2; i++) x <= a; endcase",
];

/// Whether something is refused as not plain, which has no place.
fn is_not_plain(refusal: &Refusal) -> bool {
    refusal.kind == Kind::Unsupported
        && (refusal.place.file, refusal.place.line) == (0, 0)
        && refusal.name.bytes() == b"plain".as_slice()
}

#[test]
fn sources_that_are_not_plain(rt: HostRuntime) -> Result<(), Fail> {
    for items in NOT_PLAIN {
        let refusal = small(rt.alloc(), items)?.err().ok_or("a design")?;
        assert!(rt; is_not_plain(&refusal), "{items}");
    }
    Ok(())
}

/// Sources of several modules, and of modules with parameters, with their refusals.
const MODULES: [(&str, Kind, u32, &str); 5] = [
    ("", Kind::UnknownName, 0, "t"),
    ("module s; endmodule", Kind::UnknownName, 0, "t"),
    (
        "module t; endmodule\nmodule s; endmodule\nmodule t; endmodule",
        Kind::DuplicateName,
        3,
        "t",
    ),
    (
        "module t; endmodule\nmodule s; assign z = 1; endmodule",
        Kind::Unsupported,
        0,
        "plain",
    ),
    (
        "module t #(parameter P = 1); assign z = 1; endmodule",
        Kind::Unsupported,
        0,
        "plain",
    ),
];

#[test]
fn modules_are_looked_at_first(rt: HostRuntime) -> Result<(), Fail> {
    for (source, kind, line, name) in MODULES {
        let refusal = design(rt.alloc(), source)?.err().ok_or("a design")?;
        assert_eq!(rt; refusal.kind, kind, "{source}");
        assert_eq!(rt; refusal.place.line, line, "{source}");
        assert_eq!(rt; refusal.name.bytes(), name.as_bytes(), "{source}");
    }
    Ok(())
}
