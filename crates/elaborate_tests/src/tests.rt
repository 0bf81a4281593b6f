use elaborate::specialised;
use module_parser::parse_file;
use net_ir::{Role, Spec, Var};
use std::alloc::{AllocError, Global};
use std::test::Fail;
use sv_ast::Module;
use sv_base::{Fault, Name, Refusal};
use sv_lexer::lex;

/// Modules, each with its nets and variables: role, name, width, lowest position, `r` for a range, `s` for signed, `w` for a
/// net, and initial value in hexadecimal.
const VARIABLES: [(&str, &str); 11] = [
    (
        "module t(input a, output y); endmodule",
        "i a 1 0 w 0; o y 1 0 w 0",
    ),
    (
        "module t(input logic a, output logic [7:0] y); endmodule",
        "i a 1 0  0; o y 8 0 r 0",
    ),
    (
        "module t(input signed [11:4] a, b, output c); endmodule",
        "i a 8 4 rsw 0; i b 8 4 rsw 0; o c 1 0 w 0",
    ),
    (
        "module t(input int a, input int unsigned b, input integer c); endmodule",
        "i a 32 0 s 0; i b 32 0  0; i c 32 0 s 0",
    ),
    (
        "module t(input wire [3:0] a); logic [7:0] v = 4'd15 + 4'd1, w = -1; endmodule",
        "i a 4 0 rw 0; v v 8 0 r 10; v w 8 0 r ff",
    ),
    (
        "module t; wire logic signed x; reg [0:0] r; bit b = 1; endmodule",
        "v x 1 0 sw 0; v r 1 0 r 0; v b 1 0  1",
    ),
    (
        "module t; logic [33'd4294967295:33'd4294967232] v; endmodule",
        "v v 64 4294967232 r 0",
    ),
    (
        "module t; int v = -5; logic signed [3:0] s = 12; endmodule",
        "v v 32 0 s fffffffb; v s 4 0 rs c",
    ),
    (
        "module t(input a); wire w = a; wire x = w, z; endmodule",
        "i a 1 0 w 0; v w 1 0 w 0; v x 1 0 w 0; v z 1 0 w 0",
    ),
    (
        "module t(input c, output logic q); always_ff @(posedge c) begin : b q <= 1; end endmodule",
        "i c 1 0 w 0; o q 1 0  0",
    ),
    (
        "module t(output logic q); logic b = '1; logic [8:0] f = '1; endmodule",
        "o q 1 0  0; v b 1 0  1; v f 9 0 r 1ff",
    ),
];

/// Modules that are refused, each with the line where it is not the first, the kind, and the name.
const REFUSED: [(&str, &str); 38] = [
    ("module t(input a, input a); endmodule", "DuplicateName a"),
    (
        "module t(input a,\noutput a); endmodule",
        "2: DuplicateName a",
    ),
    ("module t; logic v, v; endmodule", "DuplicateName v"),
    ("module t; logic [0:1] v; endmodule", "BadRange v"),
    ("module t; logic [3:-1] v; endmodule", "BadRange v"),
    ("module t; logic [64:0] v; endmodule", "TooWide v"),
    (
        "module t; logic [33'd4294967296:33'd4294967296] v; endmodule",
        "BadRange v",
    ),
    ("module t; logic [zz:0] v; endmodule", "UnknownName zz"),
    (
        "module t(input a); logic [a:0] v; endmodule",
        "NotConstant a",
    ),
    (
        "module t(input a); logic [a:0]\na; endmodule",
        "NotConstant a",
    ),
    (
        "module t(input a); logic [0:1]\na; endmodule",
        "2: DuplicateName a",
    ),
    ("module t; logic [0:1] a, b; endmodule", "BadRange a"),
    ("module t; logic v = v; endmodule", "NotConstant v"),
    ("module t; logic v = zz; endmodule", "UnknownName zz"),
    (
        "module t; logic [7:0] a = {64'd0, 1'd1}; endmodule",
        "TooWide a",
    ),
    (
        "module t; logic [7:0] a, b =\n{64'd0, 1'd1}; endmodule",
        "TooWide a",
    ),
    ("module t; wire w = {64'd0, 1'd1}; endmodule", "TooWide w"),
    (
        "module t; logic [{64'd0, 1'd1}:0] v; endmodule",
        "TooWide v",
    ),
    (
        "module t(input a, output y); assign y = b; endmodule",
        "UnknownName b",
    ),
    (
        "module t(input a, output y); assign z = a; endmodule",
        "UnknownName z",
    ),
    (
        "module t(input a, output y); assign y = z; wire z = a; endmodule",
        "UnknownName z",
    ),
    (
        "module t(input [2:0] p, output [3:0] y); assign y[p] = 1'b1; endmodule",
        "NotConstant p",
    ),
    (
        "module t(input a, output y); assign y[0] = a; endmodule",
        "BadRange y",
    ),
    (
        "module t(input a, output [3:0] y); assign y[0:1] = a; endmodule",
        "BadRange y",
    ),
    (
        "module t(input a, output [3:0] y); assign y[0 +: 0] = a; endmodule",
        "BadRange y",
    ),
    (
        "module t(input a, output [3:0] y); assign y[70:0] = a; endmodule",
        "TooWide y",
    ),
    (
        "module t(input a, output [63:0] y, output [63:0] z); assign {y, z} = a; endmodule",
        "TooWide y",
    ),
    (
        "module t(input a, output y); assign y =\n{64'd0, a}; endmodule",
        "TooWide y",
    ),
    (
        "module t(input a, output y); assign zz[yy] = a; endmodule",
        "UnknownName zz",
    ),
    (
        "module t(input a, output [3:0] y); assign y[yy] = a; endmodule",
        "UnknownName yy",
    ),
    (
        "module t(input a, output [3:0] y); assign y[0] = b[zz]; endmodule",
        "UnknownName b",
    ),
    (
        "module t(input c, output logic q); always_ff @(posedge k) q <= 1; endmodule",
        "UnknownName k",
    ),
    (
        "module t(input c, output logic q); always_ff @(posedge c) begin : q end endmodule",
        "DuplicateName q",
    ),
    (
        "module t(input c, output logic q); always_ff @(posedge c) begin : b q <= b; end endmodule",
        "UnknownName b",
    ),
    (
        "module t(input c, output logic q); always_ff @(posedge c) if ({64'd0, c}) q <= 1; endmodule",
        "TooWide",
    ),
    (
        "module t(input c, output logic q); always_ff @(posedge c) case (c) 0: q <= zz; yy: q <= 1; endcase endmodule",
        "UnknownName zz",
    ),
    (
        "module t(input c, output logic q); always_ff @(posedge c) case (c) yy: q <= zz; endcase endmodule",
        "UnknownName yy",
    ),
    (
        "module t; localparam P = 1; endmodule",
        "0: Unsupported plain",
    ),
];

/// Modules, each with the number of its drivers.
const DRIVERS: [(&str, usize); 3] = [
    (
        "module t(input a, output [1:0] y); assign y[0] = a, y[1] = a; wire w = a; endmodule",
        3,
    ),
    (
        "module t(input c, input [7:0] d, output logic [7:0] q); always_ff @(negedge c) case (d) 1, 2: q[3:0] <= d; default {q[7], q[0]} <= d[1:0]; endcase endmodule",
        1,
    ),
    (
        "module t(input a, output logic y); always_comb if (a) y = 1; else y = 0; ; endmodule",
        1,
    ),
];

/// Adds the bytes of a name.
fn push_name(out: &mut String, name: &Name) -> Result<(), AllocError> {
    for byte in name.bytes() {
        out.push(char::from(*byte))?;
    }
    Ok(())
}

/// A refusal: its line where it is not the first, its kind, and its name.
fn refusal(alloc: Global, refusal: &Refusal) -> Result<String, AllocError> {
    let line = refusal.place.line;
    let mut out = if line == 1 {
        String::new(alloc)
    } else {
        format!(in alloc; "{line}: ")?
    };
    out.push_str(refusal.kind.text())?;
    if !refusal.name.bytes().is_empty() {
        out.push(' ')?;
    }
    push_name(&mut out, &refusal.name)?;
    Ok(out)
}

fn letter(role: Role) -> char {
    match role {
        Role::Input => 'i',
        Role::Output => 'o',
        Role::Inner => 'v',
    }
}

/// A variable: its role, name, width and lowest position, `r` for a range, `s` for signed, `w` for a wire, and its initial value.
fn variable(alloc: Global, var: &Var) -> Result<String, AllocError> {
    let mut out = String::new(alloc);
    out.push(letter(var.role))?;
    out.push(' ')?;
    push_name(&mut out, &var.name)?;
    let width = var.width;
    let low = var.low;
    let numbers = format!(in alloc; " {width} {low} ")?;
    out.push_str(numbers.as_str())?;
    if var.ranged {
        out.push('r')?;
    }
    if var.signed {
        out.push('s')?;
    }
    if var.wire {
        out.push('w')?;
    }
    let word = var.init.word;
    let init = format!(in alloc; " {word:x}")?;
    out.push_str(init.as_str())?;
    Ok(out)
}

/// All variables of a specialisation, a `;` between them.
fn variables(alloc: Global, spec: &Spec) -> Result<String, AllocError> {
    let mut out = String::new(alloc);
    for var in spec.vars.as_slice() {
        if !out.is_empty() {
            out.push_str("; ")?;
        }
        let one = variable(alloc, var)?;
        out.push_str(one.as_str())?;
    }
    Ok(out)
}

/// The modules of a text.
fn modules_of(alloc: Global, text: &str) -> Result<Vec<Module>, Fail> {
    let tokens = lex(alloc, 1, text.as_bytes())?.into_vec();
    Ok(parse_file(alloc, &tokens)?)
}

/// The specialisation of the first module of a text, or its refusal.
fn outcome(alloc: Global, text: &str) -> Result<Result<Spec, Refusal>, Fail> {
    let modules = modules_of(alloc, text)?;
    let module = modules.as_slice().first().ok_or("no module")?;
    match specialised(alloc, module) {
        Ok(spec) => Ok(Ok(spec)),
        Err(Fault::Refused(refusal)) => Ok(Err(refusal)),
        Err(Fault::NoMemory) => Err("no memory")?,
    }
}

/// The nets and variables of a text, or its refusal, as a row says it.
fn told(alloc: Global, text: &str) -> Result<String, Fail> {
    match outcome(alloc, text)? {
        Ok(spec) => Ok(variables(alloc, &spec)?),
        Err(why) => Ok(refusal(alloc, &why)?),
    }
}

#[test]
fn nets_and_variables(rt: HostRuntime) -> Result<(), Fail> {
    for (text, expected) in VARIABLES {
        assert_eq!(rt; told(rt.alloc(), text)?.as_str(), expected, "{text:?}");
    }
    Ok(())
}

#[test]
fn refusals(rt: HostRuntime) -> Result<(), Fail> {
    for (text, expected) in REFUSED {
        assert_eq!(rt; told(rt.alloc(), text)?.as_str(), expected, "{text:?}");
    }
    Ok(())
}

#[test]
fn drivers(rt: HostRuntime) -> Result<(), Fail> {
    for (text, expected) in DRIVERS {
        let spec = outcome(rt.alloc(), text)?.ok().ok_or(text)?;
        assert_eq!(rt; spec.drivers.len(), expected, "{text:?}");
    }
    Ok(())
}
