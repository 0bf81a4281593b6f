//! Rows of the program's outcomes: words and files, and the bytes and the status that they give.

ghost use Rattle.std.specs.Prelude.{◌≡◌, ◌<◌};
ghost use Rattle.model_stage.specs.Order.{Picks};

use crate::language_rows::ROWS;
use crate::run::run_words;
use io_edge::{MemFolder, MemSink};
use model_stage::Order;
use std::alloc::{AllocError, AllocGlobal, Global};
use std::process::Abort;
use std::test::Fail;
use sv_base::Name;

#[derive(Drop)]
struct Outcome {
    status: u8,
    out: Vec<u8>,
    err: Vec<u8>,
}

// The most bytes of a call of the outside, and the calls that fail, counted from 1.
#[derive(Clone, Copy)]
struct Outside<'a> {
    most: usize,
    reads: &'a [u64],
    out: &'a [u64],
    err: &'a [u64],
}

fn folder(
    alloc: Global,
    files: &[(&str, &str)],
    fail: &[u64],
    most: usize,
) -> Result<MemFolder, AllocError>
    requires { 0 < most }
{
    let mut all = Vec::new(alloc);
    for (name, text) in files {
        let name = Name::of(alloc, name.as_bytes())?;
        all.push((name, Vec::from_slice(alloc, text.as_bytes())?))?;
    }
    Ok(MemFolder {
        files: all,
        fail_reads: Vec::from_slice(alloc, fail)?,
        fail_writes: Vec::new(alloc),
        reads: 0,
        writes: 0,
        most,
        short: 0,
    })
}

fn sink(alloc: Global, fail: &[u64], most: usize) -> Result<MemSink, AllocError>
    requires { 0 < most }
{
    Ok(MemSink {
        bytes: Vec::new(alloc),
        fail: Vec::from_slice(alloc, fail)?,
        calls: 0,
        most,
        short: 0,
    })
}

fn run<F: Fn(u32, u32) -> u32>(
    rt: &(impl AllocGlobal + Abort),
    words: &[&str],
    files: &[(&str, &str)],
    outside: Outside<'_>,
    order: &Order<F>,
) -> Result<Outcome, Fail>
    requires most { 0 < outside.most }
    requires order { Picks (F.pre order.now.f) (F.post order.now.f) }
{
    let alloc = rt.alloc();
    let mut all = Vec::new(alloc);
    for word in words {
        all.push(String::from_str(alloc, *word)?)?;
    }
    let mut folder = folder(alloc, files, outside.reads, outside.most)?;
    let mut out = sink(alloc, outside.out, outside.most)?;
    let mut err = sink(alloc, outside.err, outside.most)?;
    let status = run_words(alloc, &all, &mut folder, &mut out, &mut err, order);
    Ok(Outcome {
        status,
        out: out.bytes,
        err: err.bytes,
    })
}

// One call gives this status and these bytes.
fn gives<F: Fn(u32, u32) -> u32>(
    rt: &(impl AllocGlobal + Abort),
    words: &[&str],
    files: &[(&str, &str)],
    outside: Outside<'_>,
    order: &Order<F>,
    wanted: (u8, &str, &str),
) -> Result<(), Fail>
    requires most { 0 < outside.most }
    requires order { Picks (F.pre order.now.f) (F.post order.now.f) }
{
    let got = run(rt, words, files, outside, order)?;
    let out = str::from_utf8(got.out.as_slice())?;
    let err = str::from_utf8(got.err.as_slice())?;
    assert_eq!(rt; (got.status, out, err), wanted, "{words:?} {files:?}");
    Ok(())
}

fn no_fault(most: usize) -> Outside<'static>
    ensures { result.most ≡ most }
{
    Outside {
        most,
        reads: &[],
        out: &[],
        err: &[],
    }
}

// In each order of settling the outcome is the same.
fn gives_in_each_order(
    rt: &(impl AllocGlobal + Abort),
    words: &[&str],
    files: &[(&str, &str)],
    most: usize,
    wanted: (u8, &str, &str),
) -> Result<(), Fail>
    requires { 0 < most }
{
    let first = Order::new(|_, _| 0);
    let last = Order::new(|_, n| n - 1);
    let turned = Order::new(|s, n| s % n);
    gives(rt, words, files, no_fault(most), &first, wanted)?;
    gives(rt, words, files, no_fault(most), &last, wanted)?;
    gives(rt, words, files, no_fault(most), &turned, wanted)
}

// By pieces of each size the outcome is the same.
fn always_gives(
    rt: &(impl AllocGlobal + Abort),
    words: &[&str],
    files: &[(&str, &str)],
    wanted: (u8, &str, &str),
) -> Result<(), Fail> {
    gives_in_each_order(rt, words, files, 1, wanted)?;
    gives_in_each_order(rt, words, files, 2, wanted)?;
    gives_in_each_order(rt, words, files, 7, wanted)?;
    gives_in_each_order(rt, words, files, 4096, wanted)
}

const SIM: [&str; 4] = ["sim", "s.txt", "t", "t.sv"];

const INVERTER: &str = "module t(input logic a, output logic y); assign y = ~a; endmodule";

const IN_ORDER: &str = "module t(input logic a, output logic y, output logic z); \
assign z = a; assign y = ~z; endmodule";

const ADDER: &str = "module t(input logic a, input logic b, input logic c, output logic p, \
output logic g, output logic h, output logic s, output logic d);\n\
assign p = a ^ b;\nassign g = a & b;\nassign h = p & c;\nassign s = p ^ c;\nassign d = g | h;\n\
endmodule\n";

const SWAP: &str = "module t(input logic clk, output logic a, output logic b); \
always_ff @(posedge clk) begin a <= b; b <= ~a; end endmodule";

const IDLE: &str = "module t(input logic clk, input logic i, input logic d, output logic q); \
always_ff @(posedge clk) q <= d; endmodule";

const TWO_CLOCKS: &str =
    "module t(input logic c1, input logic c2, output logic a, output logic b); \
always_ff @(posedge c1) a <= b; always_ff @(posedge c2) b <= ~a; endmodule";

const WRITTEN_TWICE: &str = "module t(input logic clk, output logic q, output logic r); \
always_ff @(posedge clk) begin q <= r; begin q <= ~r; end r <= q; end endmodule";

const INNER: &str = "module t(input logic clk, input logic d, output logic y); logic q; \
assign y = ~q; always_ff @(posedge clk) begin begin q <= d; end end endmodule";

const MARKED: &str = "`timescale 1ns/1ps\nmodule t(input logic a, output logic y); // x\n\
/*verilator hier_block*/ assign y = ~a;\nendmodule\n";

const GROUPED: &str = "module t(input logic a, input logic b, input logic c, output logic y); \
assign y = (a & b) | ~c; endmodule";

// Sources and stimuli, and the traces that they give.
const TRACES: [(&str, &str, &str); 20] = [
    (INVERTER, "", "step a:1 y:1\n0 0 1\n"),
    (INVERTER, "d a=1", "step a:1 y:1\n0 0 1\n1 1 0\n"),
    (
        INVERTER,
        "# up and down\nd a=1\n\nd\nd a=0\n",
        "step a:1 y:1\n0 0 1\n1 1 0\n2 1 0\n3 0 1\n",
    ),
    (IN_ORDER, "d a=1", "step a:1 y:1 z:1\n0 0 1 0\n1 1 0 1\n"),
    (
        "module t(output logic y, input logic b, input logic a); assign y = a & ~b; endmodule",
        "d a=1\nd b=1\nd a=0\n",
        "step y:1 b:1 a:1\n0 0 0 0\n1 1 0 1\n2 0 1 1\n3 0 1 0\n",
    ),
    (
        ADDER,
        "d a=0 b=0 c=0\nd a=0 b=0 c=1\nd a=0 b=1 c=0\nd a=0 b=1 c=1\n\
d a=1 b=0 c=0\nd a=1 b=0 c=1\nd a=1 b=1 c=0\nd a=1 b=1 c=1\n",
        "step a:1 b:1 c:1 p:1 g:1 h:1 s:1 d:1\n0 0 0 0 0 0 0 0 0\n\
1 0 0 0 0 0 0 0 0\n2 0 0 1 0 0 0 1 0\n3 0 1 0 1 0 0 1 0\n4 0 1 1 1 0 1 0 1\n\
5 1 0 0 1 0 0 1 0\n6 1 0 1 1 0 1 0 1\n7 1 1 0 0 1 0 0 1\n8 1 1 1 0 1 0 1 1\n",
    ),
    (
        SWAP,
        "c clk=1\nc clk=0\nc clk=1",
        "step clk:1 a:1 b:1\n0 0 0 0\n1 1 0 1\n2 0 0 1\n3 1 1 1\n",
    ),
    // To set a clock to its own level is no edge, and neither is a fall.
    (
        SWAP,
        "c clk=1\nc clk=1\nc clk=0\nc\nc clk=1",
        "step clk:1 a:1 b:1\n0 0 0 0\n1 1 0 1\n2 1 0 1\n3 0 0 1\n4 0 0 1\n5 1 1 1\n",
    ),
    // Lines of both kinds set the idle input.
    (
        IDLE,
        "d i=1 d=1\nc i=0 clk=1\nd d=0\nc clk=0 i=1\n",
        "step clk:1 i:1 d:1 q:1\n0 0 0 0 0\n1 0 1 1 0\n2 1 0 1 1\n3 1 0 0 1\n4 0 1 0 1\n",
    ),
    // Two clocks rise in one step, and each register samples what the other was before.
    (
        TWO_CLOCKS,
        "c c1=1 c2=1\nc c1=0 c2=0\nc c2=1 c1=1\n",
        "step c1:1 c2:1 a:1 b:1\n0 0 0 0 0\n1 1 1 0 1\n2 0 0 0 1\n3 1 1 1 1\n",
    ),
    // A later write covers an earlier one.
    (
        WRITTEN_TWICE,
        "c clk=1\nc clk=0\nc clk=1\n",
        "step clk:1 q:1 r:1\n0 0 0 0\n1 1 1 0\n2 0 1 0\n3 1 1 1\n",
    ),
    // A variable that no port shows is read before the process that writes it.
    (
        INNER,
        "d d=1\nc clk=1\nd d=0\n",
        "step clk:1 d:1 y:1\n0 0 0 1\n1 0 1 1\n2 1 1 0\n3 1 0 0\n",
    ),
    // Comments, marks and directives change nothing.
    (MARKED, "d a=1", "step a:1 y:1\n0 0 1\n1 1 0\n"),
    (
        "module t(input logic a, output logic y); /*verilator hier_block*/ assign y = ~a; endmodule",
        "d a=1",
        "step a:1 y:1\n0 0 1\n1 1 0\n",
    ),
    (
        "module t(input logic a, output logic y); assign y = ~(~~a); endmodule",
        "d a=1",
        "step a:1 y:1\n0 0 1\n1 1 0\n",
    ),
    (
        GROUPED,
        "d c=1\nd a=1 b=1\nd c=0 a=0\n",
        "step a:1 b:1 c:1 y:1\n0 0 0 0 1\n1 0 0 1 0\n2 1 1 1 1\n3 0 1 0 1\n",
    ),
    (
        "module t(input logic a, input logic b, output logic y); assign y = a ^~ b; endmodule",
        "d a=1\nd b=1\n",
        "step a:1 b:1 y:1\n0 0 0 1\n1 1 0 0\n2 1 1 1\n",
    ),
    (
        "module t(input logic a, output logic y); wire w; assign w = ~a; assign y = ~w; endmodule",
        "d a=1",
        "step a:1 y:1\n0 0 0\n1 1 1\n",
    ),
    (
        "module t(input logic clk, input logic d, output logic q); always @(posedge clk) q <= d; endmodule",
        "d d=1\nc clk=1\n",
        "step clk:1 d:1 q:1\n0 0 0 0\n1 0 1 0\n2 1 1 1\n",
    ),
    (
        "module t(input logic clk, input logic d, output logic q); always_ff @(posedge clk) begin end assign q = d; endmodule",
        "d d=1\nc clk=1\n",
        "step clk:1 d:1 q:1\n0 0 0 0\n1 0 1 1\n2 1 1 1\n",
    ),
];

#[test]
fn designs_give_their_traces(rt: HostRuntime) -> Result<(), Fail> {
    for (source, stimulus, trace) in TRACES {
        let files = [("t.sv", source), ("s.txt", stimulus)];
        always_gives(&rt, &SIM, &files, (0, trace, ""))?;
    }
    Ok(())
}

#[test]
fn the_wider_language_gives_its_traces(rt: HostRuntime) -> Result<(), Fail> {
    for (source, stimulus, trace) in ROWS {
        let files = [("t.sv", source), ("s.txt", stimulus)];
        always_gives(&rt, &SIM, &files, (0, trace, ""))?;
    }
    Ok(())
}

const COUNTER: &str = "module t(input logic clk, rst, output logic [3:0] q); \
always_ff @(posedge clk) if (rst) q <= 0; else q <= q + 1; endmodule";

// The counter of 4 bits is at 0 again after 16 rising edges.
#[test]
fn a_counter_comes_round(rt: HostRuntime) -> Result<(), Fail> {
    let mut stimulus = String::new(rt.alloc());
    for _ in 0..17u32 {
        stimulus.push_str("c clk=1\nc clk=0\n")?;
    }
    let files = [("t.sv", COUNTER), ("s.txt", stimulus.as_str())];
    let order = Order::new(|_, _| 0);
    let got = run(&rt, &SIM, &files, no_fault(100), &order)?;
    assert_eq!(rt; got.status, 0);
    assert!(rt; got.out.starts_with(b"step clk:1 rst:1 q:4\n0 0 0 0\n1 1 0 1\n2 0 0 1\n3 1 0 2\n"));
    assert!(rt;
        got.out
            .ends_with(b"\n30 0 0 f\n31 1 0 0\n32 0 0 0\n33 1 0 1\n34 0 0 1\n")
    );
    assert!(rt; got.err.is_empty());
    let begun = "step clk:1 rst:1 q:4\n0 0 0 0\n1 1 0 1\n2 0 0 1\n";
    let files = [("t.sv", COUNTER), ("s.txt", "c clk=1\nc clk=0\nd clk=1\n")];
    always_gives(
        &rt,
        &SIM,
        &files,
        (5, begun, "stimulus 3: clk is a clock\n"),
    )
}

// Words that are refused, and the message.
const MISUSES: [(&[&str], &str); 10] = [
    (&[], "usage: too few words\n"),
    (&["frob", "t"], "usage: frob\n"),
    (&["sim"], "usage: too few words\n"),
    (&["sim", "s.txt", "t"], "usage: too few words\n"),
    (&["sim", "-x", "s.txt", "t", "t.sv"], "usage: -x\n"),
    (&["frob", "t", "-"], "usage: -\n"),
    (&["sim", "s.txt", "t", ""], "usage: \n"),
    (&["sim", "s.txt", "t", "t.sv", "x"], "usage: x\n"),
    (&["sim", "s.txt", "module", "t.sv"], "usage: module\n"),
    (&["sim", "s.txt", "1a", "t.sv"], "usage: 1a\n"),
];

#[test]
fn wrong_words_are_refused(rt: HostRuntime) -> Result<(), Fail> {
    let files = [("t.sv", INVERTER), ("s.txt", "d a=1")];
    for (words, message) in MISUSES {
        always_gives(&rt, words, &files, (2, "", message))?;
    }
    Ok(())
}

#[test]
fn absent_files_are_told(rt: HostRuntime) -> Result<(), Fail> {
    let source = ("t.sv", INVERTER);
    let stimulus = ("s.txt", "d a=1");
    let absent = (3, "", "absent t.sv\n");
    always_gives(&rt, &SIM, &[], absent)?;
    always_gives(&rt, &SIM, &[stimulus], absent)?;
    let begun = (5, "step a:1 y:1\n0 0 1\n", "stimulus 1: absent\n");
    always_gives(&rt, &SIM, &[source], begun)?;
    Ok(())
}

const UNSUPPORTED: &str = "-:0: Unsupported plain\n";

// Sources of which none is a legal design of the top `t`, and the message.
const REFUSED: [(&str, &str); 49] = [
    ("", "-:0: UnknownName t\n"),
    ("\n\n", "-:0: UnknownName t\n"),
    ("endmodule", "t.sv:1: Unexpected endmodule\n"),
    (
        "module t(input logic a, output logic y);\nassign y = a +;\nendmodule",
        "t.sv:2: Unexpected ;\n",
    ),
    (
        "module t(input logic a, output logic y);\nassign y = b;\nendmodule",
        "t.sv:2: UnknownName b\n",
    ),
    (
        "module t(input logic a, output logic y);\nassign y =\n",
        "t.sv:2: Unexpected\n",
    ),
    (
        "module t(input logic a, output logic y); initial y = 0; endmodule",
        "t.sv:1: Unsupported initial\n",
    ),
    (
        "module t(input logic a, output logic y); assign y <= a; endmodule",
        "t.sv:1: Unexpected <=\n",
    ),
    (
        "module t(input logic a, output logic y); # endmodule",
        "t.sv:1: Unexpected #\n",
    ),
    (
        "module t(input logic a, output logic y); assign y = a; endmodule\nx",
        "t.sv:2: Unexpected x\n",
    ),
    (
        "module t(input logic a, output logic y);\nalways_ff @(negedge a) y <= a;\nendmodule",
        UNSUPPORTED,
    ),
    (
        "module t(input logic a, output logic y); always_ff @(posedge a) begin endmodule",
        "t.sv:1: Unexpected endmodule\n",
    ),
    (
        "module u(input logic a, output logic y); assign y = ~a; endmodule",
        "-:0: UnknownName t\n",
    ),
    (
        "module t(input logic a,\ninput logic a, output logic y); assign y = a; endmodule",
        "t.sv:2: DuplicateName a\n",
    ),
    (
        "module t(input logic a, output logic y); assign y = a & b; endmodule",
        "t.sv:1: UnknownName b\n",
    ),
    (
        "module t(input logic a, output logic y); assign z = b; endmodule",
        "t.sv:1: UnknownName z\n",
    ),
    (
        "module t(input logic a, output logic y);\nlogic q;\nlogic y;\nendmodule",
        "t.sv:3: DuplicateName y\n",
    ),
    (
        "module t(input logic a, output logic y);\nassign y = q;\nlogic q;\nendmodule",
        "t.sv:2: UnknownName q\n",
    ),
    (
        "module t(input logic a, output logic y); always_ff @(posedge k) y <= z; endmodule",
        "t.sv:1: UnknownName k\n",
    ),
    (
        "module t(input logic a, output logic y, output logic z); assign y = ~z; assign z = a; endmodule",
        UNSUPPORTED,
    ),
    (
        "module t(input logic a, output logic y); assign y = a; assign y = ~a; endmodule",
        UNSUPPORTED,
    ),
    (
        "module t(input logic a, output logic y); assign y = a; assign y = a; endmodule",
        UNSUPPORTED,
    ),
    (
        "module t(input logic a, output logic y); assign a = y; endmodule",
        UNSUPPORTED,
    ),
    (
        "module t(input logic a, output logic y); assign y = ~y; endmodule",
        UNSUPPORTED,
    ),
    (
        "module t(input logic k, output logic y); always_ff @(posedge k) y <= k; endmodule",
        UNSUPPORTED,
    ),
    (
        "module t(output logic k, output logic y); always_ff @(posedge k) y <= ~y; endmodule",
        UNSUPPORTED,
    ),
    (
        "module t(input logic k, output logic y); assign y = y; always_ff @(posedge k) y <= ~y; endmodule",
        UNSUPPORTED,
    ),
    (
        "module t(input logic k, input logic a, output logic y); always_ff @(posedge k) begin y <= a; a <= y; end endmodule",
        UNSUPPORTED,
    ),
    (
        "module t(input logic a, output logic y);\n/* open",
        "t.sv:2: OpenComment\n",
    ),
    (
        "module t(input logic a, output logic y);\n`include",
        "t.sv:2: Unsupported include\n",
    ),
    (
        "module t(input logic a, output logic y);\n#",
        "t.sv:2: Unexpected #\n",
    ),
    (
        "module t(input logic a, output logic y);\ninitial y = 0;",
        "t.sv:2: Unsupported initial\n",
    ),
    ("/*verilator hier_block*/", "-:0: UnknownName t\n"),
    (
        "module t(input logic a, output logic y); assign y = ~a; endmodule\nmodule t; endmodule",
        "t.sv:2: DuplicateName t\n",
    ),
    (
        "module t(input logic a, output logic y); assign y = ~a; endmodule\nmodule u; endmodule",
        UNSUPPORTED,
    ),
    (
        "module t #(parameter N = 1)(input logic a, output logic y); assign y = ~a; endmodule",
        UNSUPPORTED,
    ),
    (
        "module t(input logic a, output logic y); assign y[0] = a; endmodule",
        "t.sv:1: BadRange y\n",
    ),
    (
        "module t(input logic a, output logic y); assign y = a[0]; endmodule",
        "t.sv:1: BadRange a\n",
    ),
    (
        "module t(input logic k, input logic a, output logic y); always_ff @(posedge k) y = a; endmodule",
        UNSUPPORTED,
    ),
    (
        "module t(input logic [63:0] a, output logic [63:0] y);\nlogic [64:0] w;\nendmodule",
        "t.sv:2: TooWide w\n",
    ),
    (
        "module t(input logic [7:0] a, input logic [2:0] p, output logic [3:0] y); assign y[p] = 1'b1; endmodule",
        "t.sv:1: NotConstant p\n",
    ),
    // What is read and not run yet: parameters, what is generated, instances, combinational processes and loops.
    (
        "module t(input logic a, output logic y); localparam N = 1; assign y = a; endmodule",
        UNSUPPORTED,
    ),
    (
        "module t(input logic a, output logic y); genvar i; assign y = a; endmodule",
        UNSUPPORTED,
    ),
    (
        "module t(input logic a, output logic y); always_comb y = a; endmodule",
        UNSUPPORTED,
    ),
    (
        "module t(input logic a, output logic y); u v(a, y); endmodule",
        UNSUPPORTED,
    ),
    (
        "module t(input logic a, output logic y); if (1) assign y = a; endmodule",
        UNSUPPORTED,
    ),
    (
        "module t(input logic k, input logic a, output logic y); always_ff @(posedge k) if (a) for (int i = 0; i < 2; i++) y <= a; endmodule",
        UNSUPPORTED,
    ),
    // A process that writes a net, and two assignments to different bits of one variable.
    (
        "module t(input logic k, input logic a, output y); always_ff @(posedge k) y <= a; endmodule",
        UNSUPPORTED,
    ),
    (
        "module t(input logic a, output logic [1:0] y); assign y[0] = a; assign y[1] = a; endmodule",
        UNSUPPORTED,
    ),
];

#[test]
fn sources_that_are_no_legal_design_are_refused(rt: HostRuntime) -> Result<(), Fail> {
    for (source, message) in REFUSED {
        let files = [("t.sv", source), ("s.txt", "d a=1")];
        always_gives(&rt, &SIM, &files, (3, "", message))?;
    }
    let files = [("t.sv", INVERTER), ("s.txt", "d a=1")];
    let unknown = (3, "", "-:0: UnknownName u\n");
    always_gives(&rt, &["sim", "s.txt", "u", "t.sv"], &files, unknown)?;
    Ok(())
}

// Stimuli of the inverter, the steps of their traces behind step 0, and the message.
const BAD_STIMULI: [(&str, &str, &str); 9] = [
    ("d y=1", "", "stimulus 1: y is no input\n"),
    ("d a=2", "", "stimulus 1: 2 is no value\n"),
    ("d a", "", "stimulus 1: a is no setting\n"),
    ("d a=1 a=0", "", "stimulus 1: a is set twice\n"),
    ("c a=1", "", "stimulus 1: a is no clock\n"),
    (
        "d a=1\n# x\nd b=0",
        "1 1 0\n",
        "stimulus 3: b is no input\n",
    ),
    (
        "d a=1\nd a=1 y=0\n",
        "1 1 0\n",
        "stimulus 2: y is no input\n",
    ),
    (
        "\n\nd a=1\nx\nd a=0\n",
        "1 1 0\n",
        "stimulus 4: x is no step\n",
    ),
    (
        "d a=1\nd\nda=0",
        "1 1 0\n2 1 0\n",
        "stimulus 3: da=0 is no step\n",
    ),
];

#[test]
fn bad_stimuli_end_the_trace(rt: HostRuntime) -> Result<(), Fail> {
    for (stimulus, steps, message) in BAD_STIMULI {
        let files = [("t.sv", INVERTER), ("s.txt", stimulus)];
        let trace = format!(in rt.alloc(); "step a:1 y:1\n0 0 1\n{steps}")?;
        always_gives(&rt, &SIM, &files, (5, trace.as_str(), message))?;
    }
    Ok(())
}

// Stimuli of the design with two registers, the steps of their traces behind step 0, and the message.
const BAD_CLOCKS: [(&str, &str, &str); 5] = [
    (
        "c clk=1\nd clk=0",
        "1 1 0 1\n",
        "stimulus 2: clk is a clock\n",
    ),
    ("c clk=2", "", "stimulus 1: 2 is no value\n"),
    ("c clk=01", "", "stimulus 1: 01 is no value\n"),
    ("c a=1", "", "stimulus 1: a is no input\n"),
    ("c clk=1 clk=1", "", "stimulus 1: clk is set twice\n"),
];

#[test]
fn bad_lines_of_clocks_end_the_trace(rt: HostRuntime) -> Result<(), Fail> {
    for (stimulus, steps, message) in BAD_CLOCKS {
        let files = [("t.sv", SWAP), ("s.txt", stimulus)];
        let trace = format!(in rt.alloc(); "step clk:1 a:1 b:1\n0 0 0 0\n{steps}")?;
        always_gives(&rt, &SIM, &files, (5, trace.as_str(), message))?;
    }
    Ok(())
}

// The calls that fail among the reads, those of `out` and those of `err`, and what is given. Reads 1 and 2 take the
// source and find its end, read 3 takes the stimulus, and read 4 finds the end of that.
const FAULTS: [(&[u64], &[u64], &[u64], (u8, &str, &str)); 8] = [
    (&[1], &[], &[], (7, "", "read fault\n")),
    (&[3], &[], &[], (7, "step a:1 y:1\n0 0 1\n", "read fault\n")),
    (
        &[4],
        &[],
        &[],
        (7, "step a:1 y:1\n0 0 1\n1 1 0\n2 0 1\n", "read fault\n"),
    ),
    (&[], &[1], &[], (8, "", "write fault\n")),
    (
        &[],
        &[3],
        &[],
        (8, "step a:1 y:1\n0 0 1\n", "write fault\n"),
    ),
    (&[1], &[1], &[], (7, "", "read fault\n")),
    (&[1], &[], &[1], (8, "", "")),
    (&[], &[1], &[1], (8, "", "")),
];

#[test]
fn faults_are_told(rt: HostRuntime) -> Result<(), Fail> {
    let order = Order::new(|_, _| 0);
    let files = [("t.sv", INVERTER), ("s.txt", "d a=1\nd a=0\n")];
    for (reads, out, err, wanted) in FAULTS {
        let outside = Outside {
            most: 1000,
            reads,
            out,
            err,
        };
        gives(&rt, &SIM, &files, outside, &order, wanted)?;
    }
    Ok(())
}

// Stimuli that are read 8 bytes at a time, the read behind those of the source that fails, and the trace behind its header.
// One of no steps is looked for once more by a read of no bytes.
const CUT: [(&str, u64, &str); 6] = [
    ("d a=1\nd a=0\n", 1, "0 0 1\n"),
    ("d a=1\nd a=0\n", 2, "0 0 1\n1 1 0\n"),
    ("d a=1\nd a=0\n", 3, "0 0 1\n1 1 0\n2 0 1\n"),
    ("d a=1\nd a=0", 3, "0 0 1\n1 1 0\n"),
    ("", 1, "0 0 1\n"),
    ("", 2, "0 0 1\n"),
];

// The source has 65 bytes, so 9 reads take it and one more finds its end.
#[test]
fn reads_that_fail_leave_the_steps_before_them(rt: HostRuntime) -> Result<(), Fail> {
    let order = Order::new(|_, _| 0);
    for (stimulus, read, steps) in CUT {
        let reads = [10 + read];
        let outside = Outside {
            most: 8,
            reads: &reads,
            out: &[],
            err: &[],
        };
        let files = [("t.sv", INVERTER), ("s.txt", stimulus)];
        let trace = format!(in rt.alloc(); "step a:1 y:1\n{steps}")?;
        let wanted = (7, trace.as_str(), "read fault\n");
        gives(&rt, &SIM, &files, outside, &order, wanted)?;
    }
    Ok(())
}

// 10,000 lines of 6 bytes, in pieces that cut lines: the last step is even, so its input is 0.
#[test]
fn a_long_stimulus_is_played_to_its_end(rt: HostRuntime) -> Result<(), Fail> {
    let mut stimulus = String::new(rt.alloc());
    for _ in 0..5000u32 {
        stimulus.push_str("d a=1\nd a=0\n")?;
    }
    let files = [("t.sv", INVERTER), ("s.txt", stimulus.as_str())];
    let order = Order::new(|_, _| 0);
    for most in [7usize, 4095, 4096, 5000] {
        if most == 0 {
            return Err("no room")?;
        }
        let got = run(&rt, &SIM, &files, no_fault(most), &order)?;
        assert_eq!(rt; got.status, 0, "{most}");
        assert!(rt; got.out.ends_with(b"\n9999 1 0\n10000 0 1\n"), "{most}");
        assert!(rt; got.err.is_empty(), "{most}");
    }
    Ok(())
}

// The words and files, the call of `err` that fails, and what is given.
const UNWRITTEN: [(&str, &str, &str, &[u64], (u8, &str, &str)); 4] = [
    ("-", INVERTER, "", &[1], (8, "", "")),
    ("t.sv", "endmodule", "", &[2], (8, "", "t.sv:1")),
    (
        "t.sv",
        INVERTER,
        "d a",
        &[3],
        (8, "step a:1 y:1\n0 0 1\n", "stimulus 1: "),
    ),
    ("t.sv", INVERTER, "", &[1], (0, "step a:1 y:1\n0 0 1\n", "")),
];

#[test]
fn message_that_is_not_written_is_a_write_fault(rt: HostRuntime) -> Result<(), Fail> {
    let order = Order::new(|_, _| 0);
    for (name, source, stimulus, err, wanted) in UNWRITTEN {
        let outside = Outside {
            most: 6,
            reads: &[],
            out: &[],
            err,
        };
        let words = ["sim", "s.txt", "t", name];
        let files = [("t.sv", source), ("s.txt", stimulus)];
        gives(&rt, &words, &files, outside, &order, wanted)?;
    }
    Ok(())
}

#[test]
fn source_has_at_most_1048576_bytes(rt: HostRuntime) -> Result<(), Fail> {
    let order = Order::new(|_, _| 0);
    let trace = "step a:1 y:1\n0 0 1\n";
    let long = (3, "", "t.sv:1: TooMany file\n");
    for (count, wanted) in [(1_048_576, (0, trace, "")), (1_048_577, long)] {
        let mut bytes = Vec::from_slice(rt.alloc(), INVERTER.as_bytes())?;
        bytes.resize(count, b' ')?;
        let source = str::from_utf8(bytes.as_slice())?;
        let files = [("t.sv", source), ("s.txt", "")];
        let got = run(&rt, &SIM, &files, no_fault(5000), &order)?;
        let out = str::from_utf8(got.out.as_slice())?;
        let err = str::from_utf8(got.err.as_slice())?;
        assert_eq!(rt; (got.status, out, err), wanted, "{count}");
    }
    Ok(())
}

// A chain of inverters from the input `n0` to the output `n1000`.
fn chain(alloc: Global) -> Result<String, AllocError> {
    let mut text = String::from_str(alloc, "module t(input logic n0")?;
    for i in 1..1001u32 {
        let port = format!(in alloc; ", output logic n{i}")?;
        text.push_str(port.as_str())?;
    }
    text.push_str(");\n")?;
    for i in 0..1000u32 {
        let assignment = format!(in alloc; "assign n{} = ~n{i};\n", i + 1)?;
        text.push_str(assignment.as_str())?;
    }
    text.push_str("endmodule\n")?;
    Ok(text)
}

#[test]
fn a_chain_of_1000_inverters_alternates(rt: HostRuntime) -> Result<(), Fail> {
    let source = chain(rt.alloc())?;
    let files = [("t.sv", source.as_str()), ("s.txt", "d n0=1\n")];
    let order = Order::new(|_, _| 0);
    let got = run(&rt, &SIM, &files, no_fault(1000), &order)?;
    let mut last = Vec::from_slice(rt.alloc(), b"\n1 1")?;
    for _ in 0..500u32 {
        last.extend_from_slice(b" 0 1")?;
    }
    last.push(b'\n')?;
    assert_eq!(rt; got.status, 0);
    assert!(rt; got.out.ends_with(last.as_slice()));
    assert!(rt; got.err.is_empty());
    Ok(())
}

// So many modules on as many lines, named by their numbers.
fn many_modules(alloc: Global, count: u32) -> Result<String, AllocError> {
    let mut text = String::new(alloc);
    for i in 0..count {
        let module = format!(in alloc; "module m{i}; endmodule\n")?;
        text.push_str(module.as_str())?;
    }
    Ok(text)
}

#[test]
fn source_has_at_most_1024_modules(rt: HostRuntime) -> Result<(), Fail> {
    let order = Order::new(|_, _| 0);
    let unknown = (3, "", "-:0: UnknownName t\n");
    let many = (3, "", "t.sv:1025: TooMany modules\n");
    for (count, wanted) in [(1024, unknown), (1025, many), (1026, many)] {
        let source = many_modules(rt.alloc(), count)?;
        let files = [("t.sv", source.as_str()), ("s.txt", "")];
        gives(&rt, &SIM, &files, no_fault(1000), &order, wanted)?;
    }
    Ok(())
}
