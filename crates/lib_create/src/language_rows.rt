//! Sources of the wider language with their stimuli, and the traces that they give.

/// A source, a stimulus, and its trace.
pub const ROWS: [(&str, &str, &str); 19] = [
    // Sums and shifts at the size of their targets.
    (
        "module t(input logic [7:0] a, b, output logic [8:0] y, output logic [7:0] z); assign y = a + b; assign z = (a + b) >> 1; endmodule",
        "d a=ff b=01",
        "step a:8 b:8 y:9 z:8\n0 00 00 000 00\n1 ff 01 100 00\n",
    ),
    // A signed name is extended by its sign, a sum with an unsigned one by 0.
    (
        "module t(input logic signed [3:0] a, output logic [7:0] y, z); assign y = a; assign z = a + 4'd0; endmodule",
        "d a=f",
        "step a:4 y:8 z:8\n0 0 00 00\n1 f ff 0f\n",
    ),
    // A product of 64 bits.
    (
        "module t(input logic [63:0] a, output logic [63:0] y);\nassign y = a * a;\nendmodule",
        "d a=ffffffffffffffff",
        "step a:64 y:64\n0 0000000000000000 0000000000000000\n1 ffffffffffffffff 0000000000000001\n",
    ),
    // Signed division and its remainder, by 0 too.
    (
        "module t(input logic signed [3:0] a, b, output logic [3:0] q, r); assign q = a / b; assign r = a % b; endmodule",
        "d a=8 b=f\nd b=0\nd a=9 b=2",
        "step a:4 b:4 q:4 r:4\n0 0 0 0 0\n1 8 f 8 0\n2 8 0 0 0\n3 9 2 d f\n",
    ),
    // A part from a position up, and copies.
    (
        "module t(input logic [7:0] a, input logic [2:0] p, output logic [3:0] y, output logic [3:0] z); assign y = a[p +: 4]; assign z = {2{a[1:0]}}; endmodule",
        "d a=e6 p=6",
        "step a:8 p:3 y:4 z:4\n0 00 0 0 0\n1 e6 6 3 a\n",
    ),
    // `>>>` puts in sign bits exactly where the context is signed.
    (
        "module t(input logic signed [3:0] a, input logic [1:0] n, output logic [3:0] x, output logic [3:0] y); assign x = a >>> n; assign y = (a + 4'd0) >>> n; endmodule",
        "d a=8 n=2",
        "step a:4 n:2 x:4 y:4\n0 0 0 0 0\n1 8 2 e 2\n",
    ),
    // Positions of a range whose lowest is above 0.
    (
        "module t(input logic [11:4] a, output logic [3:0] y); assign y = a[8:5]; endmodule",
        "d a=e6",
        "step a:8 y:4\n0 00 0\n1 e6 3\n",
    ),
    // A net with its value.
    (
        "module t(input logic [3:0] a, b, output logic y); wire [4:0] w = a + b; assign y = w[4]; endmodule",
        "d a=f b=1",
        "step a:4 b:4 y:1\n0 0 0 0\n1 f 1 1\n",
    ),
    // No port at all.
    ("module t; endmodule", "d\n", "step\n0\n1\n"),
    // Nets and variables that nothing reads, and an empty item.
    (
        "module t(input wire a, output y); reg r; logic [3:0] s, u; ; assign y = a && 1'b1; endmodule",
        "d a=1",
        "step a:1 y:1\n0 0 0\n1 1 1\n",
    ),
    // A register with an initial value.
    (
        "module t(input logic clk, output logic [3:0] q); logic [3:0] r = 4'd10; always_ff @(posedge clk) r <= r + 1; assign q = r; endmodule",
        "c clk=1",
        "step clk:1 q:4\n0 0 a\n1 1 b\n",
    ),
    // A falling edge.
    (
        "module t(input logic clk, output logic q); always_ff @(negedge clk) q <= ~q; endmodule",
        "c clk=1\nc clk=0",
        "step clk:1 q:1\n0 0 0\n1 1 0\n2 0 1\n",
    ),
    // A concatenated target: the first part takes the highest bits.
    (
        "module t(input logic clk, input logic [3:0] a, b, output logic c, output logic [3:0] s); always_ff @(posedge clk) {c, s} <= a + b; endmodule",
        "d a=f b=3\nc clk=1",
        "step clk:1 a:4 b:4 c:1 s:4\n0 0 0 0 0 0\n1 0 f 3 0 0\n2 1 f 3 1 2\n",
    ),
    // The parts of a target are written from left to right.
    (
        "module t(input logic clk, input logic [3:0] a, b, output logic [3:0] s); always_ff @(posedge clk) {s[0], s} <= a + b; endmodule",
        "d a=f b=3\nc clk=1",
        "step clk:1 a:4 b:4 s:4\n0 0 0 0 0\n1 0 f 3 0\n2 1 f 3 2\n",
    ),
    (
        "module t(input logic clk, input logic [3:0] a, b, output logic [3:0] s); always_ff @(posedge clk) {s, s[0]} <= a + b; endmodule",
        "d a=f b=3\nc clk=1",
        "step clk:1 a:4 b:4 s:4\n0 0 0 0 0\n1 0 f 3 0\n2 1 f 3 8\n",
    ),
    // A counter with a `case`, an enable, and parts.
    (
        "module t(input logic clk, input logic en, input logic [1:0] m, output logic [7:0] q); always_ff @(posedge clk) if (en) case (m) 2'd0: q <= q + 1; 2'd1: q[3:0] <= q[3:0] + 4'd1; 2'd2, 2'd3: q[7 -: 4] <= 4'd5; endcase endmodule",
        "d en=1 m=1\nc clk=1\nc clk=0\nd m=2\nc clk=1\nc clk=0\nd m=0\nc clk=1\nc clk=0\nd en=0\nc clk=1",
        "step clk:1 en:1 m:2 q:8\n0 0 0 0 00\n1 0 1 1 00\n2 1 1 1 01\n3 0 1 1 01\n4 0 1 2 01\n5 1 1 2 51\n6 0 1 2 51\n7 0 1 0 51\n8 1 1 0 52\n9 0 1 0 52\n10 0 0 0 52\n11 1 0 0 52\n",
    ),
    // A write out of range changes nothing.
    (
        "module t(input logic clk, input logic [2:0] i, output logic [3:0] q); always_ff @(posedge clk) q[i] <= 1'b1; endmodule",
        "d i=5\nc clk=1\nc clk=0\nd i=2\nc clk=1",
        "step clk:1 i:3 q:4\n0 0 0 0\n1 0 5 0\n2 1 5 0\n3 0 5 0\n4 0 2 0\n5 1 2 4\n",
    ),
    // A `case` compares at the greatest size, and takes the first choice that matches.
    (
        "module t(input logic clk, input logic [3:0] a, output logic [1:0] y); always_ff @(posedge clk) case (a) 5'd17: y <= 2'd1; 4'd1: y <= 2'd2; default: y <= 2'd3; 4'd1: y <= 2'd0; endcase endmodule",
        "d a=1\nc clk=1\nc clk=0\nd a=2\nc clk=1",
        "step clk:1 a:4 y:2\n0 0 0 0\n1 0 1 0\n2 1 1 2\n3 0 1 2\n4 0 2 2\n5 1 2 3\n",
    ),
    // A condition holds where any of its bits is 1.
    (
        "module t(input logic clk, input logic [3:0] a, output logic y); always_ff @(posedge clk) begin : b if (a) y <= 1'b1; else y <= 1'b0; end endmodule",
        "d a=2\nc clk=1",
        "step clk:1 a:4 y:1\n0 0 0 0\n1 0 2 0\n2 1 2 1\n",
    ),
];
