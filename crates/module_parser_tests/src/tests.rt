use expr_parser::ParseFault;
use module_header::{EntryKind, entries_of, ports_of};
use module_parser::parse_file;
use std::alloc::{AllocError, Global};
use std::process::Abort;
use std::test::Fail;
use sv_ast::{
    Arg, Block, CaseItem, Decl, Expr, Id, Item, Loop, Lval, Module, Param, PortDecl, Sel, Shape,
    Stmt,
};
use sv_base::Place;
use sv_lexer::{Token, lex};

/// Texts that are read, each with its modules.
///
/// A module is `name#(entries)(ports){items}`, with `*` behind the name where it is marked, and without a list that
/// is empty. Behind each part of a list stands a comma, behind each name its line as `<2>`, where that is not the
/// first; so behind the word of a process, `if`, `for` and `case`, and behind the `{` or `[` of a tree. Items are
/// `comb statement`, `ff(edges) statement`, `u #(values)x(connections),;`, `generate{items}`, `for(header){items}`,
/// `if(test):label{items}else{items}`, and the others as they are written; statements are `:label{statements}`,
/// `if(test)statement else statement.`, `case(test)labels:statement default:statement.` and the others.
const MODULE_TREES: [(&str, &str); 24] = [
    ("", ""),
    (" \n ", ""),
    ("/*verilator hier_block*/ /*verilator hier_block*/", ""),
    ("module t; endmodule", "t{}"),
    ("module t(); endmodule", "t{}"),
    ("module t; endmodule : t", "t{}"),
    ("module t; endmodule module u; endmodule", "t{}u{}"),
    (
        "module t; endmodule : t\nmodule u(input a); wire b; endmodule\n\nmodule t; endmodule : t",
        "t{}u<2>(input<2> a<2>,){wire<2> b<2>,;}t<4>{}",
    ),
    ("module t #(A = 1); endmodule", "t#(A=1,){}"),
    (
        "module t #(parameter A = 1, localparam B = A + 1)(); endmodule",
        "t#(parameter A=1,localparam B=(A + 1),){}",
    ),
    (
        "module t #(parameter int A = 1, int unsigned B = 2, integer C = 3, integer signed D = 4); endmodule",
        "t#(parameter int A=1,int unsigned B=2,integer C=3,integer signed D=4,){}",
    ),
    (
        "module t #(logic A = 1, reg [3:0] B = 2, bit signed [1:0] C = 3, localparam logic unsigned D = 0); endmodule",
        "t#(logic A=1,reg [3:0] B=2,bit signed [1:0] C=3,localparam logic unsigned D=0,){}",
    ),
    (
        "module t #(signed A = 1, unsigned [7:0] B = 2, [3:0] C = 3, localparam [0:3] D = 4, parameter signed [A:0] E = '1); endmodule",
        "t#(signed A=1,unsigned [7:0] B=2,[3:0] C=3,localparam [0:3] D=4,parameter signed [A:0] E='1,){}",
    ),
    ("module t(input a); endmodule", "t(input a,){}"),
    (
        "module t(input a, b, output c, d, input e); endmodule",
        "t(input a,b,output c,d,input e,){}",
    ),
    (
        "module t(input wire a, output wire logic b, input wire signed [3:0] c, output wire logic unsigned [1:0] d); endmodule",
        "t(input wire a,output wire logic b,input wire signed [3:0] c,output wire logic unsigned [1:0] d,){}",
    ),
    (
        "module t(input logic a, output reg [3:0] b, input bit unsigned c, output int d, input integer e, output int unsigned f); endmodule",
        "t(input logic a,output reg [3:0] b,input bit unsigned c,output int d,input integer e,output int unsigned f,){}",
    ),
    (
        "module t(input signed a, output [3:0] b, c, output unsigned [1:0] d); endmodule",
        "t(input signed a,output [3:0] b,c,output unsigned [1:0] d,){}",
    ),
    (
        "module t #(A = 1) (input [A-1:0] a); endmodule",
        "t#(A=1,)(input [(A - 1):0] a,){}",
    ),
    (
        "module\nt\n#(\nparameter\nint\nA =\n1)\n(input\nwire\n[\nA:0]\na,\nb);\nendmodule",
        "t<2>#(parameter<4> int<5> A<6>=1<7>,)(input<8> wire<9> [A<11>:0<11>] a<12>,b<13>,){}",
    ),
    (
        "module t;\nalways_comb\nif (a)\n;\nelse\nif (b) ;\nalways_ff @(posedge\nclk) ;\nalways @* ; endmodule",
        "t{comb<2> if<3>(a<3>);else if<6>(b<6>);..ff<7>(posedge<7> clk<8>,) ;comb<9> ;}",
    ),
    (
        "module t;\nfor (i =\n0;\ni; i++)\nif (a) ; endmodule",
        "t{for<2>(i<2>=0<3>;i<4>;i<4>++<4>){if<5>(a<5>){;}}}",
    ),
    (
        "module t; always @*\nfor (int i = 0; i; i++)\ncase (\na)\nb:\n{c,\nd}\n=\ne; endcase endmodule",
        "t{comb for<2>(int i<2>=0<2>;i<2>;i<2>++<2>)case<3>(a<4>)b<5>,:{<6>c<6>,d<7>,}=<8>e<9>;.}",
    ),
    (
        "module t; u\nx(\n.a,\n.b(c\n)); assign\ny\n[1]\n=\n{a,\n{2\n{b}}}; endmodule",
        "t{u x<2>(.a<3>(a<3>),.b<4>(c<4>),),;assign y<6>[<7>1<7>]={<9>a<9>,{<10>2<10>{b<11>,}},},;}",
    ),
];

/// Items that are read, each with its module.
const ITEM_TREES: [(&str, &str); 52] = [
    ("module t; ; ;; endmodule", "t{;;;}"),
    ("module t; parameter A = 1; endmodule", "t{parameter A=1,;}"),
    (
        "module t; localparam int B = 2, C = 3; endmodule",
        "t{localparam int B=2,C=3,;}",
    ),
    (
        "module t; parameter logic [3:0] D = 4; localparam signed [1:0] E = 5; parameter [2:0] F = 6; endmodule",
        "t{parameter logic [3:0] D=4,;localparam signed [1:0] E=5,;parameter [2:0] F=6,;}",
    ),
    (
        "module t; localparam integer unsigned G = 7; parameter bit H = 8; parameter reg signed I = 9; endmodule",
        "t{localparam integer unsigned G=7,;parameter bit H=8,;parameter reg signed I=9,;}",
    ),
    ("module t; wire a; endmodule", "t{wire a,;}"),
    (
        "module t; wire logic [3:0] a, b = 1; endmodule",
        "t{wire logic [3:0] a,b=1,;}",
    ),
    (
        "module t; wire signed [1:0] a = b, c; wire unsigned d; wire logic signed e; endmodule",
        "t{wire signed [1:0] a=b,c,;wire unsigned d,;wire logic signed e,;}",
    ),
    (
        "module t; logic a; reg b = 0; bit [1:0] c, d; logic signed e; endmodule",
        "t{logic a,;reg b=0,;bit [1:0] c,d,;logic signed e,;}",
    ),
    (
        "module t; reg unsigned [3:0] f = 1, g = 2; endmodule",
        "t{reg unsigned [3:0] f=1,g=2,;}",
    ),
    (
        "module t; int i; integer j = 1, k; int unsigned l; integer signed m; endmodule",
        "t{int i,;integer j=1,k,;int unsigned l,;integer signed m,;}",
    ),
    (
        "module t; genvar i; genvar j, k; endmodule",
        "t{genvar i,;genvar j,k,;}",
    ),
    ("module t; assign y = a; endmodule", "t{assign y=a,;}"),
    (
        "module t; assign y = a, z = b & c; endmodule",
        "t{assign y=a,z=(b & c),;}",
    ),
    (
        "module t; assign y[3] = a, y[2:1] = b, y[i +: 4] = c, y[i -: 2] = d; endmodule",
        "t{assign y[3]=a,y[2:1]=b,y[i+:4]=c,y[i-:2]=d,;}",
    ),
    (
        "module t; assign {a} = b; assign {a, b[1]} = c, d = e; endmodule",
        "t{assign {a,}=b,;assign {a,b[1],}=c,d=e,;}",
    ),
    (
        "module t; assign {a, {b, c[1:0]}, {{d}}} = e; endmodule",
        "t{assign {a,{b,c[1:0],},{{d,},},}=e,;}",
    ),
    (
        "module t; assign y = a <= b; endmodule",
        "t{assign y=(a <= b),;}",
    ),
    ("module t; always_comb ; endmodule", "t{comb ;}"),
    ("module t; always @* x = 1; endmodule", "t{comb x=1;}"),
    ("module t; always @(*) x = 1; endmodule", "t{comb x=1;}"),
    (
        "module t; always_ff @(posedge clk) q <= d; endmodule",
        "t{ff(posedge clk,) q<=d;}",
    ),
    (
        "module t; always_ff @(negedge clk) ; endmodule",
        "t{ff(negedge clk,) ;}",
    ),
    (
        "module t; always @(posedge clk) begin end endmodule",
        "t{ff(posedge clk,) {}}",
    ),
    (
        "module t; always @(negedge clk) q <= d; endmodule",
        "t{ff(negedge clk,) q<=d;}",
    ),
    ("module t; u x(); endmodule", "t{u x(),;}"),
    ("module t; u #() x(); endmodule", "t{u x(),;}"),
    (
        "module t; u #(1, 2 + 3) x(a, b[1]); endmodule",
        "t{u #(1,(2 + 3),)x(a,b[1],),;}",
    ),
    (
        "module t; u #(.A(1), .B(), .C) x(.a(b), .c(), .d), y(e), z(); endmodule",
        "t{u #(.A(1),.B(),.C(C),)x(.a(b),.c(),.d(d),),y(e,),z(),;}",
    ),
    (
        "module t; u x(.a); u y((a)); u z({a, b}, -c); endmodule",
        "t{u x(.a(a),),;u y(a,),;u z({a,b,},(- c),),;}",
    ),
    ("module t; generate endgenerate endmodule", "t{generate{}}"),
    (
        "module t; generate endgenerate; endmodule",
        "t{generate{};}",
    ),
    (
        "module t; generate ; wire a; generate u x(); endgenerate endgenerate endmodule",
        "t{generate{;wire a,;generate{u x(),;}}}",
    ),
    (
        "module t; for (genvar i = 0; i < 4; i++) wire a; endmodule",
        "t{for(genvar i=0;(i < 4);i++){wire a,;}}",
    ),
    (
        "module t; for (i = 0; i < 4; i = i + 1) begin end endmodule",
        "t{for(i=0;(i < 4);i=(i + 1)){}}",
    ),
    (
        "module t; for (i = 3; i; i--) begin : g wire a; ; end : g endmodule",
        "t{for(i=3;i;i--):g{wire a,;;}}",
    ),
    (
        "module t; for (genvar i = 0; i < 4; i += 2) begin : g end endmodule",
        "t{for(genvar i=0;(i < 4);i+=2):g{}}",
    ),
    (
        "module t; for (genvar i = 4; i > 0; i -= a ? 1 : 2) for (j = i; j < 4; j++) u x(); endmodule",
        "t{for(genvar i=4;(i > 0);i-=(a ? 1 : 2)){for(j=i;(j < 4);j++){u x(),;}}}",
    ),
    ("module t; if (a) wire b; endmodule", "t{if(a){wire b,;}}"),
    (
        "module t; if (a) ; else wire b; endmodule",
        "t{if(a){;}else{wire b,;}}",
    ),
    (
        "module t; if (a) begin end else begin : g wire b; end : g endmodule",
        "t{if(a){}else:g{wire b,;}}",
    ),
    (
        "module t; if (a) begin : g ; ; end else if (b) begin : h end else ; endmodule",
        "t{if(a):g{;;}else{if(b):h{}else{;}}}",
    ),
    (
        "module t; if (a) if (b) ; else ; endmodule",
        "t{if(a){if(b){;}else{;}}}",
    ),
    (
        "module t; if (a) if (b) ; else ; else ; endmodule",
        "t{if(a){if(b){;}else{;}}else{;}}",
    ),
    (
        "module t; if (a) begin if (b) ; end else ; endmodule",
        "t{if(a){if(b){;}}else{;}}",
    ),
    (
        "module t; if (a) for (genvar i = 0; i < 2; i++) if (b) ; else ; endmodule",
        "t{if(a){for(genvar i=0;(i < 2);i++){if(b){;}else{;}}}}",
    ),
    (
        "module t; if (a) always_comb if (b) ; else ; endmodule",
        "t{if(a){comb if(b);else ;.}}",
    ),
    (
        "module t; if (a) always_comb if (b) ; else ; else ; endmodule",
        "t{if(a){comb if(b);else ;.}else{;}}",
    ),
    (
        "module t; if (a) always_comb x = 1; else ; endmodule",
        "t{if(a){comb x=1;}else{;}}",
    ),
    (
        "module t; if (a) generate if (b) ; endgenerate else ; endmodule",
        "t{if(a){generate{if(b){;}}}else{;}}",
    ),
    (
        "module t; if (a) ; else if (b) ; else if (c) ; else ; endmodule",
        "t{if(a){;}else{if(b){;}else{if(c){;}else{;}}}}",
    ),
    (
        "module t; if (a) if (b) if (c) ; else ; else ; if (d) ; endmodule",
        "t{if(a){if(b){if(c){;}else{;}}else{;}}if(d){;}}",
    ),
];

/// Statements that are read, each with its module.
const STATEMENT_TREES: [(&str, &str); 28] = [
    ("module t; always_comb begin end endmodule", "t{comb {}}"),
    (
        "module t; always_comb begin : l end : l endmodule",
        "t{comb :l{}}",
    ),
    (
        "module t; always_comb begin : l x = 1; end endmodule",
        "t{comb :l{x=1;}}",
    ),
    (
        "module t; always_comb begin ; begin x = 1; end y <= x; end endmodule",
        "t{comb {;{x=1;}y<=x;}}",
    ),
    (
        "module t; always_comb if (a) x = 1; endmodule",
        "t{comb if(a)x=1;.}",
    ),
    (
        "module t; always_comb if (a) x = 1; else x = 2; endmodule",
        "t{comb if(a)x=1;else x=2;.}",
    ),
    (
        "module t; always_comb if (a) if (b) ; else x = 1; endmodule",
        "t{comb if(a)if(b);else x=1;..}",
    ),
    (
        "module t; always_comb if (a) if (b) ; else x = 1; else x = 2; endmodule",
        "t{comb if(a)if(b);else x=1;.else x=2;.}",
    ),
    (
        "module t; always_comb if (a) begin if (b) ; end else x = 1; endmodule",
        "t{comb if(a){if(b);.}else x=1;.}",
    ),
    (
        "module t; always_comb if (a) ; else if (b) ; else if (c) ; else ; endmodule",
        "t{comb if(a);else if(b);else if(c);else ;...}",
    ),
    (
        "module t; always_comb if (a) for (int i = 0; i < 4; i++) if (b) ; else ; endmodule",
        "t{comb if(a)for(int i=0;(i < 4);i++)if(b);else ;..}",
    ),
    (
        "module t; always_comb if (a) case (b) c: if (d) ; else ; endcase else ; endmodule",
        "t{comb if(a)case(b)c,:if(d);else ;..else ;.}",
    ),
    (
        "module t; always_comb case (a) b: ; endcase endmodule",
        "t{comb case(a)b,:;.}",
    ),
    (
        "module t; always_comb case (a) 1, 2: x = 1; default: x = 2; endcase endmodule",
        "t{comb case(a)1,2,:x=1;default:x=2;.}",
    ),
    (
        "module t; always_comb case (a) default x = 1; 2'd0: ; endcase endmodule",
        "t{comb case(a)default:x=1;2'd0,:;.}",
    ),
    (
        "module t; always_comb case (a) b ? c : d: ; {e}, f[1:0]: begin end default ; endcase endmodule",
        "t{comb case(a)(b ? c : d),:;{e,},f[1:0],:{}default:;.}",
    ),
    (
        "module t; always_comb case (a) default: case (b) default: ; endcase endcase endmodule",
        "t{comb case(a)default:case(b)default:;..}",
    ),
    (
        "module t; always_comb for (int i = 0; i < 4; i++) x[i] = y; endmodule",
        "t{comb for(int i=0;(i < 4);i++)x[i]=y;}",
    ),
    (
        "module t; always_comb for (int i = 3; i; i--) begin end endmodule",
        "t{comb for(int i=3;i;i--){}}",
    ),
    (
        "module t; always_comb for (int i = 0; i < 4; i = i * 2) ; endmodule",
        "t{comb for(int i=0;(i < 4);i=(i * 2));}",
    ),
    (
        "module t; always_comb for (int i = 0; i < 4; i += 2) for (int j = i; j; j -= 1) ; endmodule",
        "t{comb for(int i=0;(i < 4);i+=2)for(int j=i;j;j-=1);}",
    ),
    ("module t; always_comb x <= 1; endmodule", "t{comb x<=1;}"),
    (
        "module t; always_comb x <= a <= b; endmodule",
        "t{comb x<=(a <= b);}",
    ),
    (
        "module t; always_comb x[3:0] = y[a +: 2]; endmodule",
        "t{comb x[3:0]=y[a+:2];}",
    ),
    (
        "module t; always_comb {a, b} <= c; endmodule",
        "t{comb {a,b,}<=c;}",
    ),
    (
        "module t; always_comb {{a[1], b[i -: 2]}, c} = {d, e}; endmodule",
        "t{comb {{a[1],b[i-:2],},c,}={d,e,};}",
    ),
    ("module t; always_comb ; ; endmodule", "t{comb ;;}"),
    (
        "module t; always_comb begin : end1 end endmodule",
        "t{comb :end1{}}",
    ),
];

/// Texts around modules and their headers, each with its refusal.
const MODULES: [(&str, &str); 96] = [
    (
        "module t #(parameter int A = 1, int unsigned B = 2, integer C, D = 4); endmodule",
        "1: Unexpected ,",
    ),
    ("a", "1: Unexpected a"),
    (";", "1: Unexpected ;"),
    ("endmodule", "1: Unexpected endmodule"),
    ("class", "1: Unsupported class"),
    ("1", "1: Unexpected 1"),
    ("/*verilator hier_block*/\nwire", "2: Unexpected wire"),
    ("module t; endmodule ;", "1: Unexpected ;"),
    (
        "module t; endmodule\n\nendmodule",
        "3: Unexpected endmodule",
    ),
    ("module t; endmodule t", "1: Unexpected t"),
    ("module t; endmodule : u", "1: Unexpected u"),
    ("module t; endmodule : ;", "1: Unexpected ;"),
    ("module t; endmodule : t : t", "1: Unexpected :"),
    (
        "module t; endmodule :\n/*verilator hier_block*/",
        "2: Unexpected",
    ),
    ("module t; endmodule import", "1: Unsupported import"),
    ("module", "1: Unexpected"),
    ("module ;", "1: Unexpected ;"),
    ("module 1", "1: Unexpected 1"),
    ("module module", "1: Unexpected module"),
    ("module inout", "1: Unsupported inout"),
    ("module t", "1: Unexpected"),
    ("module t endmodule", "1: Unexpected endmodule"),
    ("module t u", "1: Unexpected u"),
    ("module t;\n", "1: Unexpected"),
    ("module t;\n/*verilator hier_block*/\n", "2: Unexpected"),
    (
        "module t; module u; endmodule endmodule",
        "1: Unexpected module",
    ),
    ("module t;\nwire a;\nend", "3: Unexpected end"),
    ("module t #", "1: Unexpected"),
    ("module t #;", "1: Unexpected ;"),
    ("module t #(", "1: Unexpected"),
    ("module t #();", "1: Unexpected )"),
    ("module t #(A);", "1: Unexpected )"),
    ("module t #(A = );", "1: Unexpected )"),
    ("module t #(A <= 1);", "1: Unexpected <="),
    ("module t #(A = 1,);", "1: Unexpected )"),
    ("module t #(, A = 1);", "1: Unexpected ,"),
    ("module t #(A = 1 B = 2);", "1: Unexpected B"),
    ("module t #(A = 1;", "1: Unexpected ;"),
    ("module t #(A = 1", "1: Unexpected"),
    ("module t #(A = 1 === 2);", "1: Unsupported ==="),
    ("module t #(A = 1) #(B = 2);", "1: Unexpected #"),
    ("module t #(A = 1) endmodule", "1: Unexpected endmodule"),
    ("module t (input a) #(A = 1);", "1: Unexpected #"),
    ("module t #(parameter);", "1: Unexpected )"),
    (
        "module t #(parameter parameter A = 1);",
        "1: Unexpected parameter",
    ),
    (
        "module t #(int parameter A = 1);",
        "1: Unexpected parameter",
    ),
    ("module t #(wire A = 1);", "1: Unexpected wire"),
    ("module t #(genvar A = 1);", "1: Unexpected genvar"),
    ("module t #(string A = 1);", "1: Unsupported string"),
    ("module t #(int [3:0] A = 1);", "1: Unexpected ["),
    ("module t #(integer signed [3:0] A = 1);", "1: Unexpected ["),
    ("module t #(int logic A = 1);", "1: Unexpected logic"),
    ("module t #(logic A[1:0] = 1);", "1: Unexpected ["),
    (
        "module t #(signed unsigned A = 1);",
        "1: Unexpected unsigned",
    ),
    ("module t #([3:0] signed A = 1);", "1: Unexpected signed"),
    ("module t #([3] A = 1);", "1: Unexpected ]"),
    ("module t #([3:0 A = 1);", "1: Unexpected A"),
    ("module t #([:0] A = 1);", "1: Unexpected :"),
    ("module t #([3:] A = 1);", "1: Unexpected ]"),
    ("module t #([] A = 1);", "1: Unexpected ]"),
    ("module t #([3 +: 1] A = 1);", "1: Unexpected +:"),
    ("module t #([3:0][1:0] A = 1);", "1: Unexpected ["),
    ("module t #([3:0] = 1);", "1: Unexpected ="),
    ("module t #(.A(1));", "1: Unexpected ."),
    ("module t #(1);", "1: Unexpected 1"),
    ("module t(", "1: Unexpected"),
    ("module t(;", "1: Unexpected ;"),
    ("module t(a);", "1: Unexpected a"),
    ("module t(wire a);", "1: Unexpected wire"),
    ("module t(inout a);", "1: Unsupported inout"),
    ("module t(.a(b));", "1: Unexpected ."),
    ("module t(,input a);", "1: Unexpected ,"),
    ("module t(input);", "1: Unexpected )"),
    ("module t(input", "1: Unexpected"),
    ("module t(input a", "1: Unexpected"),
    ("module t(input 1);", "1: Unexpected 1"),
    ("module t(input a,);", "1: Unexpected )"),
    ("module t(input a, , b);", "1: Unexpected ,"),
    ("module t(input a b);", "1: Unexpected b"),
    ("module t(input a, wire b);", "1: Unexpected wire"),
    ("module t(input a, [1:0] b);", "1: Unexpected ["),
    ("module t(input a, inout b);", "1: Unsupported inout"),
    ("module t(input a = 1);", "1: Unexpected ="),
    ("module t(input a[1:0]);", "1: Unexpected ["),
    ("module t(input output a);", "1: Unexpected output"),
    ("module t(input wire reg a);", "1: Unexpected reg"),
    ("module t(input wire wire a);", "1: Unexpected wire"),
    ("module t(input wire logic logic a);", "1: Unexpected logic"),
    ("module t(input logic wire a);", "1: Unexpected wire"),
    ("module t(input int [1:0] a);", "1: Unexpected ["),
    ("module t(input [1:0] logic a);", "1: Unexpected logic"),
    ("module t(input parameter a);", "1: Unexpected parameter"),
    ("module t(input tri a);", "1: Unsupported tri"),
    ("module t(input a;", "1: Unexpected ;"),
    ("module t(input a) endmodule", "1: Unexpected endmodule"),
    ("module t(input a)(input b);", "1: Unexpected ("),
];

/// What is no item, parameters, declarations and assignments, each with its refusal.
const DECLARATIONS: [(&str, &str); 112] = [
    ("module t; initial ; endmodule", "1: Unsupported initial"),
    ("module t; function endmodule", "1: Unsupported function"),
    ("module t; typedef endmodule", "1: Unsupported typedef"),
    (
        "module t; always_latch endmodule",
        "1: Unsupported always_latch",
    ),
    (
        "module t; $display(a); endmodule",
        "1: Unsupported $display",
    ),
    ("module t; $clog2(a); endmodule", "1: Unexpected $clog2"),
    ("module t; === endmodule", "1: Unsupported ==="),
    ("module t; '0; endmodule", "1: Unexpected '0"),
    ("module t; else ; endmodule", "1: Unexpected else"),
    ("module t; begin end endmodule", "1: Unexpected begin"),
    (
        "module t; endgenerate endmodule",
        "1: Unexpected endgenerate",
    ),
    ("module t; endcase endmodule", "1: Unexpected endcase"),
    ("module t; default endmodule", "1: Unexpected default"),
    ("module t; input a; endmodule", "1: Unexpected input"),
    ("module t; posedge endmodule", "1: Unexpected posedge"),
    (
        "module t; case (a) b: ; endcase endmodule",
        "1: Unexpected case",
    ),
    ("module t; signed a; endmodule", "1: Unexpected signed"),
    ("module t; [3:0] a; endmodule", "1: Unexpected ["),
    ("module t; {a} = b; endmodule", "1: Unexpected {"),
    ("module t; a = b; endmodule", "1: Unexpected ="),
    ("module t; a <= b; endmodule", "1: Unexpected <="),
    ("module t; parameter; endmodule", "1: Unexpected ;"),
    ("module t; parameter A; endmodule", "1: Unexpected ;"),
    ("module t; parameter A = ; endmodule", "1: Unexpected ;"),
    ("module t; parameter A == 1; endmodule", "1: Unexpected =="),
    (
        "module t; parameter A = 1 endmodule",
        "1: Unexpected endmodule",
    ),
    ("module t; parameter A = 1, ; endmodule", "1: Unexpected ;"),
    (
        "module t; parameter A = 1 B = 2; endmodule",
        "1: Unexpected B",
    ),
    ("module t; parameter A = 1, B; endmodule", "1: Unexpected ;"),
    (
        "module t; parameter A = 1, int B = 2; endmodule",
        "1: Unexpected int",
    ),
    (
        "module t; parameter A = 1, parameter B = 2; endmodule",
        "1: Unexpected parameter",
    ),
    (
        "module t; parameter localparam A = 1; endmodule",
        "1: Unexpected localparam",
    ),
    (
        "module t; parameter int [1:0] A = 1; endmodule",
        "1: Unexpected [",
    ),
    (
        "module t; localparam wire A = 1; endmodule",
        "1: Unexpected wire",
    ),
    ("module t; localparam 1 = A; endmodule", "1: Unexpected 1"),
    (
        "module t; localparam A[1:0] = 1; endmodule",
        "1: Unexpected [",
    ),
    (
        "module t; localparam real A = 1; endmodule",
        "1: Unsupported real",
    ),
    ("module t; parameter A =", "1: Unexpected"),
    ("module t; wire; endmodule", "1: Unexpected ;"),
    ("module t; wire a endmodule", "1: Unexpected endmodule"),
    ("module t; wire a b; endmodule", "1: Unexpected b"),
    ("module t; wire a,; endmodule", "1: Unexpected ;"),
    ("module t; wire a, wire b; endmodule", "1: Unexpected wire"),
    ("module t; wire a =; endmodule", "1: Unexpected ;"),
    ("module t; wire a = 1 b; endmodule", "1: Unexpected b"),
    (
        "module t; wire a = 1 === 2; endmodule",
        "1: Unsupported ===",
    ),
    (
        "module t; wire a = $time; endmodule",
        "1: Unsupported $time",
    ),
    ("module t; wire reg a; endmodule", "1: Unexpected reg"),
    ("module t; wire logic reg a; endmodule", "1: Unexpected reg"),
    ("module t; wire int a; endmodule", "1: Unexpected int"),
    ("module t; logic wire a; endmodule", "1: Unexpected wire"),
    ("module t; logic logic a; endmodule", "1: Unexpected logic"),
    ("module t; int [3:0] a; endmodule", "1: Unexpected ["),
    (
        "module t; int unsigned signed a; endmodule",
        "1: Unexpected signed",
    ),
    ("module t; logic a[3:0]; endmodule", "1: Unexpected ["),
    (
        "module t; logic [3:0] [1:0] a; endmodule",
        "1: Unexpected [",
    ),
    (
        "module t; logic [3:0] signed a; endmodule",
        "1: Unexpected signed",
    ),
    ("module t; logic [3] a; endmodule", "1: Unexpected ]"),
    ("module t; logic [3:0; endmodule", "1: Unexpected ;"),
    ("module t; logic [3:0:1] a; endmodule", "1: Unexpected :"),
    ("module t; logic 1; endmodule", "1: Unexpected 1"),
    ("module t; logic end; endmodule", "1: Unexpected end"),
    ("module t; logic var; endmodule", "1: Unsupported var"),
    ("module t; logic a += 1; endmodule", "1: Unexpected +="),
    ("module t; logic [3:", "1: Unexpected"),
    ("module t;\nlogic a", "2: Unexpected"),
    ("module t; genvar; endmodule", "1: Unexpected ;"),
    ("module t; genvar int i; endmodule", "1: Unexpected int"),
    ("module t; genvar i = 0; endmodule", "1: Unexpected ="),
    ("module t; genvar i,; endmodule", "1: Unexpected ;"),
    ("module t; genvar i j; endmodule", "1: Unexpected j"),
    ("module t; genvar", "1: Unexpected"),
    ("module t; assign; endmodule", "1: Unexpected ;"),
    ("module t; assign y; endmodule", "1: Unexpected ;"),
    ("module t; assign y = ; endmodule", "1: Unexpected ;"),
    ("module t; assign y <= a; endmodule", "1: Unexpected <="),
    ("module t; assign y += a; endmodule", "1: Unexpected +="),
    (
        "module t; assign y = a endmodule",
        "1: Unexpected endmodule",
    ),
    ("module t; assign y = a, ; endmodule", "1: Unexpected ;"),
    ("module t; assign y = a, b; endmodule", "1: Unexpected ;"),
    ("module t; assign y = a b; endmodule", "1: Unexpected b"),
    ("module t; assign y = a = b; endmodule", "1: Unexpected ="),
    (
        "module t; assign y = a !== b; endmodule",
        "1: Unsupported !==",
    ),
    ("module t; assign y = 1 2; endmodule", "1: Unexpected 2"),
    ("module t; assign y = a[1][2]; endmodule", "1: Unexpected ["),
    ("module t; assign y = (a]; endmodule", "1: Unexpected ]"),
    ("module t; assign y[1][2] = a; endmodule", "1: Unexpected ["),
    ("module t; assign y[] = a; endmodule", "1: Unexpected ]"),
    (
        "module t; assign y[1:2:3] = a; endmodule",
        "1: Unexpected :",
    ),
    (
        "module t; assign y[1 +: 2 -: 3] = a; endmodule",
        "1: Unexpected -:",
    ),
    ("module t; assign y[1 = a; endmodule", "1: Unexpected ="),
    ("module t; assign y[1) = a; endmodule", "1: Unexpected )"),
    ("module t; assign {} = a; endmodule", "1: Unexpected }"),
    ("module t; assign {a,} = b; endmodule", "1: Unexpected }"),
    ("module t; assign {a b} = c; endmodule", "1: Unexpected b"),
    ("module t; assign {a = b; endmodule", "1: Unexpected ="),
    ("module t; assign {a; endmodule", "1: Unexpected ;"),
    (
        "module t; assign {a, b}[1] = c; endmodule",
        "1: Unexpected [",
    ),
    (
        "module t; assign {a, b}, c = d; endmodule",
        "1: Unexpected ,",
    ),
    ("module t; assign {2{a}} = b; endmodule", "1: Unexpected 2"),
    ("module t; assign {n{a}} = b; endmodule", "1: Unexpected {"),
    ("module t; assign {a + b} = c; endmodule", "1: Unexpected +"),
    (
        "module t; assign {a[1][0]} = b; endmodule",
        "1: Unexpected [",
    ),
    ("module t; assign {a, ; endmodule", "1: Unexpected ;"),
    ("module t; assign (a) = b; endmodule", "1: Unexpected ("),
    ("module t; assign 1 = a; endmodule", "1: Unexpected 1"),
    ("module t; assign a.b = c; endmodule", "1: Unexpected ."),
    ("module t; assign #1 a = b; endmodule", "1: Unexpected #"),
    ("module t; assign wire = a; endmodule", "1: Unexpected wire"),
    (
        "module t; assign force = a; endmodule",
        "1: Unsupported force",
    ),
    ("module t; assign {a,", "1: Unexpected"),
    ("module t; assign y = a +", "1: Unexpected"),
];

/// Processes and instances, each with its refusal.
const PROCESSES: [(&str, &str); 83] = [
    ("module t; always_comb endmodule", "1: Unexpected endmodule"),
    ("module t; always_comb @(*) ; endmodule", "1: Unexpected @"),
    ("module t; always ; endmodule", "1: Unexpected ;"),
    (
        "module t; always begin end endmodule",
        "1: Unexpected begin",
    ),
    ("module t; always #1 x = 1; endmodule", "1: Unexpected #"),
    ("module t; always @; endmodule", "1: Unexpected ;"),
    ("module t; always @x ; endmodule", "1: Unexpected x"),
    (
        "module t; always @posedge clk ; endmodule",
        "1: Unexpected posedge",
    ),
    ("module t; always @(; endmodule", "1: Unexpected ;"),
    ("module t; always @() ; endmodule", "1: Unexpected )"),
    ("module t; always @(a) ; endmodule", "1: Unexpected a"),
    ("module t; always @(**) ; endmodule", "1: Unexpected **"),
    ("module t; always @(* ; endmodule", "1: Unexpected ;"),
    ("module t; always @(*, a) ; endmodule", "1: Unexpected ,"),
    ("module t; always @* endmodule", "1: Unexpected endmodule"),
    ("module t; always @(posedge) ; endmodule", "1: Unexpected )"),
    (
        "module t; always @(posedge 1) ; endmodule",
        "1: Unexpected 1",
    ),
    (
        "module t; always @(posedge (clk)) ; endmodule",
        "1: Unexpected (",
    ),
    (
        "module t; always @(posedge clk ; endmodule",
        "1: Unexpected ;",
    ),
    (
        "module t; always @(posedge clk[0]) ; endmodule",
        "1: Unexpected [",
    ),
    (
        "module t; always @(posedge clk, negedge rst) ; endmodule",
        "1: Unexpected ,",
    ),
    (
        "module t; always @(posedge clk or negedge rst) ; endmodule",
        "1: Unsupported or",
    ),
    (
        "module t; always @(posedge negedge clk) ; endmodule",
        "1: Unexpected negedge",
    ),
    ("module t; always_ff ; endmodule", "1: Unexpected ;"),
    ("module t; always_ff @(*) ; endmodule", "1: Unexpected *"),
    ("module t; always_ff @* ; endmodule", "1: Unexpected *"),
    ("module t; always_ff @clk ; endmodule", "1: Unexpected clk"),
    (
        "module t; always_ff (posedge clk) ; endmodule",
        "1: Unexpected (",
    ),
    (
        "module t; always_ff @(edge clk) ; endmodule",
        "1: Unexpected edge",
    ),
    (
        "module t; always_ff @(posedge clk iff a) ; endmodule",
        "1: Unsupported iff",
    ),
    (
        "module t; always_ff @(posedge clk) endmodule",
        "1: Unexpected endmodule",
    ),
    (
        "module t; always_ff @(posedge clk) always_comb ; endmodule",
        "1: Unexpected always_comb",
    ),
    ("module t; always_ff @(posedge", "1: Unexpected"),
    ("module t; always_comb", "1: Unexpected"),
    ("module t; always @(*", "1: Unexpected"),
    ("module t; u; endmodule", "1: Unexpected ;"),
    ("module t; u x; endmodule", "1: Unexpected ;"),
    ("module t; u (a); endmodule", "1: Unexpected ("),
    ("module t; u v x(); endmodule", "1: Unexpected x"),
    ("module t; u wire(); endmodule", "1: Unexpected wire"),
    ("module t; u x[3:0](a); endmodule", "1: Unexpected ["),
    ("module t; u x(); y(); endmodule", "1: Unexpected ("),
    ("module t; u x() y(); endmodule", "1: Unexpected y"),
    ("module t; u x(),; endmodule", "1: Unexpected ;"),
    ("module t; u x(), y; endmodule", "1: Unexpected ;"),
    ("module t; u x() endmodule", "1: Unexpected endmodule"),
    ("module t; u x() = 1; endmodule", "1: Unexpected ="),
    ("module t; u x(a)(b); endmodule", "1: Unexpected ("),
    ("module t; u x(,); endmodule", "1: Unexpected ,"),
    ("module t; u x(a,); endmodule", "1: Unexpected )"),
    ("module t; u x(a,, b); endmodule", "1: Unexpected ,"),
    ("module t; u x(a b); endmodule", "1: Unexpected b"),
    ("module t; u x(a; endmodule", "1: Unexpected ;"),
    ("module t; u x(a === b); endmodule", "1: Unsupported ==="),
    ("module t; u x(.a(b), c); endmodule", "1: Unexpected c"),
    ("module t; u x(a, .b(c)); endmodule", "1: Unexpected ."),
    ("module t; u x(.); endmodule", "1: Unexpected )"),
    ("module t; u x(.a(b),); endmodule", "1: Unexpected )"),
    ("module t; u x(.a(b) .c(d)); endmodule", "1: Unexpected ."),
    ("module t; u x(.a b); endmodule", "1: Unexpected b"),
    ("module t; u x(.a = b); endmodule", "1: Unexpected ="),
    ("module t; u x(.a(b, c)); endmodule", "1: Unexpected ,"),
    ("module t; u x(.a(b c)); endmodule", "1: Unexpected c"),
    ("module t; u x(.a(b; endmodule", "1: Unexpected ;"),
    ("module t; u x(.a(b); endmodule", "1: Unexpected ;"),
    ("module t; u x(.a[1](b)); endmodule", "1: Unexpected ["),
    ("module t; u x(.1(a)); endmodule", "1: Unexpected 1"),
    ("module t; u x(.*); endmodule", "1: Unexpected *"),
    ("module t; u x(.wire(a)); endmodule", "1: Unexpected wire"),
    ("module t; u #1 x(); endmodule", "1: Unexpected 1"),
    ("module t; u # x(); endmodule", "1: Unexpected x"),
    ("module t; u #(1,) x(); endmodule", "1: Unexpected )"),
    ("module t; u #(.A(1), 2) x(); endmodule", "1: Unexpected 2"),
    ("module t; u #(1, .A(2)) x(); endmodule", "1: Unexpected ."),
    ("module t; u #(int) x(); endmodule", "1: Unexpected int"),
    ("module t; u #(1) #(2) x(); endmodule", "1: Unexpected #"),
    ("module t; u #(1); endmodule", "1: Unexpected ;"),
    ("module t; u #(1) (); endmodule", "1: Unexpected ("),
    ("module t; u x #(1) (); endmodule", "1: Unexpected #"),
    ("module t; u", "1: Unexpected"),
    ("module t; u x(", "1: Unexpected"),
    ("module t; u x(.a(", "1: Unexpected"),
    ("module t; u #(.A", "1: Unexpected"),
];

/// Blocks, loops and conditions outside processes, each with its refusal.
const GENERATES: [(&str, &str); 64] = [
    ("module t; generate", "1: Unexpected"),
    ("module t; generate endmodule", "1: Unexpected endmodule"),
    ("module t; generate end endmodule", "1: Unexpected end"),
    (
        "module t; generate begin end endgenerate endmodule",
        "1: Unexpected begin",
    ),
    (
        "module t; generate : g endgenerate endmodule",
        "1: Unexpected :",
    ),
    (
        "module t; generate endgenerate : g endmodule",
        "1: Unexpected :",
    ),
    (
        "module t; generate endgenerate endgenerate endmodule",
        "1: Unexpected endgenerate",
    ),
    ("module t; for ; endmodule", "1: Unexpected ;"),
    ("module t; for (; endmodule", "1: Unexpected ;"),
    ("module t; for () ; endmodule", "1: Unexpected )"),
    (
        "module t; for (int i = 0; i < 4; i++) ; endmodule",
        "1: Unexpected int",
    ),
    ("module t; for (genvar = 0; endmodule", "1: Unexpected ="),
    (
        "module t; for (genvar genvar endmodule",
        "1: Unexpected genvar",
    ),
    ("module t; for (genvar i; endmodule", "1: Unexpected ;"),
    ("module t; for (i <= 0; endmodule", "1: Unexpected <="),
    ("module t; for (genvar i = ; endmodule", "1: Unexpected ;"),
    (
        "module t; for (genvar i = 0, j = 0; endmodule",
        "1: Unexpected ,",
    ),
    (
        "module t; for (genvar i = 0; ; i++) ; endmodule",
        "1: Unexpected ;",
    ),
    (
        "module t; for (genvar i = 0; i < 4) ; endmodule",
        "1: Unexpected )",
    ),
    (
        "module t; for (genvar i = 0; i < 4;) ; endmodule",
        "1: Unexpected )",
    ),
    (
        "module t; for (genvar i = 0; i < 4; j++) ; endmodule",
        "1: Unexpected j",
    ),
    (
        "module t; for (genvar i = 0; i < 4; i) ; endmodule",
        "1: Unexpected )",
    ),
    (
        "module t; for (genvar i = 0; i < 4; i <= 1) ; endmodule",
        "1: Unexpected <=",
    ),
    (
        "module t; for (genvar i = 0; i < 4; i *= 2) ; endmodule",
        "1: Unexpected *",
    ),
    (
        "module t; for (genvar i = 0; i < 4; i += ) ; endmodule",
        "1: Unexpected )",
    ),
    (
        "module t; for (genvar i = 0; i < 4; i =) ; endmodule",
        "1: Unexpected )",
    ),
    (
        "module t; for (genvar i = 0; i < 4; ++i) ; endmodule",
        "1: Unexpected ++",
    ),
    (
        "module t; for (genvar i = 0; i < 4; i++ 1) ; endmodule",
        "1: Unexpected 1",
    ),
    (
        "module t; for (genvar i = 0; i < 4; i++; endmodule",
        "1: Unexpected ;",
    ),
    (
        "module t; for (genvar i = 0; i < 4; i++, j++) ; endmodule",
        "1: Unexpected ,",
    ),
    (
        "module t; for (genvar i = 0; i < 4; i[0] = 1) ; endmodule",
        "1: Unexpected [",
    ),
    (
        "module t; for (genvar i = 0; i < 4; i++) endmodule",
        "1: Unexpected endmodule",
    ),
    (
        "module t; for (genvar i = 0; i < 4; i++) x = 1; endmodule",
        "1: Unexpected =",
    ),
    (
        "module t; for (genvar i = 0; i < 4; i++) begin end : g endmodule",
        "1: Unexpected :",
    ),
    (
        "module t; for (genvar i = 0; i < 4; i++) begin : g end : h endmodule",
        "1: Unexpected h",
    ),
    (
        "module t; for (genvar i = 0; i < 4; i++) begin : g end : ; endmodule",
        "1: Unexpected ;",
    ),
    (
        "module t; for (genvar i = 0; i < 4; i++) begin : end endmodule",
        "1: Unexpected end",
    ),
    (
        "module t; for (genvar i = 0; i < 4; i++) begin : 1 endmodule",
        "1: Unexpected 1",
    ),
    (
        "module t; for (genvar i = 0; i < 4; i++) begin : g : h endmodule",
        "1: Unexpected :",
    ),
    (
        "module t; for (genvar i = 0; i < 4; i++) begin wire a; endmodule",
        "1: Unexpected endmodule",
    ),
    (
        "module t; for (genvar i = 0; i < 4; i++) begin begin end end endmodule",
        "1: Unexpected begin",
    ),
    (
        "module t; for (genvar i = 0; i < 4; i++) begin end end endmodule",
        "1: Unexpected end",
    ),
    ("module t; for (", "1: Unexpected"),
    ("module t; for (i = 0; i; i", "1: Unexpected"),
    ("module t; for (i = 0; i; i++) begin", "1: Unexpected"),
    (
        "module t; for (i = 0; i; i++) begin : g end :",
        "1: Unexpected",
    ),
    ("module t; if ; endmodule", "1: Unexpected ;"),
    ("module t; if a ; endmodule", "1: Unexpected a"),
    ("module t; if () ; endmodule", "1: Unexpected )"),
    ("module t; if (a ; endmodule", "1: Unexpected ;"),
    ("module t; if (a = b) ; endmodule", "1: Unexpected ="),
    ("module t; if (a) endmodule", "1: Unexpected endmodule"),
    ("module t; if (a) else ; endmodule", "1: Unexpected else"),
    (
        "module t; if (a) ; else endmodule",
        "1: Unexpected endmodule",
    ),
    (
        "module t; if (a) ; else ; else ; endmodule",
        "1: Unexpected else",
    ),
    (
        "module t; if (a) ; ; else ; endmodule",
        "1: Unexpected else",
    ),
    (
        "module t; if (a) begin end; else ; endmodule",
        "1: Unexpected else",
    ),
    (
        "module t; if (a) begin else ; endmodule",
        "1: Unexpected else",
    ),
    (
        "module t; if (a) if (b) ; else ; else ; else ; endmodule",
        "1: Unexpected else",
    ),
    (
        "module t; if (a) always_comb if (b) ; else ; else ; else ; endmodule",
        "1: Unexpected else",
    ),
    (
        "module t; if (a) begin : g end : h endmodule",
        "1: Unexpected h",
    ),
    (
        "module t; if (a) begin : g end else begin : h end : g endmodule",
        "1: Unexpected g",
    ),
    ("module t; if (a", "1: Unexpected"),
    ("module t; if (a) ; else", "1: Unexpected"),
];

/// Statements, each with its refusal.
const STATEMENTS: [(&str, &str); 116] = [
    (
        "module t; always_comb case (a) default: endcase endmodule",
        "1: Unexpected endcase",
    ),
    ("module t; always_comb end endmodule", "1: Unexpected end"),
    (
        "module t; always_comb wire a; endmodule",
        "1: Unexpected wire",
    ),
    (
        "module t; always_comb int i; endmodule",
        "1: Unexpected int",
    ),
    (
        "module t; always_comb assign x = 1; endmodule",
        "1: Unexpected assign",
    ),
    (
        "module t; always_comb initial x = 1; endmodule",
        "1: Unsupported initial",
    ),
    (
        "module t; always_comb while (a) ; endmodule",
        "1: Unsupported while",
    ),
    (
        "module t; always_comb unique case (a) b: ; endcase endmodule",
        "1: Unsupported unique",
    ),
    (
        "module t; always_comb $display(a); endmodule",
        "1: Unsupported $display",
    ),
    (
        "module t; always_comb else ; endmodule",
        "1: Unexpected else",
    ),
    (
        "module t; always_comb endcase endmodule",
        "1: Unexpected endcase",
    ),
    (
        "module t; always_comb default: ; endmodule",
        "1: Unexpected default",
    ),
    ("module t; always_comb x; endmodule", "1: Unexpected ;"),
    ("module t; always_comb x(1); endmodule", "1: Unexpected ("),
    ("module t; always_comb x = ; endmodule", "1: Unexpected ;"),
    (
        "module t; always_comb x = 1 endmodule",
        "1: Unexpected endmodule",
    ),
    (
        "module t; always_comb x = 1, y = 2; endmodule",
        "1: Unexpected ,",
    ),
    (
        "module t; always_comb x == 1; endmodule",
        "1: Unexpected ==",
    ),
    (
        "module t; always_comb x === 1; endmodule",
        "1: Unsupported ===",
    ),
    (
        "module t; always_comb x += 1; endmodule",
        "1: Unexpected +=",
    ),
    ("module t; always_comb x++; endmodule", "1: Unexpected ++"),
    ("module t; always_comb ++x; endmodule", "1: Unexpected ++"),
    (
        "module t; always_comb x = #1 y; endmodule",
        "1: Unexpected #",
    ),
    (
        "module t; always_comb x = y = z; endmodule",
        "1: Unexpected =",
    ),
    (
        "module t; always_comb x <= y === z; endmodule",
        "1: Unsupported ===",
    ),
    (
        "module t; always_comb x[1][2] = 1; endmodule",
        "1: Unexpected [",
    ),
    (
        "module t; always_comb x.y = 1; endmodule",
        "1: Unexpected .",
    ),
    ("module t; always_comb 1 = x; endmodule", "1: Unexpected 1"),
    (
        "module t; always_comb (x) = 1; endmodule",
        "1: Unexpected (",
    ),
    ("module t; always_comb {x, y}; endmodule", "1: Unexpected ;"),
    ("module t; always_comb {} = x; endmodule", "1: Unexpected }"),
    (
        "module t; always_comb {x, 1} = y; endmodule",
        "1: Unexpected 1",
    ),
    ("module t; always_comb x", "1: Unexpected"),
    ("module t; always_comb x[", "1: Unexpected"),
    ("module t; always_comb x =", "1: Unexpected"),
    ("module t; always_comb x = 1", "1: Unexpected"),
    ("module t; always_comb x = 1;", "1: Unexpected"),
    ("module t; always_comb {", "1: Unexpected"),
    (
        "module t; always_comb begin endmodule",
        "1: Unexpected endmodule",
    ),
    (
        "module t; always_comb begin end : l endmodule",
        "1: Unexpected :",
    ),
    (
        "module t; always_comb begin : l end : m endmodule",
        "1: Unexpected m",
    ),
    (
        "module t; always_comb begin : l end : ; endmodule",
        "1: Unexpected ;",
    ),
    (
        "module t; always_comb begin : l end l endmodule",
        "1: Unexpected endmodule",
    ),
    (
        "module t; always_comb begin : end endmodule",
        "1: Unexpected end",
    ),
    (
        "module t; always_comb begin : l : m end endmodule",
        "1: Unexpected :",
    ),
    (
        "module t; always_comb begin l end endmodule",
        "1: Unexpected end",
    ),
    (
        "module t; always_comb begin int i; end endmodule",
        "1: Unexpected int",
    ),
    (
        "module t; always_comb begin x = 1 end endmodule",
        "1: Unexpected end",
    ),
    (
        "module t; always_comb begin else end endmodule",
        "1: Unexpected else",
    ),
    (
        "module t; always_comb begin end end endmodule",
        "1: Unexpected end",
    ),
    (
        "module t; always_comb begin : l begin : m end : l end endmodule",
        "1: Unexpected l",
    ),
    ("module t; always_comb begin", "1: Unexpected"),
    ("module t; always_comb begin :", "1: Unexpected"),
    ("module t; always_comb begin : l end :", "1: Unexpected"),
    ("module t; always_comb if a ; endmodule", "1: Unexpected a"),
    ("module t; always_comb if () ; endmodule", "1: Unexpected )"),
    ("module t; always_comb if (a; endmodule", "1: Unexpected ;"),
    (
        "module t; always_comb if (a, b) ; endmodule",
        "1: Unexpected ,",
    ),
    (
        "module t; always_comb if (a) endmodule",
        "1: Unexpected endmodule",
    ),
    (
        "module t; always_comb if (a) else ; endmodule",
        "1: Unexpected else",
    ),
    (
        "module t; always_comb if (a) ; else endmodule",
        "1: Unexpected endmodule",
    ),
    (
        "module t; always_comb if (a) ; else ; else ; endmodule",
        "1: Unexpected else",
    ),
    (
        "module t; always_comb if (a) begin end; else ; endmodule",
        "1: Unexpected else",
    ),
    (
        "module t; always_comb if (a) begin if (b) ; end else ; else ; endmodule",
        "1: Unexpected else",
    ),
    ("module t; always_comb if", "1: Unexpected"),
    ("module t; always_comb if (", "1: Unexpected"),
    ("module t; always_comb if (a)", "1: Unexpected"),
    ("module t; always_comb if (a) ; else", "1: Unexpected"),
    (
        "module t; always_comb casez (a) b: ; endcase endmodule",
        "1: Unsupported casez",
    ),
    ("module t; always_comb case a endmodule", "1: Unexpected a"),
    ("module t; always_comb case () endmodule", "1: Unexpected )"),
    (
        "module t; always_comb case (a b) endmodule",
        "1: Unexpected b",
    ),
    (
        "module t; always_comb case (a) endcase endmodule",
        "1: Unexpected endcase",
    ),
    (
        "module t; always_comb case (a) inside b: ; endcase endmodule",
        "1: Unsupported inside",
    ),
    (
        "module t; always_comb case (a) b ; endmodule",
        "1: Unexpected ;",
    ),
    (
        "module t; always_comb case (a) b: endcase endmodule",
        "1: Unexpected endcase",
    ),
    (
        "module t; always_comb case (a) b, : ; endmodule",
        "1: Unexpected :",
    ),
    (
        "module t; always_comb case (a) b c: ; endmodule",
        "1: Unexpected c",
    ),
    (
        "module t; always_comb case (a) : ; endmodule",
        "1: Unexpected :",
    ),
    (
        "module t; always_comb case (a) b: : ; endmodule",
        "1: Unexpected :",
    ),
    (
        "module t; always_comb case (a) b: ; ; endcase endmodule",
        "1: Unexpected ;",
    ),
    (
        "module t; always_comb case (a) b: ; end endmodule",
        "1: Unexpected end",
    ),
    (
        "module t; always_comb case (a) b: ; endmodule",
        "1: Unexpected endmodule",
    ),
    (
        "module t; always_comb case (a) b ? c : ; endmodule",
        "1: Unexpected ;",
    ),
    (
        "module t; always_comb case (a) b, default: ; endmodule",
        "1: Unexpected default",
    ),
    (
        "module t; always_comb case (a) default, b: ; endmodule",
        "1: Unexpected ,",
    ),
    (
        "module t; always_comb case (a) default : : ; endmodule",
        "1: Unexpected :",
    ),
    (
        "module t; always_comb case (a) default: ; default: ; endcase endmodule",
        "1: Unexpected default",
    ),
    (
        "module t; always_comb case (a) b: ; default x = 1; c: ;\ndefault ; endcase endmodule",
        "2: Unexpected default",
    ),
    (
        "module t; always_comb case (a) default: case (b) default: ; endcase\ndefault: ; endcase endmodule",
        "2: Unexpected default",
    ),
    (
        "module t; always_comb case (a) b: ; endcase endcase endmodule",
        "1: Unexpected endcase",
    ),
    (
        "module t; always_comb case (a) b: ; endcase : l endmodule",
        "1: Unexpected :",
    ),
    ("module t; always_comb case", "1: Unexpected"),
    ("module t; always_comb case (a)", "1: Unexpected"),
    ("module t; always_comb case (a) b", "1: Unexpected"),
    ("module t; always_comb case (a) b:", "1: Unexpected"),
    ("module t; always_comb case (a) b: ;", "1: Unexpected"),
    ("module t; always_comb case (a) default", "1: Unexpected"),
    (
        "module t; always_comb for (i = 0; i < 4; i++) ; endmodule",
        "1: Unexpected i",
    ),
    (
        "module t; always_comb for (genvar i = 0; i < 4; i++) ; endmodule",
        "1: Unexpected genvar",
    ),
    (
        "module t; always_comb for (integer i = 0; i < 4; i++) ; endmodule",
        "1: Unexpected integer",
    ),
    (
        "module t; always_comb for (int unsigned i = 0; i < 4; i++) ; endmodule",
        "1: Unexpected unsigned",
    ),
    (
        "module t; always_comb for int endmodule",
        "1: Unexpected int",
    ),
    (
        "module t; always_comb for (int = 0; endmodule",
        "1: Unexpected =",
    ),
    (
        "module t; always_comb for (int i; endmodule",
        "1: Unexpected ;",
    ),
    (
        "module t; always_comb for (int i <= 0; endmodule",
        "1: Unexpected <=",
    ),
    (
        "module t; always_comb for (int i = 0; i < 4; j++) ; endmodule",
        "1: Unexpected j",
    ),
    (
        "module t; always_comb for (int i = 0; i < 4;) ; endmodule",
        "1: Unexpected )",
    ),
    (
        "module t; always_comb for (int i = 0; i < 4; i++, i++) ; endmodule",
        "1: Unexpected ,",
    ),
    (
        "module t; always_comb for (int i = 0; i < 4; i++) endmodule",
        "1: Unexpected endmodule",
    ),
    (
        "module t; always_comb for (int i = 0; i < 4; i++) int j; endmodule",
        "1: Unexpected int",
    ),
    (
        "module t; always_comb for (int i = 0; i < 4; i -= ) ; endmodule",
        "1: Unexpected )",
    ),
    ("module t; always_comb for (int i =", "1: Unexpected"),
    ("module t; always_comb for (int i = 0; i;", "1: Unexpected"),
    (
        "module t; always_comb for (int i = 0; i; i++)",
        "1: Unexpected",
    ),
    (
        "module t;\nalways_comb begin\nx = 1;\n/*verilator hier_block*/\n// the end",
        "4: Unexpected",
    ),
];

/// A text that is made, and what it is made with.
#[derive(Drop)]
struct Out {
    alloc: Global,
    text: Vec<u8>,
}

fn put(out: &mut Out, text: &str) -> Result<(), AllocError> {
    out.text.extend_from_slice(text.as_bytes())
}

fn put_line(out: &mut Out, place: Place) -> Result<(), AllocError> {
    let line = place.line;
    if line == 1 {
        return Ok(());
    }
    let line = format!(in out.alloc; "<{line}>")?;
    put(out, line.as_str())
}

fn put_id(out: &mut Out, id: &Id) -> Result<(), AllocError> {
    out.text.extend_from_slice(id.name.bytes())?;
    put_line(out, id.place)
}

/// A word, and what stands before the next.
fn put_word(out: &mut Out, word: Option<&Id>) -> Result<(), AllocError> {
    match word {
        Some(word) => {
            put_id(out, word)?;
            put(out, " ")
        }
        None => Ok(()),
    }
}

/// What opens at a place: a word or a bracket.
fn put_open(out: &mut Out, text: &str, place: Place) -> Result<(), AllocError> {
    put(out, text)?;
    put_line(out, place)
}

#[cycle(show)]
fn show_select(out: &mut Out, select: &Sel) -> Result<(), AllocError> {
    match select {
        Sel::Bit(place, at) => {
            put_open(out, "[", *place)?;
            show(out, at.get())?;
        }
        Sel::Part(place, high, low) => {
            put_open(out, "[", *place)?;
            show(out, high.get())?;
            put(out, ":")?;
            show(out, low.get())?;
        }
        Sel::Up(place, at, width) => {
            put_open(out, "[", *place)?;
            show(out, at.get())?;
            put(out, "+:")?;
            show(out, width.get())?;
        }
        Sel::Down(place, at, width) => {
            put_open(out, "[", *place)?;
            show(out, at.get())?;
            put(out, "-:")?;
            show(out, width.get())?;
        }
    }
    put(out, "]")
}

#[cycle(show)]
fn show_list(out: &mut Out, trees: &[Expr]) -> Result<(), AllocError> {
    for tree in trees {
        show(out, tree)?;
        put(out, ",")?;
    }
    Ok(())
}

#[cycle(show)]
fn show(out: &mut Out, tree: &Expr) -> Result<(), AllocError> {
    match tree {
        Expr::Number(id) | Expr::Fill(id) => put_id(out, id),
        Expr::Read(id, selects) => {
            put_id(out, id)?;
            for select in selects.as_slice() {
                show_select(out, select)?;
            }
            Ok(())
        }
        Expr::Unary(sign, operand) => {
            put(out, "(")?;
            put_id(out, sign)?;
            put(out, " ")?;
            show(out, operand.get())?;
            put(out, ")")
        }
        Expr::Binary(sign, left, right) => {
            put(out, "(")?;
            show(out, left.get())?;
            put(out, " ")?;
            put_id(out, sign)?;
            put(out, " ")?;
            show(out, right.get())?;
            put(out, ")")
        }
        Expr::Choice(sign, test, first, second) => {
            put(out, "(")?;
            show(out, test.get())?;
            put(out, " ")?;
            put_id(out, sign)?;
            put(out, " ")?;
            show(out, first.get())?;
            put(out, " : ")?;
            show(out, second.get())?;
            put(out, ")")
        }
        Expr::Concat(place, parts) => {
            put_open(out, "{", *place)?;
            show_list(out, parts.as_slice())?;
            put(out, "}")
        }
        Expr::Repeat(place, count, parts) => {
            put_open(out, "{", *place)?;
            show(out, count.get())?;
            put(out, "{")?;
            show_list(out, parts.as_slice())?;
            put(out, "}}")
        }
        Expr::System(function, argument) => {
            put_id(out, function)?;
            put(out, "(")?;
            show(out, argument.get())?;
            put(out, ")")
        }
    }
}

#[cycle(target)]
fn show_target(out: &mut Out, target: &Lval) -> Result<(), AllocError> {
    match target {
        Lval::Of(id, selects) => {
            put_id(out, id)?;
            for select in selects.as_slice() {
                show_select(out, select)?;
            }
            Ok(())
        }
        Lval::List(place, parts) => {
            put_open(out, "{", *place)?;
            for part in parts.as_slice() {
                show_target(out, part)?;
                put(out, ",")?;
            }
            put(out, "}")
        }
    }
}

fn show_label(out: &mut Out, label: &Option<Id>) -> Result<(), AllocError> {
    match label {
        Some(label) => {
            put(out, ":")?;
            put_id(out, label)
        }
        None => Ok(()),
    }
}

fn show_loop(out: &mut Out, header: &Loop) -> Result<(), AllocError> {
    put_id(out, &header.name)?;
    put(out, "=")?;
    show(out, &header.first)?;
    put(out, ";")?;
    show(out, &header.test)?;
    put(out, ";")?;
    put_id(out, &header.step.name)?;
    put_id(out, &header.step.sign)?;
    if let Some(value) = &header.step.value {
        show(out, value)?;
    }
    Ok(())
}

#[cycle(statement)]
fn show_case_item(out: &mut Out, item: &CaseItem) -> Result<(), AllocError> {
    if item.labels.is_empty() {
        put(out, "default")?;
    }
    show_list(out, item.labels.as_slice())?;
    put(out, ":")?;
    show_statement(out, &item.body)
}

#[cycle(statement)]
fn show_statement(out: &mut Out, statement: &Stmt) -> Result<(), AllocError> {
    match statement {
        Stmt::Block(label, parts) => {
            show_label(out, label)?;
            put(out, "{")?;
            for part in parts.as_slice() {
                show_statement(out, part)?;
            }
            put(out, "}")
        }
        Stmt::If(place, test, first, second) => {
            put_open(out, "if", *place)?;
            show_test(out, test)?;
            show_statement(out, first.get())?;
            if let Some(second) = second {
                put(out, "else ")?;
                show_statement(out, second.get())?;
            }
            put(out, ".")
        }
        Stmt::Case(place, test, parts) => {
            put_open(out, "case", *place)?;
            show_test(out, test)?;
            for part in parts.as_slice() {
                show_case_item(out, part)?;
            }
            put(out, ".")
        }
        Stmt::For(place, header, body) => {
            put_open(out, "for", *place)?;
            put(out, "(int ")?;
            show_loop(out, header)?;
            put(out, ")")?;
            show_statement(out, body.get())
        }
        Stmt::Assign(target, sign, value) => {
            show_target(out, target)?;
            put_id(out, sign)?;
            show(out, value)?;
            put(out, ";")
        }
        Stmt::Empty => put(out, ";"),
    }
}

fn show_test(out: &mut Out, test: &Expr) -> Result<(), AllocError> {
    put(out, "(")?;
    show(out, test)?;
    put(out, ")")
}

fn show_shape(out: &mut Out, shape: &Shape) -> Result<(), AllocError> {
    for word in shape.words.as_slice() {
        put_word(out, Some(word))?;
    }
    put_word(out, shape.sign.as_ref())?;
    if let Some(range) = &shape.range {
        put(out, "[")?;
        show(out, &range.high)?;
        put(out, ":")?;
        show(out, &range.low)?;
        put(out, "] ")?;
    }
    Ok(())
}

fn show_declared(out: &mut Out, names: &[Decl]) -> Result<(), AllocError> {
    for name in names {
        put_id(out, &name.name)?;
        if let Some(value) = &name.value {
            put(out, "=")?;
            show(out, value)?;
        }
        put(out, ",")?;
    }
    put(out, ";")
}

fn show_args(out: &mut Out, args: &[Arg]) -> Result<(), AllocError> {
    put(out, "(")?;
    for arg in args {
        if let Some(port) = &arg.port {
            put(out, ".")?;
            put_id(out, port)?;
            put(out, "(")?;
        }
        if let Some(value) = &arg.value {
            show(out, value)?;
        }
        if arg.port.is_some() {
            put(out, ")")?;
        }
        put(out, ",")?;
    }
    put(out, ")")
}

/// An item that has no item inside.
fn show_plain_item(out: &mut Out, item: &Item) -> Result<(), AllocError> {
    match item {
        Item::Param(word, shape, names) => {
            put_word(out, Some(word))?;
            show_shape(out, shape)?;
            show_declared(out, names.as_slice())
        }
        Item::Declare(shape, names) => {
            show_shape(out, shape)?;
            show_declared(out, names.as_slice())
        }
        Item::Genvar(names) => {
            put(out, "genvar ")?;
            for name in names.as_slice() {
                put_id(out, name)?;
                put(out, ",")?;
            }
            put(out, ";")
        }
        Item::Assign(pairs) => {
            put(out, "assign ")?;
            for pair in pairs.as_slice() {
                show_target(out, &pair.target)?;
                put(out, "=")?;
                show(out, &pair.value)?;
                put(out, ",")?;
            }
            put(out, ";")
        }
        _ => show_process(out, item),
    }
}

fn show_process(out: &mut Out, item: &Item) -> Result<(), AllocError> {
    match item {
        Item::Comb(place, body) => {
            put_open(out, "comb", *place)?;
            put(out, " ")?;
            show_statement(out, body)
        }
        Item::Clocked(place, edges, body) => {
            put_open(out, "ff", *place)?;
            put(out, "(")?;
            for edge in edges.as_slice() {
                put_word(out, Some(&edge.word))?;
                put_id(out, &edge.name)?;
                put(out, ",")?;
            }
            put(out, ") ")?;
            show_statement(out, body)
        }
        Item::Instance(module, values, instances) => {
            put_word(out, Some(module))?;
            if !values.is_empty() {
                put(out, "#")?;
                show_args(out, values.as_slice())?;
            }
            for instance in instances.as_slice() {
                put_id(out, &instance.name)?;
                show_args(out, instance.args.as_slice())?;
                put(out, ",")?;
            }
            put(out, ";")
        }
        _ => put(out, ";"),
    }
}

#[cycle(item)]
fn show_items(out: &mut Out, items: &[Item]) -> Result<(), AllocError> {
    put(out, "{")?;
    for item in items {
        show_item(out, item)?;
    }
    put(out, "}")
}

#[cycle(item)]
fn show_block(out: &mut Out, block: &Block) -> Result<(), AllocError> {
    show_label(out, &block.label)?;
    show_items(out, block.items.as_slice())
}

#[cycle(item)]
fn show_item(out: &mut Out, item: &Item) -> Result<(), AllocError> {
    match item {
        Item::Generate(items) => {
            put(out, "generate")?;
            show_items(out, items.as_slice())
        }
        Item::For(place, declares, header, body) => {
            put_open(out, "for", *place)?;
            put(out, "(")?;
            if *declares {
                put(out, "genvar ")?;
            }
            show_loop(out, header)?;
            put(out, ")")?;
            show_block(out, body)
        }
        Item::If(place, test, first, second) => {
            put_open(out, "if", *place)?;
            show_test(out, test)?;
            show_block(out, first)?;
            if let Some(second) = second {
                put(out, "else")?;
                show_block(out, second)?;
            }
            Ok(())
        }
        _ => show_plain_item(out, item),
    }
}

fn show_entries(out: &mut Out, entries: &[Param]) -> Result<(), AllocError> {
    if entries.is_empty() {
        return Ok(());
    }
    put(out, "#(")?;
    for entry in entries {
        put_word(out, entry.keyword.as_ref())?;
        show_shape(out, &entry.shape)?;
        put_id(out, &entry.name)?;
        put(out, "=")?;
        show(out, &entry.value)?;
        put(out, ",")?;
    }
    put(out, ")")
}

fn show_ports(out: &mut Out, ports: &[PortDecl]) -> Result<(), AllocError> {
    if ports.is_empty() {
        return Ok(());
    }
    put(out, "(")?;
    for port in ports {
        put_word(out, port.direction.as_ref())?;
        show_shape(out, &port.shape)?;
        put_id(out, &port.name)?;
        put(out, ",")?;
    }
    put(out, ")")
}

fn show_name(out: &mut Out, module: &Module) -> Result<(), AllocError> {
    put_id(out, &module.name)?;
    if module.marked {
        put(out, "*")?;
    }
    Ok(())
}

fn show_module(out: &mut Out, module: &Module) -> Result<(), AllocError> {
    show_name(out, module)?;
    show_entries(out, module.params.as_slice())?;
    show_ports(out, module.ports.as_slice())?;
    show_items(out, module.items.as_slice())
}

fn show_modules(out: &mut Out, modules: &[Module]) -> Result<(), AllocError> {
    for module in modules {
        show_module(out, module)?;
    }
    Ok(())
}

/// Why nothing is read. A refusal in another file than the first shows it.
fn show_fault(out: &mut Out, fault: &ParseFault) -> Result<(), AllocError> {
    match fault {
        ParseFault::Refused(refusal) => {
            let file = refusal.place.file;
            let line = refusal.place.line;
            let place = if file == 1 {
                format!(in out.alloc; "{line}: ")?
            } else {
                format!(in out.alloc; "{file}:{line}: ")?
            };
            put(out, place.as_str())?;
            put(out, refusal.kind.text())?;
            if !refusal.name.bytes().is_empty() {
                put(out, " ")?;
            }
            out.text.extend_from_slice(refusal.name.bytes())
        }
        ParseFault::NoMemory => Err(AllocError),
    }
}

/// The tokens of the text, whose first line is line 1 of file 1.
fn tokens_of(alloc: Global, text: &[u8]) -> Result<Vec<Token>, Fail> {
    Ok(lex(alloc, 1, text)?.into_vec())
}

/// What reading the text gives, as a row says it.
fn outcome(alloc: Global, text: &[u8]) -> Result<Vec<u8>, Fail> {
    let tokens = tokens_of(alloc, text)?;
    let mut out = Out {
        alloc,
        text: Vec::new(alloc),
    };
    match parse_file(alloc, &tokens) {
        Ok(modules) => show_modules(&mut out, modules.as_slice())?,
        Err(fault) => show_fault(&mut out, &fault)?,
    }
    Ok(out.text)
}

fn check(rt: &impl Abort, alloc: Global, text: &[u8], expected: &str) -> Result<(), Fail> {
    let found = outcome(alloc, text)?;
    assert_eq!(rt; found.as_slice(), expected.as_bytes(), "{text:?}");
    Ok(())
}

fn each_is_read(rt: &impl Abort, alloc: Global, rows: &[(&str, &str)]) -> Result<(), Fail> {
    for (text, expected) in rows {
        check(rt, alloc, text.as_bytes(), *expected)?;
    }
    Ok(())
}

#[test]
fn modules_are_read(rt: HostRuntime) -> Result<(), Fail> {
    each_is_read(&rt, rt.alloc(), &MODULE_TREES)
}

#[test]
fn items_are_read(rt: HostRuntime) -> Result<(), Fail> {
    each_is_read(&rt, rt.alloc(), &ITEM_TREES)
}

#[test]
fn statements_are_read(rt: HostRuntime) -> Result<(), Fail> {
    each_is_read(&rt, rt.alloc(), &STATEMENT_TREES)
}

#[test]
fn modules_are_refused(rt: HostRuntime) -> Result<(), Fail> {
    each_is_read(&rt, rt.alloc(), &MODULES)
}

#[test]
fn declarations_are_refused(rt: HostRuntime) -> Result<(), Fail> {
    each_is_read(&rt, rt.alloc(), &DECLARATIONS)
}

#[test]
fn processes_are_refused(rt: HostRuntime) -> Result<(), Fail> {
    each_is_read(&rt, rt.alloc(), &PROCESSES)
}

#[test]
fn generates_are_refused(rt: HostRuntime) -> Result<(), Fail> {
    each_is_read(&rt, rt.alloc(), &GENERATES)
}

#[test]
fn statements_are_refused(rt: HostRuntime) -> Result<(), Fail> {
    each_is_read(&rt, rt.alloc(), &STATEMENTS)
}

const MARK: &str = "/*verilator hier_block*/";

/// Texts with marks at each `@`, and their modules or their refusal.
const MARKED: [(&str, &str); 24] = [
    ("@module t; endmodule", "t{}"),
    ("module@t; endmodule", "t{}"),
    ("module t@; endmodule", "t{}"),
    ("module t(@); endmodule", "t{}"),
    (
        "module t@#@(@A@=@1@,@B@=@2@)@(@input@a@,@b@)@; endmodule",
        "t#(A=1,B=2,)(input a,b,){}",
    ),
    ("module t;@endmodule", "t*{}"),
    ("module t;@@endmodule", "t*{}"),
    ("module t;@; endmodule", "t*{;}"),
    ("module t; ;@endmodule", "t*{;}"),
    (
        "module t; assign y = a + @ b; endmodule",
        "t*{assign y=(a + b),;}",
    ),
    ("module t; assign y = a @; endmodule", "t*{assign y=a,;}"),
    (
        "module t; always_comb if (a) ; @ else ; endmodule",
        "t*{comb if(a);else ;.}",
    ),
    (
        "module t; if (a) begin : g end @ : g @ else @ ; endmodule",
        "t*{if(a):g{}else{;}}",
    ),
    (
        "module t; generate @ endgenerate u x(. @ a); endmodule",
        "t*{generate{}u x(.a(a),),;}",
    ),
    ("module t; endmodule@", "t{}"),
    ("module t; endmodule@:@t@", "t{}"),
    ("@module t; endmodule@module u; endmodule@", "t{}u{}"),
    ("module t; endmodule module u;@endmodule", "t{}u*{}"),
    ("module t;@endmodule module u; endmodule", "t*{}u{}"),
    (
        "module t;@endmodule:@t module u;@endmodule module v; endmodule",
        "t*{}u*{}v{}",
    ),
    ("module t; endmodule@;", "1: Unexpected ;"),
    ("module t; endmodule : @ u", "1: Unexpected u"),
    ("module t; always_comb x = @ ;", "1: Unexpected ;"),
    ("module t; always_comb begin\n@", "2: Unexpected"),
];

/// The text with a mark in place of each `@`.
fn with_marks(alloc: Global, text: &str) -> Result<Vec<u8>, AllocError> {
    let mut out = Vec::new(alloc);
    for byte in text.as_bytes() {
        if *byte == b'@' {
            out.extend_from_slice(MARK.as_bytes())?;
        } else {
            out.push(*byte)?;
        }
    }
    Ok(out)
}

fn each_with_marks(rt: &impl Abort, alloc: Global, rows: &[(&str, &str)]) -> Result<(), Fail> {
    for (text, expected) in rows {
        let marked = with_marks(alloc, *text)?;
        check(rt, alloc, marked.as_slice(), *expected)?;
    }
    Ok(())
}

#[test]
fn marks_mark_their_module(rt: HostRuntime) -> Result<(), Fail> {
    each_with_marks(&rt, rt.alloc(), &MARKED)
}

/// A text that nests: its front, what comes so many times, the inmost part, what closes each, and its back.
struct Deep {
    front: &'static str,
    opens: &'static str,
    inmost: &'static str,
    closes: &'static str,
    back: &'static str,
}

fn repeat(out: &mut Vec<u8>, count: u32, text: &str) -> Result<(), AllocError> {
    for _turn in 0..count {
        out.extend_from_slice(text.as_bytes())?;
    }
    Ok(())
}

fn nested(alloc: Global, deep: &Deep, count: u32) -> Result<Vec<u8>, AllocError> {
    let mut out = Vec::new(alloc);
    out.extend_from_slice(deep.front.as_bytes())?;
    repeat(&mut out, count, deep.opens)?;
    out.extend_from_slice(deep.inmost.as_bytes())?;
    repeat(&mut out, count, deep.closes)?;
    out.extend_from_slice(deep.back.as_bytes())?;
    Ok(out)
}

/// `read`, or the refusal.
fn verdict(alloc: Global, text: &[u8]) -> Result<Vec<u8>, Fail> {
    let tokens = tokens_of(alloc, text)?;
    let mut out = Out {
        alloc,
        text: Vec::new(alloc),
    };
    match parse_file(alloc, &tokens) {
        Ok(_) => put(&mut out, "read")?,
        Err(fault) => show_fault(&mut out, &fault)?,
    }
    Ok(out.text)
}

/// The text that comes so many times inside, with what reading it gives.
fn nests(
    rt: &impl Abort,
    alloc: Global,
    deep: &Deep,
    count: u32,
    expected: &str,
) -> Result<(), Fail> {
    let text = nested(alloc, deep, count)?;
    let found = verdict(alloc, text.as_slice())?;
    let opens = deep.opens;
    let back = deep.back;
    assert_eq!(rt;
        found.as_slice(),
        expected.as_bytes(),
        "{count} {opens} {back}"
    );
    Ok(())
}

/// How often each may nest at most, and the refusal of one more.
const CHAINS: [(u32, &str, Deep); 30] = [
    (
        254,
        "765: TooMany nesting",
        Deep {
            front: "module t; always_comb if (a) ;\n",
            opens: "else if\n(\na) ;\n",
            inmost: "",
            closes: "",
            back: " endmodule",
        },
    ),
    (
        254,
        "765: TooMany nesting",
        Deep {
            front: "module t; always_comb if (a) ;\n",
            opens: "else if\n(\na) ;\n",
            inmost: "else x = 1;",
            closes: "",
            back: " endmodule",
        },
    ),
    (
        254,
        "765: TooMany nesting",
        Deep {
            front: "module t; if (a) ;\n",
            opens: "else if\n(\na) ;\n",
            inmost: "",
            closes: "",
            back: " endmodule",
        },
    ),
    (
        254,
        "765: TooMany nesting",
        Deep {
            front: "module t; if (a) begin end\n",
            opens: "else if\n(\na) begin end\n",
            inmost: "else u x();",
            closes: "",
            back: " endmodule",
        },
    ),
    (
        256,
        "258: TooMany nesting",
        Deep {
            front: "module t; always_comb\n",
            opens: "begin\n",
            inmost: "",
            closes: "end ",
            back: " endmodule",
        },
    ),
    (
        256,
        "258: TooMany nesting",
        Deep {
            front: "module t; always_comb\n",
            opens: "begin\n",
            inmost: "x = 1;",
            closes: "end ",
            back: " endmodule",
        },
    ),
    (
        256,
        "258: TooMany nesting",
        Deep {
            front: "module t; always_comb\n",
            opens: "begin : l\n",
            inmost: "",
            closes: "end : l ",
            back: " endmodule",
        },
    ),
    (
        255,
        "513: TooMany nesting",
        Deep {
            front: "module t; always_comb\n",
            opens: "if\n(a)\n",
            inmost: ";",
            closes: "",
            back: " endmodule",
        },
    ),
    (
        255,
        "513: TooMany nesting",
        Deep {
            front: "module t;\n",
            opens: "if\n(a)\n",
            inmost: ";",
            closes: "",
            back: " endmodule",
        },
    ),
    (
        128,
        "258: TooMany nesting",
        Deep {
            front: "module t; always_comb\n",
            opens: "if (a)\nbegin\n",
            inmost: "",
            closes: "end ",
            back: " endmodule",
        },
    ),
    (
        128,
        "258: TooMany nesting",
        Deep {
            front: "module t;\n",
            opens: "if (a)\nbegin\n",
            inmost: "",
            closes: "end ",
            back: " endmodule",
        },
    ),
    (
        255,
        "513: TooMany nesting",
        Deep {
            front: "module t; always_comb\n",
            opens: "case\n(a) b:\n",
            inmost: ";",
            closes: "endcase ",
            back: " endmodule",
        },
    ),
    (
        255,
        "513: TooMany nesting",
        Deep {
            front: "module t; always_comb\n",
            opens: "for\n(int i = 0; i; i++)\n",
            inmost: ";",
            closes: "",
            back: " endmodule",
        },
    ),
    (
        255,
        "513: TooMany nesting",
        Deep {
            front: "module t;\n",
            opens: "for\n(i = 0; i; i++)\n",
            inmost: ";",
            closes: "",
            back: " endmodule",
        },
    ),
    (
        256,
        "258: TooMany nesting",
        Deep {
            front: "module t;\n",
            opens: "generate\n",
            inmost: "",
            closes: "endgenerate ",
            back: " endmodule",
        },
    ),
    (
        256,
        "258: TooMany nesting",
        Deep {
            front: "module t; assign\n",
            opens: "{\n",
            inmost: "a",
            closes: "}",
            back: " = b; endmodule",
        },
    ),
    (
        256,
        "258: TooMany nesting",
        Deep {
            front: "module t; always_comb\n",
            opens: "{\n",
            inmost: "a",
            closes: "}",
            back: " = b; endmodule",
        },
    ),
    (
        255,
        "259: TooMany nesting",
        Deep {
            front: "module t; always_comb\n",
            opens: "{\n",
            inmost: "a\n[0]",
            closes: "}",
            back: " = b; endmodule",
        },
    ),
    (
        256,
        "258: TooMany nesting",
        Deep {
            front: "module t; assign y =\n",
            opens: "(\n",
            inmost: "a",
            closes: ")",
            back: "; endmodule",
        },
    ),
    (
        255,
        "257: TooMany nesting",
        Deep {
            front: "module t; assign y[\n",
            opens: "(\n",
            inmost: "a",
            closes: ")",
            back: "] = b; endmodule",
        },
    ),
    (
        255,
        "257: TooMany nesting",
        Deep {
            front: "module t; u x(\n",
            opens: "(\n",
            inmost: "a",
            closes: ")",
            back: "); endmodule",
        },
    ),
    (
        254,
        "256: TooMany nesting",
        Deep {
            front: "module t; u x(.p(\n",
            opens: "(\n",
            inmost: "a",
            closes: ")",
            back: ")); endmodule",
        },
    ),
    (
        255,
        "257: TooMany nesting",
        Deep {
            front: "module t; u #(\n",
            opens: "(\n",
            inmost: "a",
            closes: ")",
            back: ") x(); endmodule",
        },
    ),
    (
        255,
        "257: TooMany nesting",
        Deep {
            front: "module t; logic [\n",
            opens: "(\n",
            inmost: "a",
            closes: ")",
            back: ":0] b; endmodule",
        },
    ),
    (
        255,
        "257: TooMany nesting",
        Deep {
            front: "module t; logic [1:\n",
            opens: "(\n",
            inmost: "a",
            closes: ")",
            back: "] b; endmodule",
        },
    ),
    (
        255,
        "257: TooMany nesting",
        Deep {
            front: "module t #(A =\n",
            opens: "(\n",
            inmost: "1",
            closes: ")",
            back: "); endmodule",
        },
    ),
    (
        254,
        "256: TooMany nesting",
        Deep {
            front: "module t #([\n",
            opens: "(\n",
            inmost: "1",
            closes: ")",
            back: ":0] A = 1); endmodule",
        },
    ),
    (
        254,
        "256: TooMany nesting",
        Deep {
            front: "module t(input [\n",
            opens: "(\n",
            inmost: "1",
            closes: ")",
            back: ":0] a); endmodule",
        },
    ),
    (
        255,
        "257: TooMany nesting",
        Deep {
            front: "module t; always_comb if (a) ; else\n",
            opens: "begin\n",
            inmost: "",
            closes: "end ",
            back: " endmodule",
        },
    ),
    (
        253,
        "256: TooMany nesting",
        Deep {
            front: "module t; always_comb begin\n",
            opens: "begin\n",
            inmost: "if (a) x[0] = 1; else x[0] = 1;",
            closes: "end ",
            back: "end endmodule",
        },
    ),
];

fn each_nests_so_far(
    rt: &impl Abort,
    alloc: Global,
    rows: &[(u32, &str, Deep)],
) -> Result<(), Fail> {
    for (most, refusal, deep) in rows {
        nests(rt, alloc, deep, *most, "read")?;
        nests(rt, alloc, deep, most.saturating_add(1), *refusal)?;
    }
    Ok(())
}

#[test]
fn else_chains_nest(rt: HostRuntime) -> Result<(), Fail> {
    each_nests_so_far(&rt, rt.alloc(), &CHAINS)
}

/// How often each comes, and what reading it gives.
const COUNTED: [(u32, &str, Deep); 49] = [
    (
        256,
        "259: TooMany nesting",
        Deep {
            front: "module t; always_comb\n",
            opens: "begin\n",
            inmost: "",
            closes: "",
            back: "x\n[1] = a;",
        },
    ),
    (
        256,
        "259: TooMany nesting",
        Deep {
            front: "module t; always_comb\n",
            opens: "begin\n",
            inmost: "",
            closes: "",
            back: "x = a\n+ b;",
        },
    ),
    (
        256,
        "259: TooMany nesting",
        Deep {
            front: "module t; always_comb\n",
            opens: "begin\n",
            inmost: "",
            closes: "",
            back: "x =\n-b;",
        },
    ),
    (
        256,
        "259: TooMany nesting",
        Deep {
            front: "module t; always_comb\n",
            opens: "begin\n",
            inmost: "",
            closes: "",
            back: "x = a\n? b : c;",
        },
    ),
    (
        256,
        "258: TooMany nesting",
        Deep {
            front: "module t; always_comb\n",
            opens: "begin\n",
            inmost: "",
            closes: "",
            back: "if (a) ;",
        },
    ),
    (
        256,
        "258: TooMany nesting",
        Deep {
            front: "module t; always_comb\n",
            opens: "begin\n",
            inmost: "",
            closes: "",
            back: "case (a)",
        },
    ),
    (
        256,
        "258: TooMany nesting",
        Deep {
            front: "module t; always_comb\n",
            opens: "begin\n",
            inmost: "",
            closes: "",
            back: "for (",
        },
    ),
    (
        256,
        "258: Unexpected (",
        Deep {
            front: "module t; always_comb\n",
            opens: "begin\n",
            inmost: "",
            closes: "",
            back: "(",
        },
    ),
    (
        256,
        "258: Unsupported function",
        Deep {
            front: "module t; always_comb\n",
            opens: "begin\n",
            inmost: "",
            closes: "",
            back: "function",
        },
    ),
    (
        256,
        "258: Unexpected generate",
        Deep {
            front: "module t; always_comb\n",
            opens: "begin\n",
            inmost: "",
            closes: "",
            back: "generate",
        },
    ),
    (
        256,
        "258: Unexpected else",
        Deep {
            front: "module t; always_comb\n",
            opens: "begin\n",
            inmost: "",
            closes: "",
            back: "else",
        },
    ),
    (
        256,
        "258: Unexpected",
        Deep {
            front: "module t; always_comb\n",
            opens: "begin\n",
            inmost: "",
            closes: "",
            back: "end\n",
        },
    ),
    (
        256,
        "257: Unexpected",
        Deep {
            front: "module t; always_comb\n",
            opens: "begin\n",
            inmost: "",
            closes: "",
            back: "",
        },
    ),
    (
        256,
        "258: Unexpected (",
        Deep {
            front: "module t; assign\n",
            opens: "{\n",
            inmost: "",
            closes: "",
            back: "(",
        },
    ),
    (
        256,
        "258: Unexpected [",
        Deep {
            front: "module t; assign y =\n",
            opens: "(\n",
            inmost: "",
            closes: "",
            back: "[",
        },
    ),
    (
        256,
        "258: Unexpected begin",
        Deep {
            front: "module t; assign y =\n",
            opens: "(\n",
            inmost: "",
            closes: "",
            back: "begin",
        },
    ),
    (
        256,
        "258: TooMany nesting",
        Deep {
            front: "module t;\n",
            opens: "generate\n",
            inmost: "",
            closes: "",
            back: "if (a) ;",
        },
    ),
    (
        256,
        "258: TooMany nesting",
        Deep {
            front: "module t;\n",
            opens: "generate\n",
            inmost: "",
            closes: "",
            back: "for (i",
        },
    ),
    (
        256,
        "259: TooMany nesting",
        Deep {
            front: "module t;\n",
            opens: "generate\n",
            inmost: "",
            closes: "",
            back: "u x\n(",
        },
    ),
    (
        256,
        "259: TooMany nesting",
        Deep {
            front: "module t;\n",
            opens: "generate\n",
            inmost: "",
            closes: "",
            back: "u #\n(",
        },
    ),
    (
        256,
        "259: TooMany nesting",
        Deep {
            front: "module t;\n",
            opens: "generate\n",
            inmost: "",
            closes: "",
            back: "wire\n[1:0] a;",
        },
    ),
    (
        256,
        "259: TooMany nesting",
        Deep {
            front: "module t;\n",
            opens: "generate\n",
            inmost: "",
            closes: "",
            back: "always @\n(*)",
        },
    ),
    (
        256,
        "259: TooMany nesting",
        Deep {
            front: "module t;\n",
            opens: "generate\n",
            inmost: "",
            closes: "",
            back: "always_ff @\n(posedge a) ;",
        },
    ),
    (
        256,
        "259: TooMany nesting",
        Deep {
            front: "module t;\n",
            opens: "generate\n",
            inmost: "",
            closes: "",
            back: "assign y\n[0] = a;",
        },
    ),
    (
        256,
        "259: TooMany nesting",
        Deep {
            front: "module t;\n",
            opens: "generate\n",
            inmost: "",
            closes: "",
            back: "assign\n{a} = b;",
        },
    ),
    (
        256,
        "259: TooMany nesting",
        Deep {
            front: "module t;\n",
            opens: "generate\n",
            inmost: "",
            closes: "",
            back: "always_comb\nbegin",
        },
    ),
    (
        256,
        "258: Unexpected begin",
        Deep {
            front: "module t;\n",
            opens: "generate\n",
            inmost: "",
            closes: "",
            back: "begin",
        },
    ),
    (
        256,
        "258: Unexpected case",
        Deep {
            front: "module t;\n",
            opens: "generate\n",
            inmost: "",
            closes: "",
            back: "case",
        },
    ),
    (
        256,
        "259: TooMany nesting",
        Deep {
            front: "module t;\n",
            opens: "generate\n",
            inmost: "",
            closes: "",
            back: "localparam A = 1\n+ 2;",
        },
    ),
    (
        300,
        "read",
        Deep {
            front: "module t; always_comb begin\n",
            opens: "if (a) ; else ;\n",
            inmost: "",
            closes: "",
            back: "end endmodule",
        },
    ),
    (
        300,
        "read",
        Deep {
            front: "module t; always_comb begin\n",
            opens: "begin end\n",
            inmost: "",
            closes: "",
            back: "end endmodule",
        },
    ),
    (
        300,
        "read",
        Deep {
            front: "module t; always_comb begin\n",
            opens: "case (a) b: ; default: ; endcase\n",
            inmost: "",
            closes: "",
            back: "end endmodule",
        },
    ),
    (
        300,
        "read",
        Deep {
            front: "module t; always_comb begin\n",
            opens: "for (int i = 0; i; i++) ;\n",
            inmost: "",
            closes: "",
            back: "end endmodule",
        },
    ),
    (
        300,
        "read",
        Deep {
            front: "module t; always_comb begin\n",
            opens: "x[0] = (a + b);\n",
            inmost: "",
            closes: "",
            back: "end endmodule",
        },
    ),
    (
        300,
        "read",
        Deep {
            front: "module t; always_comb begin\n",
            opens: "{a, b} = c + d;\n",
            inmost: "",
            closes: "",
            back: "end endmodule",
        },
    ),
    (
        300,
        "read",
        Deep {
            front: "module t;\n",
            opens: "generate endgenerate\n",
            inmost: "",
            closes: "",
            back: "endmodule",
        },
    ),
    (
        300,
        "read",
        Deep {
            front: "module t;\n",
            opens: "u #(1) x(.a(b[1]), .c(d + e));\n",
            inmost: "",
            closes: "",
            back: "endmodule",
        },
    ),
    (
        300,
        "read",
        Deep {
            front: "module t;\n",
            opens: "if (a) ; else begin end\n",
            inmost: "",
            closes: "",
            back: "endmodule",
        },
    ),
    (
        300,
        "read",
        Deep {
            front: "module t;\n",
            opens: "for (i = 0; i; i++) begin end\n",
            inmost: "",
            closes: "",
            back: "endmodule",
        },
    ),
    (
        300,
        "read",
        Deep {
            front: "module t;\n",
            opens: "wire [1:0] a = b + c;\n",
            inmost: "",
            closes: "",
            back: "endmodule",
        },
    ),
    (
        300,
        "read",
        Deep {
            front: "module t;\n",
            opens: "always @(*) ;\n",
            inmost: "",
            closes: "",
            back: "endmodule",
        },
    ),
    (
        300,
        "read",
        Deep {
            front: "module t;\n",
            opens: "assign {x, y[1]} = a + b;\n",
            inmost: "",
            closes: "",
            back: "endmodule",
        },
    ),
    (
        300,
        "read",
        Deep {
            front: "module t; assign y = a",
            opens: ", y = a + b",
            inmost: "",
            closes: "",
            back: "; endmodule",
        },
    ),
    (
        300,
        "read",
        Deep {
            front: "module t; assign {a",
            opens: ", b",
            inmost: "",
            closes: "",
            back: "} = c; endmodule",
        },
    ),
    (
        300,
        "read",
        Deep {
            front: "module t #(A = 1",
            opens: ", B = 1 + 2",
            inmost: "",
            closes: "",
            back: "); endmodule",
        },
    ),
    (
        300,
        "read",
        Deep {
            front: "module t(input a",
            opens: ", output [1 + 2:0] b",
            inmost: "",
            closes: "",
            back: "); endmodule",
        },
    ),
    (
        300,
        "read",
        Deep {
            front: "module t; u x(a",
            opens: ", b + c",
            inmost: "",
            closes: "",
            back: "); endmodule",
        },
    ),
    (
        300,
        "read",
        Deep {
            front: "module t; always_comb case (a) b",
            opens: ", b + c",
            inmost: "",
            closes: "",
            back: ": ; endcase endmodule",
        },
    ),
    (
        300,
        "read",
        Deep {
            front: "",
            opens: "module t; generate endgenerate endmodule\n",
            inmost: "",
            closes: "",
            back: "",
        },
    ),
];

fn each_is_counted(rt: &impl Abort, alloc: Global, rows: &[(u32, &str, Deep)]) -> Result<(), Fail> {
    for (count, expected, deep) in rows {
        nests(rt, alloc, deep, *count, *expected)?;
    }
    Ok(())
}

#[test]
fn nesting_is_counted(rt: HostRuntime) -> Result<(), Fail> {
    each_is_counted(&rt, rt.alloc(), &COUNTED)
}

/// The realistic design, as `r.sv` has it.
const DESIGN: &str = "`timescale 1ns/1ps
`default_nettype none
module stage #(parameter int W = 8, parameter int K = 1) (
  input wire clk, rst, in_valid, output logic in_ready,
  input wire [W-1:0] in_data, output logic out_valid,
  input wire out_ready, output logic [W-1:0] out_data);
/*verilator hier_block*/
  logic full;
  logic [W-1:0] kept;
  always_comb begin
    in_ready = !full || out_ready;
    out_valid = full;
    out_data = kept;
  end
  always_ff @(posedge clk)
    if (rst) begin full <= 1'b0; kept <= '0; end
    else if (in_ready) begin
      full <= in_valid;
      if (in_valid) kept <= in_data + K;
    end
endmodule
module alu (input wire [1:0] op, input wire [7:0] a,
            output logic [7:0] y, output logic odd);
/*verilator hier_block*/
  always_comb begin
    case (op)
      2'd0: y = a;
      2'd1: y = a << 1;
      2'd2: y = {a[3:0], a[7:4]};
      default: y = ~a;
    endcase
    odd = ^y;
  end
endmodule
module pipe #(parameter int N = 4, parameter int W = 8) (
  input wire clk, rst, in_valid, output logic in_ready,
  input wire [W-1:0] in_data, output logic out_valid,
  input wire out_ready, output logic [W-1:0] out_data);
  logic [N:0] v, r;
  logic [(N+1)*W-1:0] d;
  assign v[0] = in_valid, in_ready = r[0], r[N] = out_ready;
  assign out_valid = v[N], d[W-1:0] = in_data, out_data = d[N*W +: W];
  for (genvar i = 0; i < N; i++) begin : g
    stage #(.W(W), .K(i + 1)) s (.clk(clk), .rst(rst),
      .in_valid(v[i]), .in_ready(r[i]), .in_data(d[i*W +: W]),
      .out_valid(v[i+1]), .out_ready(r[i+1]), .out_data(d[(i+1)*W +: W]));
  end
endmodule
module t (input wire clk, clk2, rst, in_valid, out_ready,
  input wire [1:0] op, input wire [7:0] in_data,
  output logic in_ready, out_valid, odd,
  output logic [7:0] out_data, output logic [3:0] ticks);
  logic [7:0] y;
  alu a (.op, .a(in_data), .y, .odd);
  pipe p (.clk, .rst, .in_valid, .in_ready, .in_data(y),
          .out_valid, .out_ready, .out_data);
  always @(posedge clk2) if (rst) ticks <= '0; else ticks <= ticks + 4'd1;
endmodule
`resetall
";

/// Each module with its entries, its ports, and the number of its items.
const DESIGN_MODULES: &str =
    "stage* W K | clk rst in_valid in_ready in_data out_valid out_ready out_data | 4
alu* | op a y odd | 1
pipe N W | clk rst in_valid in_ready in_data out_valid out_ready out_data | 5
t | clk clk2 rst in_valid out_ready op in_data in_ready out_valid odd out_data ticks | 4
";

fn sum_up(out: &mut Out, module: &Module) -> Result<(), AllocError> {
    out.text.extend_from_slice(module.name.name.bytes())?;
    if module.marked {
        put(out, "*")?;
    }
    for entry in module.params.as_slice() {
        put(out, " ")?;
        out.text.extend_from_slice(entry.name.name.bytes())?;
    }
    put(out, " |")?;
    for port in module.ports.as_slice() {
        put(out, " ")?;
        out.text.extend_from_slice(port.name.name.bytes())?;
    }
    let count = module.items.len();
    let count = format!(in out.alloc; " | {count}\n")?;
    put(out, count.as_str())
}

fn sum_up_each(out: &mut Out, modules: &[Module]) -> Result<(), AllocError> {
    for module in modules {
        sum_up(out, module)?;
    }
    Ok(())
}

#[test]
fn realistic_design_is_read(rt: HostRuntime) -> Result<(), Fail> {
    let alloc = rt.alloc();
    let tokens = tokens_of(alloc, DESIGN.as_bytes())?;
    let mut out = Out {
        alloc,
        text: Vec::new(alloc),
    };
    match parse_file(alloc, &tokens) {
        Ok(modules) => sum_up_each(&mut out, modules.as_slice())?,
        Err(fault) => show_fault(&mut out, &fault)?,
    }
    assert_eq!(rt; out.text.as_slice(), DESIGN_MODULES.as_bytes());
    Ok(())
}

/// Headers, and what each entry and each port has when it takes from those before it.
const HEADERS: [(&str, &str); 5] = [
    (
        "module t #(parameter int A = 1, B = 2, localparam C = 3, logic [3:0] D = 4, E = 5) (input wire a, b, output logic [1:0] c, d); endmodule",
        "parameter int A,parameter int B,localparam C,localparam logic [3:0] D,localparam logic [3:0] E,|input wire a,input wire b,output logic [1:0] c,output logic [1:0] d,",
    ),
    (
        "module t #(A = 1, signed B = 2, C = 3, parameter D = 4, int E = 5, F = 6, [1:0] G = 7, H = 8); endmodule",
        "parameter A,parameter signed B,parameter signed C,parameter D,parameter int E,parameter int F,parameter [1:0] G,parameter [1:0] H,|",
    ),
    (
        "module t #(localparam logic signed [3:0] A = 1, B = 2, unsigned C = 3, D = 4, parameter E = 5, F = 6); endmodule",
        "localparam logic signed [3:0] A,localparam logic signed [3:0] B,localparam unsigned C,localparam unsigned D,parameter E,parameter F,|",
    ),
    (
        "module t(input a, b, output c, input signed [1:0] d, e, output wire logic f, g, input h, i); endmodule",
        "|input a,input b,output c,input signed [1:0] d,input signed [1:0] e,output wire logic f,output wire logic g,input h,input i,",
    ),
    (
        "module t(output int a, b, c, input d); endmodule module u(input e, f); endmodule",
        "|output int a,output int b,output int c,input d,|input e,input f,",
    ),
];

fn kind_word(kind: EntryKind) -> &'static str {
    match kind {
        EntryKind::Parameter => "parameter ",
        EntryKind::Localparam => "localparam ",
    }
}

/// What the entries have.
fn show_taken_entries(out: &mut Out, entries: &[Param]) -> Result<(), AllocError> {
    for entry in entries_of(out.alloc, entries)? {
        put(out, kind_word(entry.kind))?;
        show_shape(out, entry.shape)?;
        put_id(out, entry.name)?;
        put(out, ",")?;
    }
    put(out, "|")
}

/// What the ports have.
fn show_taken_ports(out: &mut Out, ports: &[PortDecl]) -> Result<(), AllocError> {
    for port in ports_of(out.alloc, ports)? {
        put_word(out, port.direction)?;
        show_shape(out, port.shape)?;
        put_id(out, port.name)?;
        put(out, ",")?;
    }
    Ok(())
}

fn show_taken(out: &mut Out, modules: &[Module]) -> Result<(), AllocError> {
    for module in modules {
        show_taken_entries(out, module.params.as_slice())?;
        show_taken_ports(out, module.ports.as_slice())?;
    }
    Ok(())
}

fn each_takes(rt: &impl Abort, alloc: Global, rows: &[(&str, &str)]) -> Result<(), Fail> {
    for (text, expected) in rows {
        let tokens = tokens_of(alloc, text.as_bytes())?;
        let mut out = Out {
            alloc,
            text: Vec::new(alloc),
        };
        match parse_file(alloc, &tokens) {
            Ok(modules) => show_taken(&mut out, modules.as_slice())?,
            Err(fault) => show_fault(&mut out, &fault)?,
        }
        assert_eq!(rt; out.text.as_slice(), expected.as_bytes(), "{text}");
    }
    Ok(())
}

#[test]
fn headers_take_from_before(rt: HostRuntime) -> Result<(), Fail> {
    each_takes(&rt, rt.alloc(), &HEADERS)
}
