use bit_ops::Bits;
use code_check::{CheckFault, check, has_few_slots};
use code_isa::{CodeFault, Machine};
use machine_text::{Trial, Words, read_machine};
use std::alloc::Global;
use std::process::Abort;
use std::test::Fail;

/// `assign y = ~a;`
const INVERTER: &str = "2 data 1 a output 1 y / 1 0 / 0 / 0 / 0 / 1 Not 1 0 / 1";

/// Machines, each with its fault or `Ok`. A machine is its ports, the row of each output, its chain, its registers, its
/// children, its code, and the slot of each output.
const PORTS: [(&str, &str); 33] = [
    // two ports have one name
    (
        "2 data 1 a output 1 a / 1 0 / 0 / 0 / 0 / 1 Not 1 0 / 1",
        "PortShape",
    ),
    (
        "2 data 1 a output 1 A / 1 0 / 0 / 0 / 0 / 1 Not 1 0 / 1",
        "Ok",
    ),
    (
        "3 data 1 a idle 1 a output 1 y / 1 0 / 0 / 0 / 0 / 1 Not 1 0 / 1",
        "PortShape",
    ),
    (
        "3 data 1 a idle 1 b output 1 y / 1 0 / 0 / 0 / 0 / 1 Not 1 0 / 1",
        "Ok",
    ),
    (
        "3 data 1 a output 1 y clock 1 a / 1 0 / 0 / 0 / 0 / 1 Not 1 0 / 1",
        "PortShape",
    ),
    (
        "3 data 1 a output 1 y clock 1 aa / 1 0 / 0 / 0 / 0 / 1 Not 1 0 / 1",
        "Ok",
    ),
    // a clock is wider than 1
    (
        "3 data 1 a output 1 y clock 2 c / 1 0 / 0 / 0 / 0 / 1 Not 1 0 / 1",
        "PortShape",
    ),
    (
        "3 data 1 a output 1 y clock 1 c / 1 0 / 0 / 0 / 0 / 1 Not 1 0 / 1",
        "Ok",
    ),
    (
        "3 data 1 a output 1 y idle 2 c / 1 0 / 0 / 0 / 0 / 1 Not 1 0 / 1",
        "Ok",
    ),
    // a row of the summary does not rise strictly
    (
        "3 data 1 a data 1 b output 1 y / 2 0 0 / 0 / 0 / 0 / 1 Not 1 0 / 2",
        "PortShape",
    ),
    (
        "3 data 1 a data 1 b output 1 y / 2 1 0 / 0 / 0 / 0 / 1 Not 1 0 / 2",
        "PortShape",
    ),
    (
        "3 data 1 a data 1 b output 1 y / 2 0 1 / 0 / 0 / 0 / 1 Not 1 0 / 2",
        "Ok",
    ),
    // a row names a data input that is not there; clocks and idle inputs are not counted
    (
        "2 data 1 a output 1 y / 2 0 1 / 0 / 0 / 0 / 1 Not 1 0 / 1",
        "PortShape",
    ),
    (
        "3 clock 1 c data 1 a output 1 y / 2 0 1 / 0 / 0 / 0 / 1 Not 1 0 / 1",
        "PortShape",
    ),
    (
        "3 idle 1 c data 1 a output 1 y / 2 0 1 / 0 / 0 / 0 / 1 Not 1 0 / 1",
        "PortShape",
    ),
    (
        "3 data 1 c data 1 a output 1 y / 2 0 1 / 0 / 0 / 0 / 1 Not 1 1 / 2",
        "Ok",
    ),
    (
        "3 data 1 a output 1 y output 1 z / 1 0 1 65535 / 0 / 0 / 0 / 1 Not 1 0 / 1 1",
        "PortShape",
    ),
    // a register's clock is not there; only clocks are counted
    (
        "1 output 1 q / 0 / 0 / 1 1 0 0 0 0 / 0 / 0 / 0",
        "PortShape",
    ),
    (
        "2 output 1 q idle 1 c / 0 / 0 / 1 1 0 0 0 0 / 0 / 0 / 0",
        "PortShape",
    ),
    (
        "2 output 1 q clock 1 c / 0 / 0 / 1 1 0 0 0 0 / 0 / 0 / 0",
        "Ok",
    ),
    (
        "2 output 1 q clock 1 c / 0 / 0 / 1 1 0 1 0 0 / 0 / 0 / 0",
        "PortShape",
    ),
    (
        "2 output 1 q clock 1 c / 0 / 0 / 1 1 1 0 1 0 / 0 / 0 / 0",
        "Ok",
    ),
    (
        "2 output 1 q clock 1 c / 0 / 0 / 1 1 0 4294967295 0 0 / 0 / 0 / 0",
        "PortShape",
    ),
    // a child's clock is joined to one that is not there
    (
        "1 output 1 y / 0 / 1 / 0 / 1 2 output 1 q clock 1 c / 0 / 0 / 0 / 0",
        "PortShape",
    ),
    (
        "2 output 1 y clock 1 k / 0 / 1 / 0 / 1 2 output 1 q clock 1 c / 0 / 0 / 0 / 0",
        "Ok",
    ),
    (
        "2 output 1 y clock 1 k / 0 / 1 / 0 / 1 2 output 1 q clock 1 c / 0 / 1 / 0 / 0",
        "PortShape",
    ),
    // a child's face and summary
    (
        "2 data 1 a output 1 y / 1 0 / 1 / 0 / 1 2 data 1 b output 1 b / 1 0 / 0 / 0 / 1",
        "PortShape",
    ),
    (
        "2 data 1 a output 1 y / 1 0 / 1 / 0 / 1 2 data 1 a output 1 y / 1 0 / 0 / 0 / 1",
        "Ok",
    ),
    (
        "2 data 1 a output 1 y / 1 0 / 1 / 0 / 1 2 data 1 b output 1 z / 1 1 / 0 / 0 / 1",
        "PortShape",
    ),
    (
        "2 data 1 a output 1 y / 1 0 / 1 / 0 / 1 3 data 1 b data 1 c output 1 z / 2 1 0 / 0 0 / 0 / 1",
        "PortShape",
    ),
    (
        "2 data 1 a output 1 y / 1 0 / 1 / 0 / 1 3 data 1 b data 1 c output 1 z / 2 0 1 / 0 0 / 0 / 1",
        "Ok",
    ),
    (
        "2 clock 1 k output 1 y / 0 / 1 / 0 / 1 2 clock 2 c output 1 z / 0 / 0 / 0 / 0",
        "PortShape",
    ),
    (
        "2 clock 1 k output 1 y / 0 / 1 / 0 / 1 2 clock 1 c output 1 z / 0 / 0 / 0 / 0",
        "Ok",
    ),
];

const SLOTS: [(&str, &str); 21] = [
    // an operand is not below its own instruction's slot
    (
        "2 data 1 a output 1 y / 1 0 / 0 / 0 / 0 / 1 Not 1 1 / 1",
        "SlotOrder",
    ),
    (
        "2 data 1 a output 1 y / 1 0 / 0 / 0 / 0 / 1 And 1 1 0 / 1",
        "SlotOrder",
    ),
    (
        "2 data 1 a output 1 y / 1 0 / 0 / 0 / 0 / 1 And 1 0 1 / 1",
        "SlotOrder",
    ),
    (
        "2 data 1 a output 1 y / 1 0 / 0 / 0 / 0 / 1 And 1 0 0 / 1",
        "Ok",
    ),
    (
        "2 data 1 a output 1 y / 1 0 / 0 / 0 / 0 / 1 Mux 1 1 0 0 / 1",
        "SlotOrder",
    ),
    (
        "2 data 1 a output 1 y / 1 0 / 0 / 0 / 0 / 1 Mux 1 0 1 0 / 1",
        "SlotOrder",
    ),
    (
        "2 data 1 a output 1 y / 1 0 / 0 / 0 / 0 / 1 Mux 1 0 0 1 / 1",
        "SlotOrder",
    ),
    (
        "2 data 1 a output 1 y / 1 0 / 0 / 0 / 0 / 1 Mux 1 0 0 0 / 1",
        "Ok",
    ),
    (
        "2 data 1 a output 1 y / 1 0 / 0 / 0 / 0 / 2 Not 1 2 Not 1 0 / 2",
        "SlotOrder",
    ),
    (
        "2 data 1 a output 1 y / 1 0 / 0 / 0 / 0 / 2 Not 1 0 Not 1 2 / 2",
        "SlotOrder",
    ),
    (
        "2 data 1 a output 1 y / 1 0 / 0 / 0 / 0 / 2 Not 1 0 Not 1 1 / 2",
        "Ok",
    ),
    (
        "2 data 1 a output 1 y / 1 0 / 0 / 0 / 0 / 1 Not 1 18446744073709551615 / 1",
        "SlotOrder",
    ),
    // a next slot is not there
    (
        "2 output 1 q clock 1 c / 0 / 0 / 1 1 0 0 0 1 / 0 / 0 / 0",
        "SlotOrder",
    ),
    (
        "2 output 1 q clock 1 c / 0 / 0 / 1 1 0 0 0 1 / 0 / 1 Not 1 0 / 0",
        "Ok",
    ),
    (
        "2 output 1 q clock 1 c / 0 / 0 / 1 1 0 0 0 18446744073709551615 / 0 / 1 Not 1 0 / 0",
        "SlotOrder",
    ),
    // a child's input slot is not there
    (
        "2 data 1 a output 1 y / 1 0 / 1 / 0 / 1 2 data 1 b output 1 z / 1 0 / 2 / 0 / 1",
        "SlotOrder",
    ),
    (
        "2 data 1 a output 1 y / 1 0 / 1 / 0 / 1 2 data 1 b output 1 z / 1 0 / 2 / 1 Not 1 0 / 1",
        "Ok",
    ),
    // an output slot is not there
    (
        "2 data 1 a output 1 y / 1 0 / 0 / 0 / 0 / 1 Not 1 0 / 2",
        "SlotOrder",
    ),
    (
        "3 data 1 a output 1 y output 1 z / 1 0 1 0 / 0 / 0 / 0 / 1 Not 1 0 / 1 2",
        "SlotOrder",
    ),
    (
        "3 data 1 a output 1 y output 1 z / 1 0 1 0 / 0 / 0 / 0 / 1 Not 1 0 / 1 0",
        "Ok",
    ),
    ("1 output 1 y / 0 / 0 / 0 / 0 / 0 / 0", "SlotOrder"),
];

const WIDTHS: [(&str, &str); 9] = [
    // a next slot has another width than its register
    (
        "2 output 2 q clock 1 c / 0 / 0 / 1 2 0 0 0 1 / 0 / 1 RedOr 1 0 / 0",
        "SlotWidth",
    ),
    (
        "2 output 2 q clock 1 c / 0 / 0 / 1 2 3 0 0 1 / 0 / 1 Not 2 0 / 0",
        "Ok",
    ),
    // an output slot has another width than its port
    (
        "2 data 1 a output 2 y / 1 0 / 0 / 0 / 0 / 1 Not 1 0 / 1",
        "SlotWidth",
    ),
    (
        "2 data 2 a output 2 y / 1 0 / 0 / 0 / 0 / 1 Not 2 0 / 1",
        "Ok",
    ),
    (
        "3 data 1 a output 1 y output 2 z / 1 0 1 0 / 0 / 0 / 0 / 1 Not 1 0 / 1 1",
        "SlotWidth",
    ),
    // a child's input slot has another width than its port, and a child's output than the machine's
    (
        "2 data 1 a output 1 y / 1 0 / 1 / 0 / 1 2 data 2 b output 1 z / 1 0 / 0 / 0 / 1",
        "SlotWidth",
    ),
    (
        "2 data 2 a output 1 y / 1 0 / 1 / 0 / 1 2 data 2 b output 1 z / 1 0 / 0 / 0 / 1",
        "Ok",
    ),
    (
        "2 data 2 a output 1 y / 1 0 / 1 / 0 / 1 2 data 2 b output 2 z / 1 0 / 0 / 0 / 1",
        "SlotWidth",
    ),
    (
        "2 data 2 a output 2 y / 1 0 / 1 / 0 / 1 2 data 2 b output 2 z / 1 0 / 0 / 0 / 1",
        "Ok",
    ),
];

/// Instructions over the slots 0 of 4 bits, 1 of 3 bits, 2 of 1 bit and 3 of 4 bits, each with its width as the output's.
const OPERATIONS: [(&str, &str); 78] = [
    ("4 / 1 Const 4 15", "Ok"),
    ("64 / 1 Const 64 18446744073709551615", "Ok"),
    ("3 / 1 Zext 3 0", "SlotWidth"),
    ("4 / 1 Zext 4 0", "Ok"),
    ("64 / 1 Zext 64 0", "Ok"),
    ("3 / 1 Sext 3 0", "SlotWidth"),
    ("4 / 1 Sext 4 0", "Ok"),
    ("2 / 1 Slice 2 0 3", "SlotWidth"),
    ("2 / 1 Slice 2 0 2", "Ok"),
    ("1 / 1 Slice 1 0 255", "SlotWidth"),
    ("4 / 1 Slice 4 0 0", "Ok"),
    ("6 / 1 Concat 6 0 1", "SlotWidth"),
    ("7 / 1 Concat 7 0 1", "Ok"),
    ("8 / 1 Concat 8 0 1", "SlotWidth"),
    ("3 / 1 Not 3 0", "SlotWidth"),
    ("4 / 1 Not 4 0", "Ok"),
    ("5 / 1 Neg 5 0", "SlotWidth"),
    ("4 / 1 Neg 4 0", "Ok"),
    ("4 / 1 And 4 1 0", "SlotWidth"),
    ("4 / 1 And 4 0 1", "SlotWidth"),
    ("3 / 1 And 3 0 3", "SlotWidth"),
    ("4 / 1 And 4 0 3", "Ok"),
    ("4 / 1 Or 4 1 0", "SlotWidth"),
    ("4 / 1 Or 4 0 1", "SlotWidth"),
    ("4 / 1 Or 4 0 3", "Ok"),
    ("4 / 1 Xor 4 1 0", "SlotWidth"),
    ("4 / 1 Xor 4 0 1", "SlotWidth"),
    ("4 / 1 Xor 4 0 3", "Ok"),
    ("4 / 1 Add 4 1 0", "SlotWidth"),
    ("4 / 1 Add 4 0 1", "SlotWidth"),
    ("4 / 1 Add 4 0 3", "Ok"),
    ("4 / 1 Sub 4 1 0", "SlotWidth"),
    ("4 / 1 Sub 4 0 1", "SlotWidth"),
    ("4 / 1 Sub 4 0 3", "Ok"),
    ("4 / 1 Mul 4 1 0", "SlotWidth"),
    ("4 / 1 Mul 4 0 1", "SlotWidth"),
    ("8 / 1 Mul 8 0 3", "SlotWidth"),
    ("4 / 1 Mul 4 0 3", "Ok"),
    ("4 / 1 DivU 4 1 0", "SlotWidth"),
    ("4 / 1 DivU 4 0 1", "SlotWidth"),
    ("4 / 1 DivU 4 0 3", "Ok"),
    ("4 / 1 DivS 4 0 1", "SlotWidth"),
    ("4 / 1 DivS 4 0 3", "Ok"),
    ("4 / 1 ModU 4 1 0", "SlotWidth"),
    ("4 / 1 ModU 4 0 3", "Ok"),
    ("4 / 1 ModS 4 0 2", "SlotWidth"),
    ("4 / 1 ModS 4 0 3", "Ok"),
    ("4 / 1 Shl 4 1 0", "SlotWidth"),
    ("4 / 1 Shl 4 0 1", "Ok"),
    ("3 / 1 ShrU 3 0 1", "SlotWidth"),
    ("3 / 1 ShrU 3 1 0", "Ok"),
    ("3 / 1 ShrS 3 2 1", "SlotWidth"),
    ("1 / 1 ShrS 1 2 1", "Ok"),
    ("1 / 1 Eq 1 0 1", "SlotWidth"),
    ("4 / 1 Eq 4 0 3", "SlotWidth"),
    ("1 / 1 Eq 1 0 3", "Ok"),
    ("1 / 1 LtU 1 1 0", "SlotWidth"),
    ("2 / 1 LtU 2 0 3", "SlotWidth"),
    ("1 / 1 LtU 1 0 3", "Ok"),
    ("1 / 1 LtS 1 1 2", "SlotWidth"),
    ("4 / 1 LtS 4 0 3", "SlotWidth"),
    ("1 / 1 LtS 1 1 1", "Ok"),
    ("4 / 1 RedAnd 4 0", "SlotWidth"),
    ("1 / 1 RedAnd 1 0", "Ok"),
    ("4 / 1 RedOr 4 0", "SlotWidth"),
    ("1 / 1 RedOr 1 0", "Ok"),
    ("4 / 1 RedXor 4 0", "SlotWidth"),
    ("1 / 1 RedXor 1 0", "Ok"),
    ("4 / 1 Mux 4 1 0 3", "SlotWidth"),
    ("4 / 1 Mux 4 2 1 0", "SlotWidth"),
    ("4 / 1 Mux 4 2 0 1", "SlotWidth"),
    ("3 / 1 Mux 3 2 0 3", "SlotWidth"),
    ("4 / 1 Mux 4 2 0 3", "Ok"),
    ("4 / 1 Insert 4 0 1 2", "SlotWidth"),
    ("4 / 1 Insert 4 0 1 1", "Ok"),
    ("3 / 1 Insert 3 0 2 0", "SlotWidth"),
    ("4 / 1 Insert 4 0 2 255", "SlotWidth"),
    ("4 / 1 Insert 4 0 3 0", "Ok"),
];

const CYCLES: [(&str, &str); 13] = [
    // a child's output is joined to its own input; its row as given decides whether that is a cycle
    (
        "1 output 1 y / 0 / 1 / 0 / 1 2 data 1 a output 1 z / 1 0 / 0 / 0 / 0",
        "CycleInside",
    ),
    (
        "1 output 1 y / 0 / 1 / 0 / 1 2 data 1 a output 1 z / 0 / 0 / 0 / 0",
        "Ok",
    ),
    // the same by an instruction
    (
        "1 output 1 y / 0 / 1 / 0 / 1 2 data 1 a output 1 z / 1 0 / 1 / 1 Not 1 0 / 1",
        "CycleInside",
    ),
    (
        "1 output 1 y / 0 / 1 / 0 / 1 2 data 1 a output 1 z / 0 / 1 / 1 Not 1 0 / 1",
        "Ok",
    ),
    // the same by a register, which is no dependence
    (
        "2 output 1 y clock 1 k / 0 / 1 / 1 1 0 0 0 1 / 1 2 data 1 a output 1 z / 1 0 / 0 / 0 / 1",
        "Ok",
    ),
    // a child with two inputs, of which the second closes the cycle
    (
        "2 data 1 x output 1 y / 1 0 / 1 / 0 / 1 3 data 1 a data 1 b output 1 z / 2 0 1 / 0 1 / 0 / 1",
        "CycleInside",
    ),
    (
        "2 data 1 x output 1 y / 1 0 / 1 / 0 / 1 3 data 1 a data 1 b output 1 z / 1 1 / 0 1 / 0 / 1",
        "CycleInside",
    ),
    (
        "2 data 1 x output 1 y / 1 0 / 1 / 0 / 1 3 data 1 a data 1 b output 1 z / 1 0 / 0 1 / 0 / 1",
        "Ok",
    ),
    // two outputs of one child, of which only the first reads what the second drives
    (
        "1 output 1 y / 0 / 2 / 0 / 1 3 data 1 a output 1 z output 1 w / 1 0 0 / 1 / 0 / 0",
        "Ok",
    ),
    (
        "1 output 1 y / 0 / 2 / 0 / 1 3 data 1 a output 1 z output 1 w / 1 0 1 0 / 1 / 0 / 0",
        "CycleInside",
    ),
    // two children in a ring
    (
        "1 output 1 y / 0 / 2 / 0 / 2 2 data 1 a output 1 z / 1 0 / 1 2 data 1 a output 1 z / 1 0 / 0 / 0 / 0",
        "CycleInside",
    ),
    (
        "1 output 1 y / 0 / 2 / 0 / 2 2 data 1 a output 1 z / 1 0 / 1 2 data 1 a output 1 z / 0 / 0 / 0 / 0",
        "Ok",
    ),
    // a cycle that no output reads
    (
        "2 data 1 a output 1 y / 1 0 / 1 / 0 / 1 2 data 1 b output 1 z / 1 0 / 1 / 0 / 0",
        "CycleInside",
    ),
];

const SUMMARIES: [(&str, &str); 17] = [
    (
        "2 data 1 a output 1 y / 0 / 0 / 0 / 0 / 1 Not 1 0 / 1",
        "SummaryShort",
    ),
    (
        "2 data 1 a output 1 y / 1 0 / 0 / 0 / 0 / 1 Not 1 0 / 1",
        "Ok",
    ),
    // a row may name more than the output depends on
    (
        "2 data 1 a output 1 y / 0 / 0 / 0 / 0 / 1 Const 1 0 / 1",
        "Ok",
    ),
    (
        "2 data 1 a output 1 y / 1 0 / 0 / 0 / 0 / 1 Const 1 0 / 1",
        "Ok",
    ),
    // an output that is a data input's slot itself
    (
        "2 data 1 a output 1 y / 0 / 0 / 0 / 0 / 0 / 0",
        "SummaryShort",
    ),
    ("2 data 1 a output 1 y / 1 0 / 0 / 0 / 0 / 0 / 0", "Ok"),
    // one of two is missing
    (
        "3 data 1 a data 1 b output 1 y / 1 0 / 0 / 0 / 0 / 1 And 1 0 1 / 2",
        "SummaryShort",
    ),
    (
        "3 data 1 a data 1 b output 1 y / 1 1 / 0 / 0 / 0 / 1 And 1 0 1 / 2",
        "SummaryShort",
    ),
    (
        "3 data 1 a data 1 b output 1 y / 2 0 1 / 0 / 0 / 0 / 1 And 1 0 1 / 2",
        "Ok",
    ),
    // in the row of the second output
    (
        "4 data 1 a data 1 b output 1 y output 1 z / 1 0 1 0 / 0 / 0 / 0 / 0 / 0 1",
        "SummaryShort",
    ),
    (
        "4 data 1 a data 1 b output 1 y output 1 z / 1 0 1 1 / 0 / 0 / 0 / 0 / 0 1",
        "Ok",
    ),
    // the condition of a choice is depended on as well
    (
        "3 data 1 a data 1 b output 1 y / 1 1 / 0 / 0 / 0 / 1 Mux 1 0 1 1 / 2",
        "SummaryShort",
    ),
    // through a child, by its row
    (
        "2 data 1 a output 1 y / 0 / 1 / 0 / 1 2 data 1 b output 1 z / 1 0 / 0 / 0 / 1",
        "SummaryShort",
    ),
    (
        "2 data 1 a output 1 y / 0 / 1 / 0 / 1 2 data 1 b output 1 z / 0 / 0 / 0 / 1",
        "Ok",
    ),
    (
        "2 data 1 a output 1 y / 1 0 / 1 / 0 / 1 2 data 1 b output 1 z / 0 / 0 / 0 / 1",
        "Ok",
    ),
    // through a register there is no dependence
    (
        "3 data 1 a output 1 q clock 1 c / 0 / 0 / 1 1 0 0 0 0 / 0 / 0 / 1",
        "Ok",
    ),
    (
        "3 data 1 a output 1 q clock 1 c / 0 / 0 / 1 1 0 0 0 0 / 0 / 0 / 0",
        "SummaryShort",
    ),
];

const CHAINS: [(&str, &str); 11] = [
    (
        "2 data 1 a output 1 y / 1 0 / 0 / 0 / 1 2 data 1 b output 1 z / 1 0 / 0 / 0 / 1",
        "ChainShort",
    ),
    (
        "2 data 1 a output 1 y / 1 0 / 1 / 0 / 1 2 data 1 b output 1 z / 1 0 / 0 / 0 / 1",
        "Ok",
    ),
    (
        "2 data 1 a output 1 y / 1 0 / 4294967294 / 0 / 1 2 data 1 b output 1 z / 1 0 / 0 / 0 / 1",
        "Ok",
    ),
    // two in a row
    (
        "2 data 1 a output 1 y / 1 0 / 1 / 0 / 2 2 data 1 b output 1 z / 1 0 / 0 2 data 1 b output 1 z / 1 0 / 1 / 0 / 2",
        "ChainShort",
    ),
    (
        "2 data 1 a output 1 y / 1 0 / 2 / 0 / 2 2 data 1 b output 1 z / 1 0 / 0 2 data 1 b output 1 z / 1 0 / 1 / 0 / 2",
        "Ok",
    ),
    // the second does not read the first
    (
        "2 data 1 a output 1 y / 0 / 1 / 0 / 2 2 data 1 b output 1 z / 1 0 / 0 2 data 1 b output 1 z / 0 / 1 / 0 / 2",
        "Ok",
    ),
    // two beside each other
    (
        "2 data 1 a output 1 y / 1 0 / 0 / 0 / 2 2 data 1 b output 1 z / 1 0 / 0 2 data 1 b output 1 z / 1 0 / 0 / 1 And 1 1 2 / 3",
        "ChainShort",
    ),
    (
        "2 data 1 a output 1 y / 1 0 / 1 / 0 / 2 2 data 1 b output 1 z / 1 0 / 0 2 data 1 b output 1 z / 1 0 / 0 / 1 And 1 1 2 / 3",
        "Ok",
    ),
    // two in a row against the order of their numbers, and with an instruction between them
    (
        "2 data 1 a output 1 y / 1 0 / 1 / 0 / 2 2 data 1 b output 1 z / 1 0 / 3 2 data 1 b output 1 z / 1 0 / 0 / 1 Not 1 2 / 1",
        "ChainShort",
    ),
    (
        "2 data 1 a output 1 y / 1 0 / 2 / 0 / 2 2 data 1 b output 1 z / 1 0 / 3 2 data 1 b output 1 z / 1 0 / 0 / 1 Not 1 2 / 1",
        "Ok",
    ),
    // children that no output reads are counted too
    (
        "2 data 1 a output 1 y / 1 0 / 0 / 0 / 1 2 data 1 b output 1 z / 1 0 / 0 / 0 / 0",
        "ChainShort",
    ),
];

/// Machines with two faults, of which the lesser is told; behind each, one with the greater alone.
const PAIRS: [(&str, &str); 16] = [
    (
        "2 data 1 a output 1 a / 1 0 / 0 / 0 / 1 2 data 1 b output 1 z / 1 0 / 0 / 0 / 1",
        "PortShape",
    ),
    (
        "2 data 1 a output 1 y / 1 0 / 0 / 0 / 1 2 data 1 b output 1 z / 1 0 / 0 / 0 / 1",
        "ChainShort",
    ),
    (
        "2 data 1 a output 1 a / 1 0 / 0 / 0 / 0 / 1 Not 1 1 / 1",
        "PortShape",
    ),
    (
        "2 data 1 a output 1 y / 1 0 / 0 / 0 / 0 / 1 Not 1 1 / 1",
        "SlotOrder",
    ),
    (
        "3 data 1 a data 1 b output 1 y / 1 0 / 0 / 0 / 0 / 2 Not 1 3 Not 2 0 / 3",
        "SlotOrder",
    ),
    (
        "3 data 1 a data 1 b output 1 y / 1 0 / 0 / 0 / 0 / 2 Not 1 1 Not 2 0 / 2",
        "SlotWidth",
    ),
    (
        "1 output 2 y / 0 / 1 / 0 / 1 2 data 1 a output 1 z / 1 0 / 0 / 0 / 0",
        "SlotWidth",
    ),
    (
        "1 output 1 y / 0 / 1 / 0 / 1 2 data 1 a output 1 z / 1 0 / 0 / 0 / 0",
        "CycleInside",
    ),
    (
        "2 data 1 x output 1 y / 0 / 1 / 0 / 1 2 data 1 a output 1 z / 1 0 / 1 / 0 / 0",
        "CycleInside",
    ),
    (
        "2 data 1 x output 1 y / 0 / 1 / 0 / 1 2 data 1 a output 1 z / 0 / 1 / 0 / 0",
        "SummaryShort",
    ),
    (
        "1 output 1 y / 0 / 0 / 0 / 1 2 data 1 a output 1 z / 1 0 / 0 / 0 / 0",
        "CycleInside",
    ),
    (
        "1 output 1 y / 0 / 0 / 0 / 1 2 data 1 a output 1 z / 0 / 0 / 0 / 0",
        "ChainShort",
    ),
    (
        "2 data 1 a output 1 y / 0 / 0 / 0 / 1 2 data 1 b output 1 z / 1 0 / 0 / 0 / 1",
        "SummaryShort",
    ),
    (
        "2 data 1 a output 1 y / 1 0 / 0 / 0 / 1 2 data 1 b output 1 z / 1 0 / 0 / 0 / 1",
        "ChainShort",
    ),
    (
        "2 data 1 a output 2 y / 0 / 0 / 0 / 0 / 1 Not 1 0 / 1",
        "SlotWidth",
    ),
    (
        "2 data 1 a output 1 y / 0 / 0 / 0 / 0 / 1 Not 1 0 / 1",
        "SummaryShort",
    ),
];

fn machine_of(rt: &impl Abort, alloc: Global, text: &str) -> Result<Machine, Fail> {
    let mut words = Words::of(text);
    let m = read_machine(alloc, &mut words)?;
    assert!(rt; words.word().is_empty(), "{text:?}");
    Ok(m)
}

fn name_of(fault: CodeFault) -> &'static str {
    match fault {
        CodeFault::PortShape => "PortShape",
        CodeFault::SlotOrder => "SlotOrder",
        CodeFault::SlotWidth => "SlotWidth",
        CodeFault::CycleInside => "CycleInside",
        CodeFault::SummaryShort => "SummaryShort",
        CodeFault::ChainShort => "ChainShort",
    }
}

/// What the check says of a machine, as a row says it.
fn verdict(rt: &impl Abort, alloc: Global, m: Machine) -> &'static str {
    assert!(rt; has_few_slots(&m));
    match check(alloc, m) {
        Ok(_) => "Ok",
        Err(CheckFault::Bad(fault)) => name_of(fault),
        Err(CheckFault::NoMemory) => "NoMemory",
    }
}

fn each_is_told(rt: &impl Abort, alloc: Global, rows: &[(&str, &str)]) -> Result<(), Fail> {
    for (text, expected) in rows {
        let m = machine_of(rt, alloc, *text)?;
        assert_eq!(rt; verdict(rt, alloc, m), *expected, "{text:?}");
    }
    Ok(())
}

#[test]
fn ports(rt: HostRuntime) -> Result<(), Fail> {
    each_is_told(&rt, rt.alloc(), &PORTS)
}

#[test]
fn slots(rt: HostRuntime) -> Result<(), Fail> {
    each_is_told(&rt, rt.alloc(), &SLOTS)
}

#[test]
fn widths(rt: HostRuntime) -> Result<(), Fail> {
    each_is_told(&rt, rt.alloc(), &WIDTHS)
}

#[test]
fn operations(rt: HostRuntime) -> Result<(), Fail> {
    for (code, expected) in &OPERATIONS {
        let ports = "5 data 4 a data 3 b data 1 c data 4 d";
        let (width, code) = code.split_once(" / ").ok_or("a width")?;
        let text = format!(in rt.alloc();
            "{ports} output {width} y / 4 0 1 2 3 / 0 / 0 / 0 / {code} / 4"
        )?;
        let m = machine_of(&rt, rt.alloc(), text.as_str())?;
        assert_eq!(rt; verdict(&rt, rt.alloc(), m), *expected, "{code:?}");
    }
    Ok(())
}

#[test]
fn cycles(rt: HostRuntime) -> Result<(), Fail> {
    each_is_told(&rt, rt.alloc(), &CYCLES)
}

#[test]
fn summaries(rt: HostRuntime) -> Result<(), Fail> {
    each_is_told(&rt, rt.alloc(), &SUMMARIES)
}

#[test]
fn chains(rt: HostRuntime) -> Result<(), Fail> {
    each_is_told(&rt, rt.alloc(), &CHAINS)
}

#[test]
fn the_lesser_of_two(rt: HostRuntime) -> Result<(), Fail> {
    each_is_told(&rt, rt.alloc(), &PAIRS)
}

/// The word of a slot.
fn word_at(rt: &impl Abort, slots: &[Bits], at: usize) -> u64 {
    assert!(rt; at < slots.len());
    slots[at].word
}

#[test]
fn a_checked_inverter_runs(rt: HostRuntime) -> Result<(), Fail> {
    let m = machine_of(&rt, rt.alloc(), INVERTER)?;
    assert!(rt; has_few_slots(&m));
    let mut trial = Trial::new(rt.alloc(), check(rt.alloc(), m)?)?;
    assert_eq!(rt; trial.slots().len(), 2);
    assert_eq!(rt; word_at(&rt, trial.slots(), 1), 1);
    assert_eq!(rt; trial.run_marked(), 0);
    trial.set(0, 1);
    assert_eq!(rt; trial.run_marked(), 1);
    assert_eq!(rt; word_at(&rt, trial.slots(), 1), 0);
    trial.set(0, 0);
    trial.run_whole();
    assert_eq!(rt; word_at(&rt, trial.slots(), 1), 1);
    Ok(())
}
