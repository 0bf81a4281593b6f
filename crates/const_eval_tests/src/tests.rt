use bit_ops::{Bits, MAX_WIDTH, Word};
use const_eval::{Bound, Const, ConstFault, Env, WholeNumber, assigned_constant, constant};
use expr_parser::{ParseFault, parse_expr};
use std::alloc::{AllocError, Global};
use std::process::Abort;
use std::test::Fail;
use sv_ast::Expr;
use sv_base::{Name, Refusal};
use sv_lexer::{Token, lex};

/// Expressions, each with its size, `s` or `u` for its sign, and its value in hexadecimal, or with its refusal: the line where
/// it is not the first, the kind, and the name. The names that they read are those of `names`.
const NUMBERS_AND_NAMES: [(&str, &str); 64] = [
    ("0", "32 s 0"),
    ("12", "32 s c"),
    ("1_000", "32 s 3e8"),
    ("2147483647", "32 s 7fffffff"),
    ("4'b1010", "4 u a"),
    ("4'B1_0_1_0", "4 u a"),
    ("4'sb1010", "4 s a"),
    ("4'Sb1010", "4 s a"),
    ("8'o377", "8 u ff"),
    ("'hff", "32 u ff"),
    ("'d10", "32 u a"),
    ("'sd10", "32 s a"),
    ("64'hffff_ffff_ffff_ffff", "64 u ffffffffffffffff"),
    ("4'hff", "4 u f"),
    ("12'HaBc", "12 u abc"),
    ("1_6'd7", "16 u 7"),
    ("'0", "1 u 0"),
    ("'1", "1 u 1"),
    ("'1 + 4'd0", "4 u f"),
    ("'1 + 1", "32 u 0"),
    ("P", "3 u 5"),
    ("S", "4 s 8"),
    ("W", "32 s 5"),
    ("D", "1 u 1"),
    ("v", "NotConstant v"),
    ("zz", "UnknownName zz"),
    ("P[0]", "1 u 1"),
    ("P[1]", "1 u 0"),
    ("P[3]", "1 u 0"),
    ("P[-1]", "1 u 0"),
    ("P[4'd15]", "1 u 0"),
    ("Q[4]", "1 u 1"),
    ("Q[11]", "1 u 1"),
    ("Q[10]", "1 u 0"),
    ("Q[12]", "1 u 0"),
    ("Q[3]", "1 u 0"),
    ("Q[7:4]", "4 u 5"),
    ("Q[11:8]", "4 u a"),
    ("Q[9:6]", "4 u 9"),
    ("Q[13:10]", "4 u 2"),
    ("Q[5:2]", "4 u 4"),
    ("Q[4 +: 4]", "4 u 5"),
    ("Q[7 -: 4]", "4 u 5"),
    ("Q[2 +: 4]", "4 u 4"),
    ("Q[11 -: 2]", "2 u 2"),
    ("P[3:5]", "BadRange P"),
    ("P[1 +: 0]", "BadRange P"),
    ("P[1 -: -1]", "BadRange P"),
    ("P[63:0]", "64 u 5"),
    ("P[64:0]", "TooWide"),
    ("P[0 +: 65]", "TooWide"),
    ("P[64'hffffffffffffffff:0]", "TooWide"),
    ("S[3:0]", "4 u 8"),
    ("W[2]", "1 u 1"),
    ("W[31:0]", "32 u 5"),
    ("P[v]", "NotConstant v"),
    ("P[zz]", "UnknownName zz"),
    ("v[zz]", "NotConstant v"),
    ("zz[v]", "UnknownName zz"),
    ("P[v:zz]", "NotConstant v"),
    ("P[0 +: v]", "NotConstant v"),
    ("1 +\nzz", "2: UnknownName zz"),
    ("1 +\nP\n[64:0]", "2: TooWide"),
    ("P\n[3:5]", "BadRange P"),
];

const SIGNS_AND_ARITHMETIC: [(&str, &str); 44] = [
    ("-1", "32 s ffffffff"),
    ("+P", "3 u 5"),
    ("-P", "3 u 3"),
    ("~P", "3 u 2"),
    ("!P", "1 u 0"),
    ("!(P - 5)", "1 u 1"),
    ("&3'b111", "1 u 1"),
    ("&P", "1 u 0"),
    ("~&P", "1 u 1"),
    ("|P", "1 u 1"),
    ("~|P", "1 u 0"),
    ("^P", "1 u 0"),
    ("^3'b111", "1 u 1"),
    ("~^P", "1 u 1"),
    ("^~P", "1 u 1"),
    ("-S", "4 s 8"),
    ("~S", "4 s 7"),
    ("8'hff + 8'h01", "8 u 0"),
    ("8'hff + 9'h001", "9 u 100"),
    ("(8'hff + 8'h01) >> 1", "8 u 0"),
    ("((8'hff + 8'h01) >> 1) + 9'd0", "9 u 80"),
    ("4'd3 - 4'd5", "4 u e"),
    ("3 - 5", "32 s fffffffe"),
    ("4'd7 * 4'd7", "4 u 1"),
    ("64'hffffffffffffffff * 64'hffffffffffffffff", "64 u 1"),
    ("7 / 2", "32 s 3"),
    ("-7 / 2", "32 s fffffffd"),
    ("-7 % 2", "32 s ffffffff"),
    ("7 % -2", "32 s 1"),
    ("7 / 0", "32 s 0"),
    ("7 % 0", "32 s 0"),
    ("S / 4'sb1111", "4 s 8"),
    ("S % 4'sb1111", "4 s 0"),
    ("4'sb1001 / 4'sd2", "4 s d"),
    ("4'sb1001 % 4'sd2", "4 s f"),
    ("S / 4'd2", "4 u 4"),
    ("4'b1100 & 4'b1010", "4 u 8"),
    ("4'b1100 | 4'b1010", "4 u e"),
    ("4'b1100 ^ 4'b1010", "4 u 6"),
    ("4'b1100 ~^ 4'b1010", "4 u 9"),
    ("4'b1100 ^~ 4'b1010", "4 u 9"),
    ("S + 8'sd0", "8 s f8"),
    ("S + 8'd0", "8 u 8"),
    ("S + 4'd0", "4 u 8"),
];

const COMPARISONS_AND_SHIFTS: [(&str, &str); 33] = [
    ("-1 < 0", "1 u 1"),
    ("-1 < 8'd1", "1 u 0"),
    ("-1 < 8'sd1", "1 u 1"),
    ("3 <= 3", "1 u 1"),
    ("4 <= 3", "1 u 0"),
    ("3 > 3", "1 u 0"),
    ("4 > 3", "1 u 1"),
    ("3 >= 4", "1 u 0"),
    ("4 >= 4", "1 u 1"),
    ("3 == 3", "1 u 1"),
    ("3 != 3", "1 u 0"),
    ("S == 8'hf8", "1 u 0"),
    ("S == 8'shf8", "1 u 1"),
    ("(3 < 4) + 4'd0", "4 u 1"),
    ("P && 0", "1 u 0"),
    ("P && 1", "1 u 1"),
    ("0 || P", "1 u 1"),
    ("0 || 0", "1 u 0"),
    ("1 << 4", "32 s 10"),
    ("4'b1000 << 1", "4 u 0"),
    ("4'b1000 <<< 1", "4 u 0"),
    ("1 << 32", "32 s 0"),
    ("1 << -1", "32 s 0"),
    ("1 << 64'hffffffffffffffff", "32 s 0"),
    ("4'b1000 >> 3", "4 u 1"),
    ("S >> 1", "4 s 4"),
    ("S >>> 1", "4 s c"),
    ("S >>> 4", "4 s f"),
    ("4'b1000 >>> 1", "4 u 4"),
    ("(S >>> 1) + 8'd0", "8 u 4"),
    ("(S >>> 1) + 8'sd0", "8 s fc"),
    ("'1 << 1", "1 u 0"),
    ("('1 << 1) | 8'd0", "8 u fe"),
];

const POWERS_AND_CHOICES: [(&str, &str); 27] = [
    ("2 ** 10", "32 s 400"),
    ("3 ** 0", "32 s 1"),
    ("0 ** 0", "32 s 1"),
    ("4'd3 ** 2", "4 u 9"),
    ("4'd3 ** 3", "4 u b"),
    ("2 ** 32", "32 s 0"),
    ("(-2) ** 3", "32 s fffffff8"),
    ("2 ** 4'b1000", "32 s 100"),
    ("2 ** -1", "BadRange"),
    ("2 ** S", "BadRange"),
    ("2\n** -1", "2: BadRange"),
    ("v ** -1", "NotConstant v"),
    ("zz ** v", "UnknownName zz"),
    ("1 ? 4'd5 : 8'd6", "8 u 5"),
    ("0 ? 4'd5 : 8'd6", "8 u 6"),
    ("1 ? S : 8'd0", "8 u 8"),
    ("1 ? S : 8'sd0", "8 s f8"),
    ("P ? 1 : 2", "32 s 1"),
    ("1 ? 2 : zz", "UnknownName zz"),
    ("v ? zz : 1", "NotConstant v"),
    ("-v", "NotConstant v"),
    ("v + zz", "NotConstant v"),
    ("zz + v", "UnknownName zz"),
    ("P + v", "NotConstant v"),
    ("1 ? v : 2", "NotConstant v"),
    ("(P)", "3 u 5"),
    ("- - S", "4 s 8"),
];

const PARTS_AND_FUNCTIONS: [(&str, &str); 35] = [
    ("{4'd1, 4'd2}", "8 u 12"),
    ("{1'b1}", "1 u 1"),
    ("{2{4'h9}}", "8 u 99"),
    ("{3{2'b10}}", "6 u 2a"),
    ("{2{1'b1, 2'b00}}", "6 u 24"),
    ("{{2{2'b01}}, 1'b1}", "5 u b"),
    ("{S, 4'd0}", "8 u 80"),
    ("{4'd15 + 4'd1, 1'b0}", "5 u 0"),
    ("{32'd1, 32'd2}", "64 u 100000002"),
    ("{64{1'b1}}", "64 u ffffffffffffffff"),
    ("{65{1'b1}}", "TooWide"),
    ("{33{2'b11}}", "TooWide"),
    ("{64'hffffffffffffffff{1'b1}}", "TooWide"),
    ("{32'd0, 32'd0, 1'b0}", "TooWide"),
    ("{\n65{1'b1}}", "TooWide"),
    ("1 +\n{65{1'b1}}", "2: TooWide"),
    ("{0{1'b1}}", "BadRange"),
    ("{-1{1'b1}}", "BadRange"),
    ("{0{zz}}", "UnknownName zz"),
    ("{v{zz}}", "NotConstant v"),
    ("{P[0], v}", "NotConstant v"),
    ("$signed(4'b1000) + 8'sd0", "8 s f8"),
    ("$unsigned(S) + 8'sd0", "8 u 8"),
    ("$signed(P)", "3 s 5"),
    ("$signed(zz)", "UnknownName zz"),
    ("$clog2(0)", "32 s 0"),
    ("$clog2(1)", "32 s 0"),
    ("$clog2(2)", "32 s 1"),
    ("$clog2(3)", "32 s 2"),
    ("$clog2(4)", "32 s 2"),
    ("$clog2(5)", "32 s 3"),
    ("$clog2(9)", "32 s 4"),
    ("$clog2(-1)", "32 s 20"),
    ("$clog2(64'hffffffffffffffff)", "32 s 40"),
    ("$clog2(v)", "NotConstant v"),
];

/// Expressions that are assigned to so many bits: each with the width, and the value in hexadecimal or the refusal.
const ASSIGNED: [(&str, u32, &str); 20] = [
    ("4'd15 + 4'd1", 8, "10"),
    ("4'd15 + 4'd1", 4, "0"),
    ("{4'd15 + 4'd1}", 8, "0"),
    ("(4'd15 + 4'd1) >> 1", 8, "8"),
    ("-1", 8, "ff"),
    ("-5 / 2", 4, "e"),
    ("4'sb1000", 8, "f8"),
    ("4'b1000", 8, "8"),
    ("4'sb1111 + 4'd0", 8, "f"),
    ("4'sd7 + 4'sd1", 5, "8"),
    ("4'sd7 + 4'sd1", 8, "8"),
    ("~4'd0", 8, "ff"),
    ("'1", 9, "1ff"),
    ("'0", 9, "0"),
    ("8'hff", 4, "f"),
    ("64'hffff_ffff_ffff_ffff", 1, "1"),
    ("64'hffff_ffff_ffff_ffff", 64, "ffffffffffffffff"),
    ("S", 8, "f8"),
    ("v", 8, "NotConstant v"),
    ("zz + v", 1, "UnknownName zz"),
];

/// Constants: each with its name, width, word and sign, and the lowest position of its range.
const CONSTANTS: [(&str, u32, Word, bool, u32); 6] = [
    ("P", 3, 5, false, 0),
    ("Q", 8, 0xa5, false, 4),
    ("S", 4, 8, true, 0),
    ("W", 32, 5, true, 0),
    ("D", 1, 0, false, 0),
    ("D", 1, 1, false, 0),
];

/// A constant of a width that a value may have, which is told of the widths here.
fn value(rt: &impl Abort, width: u32, word: Word, signed: bool) -> Const {
    assert!(rt; width >= 1 && width <= MAX_WIDTH);
    Const {
        value: Bits::truncated(width, word),
        signed,
    }
}

fn declare(alloc: Global, env: &mut Env, text: &str, bound: Bound) -> Result<(), AllocError> {
    let name = Name::of(alloc, text.as_bytes())?;
    env.declare(alloc, &name, bound)?;
    Ok(())
}

/// The names of `CONSTANTS`, of which of two alike the later one counts, and the net `v`.
fn names(rt: &impl Abort, alloc: Global) -> Result<Env, AllocError> {
    let mut env = Env::new(alloc);
    for (name, width, word, signed, low) in CONSTANTS {
        let value = value(rt, width, word, signed);
        declare(alloc, &mut env, name, Bound::Constant { value, low })?;
    }
    declare(alloc, &mut env, "v", Bound::Variable(0))?;
    Ok(env)
}

/// What a constant is, as a row says it.
fn show(alloc: Global, constant: Const) -> Result<String, AllocError> {
    let width = constant.value.width;
    let word = constant.value.word;
    if constant.signed {
        format!(in alloc; "{width} s {word:x}")
    } else {
        format!(in alloc; "{width} u {word:x}")
    }
}

fn show_refusal(alloc: Global, refusal: &Refusal) -> Result<String, AllocError> {
    let line = refusal.place.line;
    let mut out = if line == 1 {
        String::new(alloc)
    } else {
        format!(in alloc; "{line}: ")?
    };
    out.push_str(refusal.kind.text())?;
    if !refusal.name.bytes().is_empty() {
        out.push(' ')?;
    }
    for byte in refusal.name.bytes() {
        out.push(char::from(*byte))?;
    }
    Ok(out)
}

/// The tokens of the text, whose first line is line 1 of file 1.
fn tokens_of(alloc: Global, text: &str) -> Result<Vec<Token>, Fail> {
    Ok(lex(alloc, 1, text.as_bytes())?.into_vec())
}

fn tree_of(alloc: Global, tokens: &Vec<Token>) -> Result<Expr, ParseFault> {
    let (tree, _) = parse_expr(alloc, tokens, 0, 0)?;
    Ok(tree)
}

/// What the constant of a tree is, as a row says it.
fn told(alloc: Global, tree: &Expr, env: &Env) -> Result<String, AllocError> {
    match constant(alloc, tree, env) {
        Ok(constant) => show(alloc, constant),
        Err(ConstFault::Refused(refusal)) => show_refusal(alloc, &refusal),
        Err(ConstFault::NoMemory) => Err(AllocError),
    }
}

/// What an expression is among these names, as a row says it.
fn shown(alloc: Global, text: &str, env: &Env) -> Result<String, Fail> {
    let tokens = tokens_of(alloc, text)?;
    let tree = tree_of(alloc, &tokens)?;
    Ok(told(alloc, &tree, env)?)
}

fn outcome(rt: &impl Abort, alloc: Global, text: &str) -> Result<String, Fail> {
    let env = names(rt, alloc)?;
    shown(alloc, text, &env)
}

/// What an expression is where it is assigned to so many bits, as a row says it.
fn assigned(rt: &impl Abort, alloc: Global, text: &str, width: u32) -> Result<String, Fail> {
    assert!(rt; width >= 1 && width <= MAX_WIDTH);
    let env = names(rt, alloc)?;
    let tokens = tokens_of(alloc, text)?;
    let tree = tree_of(alloc, &tokens)?;
    match assigned_constant(alloc, &tree, &env, width) {
        Ok(bits) => {
            assert_eq!(rt; bits.width, width, "{text:?}");
            let word = bits.word;
            Ok(format!(in alloc; "{word:x}")?)
        }
        Err(ConstFault::Refused(refusal)) => Ok(show_refusal(alloc, &refusal)?),
        Err(ConstFault::NoMemory) => Err(AllocError)?,
    }
}

fn each_is_told(rt: &impl Abort, alloc: Global, rows: &[(&str, &str)]) -> Result<(), Fail> {
    for (text, expected) in rows {
        let found = outcome(rt, alloc, *text)?;
        assert_eq!(rt; found.as_str(), *expected, "{text:?}");
    }
    Ok(())
}

#[test]
fn numbers_and_names(rt: HostRuntime) -> Result<(), Fail> {
    each_is_told(&rt, rt.alloc(), &NUMBERS_AND_NAMES)
}

#[test]
fn signs_and_arithmetic(rt: HostRuntime) -> Result<(), Fail> {
    each_is_told(&rt, rt.alloc(), &SIGNS_AND_ARITHMETIC)
}

#[test]
fn comparisons_and_shifts(rt: HostRuntime) -> Result<(), Fail> {
    each_is_told(&rt, rt.alloc(), &COMPARISONS_AND_SHIFTS)
}

#[test]
fn powers_and_choices(rt: HostRuntime) -> Result<(), Fail> {
    each_is_told(&rt, rt.alloc(), &POWERS_AND_CHOICES)
}

#[test]
fn parts_and_functions(rt: HostRuntime) -> Result<(), Fail> {
    each_is_told(&rt, rt.alloc(), &PARTS_AND_FUNCTIONS)
}

#[test]
fn assigned_values(rt: HostRuntime) -> Result<(), Fail> {
    for (text, width, expected) in ASSIGNED {
        let found = assigned(&rt, rt.alloc(), text, width)?;
        assert_eq!(rt; found.as_str(), expected, "{text:?}");
    }
    Ok(())
}

/// `P` stands for a net, then for what it stood for before, and then for nothing.
fn restored(rt: &impl Abort, alloc: Global, env: &mut Env) -> Result<(), Fail> {
    let name = Name::of(alloc, b"P")?;
    let before = env.declare(alloc, &name, Bound::Variable(7))?;
    assert_eq!(rt; shown(alloc, "P", env)?.as_str(), "NotConstant P");
    env.restore(&name, before);
    assert_eq!(rt; shown(alloc, "P", env)?.as_str(), "3 u 5");
    assert!(rt; env.bound(&name).is_some());
    env.restore(&name, None);
    assert_eq!(rt; shown(alloc, "P", env)?.as_str(), "UnknownName P");
    assert_eq!(rt; shown(alloc, "Q", env)?.as_str(), "8 u a5");
    Ok(())
}

#[test]
fn names_are_restored(rt: HostRuntime) -> Result<(), Fail> {
    let mut env = names(&rt, rt.alloc())?;
    restored(&rt, rt.alloc(), &mut env)
}

/// The whole numbers that constants stand for.
#[test]
fn numbers_of_constants(rt: HostRuntime) {
    assert_eq!(rt; value(&rt, 4, 8, true).number(), WholeNumber::Negative(7));
    assert_eq!(rt;
        value(&rt, 4, 8, false).number(),
        WholeNumber::NotNegative(8)
    );
    assert_eq!(rt;
        value(&rt, 4, 7, true).number(),
        WholeNumber::NotNegative(7)
    );
}
