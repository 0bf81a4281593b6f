use crate::{ParseFault, parse_expr};
use std::alloc::{AllocError, Global};
use std::process::Abort;
use std::test::Fail;
use sv_ast::{Expr, Id, Sel};
use sv_lexer::{Token, lex};

/// Texts, each with its tree and the number of tokens that it takes, or with its refusal. In a tree each operator
/// stands in parentheses with its operands.
const ROWS: [(&str, &str); 128] = [
    ("a", "a 1"),
    ("12", "12 1"),
    ("8'hff", "8'hff 1"),
    ("'0", "'0 1"),
    ("'1", "'1 1"),
    ("x1", "x1 1"),
    ("(a)", "a 3"),
    ("((a))", "a 5"),
    ("-a", "(- a) 2"),
    ("+a", "(+ a) 2"),
    ("!a", "(! a) 2"),
    ("~a", "(~ a) 2"),
    ("&a", "(& a) 2"),
    ("~&a", "(~& a) 2"),
    ("|a", "(| a) 2"),
    ("~|a", "(~| a) 2"),
    ("^a", "(^ a) 2"),
    ("~^a", "(~^ a) 2"),
    ("^~a", "(^~ a) 2"),
    ("& &a", "(& (& a)) 3"),
    ("- - !a", "(- (- (! a))) 4"),
    ("-a ** b", "((- a) ** b) 4"),
    ("a ** -b", "(a ** (- b)) 4"),
    ("a ** b ** c", "((a ** b) ** c) 5"),
    ("a ** b * c", "((a ** b) * c) 5"),
    ("a * b ** c", "(a * (b ** c)) 5"),
    ("a * b / c % d", "(((a * b) / c) % d) 7"),
    ("a * b + c", "((a * b) + c) 5"),
    ("a + b * c", "(a + (b * c)) 5"),
    ("a - b % c", "(a - (b % c)) 5"),
    ("a / b - c", "((a / b) - c) 5"),
    ("a + b - c", "((a + b) - c) 5"),
    ("a - b + c", "((a - b) + c) 5"),
    ("a + b << c", "((a + b) << c) 5"),
    ("a << b + c", "(a << (b + c)) 5"),
    ("a >> b - c", "(a >> (b - c)) 5"),
    (
        "a << b >> c <<< d >>> e",
        "((((a << b) >> c) <<< d) >>> e) 9",
    ),
    ("a <<< b < c", "((a <<< b) < c) 5"),
    ("a < b <<< c", "(a < (b <<< c)) 5"),
    ("a >= b >>> c", "(a >= (b >>> c)) 5"),
    ("a < b <= c > d >= e", "((((a < b) <= c) > d) >= e) 9"),
    ("a < b == c", "((a < b) == c) 5"),
    ("a == b < c", "(a == (b < c)) 5"),
    ("a != b >= c", "(a != (b >= c)) 5"),
    ("a == b != c", "((a == b) != c) 5"),
    ("a == b & c", "((a == b) & c) 5"),
    ("a & b != c", "(a & (b != c)) 5"),
    ("a & b & c", "((a & b) & c) 5"),
    ("a & b ^ c", "((a & b) ^ c) 5"),
    ("a ^ b & c", "(a ^ (b & c)) 5"),
    ("a ~^ b & c", "(a ~^ (b & c)) 5"),
    ("a ^ b ~^ c ^~ d", "(((a ^ b) ~^ c) ^~ d) 7"),
    ("a ^ b | c", "((a ^ b) | c) 5"),
    ("a | b ^~ c", "(a | (b ^~ c)) 5"),
    ("a | b | c", "((a | b) | c) 5"),
    ("a | b && c", "((a | b) && c) 5"),
    ("a && b | c", "(a && (b | c)) 5"),
    ("a && b && c", "((a && b) && c) 5"),
    ("a && b || c", "((a && b) || c) 5"),
    ("a || b && c", "(a || (b && c)) 5"),
    ("a || b || c", "((a || b) || c) 5"),
    ("a || b ? c : d", "((a || b) ? c : d) 7"),
    ("a ? b : c || d", "(a ? b : (c || d)) 7"),
    ("a ? b || c : d", "(a ? (b || c) : d) 7"),
    ("a ? b : c ? d : e", "(a ? b : (c ? d : e)) 9"),
    ("a ? b ? c : d : e", "(a ? (b ? c : d) : e) 9"),
    ("(a ? b : c) ? d : e", "((a ? b : c) ? d : e) 11"),
    ("a + (b ? c : d)", "(a + (b ? c : d)) 9"),
    ("(a + b) * c", "((a + b) * c) 7"),
    ("a * (b + c)", "(a * (b + c)) 7"),
    ("a & &b", "(a & (& b)) 4"),
    ("a && &b", "(a && (& b)) 4"),
    ("a - -b", "(a - (- b)) 4"),
    ("a + b * c ** d", "(a + (b * (c ** d))) 7"),
    ("a ** b * c + d", "(((a ** b) * c) + d) 7"),
    ("-a * -b + ~c", "(((- a) * (- b)) + (~ c)) 8"),
    (
        "a || b && c | d ^ e & f == g < h << i + j * k ** l",
        "(a || (b && (c | (d ^ (e & (f == (g < (h << (i + (j * (k ** l))))))))))) 23",
    ),
    (
        "a ** b * c + d << e < f == g & h ^ i | j && k || l",
        "(((((((((((a ** b) * c) + d) << e) < f) == g) & h) ^ i) | j) && k) || l) 23",
    ),
    ("{a}", "{a,} 3"),
    ("{a, b}", "{a,b,} 5"),
    ("{a, {3{b}}, c[7:0]}", "{a,{3{b,}},c[7:0],} 17"),
    ("{2{a, b}}", "{2{a,b,}} 8"),
    ("{2 * n{a}}", "{(2 * n){a,}} 8"),
    ("{{a}}", "{{a,},} 5"),
    ("{{2{a}}}", "{{2{a,}},} 8"),
    ("{a + b, -c}", "{(a + b),(- c),} 8"),
    ("c[3]", "c[3] 4"),
    ("c[7:0]", "c[7:0] 6"),
    ("c[i +: 4]", "c[i+:4] 6"),
    ("c[i -: 4]", "c[i-:4] 6"),
    ("c[i + 1]", "c[(i + 1)] 6"),
    ("c[i ? 1 : 0 : 2]", "c[(i ? 1 : 0):2] 10"),
    ("c[a[b[1]]]", "c[a[b[1]]] 10"),
    ("$signed(a)", "$signed(a) 4"),
    (
        "$unsigned(a + b) * $clog2(c)",
        "($unsigned((a + b)) * $clog2(c)) 11",
    ),
    ("$clog2 (8)", "$clog2(8) 4"),
    ("a === b", "a 1"),
    ("(a === b)", "Unsupported === 1:1"),
    ("(a !== b)", "Unsupported !== 1:1"),
    ("a[1][2]", "a[1] 4"),
    ("(a[1][2])", "Unexpected [ 1:1"),
    ("a[1:2:3]", "Unexpected : 1:1"),
    ("a[1 +: 2 -: 3]", "Unexpected -: 1:1"),
    ("a[]", "Unexpected ] 1:1"),
    ("a +", "Unexpected  1:1"),
    ("(a", "Unexpected  1:1"),
    ("(a]", "Unexpected ] 1:1"),
    ("()", "Unexpected ) 1:1"),
    ("{}", "Unexpected } 1:1"),
    ("{a,}", "Unexpected } 1:1"),
    ("{2{}}", "Unexpected } 1:1"),
    ("{2{a}", "Unexpected  1:1"),
    ("{2{a}, b}", "Unexpected , 1:1"),
    ("{a, 2{b}}", "Unexpected { 1:1"),
    ("", "Unexpected  0:0"),
    ("a b", "a 1"),
    ("a 1", "a 1"),
    ("a ? b", "Unexpected  1:1"),
    ("a ? b ; c", "Unexpected ; 1:1"),
    ("a ? : c", "Unexpected : 1:1"),
    ("$signed a", "Unexpected a 1:1"),
    ("$time", "Unsupported $time 1:1"),
    ("a + $time", "Unsupported $time 1:1"),
    ("inout", "Unsupported inout 1:1"),
    ("a + inside", "Unsupported inside 1:1"),
    ("module", "Unexpected module 1:1"),
    ("a + end", "Unexpected end 1:1"),
    ("(a ++ b)", "Unexpected ++ 1:1"),
];

fn put(out: &mut Vec<u8>, text: &str) -> Result<(), AllocError> {
    out.extend_from_slice(text.as_bytes())
}

fn put_id(out: &mut Vec<u8>, id: &Id) -> Result<(), AllocError> {
    out.extend_from_slice(id.name.bytes())
}

#[cycle(show)]
fn show_select(out: &mut Vec<u8>, select: &Sel) -> Result<(), AllocError> {
    put(out, "[")?;
    match select {
        Sel::Bit(_, at) => show(out, at.get())?,
        Sel::Part(_, high, low) => {
            show(out, high.get())?;
            put(out, ":")?;
            show(out, low.get())?;
        }
        Sel::Up(_, at, width) => {
            show(out, at.get())?;
            put(out, "+:")?;
            show(out, width.get())?;
        }
        Sel::Down(_, at, width) => {
            show(out, at.get())?;
            put(out, "-:")?;
            show(out, width.get())?;
        }
    }
    put(out, "]")
}

#[cycle(show)]
fn show_list(out: &mut Vec<u8>, trees: &[Expr]) -> Result<(), AllocError> {
    for tree in trees {
        show(out, tree)?;
        put(out, ",")?;
    }
    Ok(())
}

#[cycle(show)]
fn show(out: &mut Vec<u8>, tree: &Expr) -> Result<(), AllocError> {
    match tree {
        Expr::Number(id) | Expr::Fill(id) => put_id(out, id),
        Expr::Read(id, selects) => {
            put_id(out, id)?;
            for select in selects.as_slice() {
                show_select(out, select)?;
            }
            Ok(())
        }
        Expr::Unary(sign, operand) => {
            put(out, "(")?;
            put_id(out, sign)?;
            put(out, " ")?;
            show(out, operand.get())?;
            put(out, ")")
        }
        Expr::Binary(sign, left, right) => {
            put(out, "(")?;
            show(out, left.get())?;
            put(out, " ")?;
            put_id(out, sign)?;
            put(out, " ")?;
            show(out, right.get())?;
            put(out, ")")
        }
        Expr::Choice(_, test, first, second) => {
            put(out, "(")?;
            show(out, test.get())?;
            put(out, " ? ")?;
            show(out, first.get())?;
            put(out, " : ")?;
            show(out, second.get())?;
            put(out, ")")
        }
        Expr::Concat(_, parts) => {
            put(out, "{")?;
            show_list(out, parts.as_slice())?;
            put(out, "}")
        }
        Expr::Repeat(_, count, parts) => {
            put(out, "{")?;
            show(out, count.get())?;
            put(out, "{")?;
            show_list(out, parts.as_slice())?;
            put(out, "}}")
        }
        Expr::System(function, argument) => {
            put_id(out, function)?;
            put(out, "(")?;
            show(out, argument.get())?;
            put(out, ")")
        }
    }
}

/// What a run gives, as a row says it.
fn outcome(alloc: Global, read: Result<(Expr, usize), ParseFault>) -> Result<Vec<u8>, AllocError> {
    let mut out = Vec::new(alloc);
    match read {
        Ok((tree, after)) => {
            show(&mut out, &tree)?;
            let after = format!(in alloc; " {after}")?;
            put(&mut out, after.as_str())?;
        }
        Err(ParseFault::Refused(refusal)) => {
            put(&mut out, refusal.kind.text())?;
            put(&mut out, " ")?;
            out.extend_from_slice(refusal.name.bytes())?;
            let place = refusal.place;
            let file = place.file;
            let line = place.line;
            let place = format!(in alloc; " {file}:{line}")?;
            put(&mut out, place.as_str())?;
        }
        Err(ParseFault::NoMemory) => return Err(AllocError),
    }
    Ok(out)
}

/// The tokens of the text, whose first line is line 1 of file 1.
fn tokens_of(alloc: Global, text: &[u8]) -> Result<Vec<Token>, Fail> {
    Ok(lex(alloc, 1, text)?.into_vec())
}

fn check(rt: &impl Abort, alloc: Global, text: &[u8], expected: &str) -> Result<(), Fail> {
    let tokens = tokens_of(alloc, text)?;
    let found = outcome(alloc, parse_expr(alloc, &tokens, 0, 0))?;
    assert_eq!(rt; found.as_slice(), expected.as_bytes(), "{text:?}");
    Ok(())
}

fn each_is_read(rt: &impl Abort, alloc: Global, rows: &[(&str, &str)]) -> Result<(), Fail> {
    for (text, expected) in rows {
        check(rt, alloc, text.as_bytes(), *expected)?;
    }
    Ok(())
}

#[test]
fn rows_are_read(rt: HostRuntime) -> Result<(), Fail> {
    each_is_read(&rt, rt.alloc(), &ROWS)
}

/// The text `count` times, and then the end.
fn repeated(alloc: Global, count: u32, text: &str, end: &str) -> Result<Vec<u8>, AllocError> {
    let mut out = Vec::new(alloc);
    for _turn in 0..count {
        put(&mut out, text)?;
    }
    put(&mut out, end)?;
    Ok(out)
}

/// Texts that nest once each time. The 257th is one too many.
const DEEP: [&str; 9] = ["(", "- ", "a+", "a**", "a?b:", "a?", "{", "a[", "{(-"];

fn each_is_too_deep(rt: &impl Abort, alloc: Global, texts: &[&str]) -> Result<(), Fail> {
    for text in texts {
        let long = repeated(alloc, 257, *text, "a")?;
        check(rt, alloc, long.as_slice(), "TooMany nesting 1:1")?;
    }
    Ok(())
}

#[test]
fn nesting_has_its_limit(rt: HostRuntime) -> Result<(), Fail> {
    each_is_too_deep(&rt, rt.alloc(), &DEEP)
}

/// Whether the text of so many tokens is read whole.
fn is_whole(alloc: Global, text: &[u8], depth: u32) -> Result<bool, Fail> {
    if depth > 256 {
        return Ok(false);
    }
    let tokens = tokens_of(alloc, text)?;
    let whole = match parse_expr(alloc, &tokens, 0, depth) {
        Ok((_, after)) => after == tokens.len(),
        Err(_) => false,
    };
    Ok(whole)
}

/// The text is read whole at this open nesting, and at no greater one.
fn is_deep(rt: &impl Abort, alloc: Global, text: &[u8], depth: u32) -> Result<(), Fail> {
    assert!(rt; is_whole(alloc, text, depth)?, "{text:?}");
    assert!(rt;
        !is_whole(alloc, text, depth.saturating_add(1))?,
        "{text:?}"
    );
    Ok(())
}

/// Texts that nest once each time, or twice.
const FULL: [(u32, &str); 5] = [
    (256, "- "),
    (256, "a+"),
    (256, "a**"),
    (256, "a?b:"),
    (128, "!~"),
];

fn each_is_deep(rt: &impl Abort, alloc: Global, rows: &[(u32, &str)]) -> Result<(), Fail> {
    for (count, text) in rows {
        let long = repeated(alloc, *count, *text, "a")?;
        is_deep(rt, alloc, long.as_slice(), 0)?;
    }
    Ok(())
}

#[test]
fn nesting_of_256_is_accepted(rt: HostRuntime) -> Result<(), Fail> {
    each_is_deep(&rt, rt.alloc(), &FULL)
}

#[test]
fn brackets_nest_to_256(rt: HostRuntime) -> Result<(), Fail> {
    let alloc = rt.alloc();
    let mut text = repeated(alloc, 256, "(", "a")?;
    let closes = repeated(alloc, 256, ")", "")?;
    text.extend_from_slice(closes.as_slice())?;
    is_deep(&rt, alloc, text.as_slice(), 0)
}

#[test]
fn a_long_list_does_not_nest(rt: HostRuntime) -> Result<(), Fail> {
    let alloc = rt.alloc();
    let mut list = repeated(alloc, 1, "{", "")?;
    let parts = repeated(alloc, 2000, "-(a+b),", "c}")?;
    list.extend_from_slice(parts.as_slice())?;
    is_deep(&rt, alloc, list.as_slice(), 252)
}

const MARK: &str = "/*verilator hier_block*/";

/// The text with a mark in place of each blank, and marks at its ends.
fn with_marks(alloc: Global, text: &str) -> Result<Vec<u8>, AllocError> {
    let mut out = repeated(alloc, 1, MARK, "")?;
    for byte in text.as_bytes() {
        if *byte == b' ' {
            put(&mut out, MARK)?;
        } else {
            out.push(*byte)?;
        }
    }
    put(&mut out, MARK)?;
    Ok(out)
}

/// The text with blanks, what it gives, and what it gives with marks.
const MARKED: [(&str, &str, &str); 5] = [
    ("a + b", "(a + b) 3", "(a + b) 6"),
    ("- ( a [ 1 : 0 ] )", "(- a[1:0]) 9", "(- a[1:0]) 18"),
    ("{ 2 { c } }", "{2{c,}} 6", "{2{c,}} 12"),
    (
        "$signed ( a ) ? b : c",
        "($signed(a) ? b : c) 8",
        "($signed(a) ? b : c) 16",
    ),
    ("( a", "Unexpected  1:1", "Unexpected  1:1"),
];

fn each_with_marks(
    rt: &impl Abort,
    alloc: Global,
    rows: &[(&str, &str, &str)],
) -> Result<(), Fail> {
    for (text, plain, expected) in rows {
        check(rt, alloc, text.as_bytes(), *plain)?;
        let marked = with_marks(alloc, *text)?;
        check(rt, alloc, marked.as_slice(), *expected)?;
    }
    Ok(())
}

#[test]
fn marks_change_nothing(rt: HostRuntime) -> Result<(), Fail> {
    each_with_marks(&rt, rt.alloc(), &MARKED)
}

/// What is read from a place on, at an open nesting.
fn read_from(
    rt: &impl Abort,
    alloc: Global,
    text: &[u8],
    at: usize,
    expected: &str,
) -> Result<(), Fail> {
    let tokens = tokens_of(alloc, text)?;
    assert!(rt; at <= tokens.len());
    let found = outcome(alloc, parse_expr(alloc, &tokens, at, 7))?;
    assert_eq!(rt; found.as_slice(), expected.as_bytes(), "{text:?}");
    Ok(())
}

#[test]
fn reading_begins_at_its_place(rt: HostRuntime) -> Result<(), Fail> {
    let text = b"assign y = a + b ; c";
    read_from(&rt, rt.alloc(), text, 3, "(a + b) 6")?;
    read_from(&rt, rt.alloc(), text, 0, "Unexpected assign 1:1")?;
    read_from(&rt, rt.alloc(), text, 8, "Unexpected  1:1")
}
