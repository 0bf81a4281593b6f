use crate::{LexFault, Token, TokenKind, lex};
use std::alloc::{AllocError, Global};
use std::process::Abort;
use std::test::Fail;
use sv_base::{Kind, Refusal, Sequence};

/// Texts that are one token, with its kind.
const SINGLES: [(TokenKind, &[u8]); 107] = [
    (TokenKind::Sign, b"<<<"),
    (TokenKind::Sign, b">>>"),
    (TokenKind::Sign, b"==="),
    (TokenKind::Sign, b"!=="),
    (TokenKind::Sign, b"<<"),
    (TokenKind::Sign, b">>"),
    (TokenKind::Sign, b"<="),
    (TokenKind::Sign, b">="),
    (TokenKind::Sign, b"=="),
    (TokenKind::Sign, b"!="),
    (TokenKind::Sign, b"&&"),
    (TokenKind::Sign, b"||"),
    (TokenKind::Sign, b"~&"),
    (TokenKind::Sign, b"~|"),
    (TokenKind::Sign, b"~^"),
    (TokenKind::Sign, b"^~"),
    (TokenKind::Sign, b"**"),
    (TokenKind::Sign, b"+:"),
    (TokenKind::Sign, b"-:"),
    (TokenKind::Sign, b"++"),
    (TokenKind::Sign, b"--"),
    (TokenKind::Sign, b"+="),
    (TokenKind::Sign, b"-="),
    (TokenKind::Sign, b"("),
    (TokenKind::Sign, b")"),
    (TokenKind::Sign, b"["),
    (TokenKind::Sign, b"]"),
    (TokenKind::Sign, b"{"),
    (TokenKind::Sign, b"}"),
    (TokenKind::Sign, b";"),
    (TokenKind::Sign, b":"),
    (TokenKind::Sign, b","),
    (TokenKind::Sign, b"."),
    (TokenKind::Sign, b"#"),
    (TokenKind::Sign, b"@"),
    (TokenKind::Sign, b"?"),
    (TokenKind::Sign, b"="),
    (TokenKind::Sign, b"+"),
    (TokenKind::Sign, b"-"),
    (TokenKind::Sign, b"*"),
    (TokenKind::Sign, b"/"),
    (TokenKind::Sign, b"%"),
    (TokenKind::Sign, b"&"),
    (TokenKind::Sign, b"|"),
    (TokenKind::Sign, b"^"),
    (TokenKind::Sign, b"~"),
    (TokenKind::Sign, b"!"),
    (TokenKind::Sign, b"<"),
    (TokenKind::Sign, b">"),
    (TokenKind::Word, b"a"),
    (TokenKind::Word, b"Z9"),
    (TokenKind::Word, b"_1"),
    (TokenKind::Word, b"_"),
    (TokenKind::Word, b"a$b"),
    (TokenKind::Word, b"a$"),
    (TokenKind::Word, b"module"),
    (TokenKind::Word, b"inout"),
    (TokenKind::Word, b"always_latch"),
    (TokenKind::System, b"$clog2"),
    (TokenKind::System, b"$signed"),
    (TokenKind::System, b"$display"),
    (TokenKind::System, b"$_"),
    (TokenKind::System, b"$a$b"),
    (TokenKind::Fill, b"'0"),
    (TokenKind::Fill, b"'1"),
    (TokenKind::Number, b"0"),
    (TokenKind::Number, b"007"),
    (TokenKind::Number, b"1_0"),
    (TokenKind::Number, b"1__"),
    (TokenKind::Number, b"2147483647"),
    (TokenKind::Number, b"2_147_483_647"),
    (TokenKind::Number, b"00000000002147483647"),
    (TokenKind::Number, b"1'b1"),
    (TokenKind::Number, b"4'B1010"),
    (TokenKind::Number, b"4'b1_0_1_0_"),
    (TokenKind::Number, b"8'o377"),
    (TokenKind::Number, b"8'O17"),
    (TokenKind::Number, b"8'd255"),
    (TokenKind::Number, b"8'D9"),
    (TokenKind::Number, b"8'hfF"),
    (TokenKind::Number, b"8'HaB"),
    (TokenKind::Number, b"8'sHff"),
    (TokenKind::Number, b"8'Sb1"),
    (TokenKind::Number, b"4'h1f"),
    (TokenKind::Number, b"1'd18446744073709551615"),
    (TokenKind::Number, b"1_6'hff"),
    (TokenKind::Number, b"0064'h1"),
    (TokenKind::Number, b"64'h0"),
    (TokenKind::Number, b"64'hffff_ffff_ffff_ffff"),
    (TokenKind::Number, b"64'h0_ffff_ffff_ffff_ffff"),
    (TokenKind::Number, b"'b1"),
    (TokenKind::Number, b"'sb1"),
    (TokenKind::Number, b"'d4294967295"),
    (TokenKind::Number, b"'hffff_ffff"),
    (TokenKind::Number, b"'sh8000_0000"),
    (TokenKind::Number, b"'o37777777777"),
    (TokenKind::Number, b"9"),
    (TokenKind::Number, b"3'b1111"),
    (TokenKind::Number, b"32'hdead_beef"),
    (TokenKind::Number, b"63'd1"),
    (TokenKind::Word, b"b1"),
    (TokenKind::Word, b"sb"),
    (TokenKind::Word, b"timescale"),
    (TokenKind::Word, b"verilator"),
    (TokenKind::Word, b"endgenerate"),
    (TokenKind::Word, b"z"),
    (TokenKind::System, b"$unsigned"),
];

/// Texts that are one mark each.
const MARKS: [&[u8]; 5] = [
    b"/*verilator hier_block*/",
    b"/* verilator  hier_block */",
    b"/*\tverilator\n\x0c\rhier_block\n*/",
    b"//verilator hier_block",
    b"// verilator\thier_block \r",
];

/// Texts with their tokens, each as its kind's letter (`w` word, `y` system name, `n` number, `f` fill, `s` sign,
/// `m` mark), its text and its line.
const LISTS: [(&[u8], &[u8]); 42] = [
    (b"", b""),
    (b" \t\r\n\x0c", b""),
    (b"// any \xff\x00 bytes", b""),
    (b"/* any \xff\x00 ' bytes */", b""),
    (b"/**/", b""),
    (b"/***/a", b"w a 1;"),
    (b"/*/*/a", b"w a 1;"),
    (b"/* * / */a", b"w a 1;"),
    (b"//a\nb", b"w b 2;"),
    (b"//a\r\nb", b"w b 2;"),
    (b"a\rb\nc\x0cd", b"w a 1;w b 1;w c 2;w d 2;"),
    (b"a\n\n\nb", b"w a 1;w b 4;"),
    (b"/*\n\n*/a", b"w a 3;"),
    (b"//", b""),
    (b"a//b", b"w a 1;"),
    (b"a/b", b"w a 1;s / 1;w b 1;"),
    (b"a / / b", b"w a 1;s / 1;s / 1;w b 1;"),
    (b"`timescale 1ns/1ps\nmodule", b"w module 2;"),
    (b"`default_nettype none", b""),
    (b"`resetall/*\n*/", b"s * 2;s / 2;"),
    (b"`resetall\r\na", b"w a 2;"),
    (b"`resetall'", b""),
    (b"<<<<", b"s <<< 1;s < 1;"),
    (b"====", b"s === 1;s = 1;"),
    (b"!====", b"s !== 1;s == 1;"),
    (b"a<=b", b"w a 1;s <= 1;w b 1;"),
    (b"+++", b"s ++ 1;s + 1;"),
    (b"~~&^~^", b"s ~ 1;s ~& 1;s ^~ 1;s ^ 1;"),
    (b"***", b"s ** 1;s * 1;"),
    (b"[a+:2]", b"s [ 1;w a 1;s +: 1;n 2 1;s ] 1;"),
    (b"4'b12", b"n 4'b1 1;n 2 1;"),
    (b"8'd1f", b"n 8'd1 1;w f 1;"),
    (b"1a", b"n 1 1;w a 1;"),
    (b"'01", b"f '0 1;n 1 1;"),
    (b"4'0", b"n 4 1;f '0 1;"),
    (b"4 'b1", b"n 4 1;n 'b1 1;"),
    (b"'1'1", b"f '1 1;f '1 1;"),
    (b"a\n/* verilator hier_block\n*/\nb", b"w a 1;m  2;w b 4;"),
    (b"/*verilatorhier_block*/a", b"w a 1;"),
    (b"/*verilator hier_block x*/a", b"w a 1;"),
    (b"//verilator\nhier_block", b"w hier_block 2;"),
    (
        b"module t(input logic a, output logic y);\n  assign y = ~a;\nendmodule\n",
        b"w module 1;w t 1;s ( 1;w input 1;w logic 1;w a 1;s , 1;w output 1;w logic 1;w y 1;s ) 1;s ; 1;w assign 2;w y 2;s = 2;s ~ 2;w a 2;s ; 2;w endmodule 3;",
    ),
];

/// Texts that are refused, with the kind, name and line.
const REFUSALS: [(&[u8], Kind, &[u8], u32); 44] = [
    (
        b"module t(input logic a, output logic y);\n/* open",
        Kind::OpenComment,
        b"",
        2,
    ),
    (b"/*/", Kind::OpenComment, b"", 1),
    (b"/*", Kind::OpenComment, b"", 1),
    (b"\n/* a\n* /\n", Kind::OpenComment, b"", 2),
    (b"/**", Kind::OpenComment, b"", 1),
    (b"a\n`include \"b\"", Kind::Unsupported, b"include", 2),
    (b"`define", Kind::Unsupported, b"define", 1),
    (b"`timescale1", Kind::Unsupported, b"timescale1", 1),
    (b"`resetall$ a", Kind::Unsupported, b"resetall$", 1),
    (b"`resetal", Kind::Unsupported, b"resetal", 1),
    (b"`", Kind::BadCharacter, b"`", 1),
    (b"` resetall", Kind::BadCharacter, b"`", 1),
    (b"`1", Kind::BadCharacter, b"`", 1),
    (b"$", Kind::BadCharacter, b"$", 1),
    (b"a $1", Kind::BadCharacter, b"$", 1),
    (b"'", Kind::BadCharacter, b"'", 1),
    (b"'2", Kind::BadCharacter, b"'", 1),
    (b"'x", Kind::BadCharacter, b"'", 1),
    (b"'s1", Kind::BadCharacter, b"'", 1),
    (b"4'", Kind::BadCharacter, b"'", 1),
    (b"\"", Kind::BadCharacter, b"\"", 1),
    (b"\\a ", Kind::BadCharacter, b"\\", 1),
    (b"a\n\x00", Kind::BadCharacter, b"", 2),
    (b"\x0b", Kind::BadCharacter, b"", 1),
    (b"\x7f", Kind::BadCharacter, b"", 1),
    (b"\x80", Kind::BadCharacter, b"", 1),
    (b"2147483648", Kind::BadNumber, b"2147483648", 1),
    (
        b"99999999999999999999",
        Kind::BadNumber,
        b"99999999999999999999",
        1,
    ),
    (b"65'h0", Kind::TooWide, b"65'h0", 1),
    (
        b"99999999999999999999'h0",
        Kind::TooWide,
        b"99999999999999999999'h0",
        1,
    ),
    (b"0'h1", Kind::BadNumber, b"0'h1", 1),
    (b"00'h1", Kind::BadNumber, b"00'h1", 1),
    (b"'h1_0000_0000", Kind::BadNumber, b"'h1_0000_0000", 1),
    (
        b"64'h1_0000_0000_0000_0000",
        Kind::BadNumber,
        b"64'h1_0000_0000_0000_0000",
        1,
    ),
    (b"4'bx", Kind::BadNumber, b"4'bx", 1),
    (b"4'b1x", Kind::BadNumber, b"4'b1x", 1),
    (b"4'd1?", Kind::BadNumber, b"4'd1?", 1),
    (b"8'hZz", Kind::BadNumber, b"8'hZz", 1),
    (b"65'hx", Kind::BadNumber, b"65'hx", 1),
    (b"\n'd", Kind::BadNumber, b"'d", 2),
    (b"4's b1", Kind::BadCharacter, b"'", 1),
    (b"4'b_1", Kind::BadNumber, b"4'b", 1),
    (b"4'b2", Kind::BadNumber, b"4'b", 1),
    (b"65'h", Kind::BadNumber, b"65'h", 1),
];

fn letter(kind: TokenKind) -> u8 {
    match kind {
        TokenKind::Word => b'w',
        TokenKind::System => b'y',
        TokenKind::Number => b'n',
        TokenKind::Fill => b'f',
        TokenKind::Sign => b's',
        TokenKind::Mark => b'm',
    }
}

fn shown(alloc: Global, tokens: &[Token]) -> Result<Vec<u8>, AllocError> {
    let mut out = Vec::new(alloc);
    for token in tokens {
        let line = token.place.line;
        let line = format!(in alloc; " {line};")?;
        out.push(letter(token.kind))?;
        out.push(b' ')?;
        out.extend_from_slice(token.text.bytes())?;
        out.extend_from_slice(line.as_bytes())?;
    }
    Ok(out)
}

fn each_is_one_token(
    rt: &impl Abort,
    alloc: Global,
    rows: &[(TokenKind, &[u8])],
) -> Result<(), LexFault> {
    for (kind, text) in rows {
        let tokens = lex(alloc, 3, *text)?;
        assert_eq!(rt; tokens.len(), 1, "{text:?}");
        for token in tokens.as_slice() {
            assert_eq!(rt; token.kind, *kind, "{text:?}");
            assert_eq!(rt; token.text.bytes(), *text);
            assert_eq!(rt; token.place.file, 3);
            assert_eq!(rt; token.place.line, 1);
        }
    }
    Ok(())
}

#[test]
fn each_spelling_is_one_token(rt: HostRuntime) -> Result<(), Fail> {
    each_is_one_token(&rt, rt.alloc(), &SINGLES)?;
    Ok(())
}

fn each_is_one_mark(rt: &impl Abort, alloc: Global, rows: &[&[u8]]) -> Result<(), LexFault> {
    for text in rows {
        let tokens = lex(alloc, 3, *text)?;
        assert_eq!(rt; tokens.len(), 1, "{text:?}");
        for token in tokens.as_slice() {
            assert_eq!(rt; token.kind, TokenKind::Mark, "{text:?}");
            assert_eq!(rt; token.text.bytes(), b"".as_slice());
            assert_eq!(rt; token.place.file, 3);
            assert_eq!(rt; token.place.line, 1);
        }
    }
    Ok(())
}

#[test]
fn a_mark_has_no_text(rt: HostRuntime) -> Result<(), Fail> {
    each_is_one_mark(&rt, rt.alloc(), &MARKS)?;
    Ok(())
}

fn each_has_its_tokens(
    rt: &impl Abort,
    alloc: Global,
    rows: &[(&[u8], &[u8])],
) -> Result<(), LexFault> {
    for (text, expected) in rows {
        let tokens = lex(alloc, 1, *text)?;
        let found = shown(alloc, tokens.as_slice())?;
        assert_eq!(rt; found.as_slice(), *expected, "{text:?}");
    }
    Ok(())
}

#[test]
fn texts_have_their_tokens(rt: HostRuntime) -> Result<(), Fail> {
    each_has_its_tokens(&rt, rt.alloc(), &LISTS)?;
    Ok(())
}

fn refusal(found: Result<Sequence<Token>, LexFault>) -> Option<Refusal> {
    match found {
        Err(LexFault::Refused(refusal)) => Some(refusal),
        _ => None,
    }
}

fn each_is_refused(rt: &impl Abort, alloc: Global, rows: &[(&[u8], Kind, &[u8], u32)]) {
    for (text, kind, name, line) in rows {
        let Some(found) = refusal(lex(alloc, 2, *text)) else {
            panic!(rt; "not refused: {text:?}")
        };
        assert_eq!(rt; found.kind, *kind, "{text:?}");
        assert_eq!(rt; found.name.bytes(), *name, "{text:?}");
        assert_eq!(rt; found.place.file, 2);
        assert_eq!(rt; found.place.line, *line, "{text:?}");
    }
}

#[test]
fn texts_are_refused_at_their_first_fault(rt: HostRuntime) {
    each_is_refused(&rt, rt.alloc(), &REFUSALS);
}

#[test]
fn names_have_at_most_255_bytes(rt: HostRuntime) -> Result<(), Fail> {
    let longest = vec![in rt.alloc(); b'a'; 255]?;
    assert_eq!(rt; lex(rt.alloc(), 1, longest.as_slice())?.len(), 1);
    let longer = vec![in rt.alloc(); b'a'; 256]?;
    let found = refusal(lex(rt.alloc(), 1, longer.as_slice())).ok_or("not refused")?;
    assert_eq!(rt; found.kind, Kind::TooMany);
    assert_eq!(rt; found.name.bytes(), b"name".as_slice());
    let mut system = vec![in rt.alloc(); b'$'; 1]?;
    system.extend_from_slice(longest.as_slice())?;
    assert_eq!(rt; lex(rt.alloc(), 1, system.as_slice())?.len(), 1);
    system.push(b'a')?;
    let found = refusal(lex(rt.alloc(), 1, system.as_slice())).ok_or("not refused")?;
    assert_eq!(rt; found.kind, Kind::TooMany);
    let mut directive = vec![in rt.alloc(); b'`'; 1]?;
    directive.extend_from_slice(longer.as_slice())?;
    let found = refusal(lex(rt.alloc(), 1, directive.as_slice())).ok_or("not refused")?;
    assert_eq!(rt; found.kind, Kind::Unsupported);
    assert_eq!(rt; found.name.bytes(), longer.as_slice());
    Ok(())
}
