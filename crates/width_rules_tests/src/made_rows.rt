//! Tables that `bench/width_rows` writes, each with the words that the variables `a` to `e` have in it: an expression over these, the
//! width of its target where it has one, and its width, sign and value.

use bit_ops::Word;

/// The variables: each with its name, its width, whether it is signed, and the lowest position of its range where it has one.
pub const MADE: [(&str, u32, bool, Option<u32>); 5] = [
    ("a", 8, false, Some(0)),
    ("b", 5, true, Some(0)),
    ("c", 16, true, Some(3)),
    ("d", 1, false, None),
    ("e", 61, false, Some(4)),
];

pub const FIRST_WORDS: [Word; 5] = [0x49, 0x9, 0x116, 0x1, 0x4dda49d4c60a8a3];

pub const FIRST: [(&str, Option<u32>, &str); 20] = [
    ("$signed(e * 7'sd41)", None, "61 s 77f5d313b7b021b"),
    ("-({1{c}})", Some(8), "8 u ea"),
    ("{a[7:1], d}", Some(9), "9 u 49"),
    (
        "({1{b}}) >>> $unsigned($signed(20'sh8b273))",
        Some(16),
        "16 u 0",
    ),
    ("(4'she) / (b[6:4])", Some(64), "64 u 0"),
    (
        "$unsigned(e ? a : b) && (c < (e[3]) >>> (d <<< b))",
        None,
        "1 u 0",
    ),
    ("b / (3'h3) > b ^~ c", Some(8), "8 u e9"),
    ("(a % c) ? c % b : ~&e", Some(9), "9 u 8"),
    ("$unsigned(b) ~^ (a + c)", Some(16), "16 u fea9"),
    (
        "((20'sh75b70 % d) - (3 ^ (b[d -: 2]))) + (-({7'b1000010, c[17:17], a}))",
        Some(64),
        "64 u ffffffffffff7bb5",
    ),
    (
        "$unsigned(($signed(b) % c) % -((20'sh457bb) ? 3'h4 : e))",
        None,
        "61 u 9",
    ),
    ("~(1'b0)", Some(8), "8 u ff"),
    ("{5{b}} > ($signed(c % (16'sh2c90)))", Some(9), "9 u 1"),
    (
        "{b << a >>> a + a, c >>> a == {20'sd86319}}",
        Some(16),
        "16 u 0",
    ),
    (
        "+((b[2:2]) ? c : e[d + 3 -: 2]) / {1'b1, b}",
        Some(64),
        "64 u 0",
    ),
    ("{'hff, b}", None, "37 u 1fe9"),
    ("7'h66", Some(8), "8 u 66"),
    ("~((b == c) ? b < b : e >>> e)", Some(9), "9 u 1ff"),
    ("d ? b : e", Some(16), "16 u 9"),
    ("^~(c < b)", Some(64), "64 u 1"),
];

pub const SECOND_WORDS: [Word; 5] = [0x1c, 0x19, 0xb6e7, 0x1, 0x15aec523e293f464];

pub const SECOND: [(&str, Option<u32>, &str); 20] = [
    ("(^(e / (b[d + 3]))) <= {1{a}}", None, "1 u 1"),
    ("-(0 >>> (1'h1 > e))", Some(8), "8 s 0"),
    (
        "(({b, b}) ? -c : (a[d -: 7]) == b) << (~&c) < (c >>> c)",
        Some(9),
        "9 u 0",
    ),
    (
        "~|((b ? e : b) ? b[d + 3 -: 2] ~^ (b[b + 1]) : b || a)",
        Some(16),
        "16 u 1",
    ),
    (
        "$signed((^~a - ({5{b}})) || (100 + 100) / (c - b))",
        Some(64),
        "64 s ffffffffffffffff",
    ),
    ("c <<< c", None, "16 s 0"),
    ("$signed(~(-(&d)))", Some(8), "8 s 0"),
    ("($signed(e[d -: 7])) >>> (b >>> a)", Some(9), "9 s 0"),
    ("(1'h0) + c >>> c <= c[20:15]", Some(16), "16 u 1"),
    ("{2{b}}", Some(64), "64 u 339"),
    ("(16'h1a19) != c", None, "1 u 1"),
    ("(-b) >>> (c[e[6:4] +: 10]) ^ (a[3 +: 4])", Some(8), "8 u 3"),
    ("!(a[4:3])", Some(9), "9 u 0"),
    ("$signed(e << b >>> (c < b))", Some(16), "16 s 0"),
    (
        "(b || ('1)) ? -e : (e[$unsigned(b) +: 2]) ? d : c",
        Some(64),
        "64 u ea513adc1d6c0b9c",
    ),
    ("{2{c}}", None, "32 u b6e7b6e7"),
    (
        "-(-e) < ((b ? 7'sd101 : b) ? b << c : {c})",
        Some(8),
        "8 u 0",
    ),
    ("-($signed(a))", Some(9), "9 s 1e4"),
    ("b % c >>> b <= (b[e[6:4] -: 10])", Some(16), "16 u 1"),
    (
        "$unsigned({20'sd493720, 20'hd805e, c})",
        Some(64),
        "64 u 78898d805eb6e7",
    ),
];

pub const THIRD_WORDS: [Word; 5] = [0x96, 0x10, 0x1859, 0x0, 0x14fbbd148f8294d];

pub const THIRD: [(&str, Option<u32>, &str); 20] = [
    ("(e[a - c -: 1] >>> c) ? ~|b : b | b", None, "5 u 10"),
    (
        "(a ? c : b) ? -(a[-1 -: 2]) : $unsigned(d)",
        Some(8),
        "8 u 0",
    ),
    (
        "({b, b}) ? (3'b100) <= d : {2{d}} | ((~(a[3 -: 10])) - (c && d))",
        Some(9),
        "9 u 0",
    ),
    ("(^(c[3])) >>> (-(b[1:1]))", Some(16), "16 u 1"),
    ("{a, b}", Some(64), "64 u 12d0"),
    ("e ^~ (c[d + 3 +: 7])", None, "61 u 1eb0442eb707d6eb"),
    ("-((c | b) ? {1{e}} : b ^ e)", Some(8), "8 u b3"),
    ("$signed(~c)", Some(9), "9 s 1a6"),
    ("{a, c[$unsigned(b) -: 1]}", Some(16), "16 u 12c"),
    ("d + a", Some(64), "64 u 96"),
    ("$signed({b, a})", None, "13 s 1096"),
    ("{d, '1}", Some(8), "8 u 1"),
    (
        "($unsigned(~c)) <<< ((~^b) >>> (c % b))",
        Some(9),
        "9 u 1a6",
    ),
    ("$signed(b)", Some(16), "16 s fff0"),
    ("3 ? d : b", Some(64), "64 u 0"),
    ("~&(c[d + 3 -: 2]) + (b != d)", None, "1 u 0"),
    ("(d < b) ? {2{b[b]}} : {2{7'b1001000}}", Some(8), "8 u 0"),
    ("({1{c}} == e ? b : b) >>> {'hff}", Some(9), "9 s 1ff"),
    ("e / e[e[6:4]]", Some(16), "16 u 0"),
    ("(b[12:2]) % (12'hb80)", Some(64), "64 u 4"),
];

pub const FOURTH_WORDS: [Word; 5] = [0x94, 0x15, 0x2656, 0x0, 0xce0f40de9105093];

/// Rows whose context is unsigned in any case.
pub const FOURTH: [(&str, Option<u32>, &str); 20] = [
    ("~(a ? a[6] : 8'sd234)", None, "8 u ff"),
    ("-(~(((8'hcb) && b) ? c : e >>> 7'h3c))", Some(8), "8 u 57"),
    (
        "(b >>> (c[a - c +: 2])) <= ({7'b1111100})",
        Some(9),
        "9 u 1",
    ),
    (
        "(({a, 3'b100, 'sd9}) / ({c, d})) ~^ ((~b) % e[34:29] & 4'she)",
        Some(16),
        "16 u 61ee",
    ),
    ("{a, c[23:16], c}", Some(64), "64 u 94012656"),
    ("e ? 2147483647 : b[b + 1 -: 1]", None, "32 u 7fffffff"),
    ("&(({1{100}}) > (7 / b))", Some(8), "8 u 1"),
    ("{b >= b, b | e}", Some(9), "9 u 97"),
    ("b && (b[8:1])", Some(16), "16 u 1"),
    ("{(e[d + 3 +: 1]) ? c : d}", Some(64), "64 u 0"),
    ("c < b / (c >>> (e[63 +: 1]))", None, "1 u 0"),
    ("'hff % b ~^ ~^e % -(e >= a)", Some(8), "8 u fc"),
    (
        "(('sd9 || b) * ((3'h6) ^~ e)) - ({e[a - c +: 1], b, 8'hff})",
        Some(9),
        "9 u 16b",
    ),
    ("b <<< d", Some(16), "16 s 15"),
    (
        "({{'1, b[b + 1]}, {2{c}}, -b}) ^ ~|d",
        Some(64),
        "64 u 44cac4caca",
    ),
    ("c - ('1)", None, "16 u 2657"),
    ("{3{c}} <= ({1{e}}) >>> c && (c[d + 3])", Some(8), "8 u 0"),
    (
        "((7'b1101000) < d) ? e[3 -: 4] : d ^~ ('hff)",
        Some(9),
        "9 u 100",
    ),
    ("{b ? 3 : a, |b}", Some(16), "16 u 7"),
    (
        "((c / (e[13:7])) % a | b) ? 3 >= e << (e % 5) : {2{b[11:1]}}",
        Some(64),
        "64 u 0",
    ),
];

pub const FIFTH_WORDS: [Word; 5] = [0x43, 0xe, 0x1, 0x0, 0x1420f34e5148de0d];

pub const FIFTH: [(&str, Option<u32>, &str); 20] = [
    ("((16'b1011000010011000) - c) ? ~b : {1{b}}", None, "5 u 11"),
    (
        "(c << a) ? {d, e[3 +: 1], b} : b != 20'sd1000738",
        Some(8),
        "8 u 1",
    ),
    ("(a - c != (b[d -: 1] >= b)) >> e", Some(9), "9 u 0"),
    (
        "((!(c | c)) % ({b[a -: 2]})) || (-(({c, 20'sh7f376}) & (a * a)))",
        Some(16),
        "16 u 1",
    ),
    ("{3{b / b}}", Some(64), "64 u 421"),
    ("{b, '1, c}", None, "22 u 1d0001"),
    ("(4'b0 & ('1)) ? ^(a[3 +: 7]) : 1 < b", Some(8), "8 u 1"),
    ("d ? 100 : b", Some(9), "9 s e"),
    ("~&((a << (c[e[6:4]])) == ($signed(a)))", Some(16), "16 u 0"),
    (
        "{3{((b[$unsigned(b)]) ? e : a) ? {a, d, a} : $unsigned(e[22:18])}}",
        Some(64),
        "64 u 2190d0c868643",
    ),
    ("(c << (a[d -: 10])) + ({3{b[9:0]}})", None, "30 u e0380e"),
    ("$unsigned(1'sh1)", Some(8), "8 u 1"),
    ("~({a})", Some(9), "9 u 1bc"),
    ("(c % b) ? b >= c : ~(e[37:37])", Some(16), "16 u 1"),
    ("(8'h44) << e != ((4'he) ? b : e)", Some(64), "64 u 1"),
    (
        "(!($unsigned(e))) ? (a % b) >>> {d, b} : ~({a, b})",
        None,
        "13 u 1791",
    ),
    ("(16'sd2370) - (b[-1])", Some(8), "8 u 42"),
    ("({16'sd19049, a, d}) % (c != a)", Some(9), "9 u 0"),
    ("(e[55:48]) >> b", Some(16), "16 u 0"),
    ("c == (-a)", Some(64), "64 u 0"),
];

pub const SIXTH_WORDS: [Word; 5] = [0x2c, 0x1a, 0xffff, 0x0, 0x1];

pub const SIXTH: [(&str, Option<u32>, &str); 20] = [
    (
        "({1{d}} > (b - c)) ? (c >>> (e[b + 1])) >= -(8'sh4a) : {3{e[d +: 4]}}",
        None,
        "12 u 0",
    ),
    ("12'sd356 < 4'b11", Some(8), "8 u 0"),
    (
        "(+($signed(b))) < ((('1) + c) << ((b[3]) ^~ a))",
        Some(9),
        "9 u 0",
    ),
    (
        "($signed(c)) * ((b[3 -: 2]) / (12'sd2852))",
        Some(16),
        "16 u 0",
    ),
    (
        "{1{d ~^ '0}} - (((~b) ~^ (1'sd0 >= (c[3 -: 2]))) || {3{b}})",
        Some(64),
        "64 u 0",
    ),
    ("!($signed(a ? c : a))", None, "1 u 0"),
    (
        "({2{c[b + 1]}}) ? ~({5{a}}) : ~|(c <<< c)",
        Some(8),
        "8 u 1",
    ),
    (
        "({3, b}) ? {3{c}} : -((12'she07) + (e[4:3]))",
        Some(9),
        "9 u 1ff",
    ),
    ("&((b[d + 3]) ^ a)", Some(16), "16 u 0"),
    (
        "({b}) + ({e, d}) >> c ? c : 1'sh1",
        Some(64),
        "64 s ffffffffffffffff",
    ),
    ("{3{b[7:0]}}", None, "24 u 1a1a1a"),
    ("{5{b}}", Some(8), "8 u 5a"),
    ("~(c & c >> (8'sh13 | b))", Some(9), "9 s 1ff"),
    (
        "b - c != e[b + 1 -: 7] >>> b | $unsigned(b && e)",
        Some(16),
        "16 u 1",
    ),
    (
        "-((d ? 8'sd244 : c[8:2]) << ({1{20'h6cb74}}) & (~^(!(7'sh43))))",
        Some(64),
        "64 u 0",
    ),
    ("{1{c}} != -a", None, "1 u 1"),
    ("e ~^ b % (&a)", Some(8), "8 u fe"),
    ("{1{b[3 -: 7]}} * ({d})", Some(9), "9 u 0"),
    ("-($signed(c))", Some(16), "16 s 1"),
    ("c - d >> (e >>> a)", Some(64), "64 u ffff"),
];

pub const SEVENTH_WORDS: [Word; 5] = [0xd4, 0x12, 0xfd25, 0x0, 0x10d8cf42e835b313];

pub const SEVENTH: [(&str, Option<u32>, &str); 20] = [
    (
        "($signed(c || (c[a -: 4]))) + ({2{a}}) ^ ((c[d -: 7]) << c)",
        None,
        "16 u d4d5",
    ),
    ("($unsigned(b)) - c >>> c", Some(8), "8 u 0"),
    ("^(c[a] == b)", Some(9), "9 u 0"),
    ("a ~^ (a[9:6])", Some(16), "16 u ff28"),
    (
        "((~a) + (~(e[-1]))) < ($unsigned({c[d +: 1], b}))",
        Some(64),
        "64 u 0",
    ),
    (
        "(-a || (~&(20'b11101011010101000000))) >>> ({b}) < ('0 | b)",
        None,
        "1 u 1",
    ),
    ("~(({c}) ^~ ((a[-1]) ^~ (a[d + 3])))", Some(8), "8 u da"),
    ("c ^ b", Some(9), "9 s d7"),
    ("-(((b % b) / (-c)) ^~ (^~(-b)))", Some(16), "16 u 1"),
    ("a ? a : b", Some(64), "64 u d4"),
    ("({c, c}) == (b || a) - c > b", None, "1 u 0"),
    ("~&(b > (a[d +: 1]))", Some(8), "8 u 0"),
    ("{3{d}}", Some(9), "9 u 0"),
    ("$signed(4'sd3)", Some(16), "16 s 3"),
    (
        "((a ^ (7'b110111)) != (b ? 16'he9b0 : b)) - ($signed(c / b[d +: 4]))",
        Some(64),
        "64 u ffffffffffff816f",
    ),
    (
        "($signed({d, 20'shc5a19, 8'sha6})) ^~ (('1) ? b : c) + (!(16'sh751f))",
        None,
        "29 u 13a5e64b",
    ),
    ("-(({d, c}) ^ b >>> b >> (~&(^~a)))", Some(8), "8 u db"),
    (
        "~((({c, b[3 +: 7], c}) >>> (-(a[6 +: 2]))) <<< ~(4'b0 >>> (8'sd199)))",
        Some(9),
        "9 u 1ff",
    ),
    ("b + ('1) >>> b", Some(16), "16 u 0"),
    ("e << b", Some(64), "64 u 3d0ba0d6cc4c0000"),
];

pub const EIGHTH_WORDS: [Word; 5] = [0x7f, 0x2, 0x4274, 0x0, 0x1fffffffffffffff];

/// Rows whose context is unsigned in any case.
pub const EIGHTH: [(&str, Option<u32>, &str); 20] = [
    ("{b + b}", None, "5 u 4"),
    (
        "-(b[7:4]) & ((c[10:4]) < 12'b1110100100) - {7'b100010}",
        Some(8),
        "8 u 0",
    ),
    ("{3{b[3]}}", Some(9), "9 u 0"),
    ("c | e[e[6:4] +: 10]", Some(16), "16 u 43ff"),
    ("c <= c ? e : c", Some(64), "64 u 1fffffffffffffff"),
    (
        "(b | d) - ~b <<< b / b ~^ {c[b + 1 -: 4], a, b}",
        None,
        "17 u 1f017",
    ),
    ("-(($signed(a)) <<< (d ? b : 16'sd24653))", Some(8), "8 s 0"),
    ("~({a, a, a})", Some(9), "9 u 80"),
    ("(e & c) == ($unsigned(a))", Some(16), "16 u 0"),
    ("$unsigned(c ? b : e)", Some(64), "64 u 2"),
    (
        "((^b) > ((4'sd3) <= d)) >>> ((e[d + 3 -: 2]) % d % (c >>> c))",
        None,
        "1 u 1",
    ),
    ("({c}) || -b ^~ (-a)", Some(8), "8 u 1"),
    ("(c <= a) - b + e", Some(9), "9 u 1fd"),
    (
        "((7'sd121) ? b : b) ? $unsigned(c) : c >= (a[e[6:4] +: 2])",
        Some(16),
        "16 u 4274",
    ),
    (
        "-((3'sh5) ? a : c[-1 +: 1]) / (((c[3:0]) ^~ (a[3:3])) < b + (b[3 -: 2]))",
        Some(64),
        "64 u 0",
    ),
    (
        "((~b) ^ (-d)) || ((c >>> e[d]) ? +(3'sh3) : a / e)",
        None,
        "1 u 1",
    ),
    (
        "(~(a >>> b)) && ((b & (4'b1101)) >> (!d))",
        Some(8),
        "8 u 0",
    ),
    ("a >>> 2", Some(9), "9 u 1f"),
    ("{b, b[a - c]}", Some(16), "16 u 4"),
    (
        "(b | a) ? (b[2:2]) >>> (20'sd405877) : ('1) ^~ c",
        Some(64),
        "64 u 0",
    ),
];
