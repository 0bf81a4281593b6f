//! Vectors for each operation. Their expected values come from a script that shares no code with the crate.

ghost use Rattle.std.specs.Prelude.{◌≡◌};

use crate::*;
use std::process::Abort;

/// The greatest word of 64 bits, which stands for -1 too.
const ONES: Word = 0xffff_ffff_ffff_ffff;

/// The least signed number of 64 bits.
const LEAST: Word = 0x8000_0000_0000_0000;

/// The greatest signed number of 64 bits.
const MOST: Word = 0x7fff_ffff_ffff_ffff;

/// Width, `a`, `b`, `~a`, `a & b`, `a | b`, `a ^ b`.
const BITWISE: [(u32, Word, Word, Word, Word, Word, Word); 35] = [
    (1, 0, 0, 1, 0, 0, 0),
    (1, 0, 1, 1, 0, 1, 1),
    (1, 1, 0, 0, 0, 1, 1),
    (1, 1, 1, 0, 1, 1, 0),
    (2, 2, 3, 1, 2, 3, 1),
    (3, 4, 7, 3, 4, 7, 3),
    (4, 8, 0xf, 7, 8, 0xf, 7),
    (8, 0xc8, 0x64, 0x37, 0x40, 0xec, 0xac),
    (8, 0x80, 0xff, 0x7f, 0x80, 0xff, 0x7f),
    (8, 0xff, 0x80, 0, 0x80, 0xff, 0x7f),
    (8, 0x7f, 0xff, 0x80, 0x7f, 0xff, 0x80),
    (8, 0x80, 1, 0x7f, 0, 0x81, 0x81),
    (8, 0xfb, 3, 4, 3, 0xfb, 0xf8),
    (8, 5, 0xfd, 0xfa, 5, 0xfd, 0xf8),
    (8, 0xfb, 0xfd, 4, 0xf9, 0xff, 6),
    (8, 0x80, 0, 0x7f, 0, 0x80, 0x80),
    (8, 0x55, 0x55, 0xaa, 0x55, 0x55, 0),
    (16, 0x8000, 0xffff, 0x7fff, 0x8000, 0xffff, 0x7fff),
    (31, 0x7fffffff, 2, 0, 2, 0x7fffffff, 0x7ffffffd),
    (
        32, 0x80000000, 0xffffffff, 0x7fffffff, 0x80000000, 0xffffffff, 0x7fffffff,
    ),
    (33, 0x100000000, 3, 0xffffffff, 0, 0x100000003, 0x100000003),
    (
        63,
        0x4000000000000005,
        0x7fffffffffffffff,
        0x3ffffffffffffffa,
        0x4000000000000005,
        0x7fffffffffffffff,
        0x3ffffffffffffffa,
    ),
    (64, 0, 0, ONES, 0, 0, 0),
    (64, ONES, 1, 0, 1, ONES, 0xfffffffffffffffe),
    (64, LEAST, ONES, MOST, LEAST, ONES, MOST),
    (64, ONES, LEAST, 0, LEAST, ONES, MOST),
    (64, MOST, LEAST, LEAST, 0, ONES, ONES),
    (64, ONES, 0, 0, 0, ONES, ONES),
    (64, ONES, ONES, 0, ONES, ONES, 0),
    (7, 0x66, 0x3f, 0x19, 0x26, 0x7f, 0x59),
    (13, 0x187f, 0x169a, 0x780, 0x101a, 0x1eff, 0xee5),
    (21, 0x178e63, 0x124bb3, 0x8719c, 0x120a23, 0x17cff3, 0x5c5d0),
    (
        64,
        0x9a5e848537b502cc,
        0x268e9c3f43d9ec,
        0x65a17b7ac84afd33,
        0x68484370100cc,
        0x9a7e8e9d3ff7dbec,
        0x9a780a1908f6db20,
    ),
    (13, 0x1728, 3, 0x8d7, 0, 0x172b, 0x172b),
    (21, 0xec544, 0x25, 0x113abb, 4, 0xec565, 0xec561),
];

/// Width, `a`, `b`, `-a`, `a + b`, `a - b`, `a * b`.
const SUMS: [(u32, Word, Word, Word, Word, Word, Word); 35] = [
    (1, 0, 0, 0, 0, 0, 0),
    (1, 0, 1, 0, 1, 1, 0),
    (1, 1, 0, 1, 1, 1, 0),
    (1, 1, 1, 1, 0, 0, 1),
    (2, 2, 3, 2, 1, 3, 2),
    (3, 4, 7, 4, 3, 5, 4),
    (4, 8, 0xf, 8, 7, 9, 8),
    (8, 0xc8, 0x64, 0x38, 0x2c, 0x64, 0x20),
    (8, 0x80, 0xff, 0x80, 0x7f, 0x81, 0x80),
    (8, 0xff, 0x80, 1, 0x7f, 0x7f, 0x80),
    (8, 0x7f, 0xff, 0x81, 0x7e, 0x80, 0x81),
    (8, 0x80, 1, 0x80, 0x81, 0x7f, 0x80),
    (8, 0xfb, 3, 5, 0xfe, 0xf8, 0xf1),
    (8, 5, 0xfd, 0xfb, 2, 8, 0xf1),
    (8, 0xfb, 0xfd, 5, 0xf8, 0xfe, 0xf),
    (8, 0x80, 0, 0x80, 0x80, 0x80, 0),
    (8, 0x55, 0x55, 0xab, 0xaa, 0, 0x39),
    (16, 0x8000, 0xffff, 0x8000, 0x7fff, 0x8001, 0x8000),
    (31, 0x7fffffff, 2, 1, 1, 0x7ffffffd, 0x7ffffffe),
    (
        32, 0x80000000, 0xffffffff, 0x80000000, 0x7fffffff, 0x80000001, 0x80000000,
    ),
    (
        33,
        0x100000000,
        3,
        0x100000000,
        0x100000003,
        0xfffffffd,
        0x100000000,
    ),
    (
        63,
        0x4000000000000005,
        0x7fffffffffffffff,
        0x3ffffffffffffffb,
        0x4000000000000004,
        0x4000000000000006,
        0x3ffffffffffffffb,
    ),
    (64, 0, 0, 0, 0, 0, 0),
    (64, ONES, 1, 1, 0, 0xfffffffffffffffe, ONES),
    (64, LEAST, ONES, LEAST, MOST, 0x8000000000000001, LEAST),
    (64, ONES, LEAST, 1, MOST, MOST, LEAST),
    (64, MOST, LEAST, 0x8000000000000001, ONES, ONES, LEAST),
    (64, ONES, 0, 1, ONES, ONES, 0),
    (64, ONES, ONES, 1, 0xfffffffffffffffe, 0, 1),
    (7, 0x66, 0x3f, 0x1a, 0x25, 0x27, 0x1a),
    (13, 0x187f, 0x169a, 0x781, 0xf19, 0x1e5, 0x666),
    (21, 0x178e63, 0x124bb3, 0x8719d, 0x9da16, 0x542b0, 0x59039),
    (
        64,
        0x9a5e848537b502cc,
        0x268e9c3f43d9ec,
        0x65a17b7ac84afd34,
        0x9a85132176f8dcb8,
        0x9a37f5e8f87128e0,
        0xa92d1367b9a18010,
    ),
    (13, 0x1728, 3, 0x8d8, 0x172b, 0x1725, 0x578),
    (21, 0xec544, 0x25, 0x113abc, 0xec569, 0xec51f, 0x282d4),
];

/// Width, `a`, `b`, `a / b` unsigned and signed, `a % b` unsigned and signed.
const QUOTIENTS: [(u32, Word, Word, Word, Word, Word, Word); 35] = [
    (1, 0, 0, 0, 0, 0, 0),
    (1, 0, 1, 0, 0, 0, 0),
    (1, 1, 0, 0, 0, 0, 0),
    (1, 1, 1, 1, 1, 0, 0),
    (2, 2, 3, 0, 2, 2, 0),
    (3, 4, 7, 0, 4, 4, 0),
    (4, 8, 0xf, 0, 8, 8, 0),
    (8, 0xc8, 0x64, 2, 0, 0, 0xc8),
    (8, 0x80, 0xff, 0, 0x80, 0x80, 0),
    (8, 0xff, 0x80, 1, 0, 0x7f, 0xff),
    (8, 0x7f, 0xff, 0, 0x81, 0x7f, 0),
    (8, 0x80, 1, 0x80, 0x80, 0, 0),
    (8, 0xfb, 3, 0x53, 0xff, 2, 0xfe),
    (8, 5, 0xfd, 0, 0xff, 5, 2),
    (8, 0xfb, 0xfd, 0, 1, 0xfb, 0xfe),
    (8, 0x80, 0, 0, 0, 0, 0),
    (8, 0x55, 0x55, 1, 1, 0, 0),
    (16, 0x8000, 0xffff, 0, 0x8000, 0x8000, 0),
    (31, 0x7fffffff, 2, 0x3fffffff, 0, 1, 0x7fffffff),
    (32, 0x80000000, 0xffffffff, 0, 0x80000000, 0x80000000, 0),
    (33, 0x100000000, 3, 0x55555555, 0x1aaaaaaab, 1, 0x1ffffffff),
    (
        63,
        0x4000000000000005,
        0x7fffffffffffffff,
        0,
        0x3ffffffffffffffb,
        0x4000000000000005,
        0,
    ),
    (64, 0, 0, 0, 0, 0, 0),
    (64, ONES, 1, ONES, ONES, 0, 0),
    (64, LEAST, ONES, 0, LEAST, LEAST, 0),
    (64, ONES, LEAST, 1, 0, MOST, ONES),
    (64, MOST, LEAST, 0, 0, MOST, MOST),
    (64, ONES, 0, 0, 0, 0, 0),
    (64, ONES, ONES, 1, 1, 0, 0),
    (7, 0x66, 0x3f, 1, 0, 0x27, 0x66),
    (13, 0x187f, 0x169a, 1, 0, 0x1e5, 0x187f),
    (21, 0x178e63, 0x124bb3, 1, 0, 0x542b0, 0x178e63),
    (
        64,
        0x9a5e848537b502cc,
        0x268e9c3f43d9ec,
        0x400,
        0xfffffffffffffd5e,
        0x241388284d52cc,
        0xffe1fbe3c858c224,
    ),
    (13, 0x1728, 3, 0x7b8, 0x1d0e, 0, 0x1ffe),
    (21, 0xec544, 0x25, 0x6632, 0x6632, 0xa, 0xa),
];

/// Width, `a`, `b`, `a == b`, `a < b` unsigned and signed.
const COMPARISONS: [(u32, Word, Word, Word, Word, Word); 35] = [
    (1, 0, 0, 1, 0, 0),
    (1, 0, 1, 0, 1, 0),
    (1, 1, 0, 0, 0, 1),
    (1, 1, 1, 1, 0, 0),
    (2, 2, 3, 0, 1, 1),
    (3, 4, 7, 0, 1, 1),
    (4, 8, 0xf, 0, 1, 1),
    (8, 0xc8, 0x64, 0, 0, 1),
    (8, 0x80, 0xff, 0, 1, 1),
    (8, 0xff, 0x80, 0, 0, 0),
    (8, 0x7f, 0xff, 0, 1, 0),
    (8, 0x80, 1, 0, 0, 1),
    (8, 0xfb, 3, 0, 0, 1),
    (8, 5, 0xfd, 0, 1, 0),
    (8, 0xfb, 0xfd, 0, 1, 1),
    (8, 0x80, 0, 0, 0, 1),
    (8, 0x55, 0x55, 1, 0, 0),
    (16, 0x8000, 0xffff, 0, 1, 1),
    (31, 0x7fffffff, 2, 0, 0, 1),
    (32, 0x80000000, 0xffffffff, 0, 1, 1),
    (33, 0x100000000, 3, 0, 0, 1),
    (63, 0x4000000000000005, 0x7fffffffffffffff, 0, 1, 1),
    (64, 0, 0, 1, 0, 0),
    (64, ONES, 1, 0, 0, 1),
    (64, LEAST, ONES, 0, 1, 1),
    (64, ONES, LEAST, 0, 0, 0),
    (64, MOST, LEAST, 0, 1, 0),
    (64, ONES, 0, 0, 0, 1),
    (64, ONES, ONES, 1, 0, 0),
    (7, 0x66, 0x3f, 0, 0, 1),
    (13, 0x187f, 0x169a, 0, 0, 0),
    (21, 0x178e63, 0x124bb3, 0, 0, 0),
    (64, 0x9a5e848537b502cc, 0x268e9c3f43d9ec, 0, 0, 1),
    (13, 0x1728, 3, 0, 0, 1),
    (21, 0xec544, 0x25, 0, 0, 0),
];

/// Width, `a`, `&a`, `|a`, `^a`.
const REDUCTIONS: [(u32, Word, Word, Word, Word); 41] = [
    (1, 0, 0, 0, 0),
    (1, 1, 1, 1, 1),
    (2, 2, 0, 1, 1),
    (2, 3, 1, 1, 0),
    (3, 4, 0, 1, 1),
    (3, 7, 1, 1, 1),
    (4, 8, 0, 1, 1),
    (4, 0xf, 1, 1, 0),
    (8, 0xc8, 0, 1, 1),
    (8, 0x80, 0, 1, 1),
    (8, 0xff, 1, 1, 0),
    (8, 0xfb, 0, 1, 1),
    (8, 0, 0, 0, 0),
    (8, 0x55, 0, 1, 0),
    (16, 0x8000, 0, 1, 1),
    (16, 0xffff, 1, 1, 0),
    (31, 0x7fffffff, 1, 1, 1),
    (31, 2, 0, 1, 1),
    (32, 0x80000000, 0, 1, 1),
    (32, 0xffffffff, 1, 1, 0),
    (33, 0x100000000, 0, 1, 1),
    (33, 3, 0, 1, 0),
    (63, 0x4000000000000005, 0, 1, 1),
    (63, 0x7fffffffffffffff, 1, 1, 1),
    (64, 0, 0, 0, 0),
    (64, ONES, 1, 1, 0),
    (64, 1, 0, 1, 1),
    (64, LEAST, 0, 1, 1),
    (64, MOST, 0, 1, 1),
    (7, 0x66, 0, 1, 0),
    (7, 0x3f, 0, 1, 0),
    (13, 0x187f, 0, 1, 1),
    (13, 0x169a, 0, 1, 1),
    (21, 0x178e63, 0, 1, 0),
    (21, 0x124bb3, 0, 1, 1),
    (64, 0x9a5e848537b502cc, 0, 1, 1),
    (64, 0x268e9c3f43d9ec, 0, 1, 0),
    (13, 0x1728, 0, 1, 0),
    (13, 3, 0, 1, 0),
    (21, 0xec544, 0, 1, 1),
    (21, 0x25, 0, 1, 1),
];

/// Width of `a`, `a`, width of `b`, `b`, `a << b`, `a >> b`, `a >>> b`.
const SHIFTS: [(u32, Word, u32, Word, Word, Word, Word); 29] = [
    (1, 1, 1, 0, 1, 1, 1),
    (1, 1, 1, 1, 0, 0, 1),
    (1, 0, 1, 1, 0, 0, 0),
    (8, 0x80, 4, 0, 0x80, 0x80, 0x80),
    (8, 0x80, 4, 1, 0, 0x40, 0xc0),
    (8, 0x81, 4, 7, 0x80, 1, 0xff),
    (8, 0x81, 4, 8, 0, 0, 0xff),
    (8, 0x81, 4, 0xf, 0, 0, 0xff),
    (8, 0x7f, 4, 8, 0, 0, 0),
    (8, 0x7f, 8, 0xff, 0, 0, 0),
    (8, 0x96, 3, 3, 0xb0, 0x12, 0xf2),
    (8, 0x96, 2, 2, 0x58, 0x25, 0xe5),
    (16, 0x8001, 16, 0xffff, 0, 0, 0xffff),
    (16, 0x8001, 16, 0xf, 0x8000, 1, 0xffff),
    (33, 0x100000000, 6, 0x20, 0, 1, 0x1ffffffff),
    (33, 0x100000001, 6, 0x21, 0, 0, 0x1ffffffff),
    (63, 0x4000000000000000, 6, 0x3e, 0, 1, 0x7fffffffffffffff),
    (64, ONES, 7, 0x3f, LEAST, 1, ONES),
    (64, ONES, 7, 0x40, 0, 0, ONES),
    (64, LEAST, 64, LEAST, 0, 0, ONES),
    (64, LEAST, 64, ONES, 0, 0, ONES),
    (64, LEAST, 6, 0x3f, 0, 1, ONES),
    (
        64,
        MOST,
        6,
        1,
        0xfffffffffffffffe,
        0x3fffffffffffffff,
        0x3fffffffffffffff,
    ),
    (64, 1, 6, 0x3f, LEAST, 0, 0),
    (64, LEAST, 33, 0x100000000, 0, 0, ONES),
    (40, 0x2d1f30b791, 6, 0x26, 0x4000000000, 0, 0),
    (
        64,
        0xc71b21db69598d2a,
        6,
        0x11,
        0x43b6d2b31a540000,
        0x638d90edb4ac,
        0xffffe38d90edb4ac,
    ),
    (13, 0x1a68, 4, 0, 0x1a68, 0x1a68, 0x1a68),
    (
        64,
        0xd6aec4118a09bea5,
        6,
        4,
        0x6aec4118a09bea50,
        0xd6aec4118a09bea,
        0xfd6aec4118a09bea,
    ),
];

/// Width of `a`, `a`, width of the result, extended by 0, extended by the sign bit.
const EXTENSIONS: [(u32, Word, u32, Word, Word); 25] = [
    (1, 0, 1, 0, 0),
    (1, 1, 1, 1, 1),
    (1, 1, 2, 1, 3),
    (1, 1, 64, 1, ONES),
    (1, 0, 64, 0, 0),
    (2, 2, 3, 2, 6),
    (3, 3, 4, 3, 3),
    (8, 0x80, 8, 0x80, 0x80),
    (8, 0x80, 9, 0x80, 0x180),
    (8, 0x7f, 16, 0x7f, 0x7f),
    (8, 0xff, 16, 0xff, 0xffff),
    (8, 0xff, 64, 0xff, ONES),
    (16, 0x8000, 32, 0x8000, 0xffff8000),
    (31, 0x40000000, 32, 0x40000000, 0xc0000000),
    (32, 0x80000000, 33, 0x80000000, 0x180000000),
    (32, 0x7fffffff, 64, 0x7fffffff, 0x7fffffff),
    (33, 0x100000000, 64, 0x100000000, 0xffffffff00000000),
    (
        63,
        0x4000000000000000,
        64,
        0x4000000000000000,
        0xc000000000000000,
    ),
    (
        63,
        0x3fffffffffffffff,
        64,
        0x3fffffffffffffff,
        0x3fffffffffffffff,
    ),
    (63, 0x7fffffffffffffff, 64, MOST, ONES),
    (64, LEAST, 64, LEAST, LEAST),
    (64, ONES, 64, ONES, ONES),
    (
        64,
        0x123456789abcdef0,
        64,
        0x123456789abcdef0,
        0x123456789abcdef0,
    ),
    (7, 0x46, 12, 0x46, 0xfc6),
    (40, 0x4f9f01d749, 50, 0x4f9f01d749, 0x4f9f01d749),
];

/// Width of `a`, `a`, the lowest position, width of the result, the slice.
const SLICES: [(u32, Word, u32, u32, Word); 24] = [
    (1, 1, 0, 1, 1),
    (1, 0, 0, 1, 0),
    (8, 0xa5, 0, 1, 1),
    (8, 0xa5, 0, 4, 5),
    (8, 0xa5, 4, 4, 0xa),
    (8, 0xa5, 1, 3, 2),
    (8, 0xa5, 7, 1, 1),
    (8, 0xa5, 6, 1, 0),
    (8, 0xa5, 0, 8, 0xa5),
    (8, 0xff, 3, 5, 0x1f),
    (16, 0x1234, 4, 8, 0x23),
    (33, 0x100000000, 32, 1, 1),
    (33, 0x100000000, 31, 2, 2),
    (63, 0x7fffffffffffffff, 1, 62, 0x3fffffffffffffff),
    (64, ONES, 0, 64, ONES),
    (64, ONES, 63, 1, 1),
    (64, LEAST, 63, 1, 1),
    (64, LEAST, 62, 2, 2),
    (64, LEAST, 0, 63, 0),
    (64, 0x123456789abcdef0, 4, 8, 0xef),
    (64, 0x123456789abcdef0, 32, 32, 0x12345678),
    (40, 0x6f47f5c381, 23, 6, 0xf),
    (64, 0x9a54090e0b480dca, 15, 7, 0x10),
    (13, 0x1b40, 4, 1, 0),
];

/// Width of `a`, `a`, width of `b`, `b`, `{a, b}`.
const JOINS: [(u32, Word, u32, Word, Word); 23] = [
    (1, 0, 1, 0, 0),
    (1, 0, 1, 1, 1),
    (1, 1, 1, 0, 2),
    (1, 1, 1, 1, 3),
    (4, 0xa, 4, 5, 0xa5),
    (4, 5, 4, 0xa, 0x5a),
    (1, 1, 7, 0, 0x80),
    (7, 0, 1, 1, 1),
    (8, 0xff, 8, 0, 0xff00),
    (8, 0, 8, 0xff, 0xff),
    (3, 5, 2, 1, 0x15),
    (2, 1, 3, 5, 0xd),
    (31, 1, 32, 0, 0x100000000),
    (32, 0xdeadbeef, 32, 0x1234567, 0xdeadbeef01234567),
    (63, 0, 1, 1, 1),
    (63, 0x7fffffffffffffff, 1, 0, 0xfffffffffffffffe),
    (1, 1, 63, 0, LEAST),
    (1, 0, 63, 0x7fffffffffffffff, MOST),
    (1, 1, 63, 0x7fffffffffffffff, ONES),
    (16, 0x8000, 16, 0x8000, 0x80008000),
    (33, 0x100000000, 31, 1, 0x8000000000000001),
    (13, 0x2a9, 20, 0x55607, 0x2a955607),
    (40, 0x23c7b13c78, 24, 0xdde1d1, 0x23c7b13c78dde1d1),
];

/// Width of `a`, `a`, width of `b`, `b`, the lowest position, `a` with `b` there.
const INSERTIONS: [(u32, Word, u32, Word, u32, Word); 23] = [
    (1, 0, 1, 1, 0, 1),
    (1, 1, 1, 0, 0, 0),
    (1, 1, 1, 1, 0, 1),
    (8, 0, 1, 1, 0, 1),
    (8, 0, 1, 1, 7, 0x80),
    (8, 0xff, 1, 0, 0, 0xfe),
    (8, 0xff, 1, 0, 7, 0x7f),
    (8, 0xff, 4, 0, 2, 0xc3),
    (8, 0x55, 4, 0xf, 4, 0xf5),
    (8, 0x55, 8, 0xaa, 0, 0xaa),
    (8, 0xa5, 3, 2, 5, 0x45),
    (16, 0x1234, 8, 0xff, 4, 0x1ff4),
    (16, 0xffff, 15, 0, 1, 1),
    (33, 0, 1, 1, 32, 0x100000000),
    (63, 0x7fffffffffffffff, 62, 0, 1, 1),
    (64, ONES, 64, 0, 0, 0),
    (64, 0, 64, ONES, 0, ONES),
    (64, ONES, 1, 0, 63, MOST),
    (64, 0, 1, 1, 63, LEAST),
    (64, 0x123456789abcdef0, 8, 0x77, 28, 0x123456777abcdef0),
    (64, LEAST, 63, 0x7fffffffffffffff, 0, ONES),
    (40, 0x91bb257c25, 9, 0x91, 16, 0x91ba917c25),
    (
        64,
        0x83cfc6894275370c,
        33,
        0xb3799319,
        22,
        0x83acde64c675370c,
    ),
];

/// `c`, width, `a`, `b`, `c ? a : b`.
const CHOICES: [(Word, u32, Word, Word, Word); 24] = [
    (1, 1, 0, 1, 0),
    (0, 1, 1, 0, 0),
    (0, 2, 2, 3, 3),
    (1, 3, 4, 7, 4),
    (0, 4, 8, 0xf, 0xf),
    (1, 8, 0xc8, 0x64, 0xc8),
    (0, 8, 0x80, 0xff, 0xff),
    (1, 8, 0xff, 0x80, 0xff),
    (0, 8, 0x7f, 0xff, 0xff),
    (1, 8, 0x80, 1, 0x80),
    (0, 8, 0xfb, 3, 3),
    (1, 8, 5, 0xfd, 5),
    (0, 8, 0xfb, 0xfd, 0xfd),
    (1, 8, 0x80, 0, 0x80),
    (1, 16, 0x8000, 0xffff, 0x8000),
    (0, 31, 0x7fffffff, 2, 2),
    (1, 32, 0x80000000, 0xffffffff, 0x80000000),
    (0, 33, 0x100000000, 3, 3),
    (
        1,
        63,
        0x4000000000000005,
        0x7fffffffffffffff,
        0x4000000000000005,
    ),
    (1, 64, ONES, 1, ONES),
    (0, 64, LEAST, ONES, ONES),
    (1, 64, ONES, LEAST, ONES),
    (0, 64, MOST, LEAST, LEAST),
    (1, 64, ONES, 0, ONES),
];

/// The value of this width and word, which a row has to give.
fn value(rt: &impl Abort, width: u32, word: Word) -> Bits
    ensures { result.width ≡ width }
{
    assert!(rt; 1 <= width && width <= MAX_WIDTH, "no width: {width}");
    let value = Bits::truncated(width, word);
    assert_eq!(rt; value.word, word, "at width {width}");
    value
}

#[test]
fn constructors(rt: HostRuntime) {
    assert_eq!(rt; Bits::new(8, 0x80), value(&rt, 8, 0x80));
    assert_eq!(rt; Bits::zero(64), value(&rt, 64, 0));
    assert_eq!(rt; Bits::truncated(4, 0xab), value(&rt, 4, 0xb));
    assert_eq!(rt; Bits::flag(true), value(&rt, 1, 1));
    assert_eq!(rt; Bits::flag(false), value(&rt, 1, 0));
    assert!(rt; Bits::new(8, 0x80).is_negative());
    assert!(rt; !Bits::new(8, 0x7f).is_negative());
}

#[test]
fn bitwise_operations(rt: HostRuntime) {
    for (width, a, b, not, and, or, xor) in BITWISE {
        let (a, b) = (value(&rt, width, a), value(&rt, width, b));
        assert_eq!(rt; bit_not(a), value(&rt, width, not));
        assert_eq!(rt; bit_and(a, b), value(&rt, width, and));
        assert_eq!(rt; bit_or(a, b), value(&rt, width, or));
        assert_eq!(rt; bit_xor(a, b), value(&rt, width, xor));
    }
}

#[test]
fn sums_and_products(rt: HostRuntime) {
    for (width, a, b, negated, sum, difference, product) in SUMS {
        let (a, b) = (value(&rt, width, a), value(&rt, width, b));
        assert_eq!(rt; neg(a), value(&rt, width, negated));
        assert_eq!(rt; add(a, b), value(&rt, width, sum));
        assert_eq!(rt; sub(a, b), value(&rt, width, difference));
        assert_eq!(rt; mul(a, b), value(&rt, width, product));
    }
}

#[test]
fn quotients_and_remainders(rt: HostRuntime) {
    for (width, a, b, quotient, signed_quotient, remainder, signed_remainder) in QUOTIENTS {
        let (a, b) = (value(&rt, width, a), value(&rt, width, b));
        assert_eq!(rt; div_u(a, b), value(&rt, width, quotient));
        assert_eq!(rt; div_s(a, b), value(&rt, width, signed_quotient));
        assert_eq!(rt; mod_u(a, b), value(&rt, width, remainder));
        assert_eq!(rt; mod_s(a, b), value(&rt, width, signed_remainder));
    }
}

#[test]
fn comparisons(rt: HostRuntime) {
    for (width, a, b, equal, less, signed_less) in COMPARISONS {
        let (a, b) = (value(&rt, width, a), value(&rt, width, b));
        assert_eq!(rt; eq(a, b), value(&rt, 1, equal));
        assert_eq!(rt; lt_u(a, b), value(&rt, 1, less));
        assert_eq!(rt; lt_s(a, b), value(&rt, 1, signed_less));
    }
}

#[test]
fn reductions(rt: HostRuntime) {
    for (width, a, and, or, xor) in REDUCTIONS {
        let a = value(&rt, width, a);
        assert_eq!(rt; red_and(a), value(&rt, 1, and));
        assert_eq!(rt; red_or(a), value(&rt, 1, or));
        assert_eq!(rt; red_xor(a), value(&rt, 1, xor));
    }
}

#[test]
fn shifts(rt: HostRuntime) {
    for (width, a, places_width, places, left, right, signed_right) in SHIFTS {
        let (a, b) = (value(&rt, width, a), value(&rt, places_width, places));
        assert_eq!(rt; shl(a, b), value(&rt, width, left));
        assert_eq!(rt; shr_u(a, b), value(&rt, width, right));
        assert_eq!(rt; shr_s(a, b), value(&rt, width, signed_right));
    }
}

#[test]
fn extensions(rt: HostRuntime) {
    for (from, a, width, by_zero, by_sign) in EXTENSIONS {
        let a = value(&rt, from, a);
        assert!(rt; from <= width && width <= MAX_WIDTH);
        assert_eq!(rt; zext(a, width), value(&rt, width, by_zero));
        assert_eq!(rt; sext(a, width), value(&rt, width, by_sign));
    }
}

#[test]
fn slices(rt: HostRuntime) {
    for (from, a, lo, width, part) in SLICES {
        let a = value(&rt, from, a);
        assert!(rt; 1 <= width && width <= from && lo <= from - width);
        assert_eq!(rt; slice(a, lo, width), value(&rt, width, part));
    }
}

#[test]
fn joins(rt: HostRuntime) {
    for (upper, a, lower, b, joined) in JOINS {
        let (a, b) = (value(&rt, upper, a), value(&rt, lower, b));
        assert!(rt; upper <= MAX_WIDTH && lower <= MAX_WIDTH - upper);
        assert_eq!(rt; concat(a, b), value(&rt, upper + lower, joined));
    }
}

#[test]
fn insertions(rt: HostRuntime) {
    for (width, a, part, b, lo, changed) in INSERTIONS {
        let (a, b) = (value(&rt, width, a), value(&rt, part, b));
        assert!(rt; part <= width && lo <= width - part);
        assert_eq!(rt; insert(a, b, lo), value(&rt, width, changed));
    }
}

#[test]
fn choices(rt: HostRuntime) {
    for (c, width, a, b, chosen) in CHOICES {
        let c = value(&rt, 1, c);
        let (a, b) = (value(&rt, width, a), value(&rt, width, b));
        assert_eq!(rt; mux(c, a, b), value(&rt, width, chosen));
    }
}
