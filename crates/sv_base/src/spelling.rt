//! Names, and the words that no name may be.

ghost use Rattle.std.specs.Prelude.{◌≡◌};
ghost use Rattle.std.specs.List.{list_all, list_any};
ghost use Rattle.std.specs.Str.{bytes_eq};
ghost use Rattle.sv_base.specs.Spelling.{begins_name, continues_name, is_name, is_reserved, is_free_name, used_words, refused_words};

const USED_WORDS: [&str; 31] = [
    "module",
    "endmodule",
    "input",
    "output",
    "wire",
    "logic",
    "reg",
    "bit",
    "int",
    "integer",
    "signed",
    "unsigned",
    "parameter",
    "localparam",
    "genvar",
    "generate",
    "endgenerate",
    "assign",
    "always",
    "always_comb",
    "always_ff",
    "posedge",
    "negedge",
    "begin",
    "end",
    "if",
    "else",
    "case",
    "endcase",
    "default",
    "for",
];

const REFUSED_WORDS: [&str; 83] = [
    "inout",
    "tri",
    "tri0",
    "tri1",
    "triand",
    "trior",
    "trireg",
    "wand",
    "wor",
    "supply0",
    "supply1",
    "uwire",
    "initial",
    "final",
    "task",
    "endtask",
    "function",
    "endfunction",
    "class",
    "endclass",
    "package",
    "endpackage",
    "import",
    "export",
    "interface",
    "endinterface",
    "modport",
    "program",
    "endprogram",
    "struct",
    "union",
    "enum",
    "typedef",
    "packed",
    "casez",
    "casex",
    "unique",
    "unique0",
    "priority",
    "while",
    "repeat",
    "do",
    "forever",
    "break",
    "continue",
    "return",
    "always_latch",
    "defparam",
    "specify",
    "endspecify",
    "primitive",
    "endprimitive",
    "force",
    "release",
    "deassign",
    "real",
    "shortreal",
    "realtime",
    "time",
    "string",
    "event",
    "chandle",
    "byte",
    "shortint",
    "longint",
    "var",
    "automatic",
    "static",
    "const",
    "void",
    "or",
    "iff",
    "inside",
    "assert",
    "assume",
    "cover",
    "property",
    "sequence",
    "bind",
    "fork",
    "join",
    "wait",
    "disable",
];

/// Whether a name may begin with the byte.
pub fn begins_name(byte: u8) -> bool
    ensures { result ≡ begins_name byte }
{
    matches!(byte, b'A'..=b'Z' | b'a'..=b'z' | b'_')
}

/// Whether the byte may stand inside a name.
pub fn continues_name(byte: u8) -> bool
    ensures { result ≡ continues_name byte }
{
    begins_name(byte) || matches!(byte, b'0'..=b'9' | b'$')
}

fn continue_name(bytes: &[u8]) -> bool
    ensures { result ≡ list_all continues_name bytes.now }
{
    bytes.iter().all(|byte| continues_name(*byte))
}

/// Whether the bytes are a name by their form.
pub fn is_name(bytes: &[u8]) -> bool
    ensures { result ≡ is_name bytes.now }
{
    match bytes {
        [] => false,
        [first, rest @ ..] => begins_name(*first) && continue_name(rest),
    }
}

fn stands_among(words: &[&str], word: &[u8]) -> bool
    ensures { result ≡ list_any (λ w. bytes_eq word.now w.now) words.now }
{
    words.iter().any(|w| word == w.as_bytes())
}

/// Whether the word is one that the language uses.
pub fn is_used(word: &[u8]) -> bool
    ensures { result ≡ list_any (bytes_eq word.now) used_words }
{
    stands_among(&USED_WORDS, word)
}

/// Whether the word is one of the standard outside the subset.
pub fn is_refused(word: &[u8]) -> bool
    ensures { result ≡ list_any (bytes_eq word.now) refused_words }
{
    stands_among(&REFUSED_WORDS, word)
}

/// Whether the bytes are a word of the language, or one of the standard outside the subset.
pub fn is_reserved(word: &[u8]) -> bool
    ensures { result ≡ is_reserved word.now }
{
    is_used(word) || is_refused(word)
}

/// Whether the bytes may name a module, a port or a net.
pub fn is_free_name(word: &[u8]) -> bool
    ensures { result ≡ is_free_name word.now }
{
    is_name(word) && !is_reserved(word)
}
