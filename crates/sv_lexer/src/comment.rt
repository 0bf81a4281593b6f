ghost use Rattle.std.specs.Prelude.{◌≡◌, ◌++◌, ◌∷◌, ℕ, drop, MatchOption, true, false, List};
ghost use Rattle.sv_lexer.specs.Bytes.{Stops, Each, is_blank};
ghost use Rattle.sv_lexer.specs.Piece.{HasNoClose, IsMarkText};
ghost use Rattle.sv_lexer.specs.Scan.{IsFoundAt, IsCommentForm, ClosesAt, IsBlankRun};

use crate::form::Form;
use crate::found::Found;
use crate::run::{Class, byte_at, run_len};

/// Where the first `*/` begins.
fn close_at(bytes: &[u8]) -> Option<usize>
    ensures { MatchOption result (HasNoClose bytes.now) (λ at. ClosesAt at bytes.now) }
{
    for at in 0..bytes.len() {
        if bytes[at] == b'*' && byte_at(bytes, at + 1) == b'/' {
            return Some(at);
        }
    }
    None
}

/// The text after its blanks, and how many there were.
fn past_blanks(bytes: &[u8]) -> (usize, &[u8])
    ensures { IsBlankRun result.0 bytes.now result.1.now }
{
    let blanks = run_len(Class::Blank, bytes);
    (blanks, &bytes[blanks..])
}

/// The text after this word, if it begins with it.
fn after_word<'a>(bytes: &'a [u8], word: &[u8]) -> Option<&'a [u8]>
    ensures { MatchOption result ((rest : List ℕ) → bytes.now ≡ word.now ++ rest → ⊥) (λ rest. bytes.now ≡ word.now ++ rest.now) }
{
    bytes.strip_prefix(word)
}

/// Whether a comment with this content is a mark.
fn is_mark(content: &[u8]) -> bool
    ensures yes { result ≡ true → IsMarkText content.now }
    ensures none { result ≡ false → IsMarkText content.now → ⊥ }
{
    let (_, text) = past_blanks(content);
    let Some(text) = after_word(text, b"verilator") else {
        return false;
    };
    let (between, text) = past_blanks(text);
    let Some(text) = after_word(text, b"hier_block") else {
        return false;
    };
    let (_, text) = past_blanks(text);
    0 < between && text.is_empty()
}

fn comment_form(content: &[u8]) -> Form
    ensures { IsCommentForm result content.now }
{
    if is_mark(content) {
        Form::Mark
    } else {
        Form::Comment
    }
}

/// The comment at the front of a text that begins with `//`.
pub fn line_comment(bytes: &[u8]) -> Found
    requires { bytes.now ≡ 47 ∷ 47 ∷ drop 2 bytes.now }
    ensures { IsFoundAt result bytes.now }
{
    let content = &bytes[2..];
    let len = run_len(Class::Line, content);
    Found {
        form: comment_form(&content[..len]),
        len: len + 2,
    }
}

/// The comment at the front of a text that begins with `/*`, closed or open.
pub fn block_comment(bytes: &[u8]) -> Found
    requires { bytes.now ≡ 47 ∷ 42 ∷ drop 2 bytes.now }
    ensures { IsFoundAt result bytes.now }
{
    let content = &bytes[2..];
    match close_at(content) {
        Some(len) => Found {
            form: comment_form(&content[..len]),
            len: len + 4,
        },
        None => Found {
            form: Form::OpenComment,
            len: bytes.len(),
        },
    }
}
