//! How a run ends, its status and its message.

ghost use Rattle.std.specs.Prelude.{◌≡◌, ◌++◌, ◌∷◌, [], codes, IfOk, OnOk};
ghost use Rattle.std.specs.Fmt.{decimal};
ghost use Rattle.stimulus_reader.specs.Stimulus.{reason_text};
ghost use Rattle.lib_create.specs.Outcome.{file_text, name_text, refusal_text, misuse_text, message_of, status_of};
ghost use Rattle.lib_create.specs.code.CommandWords.{misuse_seen};
ghost use Rattle.lib_create.specs.code.Verdicts.{bad_seen, verdict_seen};

use crate::command::Misuse;
use std::alloc::{AllocError, Global};
use stimulus_reader::Reason;
use sv_base::Refusal;
use trace_writer::push_decimal;

/// The first bad line of a stimulus, its lines counted from 1, and the word that the message names, empty where it
/// names none.
#[derive(Debug, Drop)]
pub struct BadLine {
    pub line: u64,
    pub reason: Reason,
    pub word: Vec<u8>,
}

/// How a run ends that no call of the outside cuts short.
#[derive(Debug, Drop)]
pub enum Verdict<'a> {
    Done,
    Misused(Misuse<'a>),
    /// The source file isn't there.
    SourceAbsent(&'a str),
    /// The source file of this name is refused.
    SourceRefused(&'a str, Refusal),
    /// The stimulus file isn't there.
    StimulusAbsent,
    Bad(BadLine),
}

/// The status that the program ends with.
pub fn status(verdict: &Verdict<'_>) -> u8
    ensures { result ≡ status_of (verdict_seen verdict.now) }
{
    match verdict {
        Verdict::Done => 0,
        Verdict::Misused(_) => 2,
        Verdict::SourceAbsent(_) => 3,
        Verdict::SourceRefused(_, _) => 3,
        Verdict::StimulusAbsent => 5,
        Verdict::Bad(_) => 5,
    }
}

/// The message, one line with its LF, or nothing.
pub fn message(alloc: Global, verdict: &Verdict<'_>) -> Result<Vec<u8>, AllocError>
    ensures { IfOk result (λ text. text.items ≡ message_of (verdict_seen verdict.now)) }
{
    let mut text = Vec::new(alloc);
    match verdict {
        Verdict::Done => return Ok(text),
        Verdict::Misused(misuse) => push_misuse(&mut text, *misuse)?,
        Verdict::SourceAbsent(file) => push_absent(&mut text, *file)?,
        Verdict::SourceRefused(file, refusal) => push_refusal(alloc, &mut text, *file, refusal)?,
        Verdict::StimulusAbsent => text.extend_from_slice(b"stimulus 1: absent")?,
        Verdict::Bad(bad) => push_bad_line(alloc, &mut text, bad)?,
    }
    text.push(b'\n')?;
    Ok(text)
}

fn push_misuse(text: &mut Vec<u8>, misuse: Misuse<'_>) -> Result<(), AllocError>
    ensures { OnOk result (text.new.items ≡ text.old.items ++ (codes "usage: " ++ misuse_text (misuse_seen misuse.entry))) }
{
    text.extend_from_slice(b"usage: ")?;
    match misuse {
        Misuse::Wrong(word) => text.extend_from_slice(word.as_bytes()),
        Misuse::TooFew => text.extend_from_slice(b"too few words"),
    }
}

fn push_absent(text: &mut Vec<u8>, file: &str) -> Result<(), AllocError>
    ensures { OnOk result (text.new.items ≡ text.old.items ++ (codes "absent " ++ file.now)) }
{
    text.extend_from_slice(b"absent ")?;
    text.extend_from_slice(file.as_bytes())
}

fn push_refusal(
    alloc: Global,
    text: &mut Vec<u8>,
    file: &str,
    refusal: &Refusal,
) -> Result<(), AllocError>
    ensures { OnOk result (text.new.items ≡ text.old.items ++ refusal_text file.now refusal.now) }
{
    push_file(text, file, refusal.place.file)?;
    text.push(b':')?;
    push_decimal(alloc, text, u64::from(refusal.place.line))?;
    text.extend_from_slice(b": ")?;
    text.extend_from_slice(refusal.kind.text().as_bytes())?;
    push_name(text, refusal.name.bytes())
}

fn push_file(text: &mut Vec<u8>, file: &str, number: u32) -> Result<(), AllocError>
    ensures { OnOk result (text.new.items ≡ text.old.items ++ file_text file.now number) }
{
    if number == 0 {
        text.extend_from_slice(b"-")
    } else {
        text.extend_from_slice(file.as_bytes())
    }
}

/// Adds a name behind a blank, where there is one.
fn push_name(text: &mut Vec<u8>, name: &[u8]) -> Result<(), AllocError>
    ensures { OnOk result (text.new.items ≡ text.old.items ++ name_text name.now) }
{
    if name.is_empty() {
        return Ok(());
    }
    text.push(b' ')?;
    text.extend_from_slice(name)
}

fn push_bad_line(alloc: Global, text: &mut Vec<u8>, bad: &BadLine) -> Result<(), AllocError>
    ensures { OnOk result (text.new.items ≡ text.old.items
        ++ (codes "stimulus " ++ decimal bad.now.line ++ codes ": " ++ reason_text bad.now.reason bad.now.word.items)) }
{
    text.extend_from_slice(b"stimulus ")?;
    push_decimal(alloc, text, bad.line)?;
    text.extend_from_slice(b": ")?;
    push_reason(text, bad.reason, bad.word.as_slice())
}

fn push_reason(text: &mut Vec<u8>, reason: Reason, word: &[u8]) -> Result<(), AllocError>
    ensures { OnOk result (text.new.items ≡ text.old.items ++ reason_text reason word.now) }
{
    match reason {
        Reason::NoStep => push_word(text, word, b" is no step"),
        Reason::NoSetting => push_word(text, word, b" is no setting"),
        Reason::NoInput => push_word(text, word, b" is no input"),
        Reason::IsClock => push_word(text, word, b" is a clock"),
        Reason::NoClock => push_word(text, word, b" is no clock"),
        Reason::SetTwice => push_word(text, word, b" is set twice"),
        Reason::NoValue => push_word(text, word, b" is no value"),
        Reason::LineTooLong => text.extend_from_slice(b"line too long"),
        Reason::FileTooLong => text.extend_from_slice(b"file too long"),
        Reason::TooManySteps => text.extend_from_slice(b"too many steps"),
    }
}

fn push_word(text: &mut Vec<u8>, word: &[u8], rest: &[u8]) -> Result<(), AllocError>
    ensures { OnOk result (text.new.items ≡ text.old.items ++ (word.now ++ rest.now)) }
{
    text.extend_from_slice(word)?;
    text.extend_from_slice(rest)
}
