//! What a line of a stimulus asks for.

ghost use Rattle.std.specs.Prelude.{◌≡◌, ◌≤◌, ◌++◌, List, ℕ, [], length, not, IfOk, IsTrue};
ghost use Rattle.std.specs.List.{AllByRecursion};
ghost use Rattle.std.specs.Vec.{vec_capacity};
ghost use Rattle.bit_ops.specs.Width.{IsWidth};
ghost use Rattle.stimulus_reader.specs.Stimulus.{without_cr, words_of, content_of, settings_of, verdict_of_settings, verdict_of_words, is_comment, kind_of};
ghost use Rattle.stimulus_reader.specs.code.LineReading.{HasFront, IsFitting, NamesPartOf, verdict_seen};

use crate::reason::Reason;
use crate::setting::{BadWord, Setting, read_setting};
use crate::step::StepKind;
use crate::words::next_word;
use sv_base::Port;

/// What a line asks for.
#[derive(Clone, Copy, Debug, PartialEq, Eq)]
pub enum LineVerdict<'a> {
    /// Nothing: the line has no words, or is a comment.
    Skip,
    /// A step of this kind, whose settings stand beside.
    Step(StepKind),
    /// Nothing that is known.
    Bad(BadWord<'a>),
}

// The bytes without a CR at their end.
fn without_cr(text: &[u8]) -> &[u8]
    ensures { result.now ≡ without_cr text.now }
{
    if text.is_empty() {
        return text;
    }
    let last = text.len() - 1;
    if text[last] == b'\r' {
        &text[..last]
    } else {
        text
    }
}

// What a line says: a CR right before its LF is left out.
fn content(line: &[u8], ended: bool) -> &[u8]
    ensures said { result.now ≡ content_of (record { text = line.now; ended = ended }) }
    ensures front { HasFront line.now result.now }
{
    if ended { without_cr(line) } else { line }
}

// Reads what the words of a text set, from left to right, up to the first that is wrong.
fn read_settings<'a>(
    ports: &[Port],
    kind: StepKind,
    text: &'a [u8],
    settings: &mut Vec<Setting>,
) -> LineVerdict<'a>
    requires widths { AllByRecursion (λ p. IsWidth p.width) ports.now }
    requires room { length ports.now ≤ vec_capacity settings.old }
    ensures gives { verdict_seen settings.new.items result
        ≡ verdict_of_settings kind (settings_of ports.now kind [] (words_of text.now)) }
    ensures fitting { AllByRecursion (IsFitting ports.now kind) settings.new.items }
    ensures part { NamesPartOf text.now result }
    ensures capacity { vec_capacity settings.new ≡ vec_capacity settings.old }
{
    settings.clear();
    let mut left = text;
    while let Some((word, rest)) = next_word(left) {
        match read_setting(ports, kind, settings, word) {
            Ok(setting) => settings.push_reserved(setting),
            Err(bad) => {
                return LineVerdict::Bad(BadWord {
                    reason: bad.reason,
                    word: bad.word,
                    behind: bad.behind + rest.len(),
                });
            }
        }
        left = rest;
    }
    LineVerdict::Step(kind)
}

fn begins_comment(word: &[u8]) -> bool
    ensures { result ≡ is_comment word.now }
{
    match word {
        [] => false,
        [first, ..] => *first == b'#',
    }
}

// The kind of step that a first word begins.
fn kind_of(word: &[u8]) -> Option<StepKind>
    ensures { result ≡ kind_of word.now }
{
    if word == b"d".as_slice() {
        Some(StepKind::Values)
    } else if word == b"c".as_slice() {
        Some(StepKind::Clocks)
    } else {
        None
    }
}

// What the words of a text ask for.
fn read_words<'a>(ports: &[Port], text: &'a [u8], settings: &mut Vec<Setting>) -> LineVerdict<'a>
    requires widths { AllByRecursion (λ p. IsWidth p.width) ports.now }
    requires room { length ports.now ≤ vec_capacity settings.old }
    ensures gives { verdict_seen settings.new.items result
        ≡ verdict_of_words ports.now (words_of text.now) }
    ensures fitting { (kind : StepKind) → result ≡ LineVerdict.Step kind
        → AllByRecursion (IsFitting ports.now kind) settings.new.items }
    ensures part { NamesPartOf text.now result }
    ensures capacity { vec_capacity settings.new ≡ vec_capacity settings.old }
{
    let Some((word, rest)) = next_word(text) else {
        return LineVerdict::Skip;
    };
    if begins_comment(word) {
        return LineVerdict::Skip;
    }
    match kind_of(word) {
        Some(kind) => read_settings(ports, kind, rest, settings),
        None => LineVerdict::Bad(BadWord {
            reason: Reason::NoStep,
            word,
            behind: rest.len(),
        }),
    }
}

/// What a line asks for. The settings of a step are put into `settings`; else anything may stand there.
pub fn read_line<'a>(
    ports: &[Port],
    line: &'a [u8],
    ended: bool,
    settings: &mut Vec<Setting>,
) -> LineVerdict<'a>
    requires widths { AllByRecursion (λ p. IsWidth p.width) ports.now }
    requires room { length ports.now ≤ vec_capacity settings.old }
    ensures gives { verdict_seen settings.new.items result
        ≡ verdict_of_words ports.now
        (words_of (content_of (record { text = line.now; ended = ended }))) }
    ensures fitting { (kind : StepKind) → result ≡ LineVerdict.Step kind
        → AllByRecursion (IsFitting ports.now kind) settings.new.items }
    ensures part { NamesPartOf line.now result }
    ensures capacity { vec_capacity settings.new ≡ vec_capacity settings.old }
{
    let said = content(line, ended);
    match read_words(ports, said, settings) {
        LineVerdict::Skip => LineVerdict::Skip,
        LineVerdict::Step(kind) => LineVerdict::Step(kind),
        LineVerdict::Bad(bad) => LineVerdict::Bad(BadWord {
            reason: bad.reason,
            word: bad.word,
            behind: bad.behind + (line.len() - said.len()),
        }),
    }
}
