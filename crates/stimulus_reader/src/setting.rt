//! What a word of a stimulus sets.

ghost use Rattle.std.specs.Prelude.{◌≡◌, ◌==◌, ◌&&◌, nat_lt, ◌<◌, ◌≤◌, ◌^◌, ◌++◌, ◌∷◌, false, length, None, Some, IfOk, IfErr, IfSome, MatchOption};
ghost use Rattle.std.specs.List.{AllByRecursion, list_any, position};
ghost use Rattle.std.specs.Option.{option_map};
ghost use Rattle.std.specs.Str.{bytes_eq};
ghost use Rattle.bit_ops.specs.Width.{IsWidth};
ghost use Rattle.sv_base.specs.Spelling.{is_name};
ghost use Rattle.stimulus_reader.specs.Stimulus.{digit_of, number_from, word_in, level_in, value_in, parts_of, named_part, input_from, class_fault, set_input, setting_of};
ghost use Rattle.sv_base.specs.Classes.{is_input};
ghost use Rattle.stimulus_reader.specs.code.LineReading.{IsInputOf, IsFitting, StandsIn, ports_set, setting_result};

use crate::reason::Reason;
use crate::step::StepKind;
use bit_ops::Bits;
use sv_base::spelling::is_name;
use sv_base::{Class, Port};

/// A value for an input, which stands at the place `port` among the ports of the face, counted from 0.
#[derive(Clone, Copy, Debug, PartialEq, Eq)]
pub struct Setting {
    pub port: usize,
    pub value: Bits,
}

/// Why a line is refused, and what the message names: a word of the line, or the name or the value of a setting, behind
/// which so many bytes stand in the text that was read.
#[derive(Clone, Copy, Debug, PartialEq, Eq)]
pub struct BadWord<'a> {
    pub reason: Reason,
    pub word: &'a [u8],
    pub behind: usize,
}

fn digit(byte: u8) -> Option<u64>
    ensures value { result ≡ digit_of byte }
    ensures below { IfSome result (λ d. d < 16) }
{
    match byte {
        b'0'..=b'9' => Some((byte - b'0') as u64),
        b'a'..=b'f' => Some((byte - 87) as u64),
        b'A'..=b'F' => Some((byte - 55) as u64),
        _ => None,
    }
}

// The number that hexadecimal digits spell.
fn number(digits: &[u8]) -> Option<u64>
    requires { length digits.now ≤ 16 }
    ensures { result ≡ number_from (Some 0) digits.now }
{
    let mut number: u64 = 0;
    for b in digits {
        number = number * 16 + digit(*b)?;
    }
    Some(number)
}

// The value that hexadecimal digits give an input of this width.
fn number_in(width: u32, text: &[u8]) -> Option<Bits>
    requires { IsWidth width }
    ensures word { option_map (λ value. value.word) result ≡ word_in width text.now }
    ensures width { IfSome result (λ value. value.width ≡ width) }
{
    if text.is_empty() || text.len() > 16 {
        return None;
    }
    let word = number(text)?;
    let value = Bits::truncated(width, word);
    if value.word == word {
        Some(value)
    } else {
        None
    }
}

// The level that a digit gives a clock, as a value of this width.
fn level_bits(width: u32, text: &[u8]) -> Option<Bits>
    requires { IsWidth width }
    ensures word { option_map (λ value. value.word) result ≡ level_in text.now }
    ensures width { IfSome result (λ value. value.width ≡ width) }
{
    match text {
        [b'0'] => Some(Bits::zero(width)),
        [b'1'] => Some(Bits::new(width, 1)),
        _ => None,
    }
}

// The value that a text gives an input of this width on a line of this kind.
fn value_in(kind: StepKind, width: u32, text: &[u8]) -> Option<Bits>
    requires { IsWidth width }
    ensures word { option_map (λ value. value.word) result ≡ value_in kind width text.now }
    ensures width { IfSome result (λ value. value.width ≡ width) }
{
    match kind {
        StepKind::Values => number_in(width, text),
        StepKind::Clocks => level_bits(width, text),
    }
}

fn equals_sign(word: &[u8]) -> Option<usize>
    ensures { result ≡ position (λ b. b == 61) word.now }
{
    word.iter().position(|b| *b == b'=')
}

// What stands before the first `=` and after it.
fn split_parts(word: &[u8]) -> Option<(&[u8], &[u8])>
    ensures { option_map (λ parts. (parts.0.now, parts.1.now)) result ≡ parts_of word.now }
{
    let at = equals_sign(word)?;
    let (name, rest) = word.split_at(at);
    let (_, text) = rest.split_at(1);
    Some((name, text))
}

fn has_form(name: &[u8], text: &[u8]) -> bool
    ensures { result ≡ (is_name name.now && nat_lt 0 (length text.now)) }
{
    is_name(name) && !text.is_empty()
}

// The name and the value's text, where the word has the form of a setting.
fn parts(word: &[u8]) -> Option<(&[u8], &[u8])>
    ensures { option_map (λ parts. (parts.0.now, parts.1.now)) result
        ≡ named_part (parts_of word.now) }
{
    let (name, text) = split_parts(word)?;
    if has_form(name, text) {
        Some((name, text))
    } else {
        None
    }
}

fn is_input(class: Class) -> bool
    ensures { result ≡ is_input class }
{
    match class {
        Class::Value | Class::Clock | Class::Idle => true,
        Class::Output => false,
    }
}

fn position_of_input(ports: &[Port], name: &[u8]) -> Option<usize>
    ensures { result ≡ position (λ p. bytes_eq p.name name.now && is_input p.class) ports.now }
{
    ports
        .iter()
        .position(|p| p.name.bytes() == name && is_input(p.class))
}

fn is_set(set: &[Setting], port: usize) -> bool
    ensures { result ≡ list_any (λ s. s.port == port) set.now }
{
    set.iter().any(|s| s.port == port)
}

// The place of the input that a name means.
fn input(ports: &[Port], name: &[u8]) -> Option<usize>
    ensures found { MatchOption result (input_from 0 ports.now name.now ≡ None)
        (IsInputOf ports.now name.now) }
    ensures there { IfSome result (λ place. place < length ports.now) }
{
    position_of_input(ports, name)
}

// Why a line of this kind may not set an input of this class and width, if it may not.
fn class_fault(kind: StepKind, class: Class, width: u32) -> Option<Reason>
    ensures { result ≡ class_fault kind class width }
{
    match kind {
        StepKind::Values => match class {
            Class::Clock => Some(Reason::IsClock),
            Class::Value | Class::Idle | Class::Output => None,
        },
        StepKind::Clocks => match class {
            Class::Value => Some(Reason::NoClock),
            Class::Idle if width != 1 => Some(Reason::NoClock),
            Class::Idle | Class::Clock | Class::Output => None,
        },
    }
}

// What a name and a text set at this port and place.
fn set_port<'a>(
    port: &Port,
    at: usize,
    kind: StepKind,
    set: &[Setting],
    name: &'a [u8],
    text: &'a [u8],
) -> Result<Setting, BadWord<'a>>
    requires { IsWidth port.now.width }
    ensures gives { setting_result result
        ≡ set_input kind (ports_set set.now) name.now text.now (Some (at, port.now)) }
    ensures place { IfOk result (λ s. s.port ≡ at) }
    ensures width { IfOk result (λ s. s.value.width ≡ port.now.width) }
    ensures allowed { IfOk result (λ s. class_fault kind port.now.class port.now.width ≡ None) }
    ensures once { IfOk result (λ s. list_any (λ other. other.port == at) set.now ≡ false) }
    ensures part { IfErr result
        (λ bad. StandsIn (name.now ++ 61 ∷ text.now) bad.word.now bad.behind) }
{
    let behind = text.len() + 1;
    if let Some(reason) = class_fault(kind, port.class, port.width) {
        return Err(BadWord {
            reason,
            word: name,
            behind,
        });
    }
    if is_set(set, at) {
        return Err(BadWord {
            reason: Reason::SetTwice,
            word: name,
            behind,
        });
    }
    match value_in(kind, port.width, text) {
        Some(value) => Ok(Setting { port: at, value }),
        None => Err(BadWord {
            reason: Reason::NoValue,
            word: text,
            behind: 0,
        }),
    }
}

/// What a word of a line of this kind sets, where the settings before it in its line are `set`.
pub fn read_setting<'a>(
    ports: &[Port],
    kind: StepKind,
    set: &[Setting],
    word: &'a [u8],
) -> Result<Setting, BadWord<'a>>
    requires { AllByRecursion (λ p. IsWidth p.width) ports.now }
    ensures gives { setting_result result ≡ setting_of ports.now kind (ports_set set.now) word.now }
    ensures fitting { IfOk result (IsFitting ports.now kind) }
    ensures once { IfOk result (λ s. list_any (λ other. other.port == s.port) set.now ≡ false) }
    ensures part { IfErr result (λ bad. StandsIn word.now bad.word.now bad.behind) }
{
    let Some((name, text)) = parts(word) else {
        return Err(BadWord {
            reason: Reason::NoSetting,
            word,
            behind: 0,
        });
    };
    let Some(at) = input(ports, name) else {
        return Err(BadWord {
            reason: Reason::NoInput,
            word: name,
            behind: text.len() + 1,
        });
    };
    set_port(&ports[at], at, kind, set, name, text)
}
