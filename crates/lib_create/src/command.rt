//! The words of the command line.

ghost use Rattle.std.specs.Prelude.{◌≡◌, map, option_map};
ghost use Rattle.std.specs.List.{find};
ghost use Rattle.std.specs.String.{string_bytes};
ghost use Rattle.lib_create.specs.Command.{is_option, sim_of, command_of, meaning_of};
ghost use Rattle.lib_create.specs.code.CommandWords.{said};

use sv_base::spelling::is_free_name;

/// `sim STIM TOP FILE`: the stimulus file, the top module and the source file.
#[derive(Clone, Copy, Debug)]
pub struct Sim<'a> {
    pub stimulus: &'a str,
    pub top: &'a str,
    pub file: &'a str,
}

/// Why words are refused.
#[derive(Clone, Copy, Debug)]
pub enum Misuse<'a> {
    /// This word is wrong.
    Wrong(&'a str),
    /// Too few words stand there.
    TooFew,
}

/// What the words say, or the first reason to refuse them: an empty word or one that begins with `-`; no words; a
/// first word that is no command; too few words after it; a word too many; a top that is no free name.
pub fn read_words(words: &[String]) -> Result<Sim<'_>, Misuse<'_>>
    ensures { said result ≡ meaning_of (map string_bytes words.now) }
{
    match first_option(words) {
        Some(word) => Err(Misuse::Wrong(word)),
        None => read_command(words),
    }
}

/// The first word that is empty or begins with `-`.
fn first_option(words: &[String]) -> Option<&str>
    ensures { option_map (λ w. w.now) result ≡ find is_option (map string_bytes words.now) }
{
    for word in words {
        if is_option(word.as_str()) {
            return Some(word.as_str());
        }
    }
    None
}

/// Whether a word is empty or begins with `-`.
fn is_option(word: &str) -> bool
    ensures { result ≡ is_option word.now }
{
    match word.as_bytes() {
        [] => true,
        [first, ..] => *first == b'-',
    }
}

/// What words say among which is no option.
fn read_command(words: &[String]) -> Result<Sim<'_>, Misuse<'_>>
    ensures { said result ≡ command_of (map string_bytes words.now) }
{
    match words {
        [] => Err(Misuse::TooFew),
        [command, rest @ ..] => {
            if command.as_str() == "sim" {
                read_sim(rest)
            } else {
                Err(Misuse::Wrong(command.as_str()))
            }
        }
    }
}

/// What the words after `sim` say.
fn read_sim(words: &[String]) -> Result<Sim<'_>, Misuse<'_>>
    ensures { said result ≡ sim_of (map string_bytes words.now) }
{
    match words {
        [stimulus, top, file] => {
            if is_free_name(top.as_bytes()) {
                Ok(Sim {
                    stimulus: stimulus.as_str(),
                    top: top.as_str(),
                    file: file.as_str(),
                })
            } else {
                Err(Misuse::Wrong(top.as_str()))
            }
        }
        [_, _, _, surplus, ..] => Err(Misuse::Wrong(surplus.as_str())),
        _ => Err(Misuse::TooFew),
    }
}
