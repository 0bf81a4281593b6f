//! The words of a line of a stimulus.

ghost use Rattle.std.specs.Prelude.{◌≡◌, ◌<◌, [], ◌∷◌, length, not, MatchOption, IfSome};
ghost use Rattle.std.specs.List.{position};
ghost use Rattle.stimulus_reader.specs.Stimulus.{separates, words_of};
ghost use Rattle.stimulus_reader.specs.code.LineReading.{HasPart};

fn is_blank(byte: u8) -> bool
    ensures { result ≡ separates byte }
{
    byte == b' ' || byte == b'\t'
}

// Where the first word begins, if there is one.
fn word_start(text: &[u8]) -> Option<usize>
    ensures { result ≡ position (λ b. not (separates b)) text.now }
{
    text.iter().position(|b| !is_blank(*b))
}

// Where the next separator stands, if there is one.
fn word_end(text: &[u8]) -> Option<usize>
    ensures { result ≡ position (λ b. separates b) text.now }
{
    text.iter().position(|b| is_blank(*b))
}

/// The first word of a text and what stands behind it, where there is a word.
pub fn next_word(text: &[u8]) -> Option<(&[u8], &[u8])>
    ensures words { MatchOption result (words_of text.now ≡ [])
        (λ parts. words_of text.now ≡ parts.0.now ∷ words_of parts.1.now) }
    ensures part { IfSome result (λ parts. HasPart text.now parts.0.now parts.1.now) }
    ensures shorter { IfSome result (λ parts. length parts.1.now < length text.now) }
{
    let start = word_start(text)?;
    let (_, front) = text.split_at(start);
    let end = word_end(front).unwrap_or(front.len());
    Some(front.split_at(end))
}
