//! Lines cut into words.

ghost use Rattle.std.specs.Prelude.{◌≡◌, ◌≤◌, [], ◌∷◌, length, MatchOption};
ghost use Rattle.ir_command.specs.Commands.{without_return, words_of};
ghost use Rattle.ir_command.specs.Cuts.{skip_blanks, word_end, is_blank};

fn is_blank(byte: u8) -> bool
    ensures { result ≡ is_blank byte }
{
    byte == b' ' || byte == b'\t'
}

// The bytes from the first that is no blank.
#[tactic(auto, unfolding(crate::specs::Cuts::skip_blanks))]
fn skip(line: &[u8]) -> &[u8]
    ensures { result.now ≡ skip_blanks line.now }
{
    match line {
        [first, rest @ ..] if is_blank(*first) => skip(rest),
        _ => line,
    }
}

// How many bytes are before the first blank.
#[tactic(auto, unfolding(crate::specs::Cuts::word_end))]
fn word_len(line: &[u8]) -> usize
    ensures value { result ≡ word_end line.now }
    ensures within { result ≤ length line.now }
{
    match line {
        [first, rest @ ..] if !is_blank(*first) => word_len(rest) + 1,
        _ => 0,
    }
}

/// The first word of a line and the rest of the line, if there is a word.
pub fn next_word(line: &[u8]) -> Option<(&[u8], &[u8])>
    ensures { MatchOption result (words_of line.now ≡ []) (λ cut. words_of line.now ≡ cut.0.now ∷ words_of cut.1.now) }
{
    let line = skip(line);
    if line.is_empty() {
        return None;
    }
    Some(line.split_at(word_len(line)))
}

/// The line without a carriage return at its end.
pub fn without_return(line: &[u8]) -> &[u8]
    ensures { result.now ≡ without_return line.now }
{
    match line.len() {
        0 => line,
        n if line[n - 1] == b'\r' => &line[..n - 1],
        _ => line,
    }
}
