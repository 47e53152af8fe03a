//! Texts, and their words.

ghost use Rattle.ir_schedule.specs.Conditions.{occurs_in};
ghost use Rattle.ir_schedule.specs.Spelling.{marks, word_length, first_word_of, rest_of};
ghost use Rattle.std.specs.Prelude.{◌≡◌, ◌≤◌, length, option_map};

// Whether the text occurs in the bytes.
#[tactic(auto, using(crate::proofs::Texts::occurs_at_place, crate::proofs::Texts::occurs_in_rest_same, crate::proofs::Texts::occurs_at_end))]
pub fn occurs(text: &[u8], bytes: &[u8]) -> bool
    ensures { result ≡ occurs_in text.now bytes.now }
{
    'starts: for start in 0..bytes.len() {
        if bytes[start..].starts_with(text) {
            return true;
        }
    }
    text.is_empty()
}

// How many bytes come before the first blank.
#[tactic(auto, using(crate::proofs::Texts::word_length_at_space, crate::proofs::Texts::word_length_step, crate::proofs::Texts::word_length_at_end))]
fn word_length(text: &[u8]) -> usize
    ensures value { result ≡ word_length text.now }
    ensures within { result ≤ length text.now }
{
    'bytes: for index in 0..text.len() {
        if text[index] == b' ' {
            return index;
        }
    }
    text.len()
}

// The bytes before the first blank, and those after it, if there is one.
pub fn cut(text: &[u8]) -> (&[u8], Option<&[u8]>)
    ensures word { result.0.now ≡ first_word_of text.now }
    ensures rest { option_map (λ s. s.now) result.1 ≡ rest_of text.now }
{
    let length = word_length(text);
    let word = &text[..length];
    if length == text.len() {
        return (word, None);
    }
    (word, Some(&text[length + 1..]))
}

// How many `!` are at the text's start.
#[tactic(auto, using(crate::proofs::Texts::marks_at_other_byte, crate::proofs::Texts::marks_step, crate::proofs::Texts::marks_at_text_end))]
pub fn marks(text: &[u8]) -> usize
    ensures value { result ≡ marks text.now }
    ensures within { result ≤ length text.now }
{
    'bytes: for index in 0..text.len() {
        if text[index] != b'!' {
            return index;
        }
    }
    text.len()
}
