//! The pieces of a line.

ghost use Rattle.std.specs.Prelude.{◌≡◌, ◌≤◌, ◌<◌, ◌==◌, length, ℕ, List, [], ◌∷◌, map, Option, Some, None, Ok, Err, take, drop, IfSome, MatchOption};
ghost use Rattle.std.specs.List.{list_all};
ghost use Rattle.ir_asm.specs.Text.{is_source_blank, skip_source_blanks, trim_end, trim, until, from, split, is_letter, is_source_digit, begins_name, goes_on_name, is_source_name};

pub fn is_blank(byte: u8) -> bool
    ensures { result ≡ is_source_blank byte }
{
    byte == b' ' || byte == b'\t'
}

// The bytes from the first that is no blank.
fn skip_blanks(text: &[u8]) -> &[u8]
    ensures { result.now ≡ skip_source_blanks text.now }
{
    let mut rest = text;
    while let [first, tail @ ..] = rest {
        if !is_blank(*first) {
            break;
        }
        rest = tail;
    }
    rest
}

// The bytes up to the last that is no blank.

fn trim_end(text: &[u8]) -> &[u8]
    ensures { result.now ≡ trim_end text.now }
{
    let mut rest = text;
    while let [init @ .., last] = rest {
        if !is_blank(*last) {
            break;
        }
        rest = init;
    }
    rest
}

pub fn trim(text: &[u8]) -> &[u8]
    ensures { result.now ≡ trim text.now }
{
    trim_end(skip_blanks(text))
}

// How many bytes come before the first that is this one.
#[tactic(auto, using(crate::proofs::Cuts::take_first_match, crate::proofs::Cuts::drop_first_match))]
fn length_before(text: &[u8], byte: u8) -> usize
    ensures within { result ≤ length text.now }
    ensures before { take result text.now ≡ until (λ b. b == byte) text.now }
    ensures after { drop result text.now ≡ from (λ b. b == byte) text.now }
{
    for (index, here) in text.iter().enumerate() {
        if *here == byte {
            return index;
        }
    }
    text.len()
}

pub fn before(text: &[u8], byte: u8) -> &[u8]
    ensures { result.now ≡ until (λ b. b == byte) text.now }
{
    text.split_at(length_before(text, byte)).0
}

// The first of the parts between such bytes, and what follows it, if it is not the last.
#[tactic(auto, using(crate::proofs::Cuts::split_is_split_rest, crate::proofs::Cuts::split_begins_with_part))]
pub fn first_part(text: &[u8], byte: u8) -> (&[u8], Option<&[u8]>)
    ensures parts { MatchOption result.1 (split byte text.now ≡ result.0.now ∷ []) (λ rest. split byte text.now ≡ result.0.now ∷ split byte rest.now) }
    ensures first { split byte text.now ≡ result.0.now ∷ drop 1 (split byte text.now) }
    ensures shorter { IfSome result.1 (λ rest. length rest.now < length text.now) }
{
    let (part, rest) = text.split_at(length_before(text, byte));
    match rest {
        [_, tail @ ..] => (part, Some(tail)),
        [] => (part, None),
    }
}

// How many bytes come before the first blank.
#[tactic(auto, using(crate::proofs::Cuts::take_first_match, crate::proofs::Cuts::drop_first_match))]
fn length_unblank(text: &[u8]) -> usize
    ensures within { result ≤ length text.now }
    ensures before { take result text.now ≡ until is_source_blank text.now }
    ensures after { drop result text.now ≡ from is_source_blank text.now }
{
    for (index, here) in text.iter().enumerate() {
        if is_blank(*here) {
            return index;
        }
    }
    text.len()
}

// The name of a statement, and what follows it.
pub fn name_and_rest(statement: &[u8]) -> (&[u8], &[u8])
    ensures name { result.0.now ≡ until is_source_blank statement.now }
    ensures rest { result.1.now ≡ from is_source_blank statement.now }
{
    statement.split_at(length_unblank(statement))
}

fn begins_name(byte: u8) -> bool
    ensures { result ≡ begins_name byte }
{
    byte.is_ascii_alphabetic() || byte == b'_'
}

fn goes_on_name(byte: u8) -> bool
    ensures { result ≡ goes_on_name byte }
{
    begins_name(byte) || byte.is_ascii_digit()
}

// Whether all bytes may go on a name.
fn all_go_on(text: &[u8]) -> bool
    ensures { result ≡ list_all goes_on_name text.now }
{
    text.iter().all(|byte| goes_on_name(*byte))
}

pub fn is_name(text: &[u8]) -> bool
    ensures { result ≡ is_source_name text.now }
{
    match text {
        [first, rest @ ..] => begins_name(*first) && all_go_on(rest) && rest.len() <= 63,
        [] => false,
    }
}
