//! Which names there are.

ghost use Rattle.std.specs.Prelude.{◌≡◌};
ghost use Rattle.ir_names.specs.Lines.{begins_with_control, has_no_control, is_name_of_thing};

// The most bytes of a name.
const MOST_NAME_BYTES: usize = 4096;

// Whether a text begins with a control character.
fn begins_with_control(text: &[u8]) -> bool
    ensures { result ≡ begins_with_control text.now }
{
    match text {
        [194, 128..=159, ..] => true,
        [byte, ..] => *byte < 32 || *byte == 127,
        [] => false,
    }
}

// Whether a text has no control character.
fn has_no_control(text: &[u8]) -> bool
    ensures { result ≡ has_no_control text.now }
{
    match text {
        [] => true,
        [_, rest @ ..] => !begins_with_control(text) && has_no_control(rest),
    }
}

/// Whether the bytes are a name: 1 to 4096 of them, without control characters.
pub fn is_name(bytes: &[u8]) -> bool
    ensures { result ≡ is_name_of_thing bytes.now }
{
    !bytes.is_empty() && bytes.len() <= MOST_NAME_BYTES && has_no_control(bytes)
}
