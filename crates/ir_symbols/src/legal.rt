//! Which kinds and names a symbol may have.

ghost use Rattle.std.specs.Prelude.{◌≡◌};
ghost use Rattle.std.specs.List.{list_all};
ghost use Rattle.ir_symbols.specs.Symbols.{is_kind, is_mark, is_printable, is_name};

pub fn is_kind(kind: char) -> bool
    ensures { result ≡ is_kind kind }
{
    kind.is_ascii_alphabetic() || kind == '?'
}

fn is_mark(byte: u8) -> bool
    ensures { result ≡ is_mark byte }
{
    byte >= 33 && byte <= 126
}

fn is_printable(byte: u8) -> bool
    ensures { result ≡ is_printable byte }
{
    byte >= 32 && byte <= 126
}

// Whether all bytes are printable.
fn are_printable(bytes: &[u8]) -> bool
    ensures { result ≡ list_all is_printable bytes.now }
{
    bytes.iter().all(|byte| is_printable(*byte))
}

pub fn is_name(bytes: &[u8]) -> bool
    ensures { result ≡ is_name bytes.now }
{
    match bytes.len() {
        0 => false,
        length => are_printable(bytes) && is_mark(bytes[0]) && is_mark(bytes[length - 1]),
    }
}
