//! Numbers as command-line arguments write them.

ghost use Rattle.std.specs.Prelude.{◌≡◌, ◌≤◌, IfSome};
ghost use Rattle.ir_record_command.specs.Numerals.{number_within};

/// The number from `low` to `high` that a text writes in decimal digits and nothing else.
pub fn number_within(low: u64, high: u64, text: &str) -> Option<u64>
    ensures value { result ≡ number_within low high text.now }
    ensures within { IfSome result (λ n. n ≤ high) }
{
    if text.starts_with('+') {
        return None;
    }
    let Ok(number) = text.parse::<u64>() else {
        return None;
    };
    if low <= number && number <= high {
        Some(number)
    } else {
        None
    }
}
