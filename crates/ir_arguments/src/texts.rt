//! Texts that are cut.

ghost use Rattle.std.specs.Prelude.{◌≡◌, ◌<◌, ◌==◌, [], ◌∷◌, length, option_map, IfSome, MatchOption};
ghost use Rattle.std.specs.List.{slice_split};
ghost use Rattle.ir_arguments.specs.Reading.{cut_at};

/// The text before the first such character, and the text after it, if there is one.
pub fn cut(text: &str, mark: char) -> Option<(&str, &str)>
    requires { mark < 128 }
    ensures parts { option_map (λ p. (p.0.now, p.1.now)) result ≡ cut_at mark text.now }
    ensures shorter { IfSome result (λ p. length p.1.now < length text.now) }
{
    text.split_once(mark)
}

/// The part of a text before the first such character, and what follows it, if there is one.
#[tactic(auto, using(crate::proofs::Cuts::parts_after_cut))]
pub fn first_part(text: &str, mark: char) -> (&str, Option<&str>)
    requires { mark < 128 }
    ensures parts { MatchOption result.1 (slice_split (λ b. b == mark) text.now ≡ result.0.now ∷ [])
        (λ rest. slice_split (λ b. b == mark) text.now ≡ result.0.now ∷ slice_split (λ b. b == mark) rest.now) }
    ensures shorter { IfSome result.1 (λ rest. length rest.now < length text.now) }
{
    match cut(text, mark) {
        Some((part, rest)) => (part, Some(rest)),
        None => (text, None),
    }
}
