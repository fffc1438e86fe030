ghost use Rattle.std.specs.Prelude.{◌≡◌, ◌<◌, [], ◌∷◌, length, option_copied, MatchOption};
ghost use Rattle.mn_words.specs.Values.{colon_parts, rest_parts};

/// The text before the first colon, and what stands after it.
#[tactic(auto, using(crate::proofs::ColonParts::cuts))]
pub fn first_part(text: &str) -> Option<(&str, &str)>
    ensures { MatchOption result (colon_parts text.now ≡ text.now ∷ [])
        (λ parts. colon_parts text.now ≡ parts.0.now ∷ colon_parts parts.1.now) }
{
    text.split_once(':')
}

/// The first four parts of a text, and what stands after the colon that follows them, where there is one.
#[derive(Drop)]
pub struct FourParts<'w> {
    pub first: &'w str,
    pub second: &'w str,
    pub third: &'w str,
    pub fourth: &'w str,
    pub rest: Option<&'w str>,
}

/// None where a text has fewer than four parts.
#[tactic(auto)]
pub fn four_parts(text: &str) -> Option<FourParts<'_>>
    ensures { MatchOption result (length (colon_parts text.now) < 4)
        (λ f. colon_parts text.now ≡ f.first.now ∷ f.second.now ∷ f.third.now ∷ f.fourth.now ∷ rest_parts (option_copied f.rest)) }
{
    let (first, rest) = first_part(text)?;
    let (second, rest) = first_part(rest)?;
    let (third, rest) = first_part(rest)?;
    let parts = match first_part(rest) {
        Some((fourth, rest)) => FourParts {
            first,
            second,
            third,
            fourth,
            rest: Some(rest),
        },
        None => FourParts {
            first,
            second,
            third,
            fourth: rest,
            rest: None,
        },
    };
    Some(parts)
}
