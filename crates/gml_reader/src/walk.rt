ghost use Rattle.std.specs.Prelude.{◌≡◌, ℕ, ◌<◌, ◌≤◌, ◌^◌, length, IfSome};
ghost use Rattle.gml_reader.specs.Grammar.{Pairs, spelled};
ghost use Rattle.gml_reader.specs.Walk.{IsListIn, depth_after, closing};

use gml_lex::{Token, TokenKind};

/// The value of a pair.
#[derive(Clone, Copy)]
pub(crate) enum ValueTokens<'t> {
    /// One token.
    Leaf(Token),
    /// The tokens of a list, without its Left and Right.
    Inner(&'t [Token]),
}

/// The first pair of a list, and the tokens after it.
#[derive(Clone, Copy)]
pub(crate) struct FirstPair<'t> {
    pub(crate) key: Token,
    pub(crate) value: ValueTokens<'t>,
    pub(crate) rest: &'t [Token],
}

impl<'t> FirstPair<'t> {
    ghost use Rattle.gml_reader.specs.Walk.{IsFirstOf, IsWithin};

    /// The first pair of the list that the tokens are; none where they are the empty list.
    pub(crate) fn of(tokens: &'t [Token]) -> Option<FirstPair<'t>>
        ensures first { (len : ℕ) (t : Pairs) → IsListIn len t → tokens.now ≡ spelled t
            → IsFirstOf len t result }
        ensures shorter { IfSome result (λ p. length p.rest.now < length tokens.now) }
        ensures within { IfSome result (λ p. IsWithin (length tokens.now) p.value) }
    {
        if tokens.len() < 2 {
            return None;
        }
        let key = tokens[0];
        let value = tokens[1];
        let later = tokens.split_at(2).1;
        let TokenKind::Left = value.kind else {
            return Some(FirstPair {
                key,
                value: ValueTokens::Leaf(value),
                rest: later,
            });
        };
        let (inner, closed) = later.split_at(list_end(later));
        let (_, rest) = closed.split_first()?;
        Some(FirstPair {
            key,
            value: ValueTokens::Inner(inner),
            rest,
        })
    }
}

/// How many tokens stand before the Right that closes the list which begins here.
fn list_end(tokens: &[Token]) -> usize
    ensures value { result ≡ closing tokens.now 0 }
    ensures within { result ≤ length tokens.now }
{
    let mut depth = 0usize;
    for (at, token) in tokens.iter().enumerate() {
        let Some(next) = depth_after(token.kind, depth) else {
            return at;
        };
        depth = next;
    }
    tokens.len()
}

/// How many inner lists are open after a token; none where it closes the list itself.
fn depth_after(kind: TokenKind, depth: usize) -> Option<usize>
    requires { depth < 2 ^ 63 }
    ensures { result ≡ depth_after kind depth }
{
    match kind {
        TokenKind::Left => Some(depth + 1),
        TokenKind::Right => depth.checked_sub(1),
        _ => Some(depth),
    }
}
