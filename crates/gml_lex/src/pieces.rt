ghost use Rattle.std.specs.Prelude.{◌≡◌, ◌≤◌, ◌==◌, not, length};
ghost use Rattle.std.specs.List.{prefix_len};
ghost use Rattle.mn_base.specs.declared.limits.TheConstants.{TOPOLOGY_BYTES_MAX};

use crate::kinds::TokenKind;
use crate::words::{kind_of_word, word_len};

/// A piece of a text.
#[derive(Clone, Copy, Debug, PartialEq, Eq)]
pub(crate) struct Piece {
    /// The kind of a token; none of a blank or a comment.
    pub(crate) kind: Option<TokenKind>,
    /// Its length, in bytes.
    pub(crate) len: usize,
}

impl Piece {
    ghost use Rattle.gml_lex.specs.Pieces.{piece_at, isnt_feed, isnt_quote, text_at, word_at};

    /// The piece at the front of a text, or none where no piece begins.
    #[tactic(auto, unfolding(crate::specs::Pieces::piece_at))]
    pub(crate) fn at_front(text: &[u8]) -> Option<Piece>
        requires { length text.now ≤ TOPOLOGY_BYTES_MAX }
        ensures { result ≡ piece_at text.now }
    {
        let (first, rest) = text.split_first()?;
        match *first {
            b' ' | b'\t' | b'\r' | b'\n' => Some(Piece { kind: None, len: 1 }),
            b'#' => Some(Piece {
                kind: None,
                len: 1 + line_len(rest),
            }),
            b'"' => Piece::text(rest),
            b'[' => Some(Piece {
                kind: Some(TokenKind::Left),
                len: 1,
            }),
            b']' => Some(Piece {
                kind: Some(TokenKind::Right),
                len: 1,
            }),
            _ => Piece::word(text),
        }
    }

    /// The text whose opening quote stands before the bytes.
    fn text(bytes: &[u8]) -> Option<Piece>
        requires { length bytes.now ≤ TOPOLOGY_BYTES_MAX }
        ensures { result ≡ text_at bytes.now }
    {
        let len = content_len(bytes);
        (len < bytes.len()).then_some(Piece {
            kind: Some(TokenKind::Text),
            len: 2 + len,
        })
    }

    /// The word at the front.
    fn word(text: &[u8]) -> Option<Piece>
        ensures { result ≡ word_at text.now }
    {
        let len = word_len(text);
        let kind = kind_of_word(&text[..len])?;
        Some(Piece {
            kind: Some(kind),
            len,
        })
    }
}

/// How many bytes stand before the next line feed.
fn line_len(bytes: &[u8]) -> usize
    ensures value { result ≡ prefix_len (λ b. not (b == 10)) bytes.now }
    ensures within { result ≤ length bytes.now }
{
    bytes.iter().take_while(|b| **b != b'\n').count()
}

/// How many bytes stand before the next quote.
fn content_len(bytes: &[u8]) -> usize
    ensures value { result ≡ prefix_len (λ b. not (b == 34)) bytes.now }
    ensures within { result ≤ length bytes.now }
{
    bytes.iter().take_while(|b| **b != b'"').count()
}
