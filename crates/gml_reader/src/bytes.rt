ghost use Rattle.std.specs.Prelude.{◌≡◌, ◌≤◌, length, MatchOption, [], ◌∷◌, not};
ghost use Rattle.std.specs.List.{slice_range, slice_split, prefix_len};
ghost use Rattle.std.specs.Str.{bytes_eq};
ghost use Rattle.gml_lex.specs.Words.{is_point};
ghost use Rattle.gml_reader.specs.Values.{bytes_of, content_of, without_plus, small_number, address_part, joined, address_of};

use gml_lex::Token;
use mn_base::read_u64;

/// The bytes from one place to another; none where they aren't all there.
fn span(text: &[u8], start: usize, end: usize) -> &[u8]
    ensures { end ≤ length text.now → result.now ≡ slice_range text.now start end }
{
    text.get(start..end).unwrap_or(&[])
}

/// The bytes of a token.
pub(crate) fn bytes_of(text: &[u8], token: Token) -> &[u8]
    ensures { token.end ≤ length text.now → result.now ≡ bytes_of text.now token }
{
    span(text, token.start as usize, token.end as usize)
}

/// A text without its quotes.
pub(crate) fn content_of(text: &[u8], token: Token) -> &[u8]
    ensures { token.end ≤ length text.now → result.now ≡ content_of text.now token }
{
    span(
        text,
        token.start as usize + 1,
        (token.end as usize).saturating_sub(1),
    )
}

pub(crate) fn is_named(text: &[u8], token: Token, name: &[u8]) -> bool
    ensures { token.end ≤ length text.now → result ≡ bytes_eq (bytes_of text.now token) name.now }
{
    bytes_of(text, token) == name
}

pub(crate) fn without_plus(bytes: &[u8]) -> &[u8]
    ensures { result.now ≡ without_plus bytes.now }
{
    match bytes.split_first() {
        Some((b'+', rest)) => rest,
        _ => bytes,
    }
}

/// The value of a plain decimal below 2^63.
pub(crate) fn small_number(bytes: &[u8]) -> Option<u64>
    ensures { result ≡ small_number bytes.now }
{
    let number = read_u64(bytes)?;
    (number < 1 << 63).then_some(number)
}

/// The IPv4 address of four parts joined by points, first byte highest.
#[tactic(auto, unfolding(crate::specs::Values::address_of))]
pub(crate) fn address_of(bytes: &[u8]) -> Option<u32>
    ensures { result ≡ address_of bytes.now }
{
    let (a, rest) = cut(bytes)?;
    let (b, rest) = cut(rest)?;
    let (c, d) = cut(rest)?;
    joined(part(a), part(b), part(c), part(d))
}

fn joined(a: Option<u8>, b: Option<u8>, c: Option<u8>, d: Option<u8>) -> Option<u32>
    ensures { result ≡ joined a b c d }
{
    let w = u32::from(a?);
    let x = u32::from(b?);
    let y = u32::from(c?);
    let z = u32::from(d?);
    Some(((w * 256 + x) * 256 + y) * 256 + z)
}

/// What stands before and after the first point.
fn cut(bytes: &[u8]) -> Option<(&[u8], &[u8])>
    ensures { MatchOption result
        (slice_split is_point bytes.now ≡ bytes.now ∷ [])
        (λ r. slice_split is_point bytes.now ≡ r.0.now ∷ slice_split is_point r.1.now) }
{
    let len = part_len(bytes);
    if len == bytes.len() {
        return None;
    }
    Some((bytes.split_at(len).0, bytes.split_at(len + 1).1))
}

/// How many bytes stand before the first point.
fn part_len(bytes: &[u8]) -> usize
    ensures value { result ≡ prefix_len (λ b. not (is_point b)) bytes.now }
    ensures within { result ≤ length bytes.now }
{
    bytes.iter().take_while(|b| **b != b'.').count()
}

/// One to three digits, of at most 255.
fn part(bytes: &[u8]) -> Option<u8>
    ensures { result ≡ address_part bytes.now }
{
    if bytes.len() > 3 {
        return None;
    }
    let number = read_u64(bytes)?;
    if number > 255 {
        return None;
    }
    Some(number as u8)
}
