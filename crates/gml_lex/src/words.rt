ghost use Rattle.std.specs.Prelude.{◌≡◌, count_by};
ghost use Rattle.std.specs.List.{list_all, list_any, prefix_len};
ghost use Rattle.mn_base.specs.Decimal.{is_digit};
ghost use Rattle.gml_lex.specs.Words.{is_letter, is_key_byte, is_sign, is_point, is_word_byte, isnt_e, is_key, unsigned, are_digits, is_integer, is_digit_or_point, is_mantissa, is_exponent, is_scientific, is_real, kind_of_word};

use crate::kinds::TokenKind;

/// The kind of a word, or none where it is of no kind.
#[tactic(auto, unfolding(crate::specs::Words::kind_of_word))]
pub(crate) fn kind_of_word(word: &[u8]) -> Option<TokenKind>
    ensures { result ≡ kind_of_word word.now }
{
    if is_key(word) {
        Some(TokenKind::Key)
    } else if is_integer(word) {
        Some(TokenKind::Integer)
    } else if is_real(word) {
        Some(TokenKind::Real)
    } else {
        None
    }
}

/// How many bytes of a word a text begins with.
pub(crate) fn word_len(text: &[u8]) -> usize
    ensures { result ≡ prefix_len is_word_byte text.now }
{
    text.iter().take_while(|b| is_word_byte(**b)).count()
}

fn is_letter(b: u8) -> bool
    ensures { result ≡ is_letter b }
{
    b.is_ascii_alphabetic()
}

fn is_digit(b: u8) -> bool
    ensures { result ≡ is_digit b }
{
    b.is_ascii_digit()
}

fn is_key_byte(b: u8) -> bool
    ensures { result ≡ is_key_byte b }
{
    is_letter(b) || is_digit(b) || b == b'_'
}

fn is_sign(b: u8) -> bool
    ensures { result ≡ is_sign b }
{
    b == b'+' || b == b'-'
}

fn is_word_byte(b: u8) -> bool
    ensures { result ≡ is_word_byte b }
{
    is_key_byte(b) || is_sign(b) || b == b'.'
}

fn is_key(word: &[u8]) -> bool
    ensures { result ≡ is_key word.now }
{
    match word.split_first() {
        None => false,
        Some((first, rest)) => is_letter(*first) && are_key_bytes(rest),
    }
}

fn are_key_bytes(bytes: &[u8]) -> bool
    ensures { result ≡ list_all is_key_byte bytes.now }
{
    bytes.iter().all(|b| is_key_byte(*b))
}

/// What follows an optional sign.
fn unsigned(word: &[u8]) -> &[u8]
    ensures { result.now ≡ unsigned word.now }
{
    match word.split_first() {
        Some((first, rest)) if is_sign(*first) => rest,
        _ => word,
    }
}

fn all_digits(bytes: &[u8]) -> bool
    ensures { result ≡ list_all is_digit bytes.now }
{
    bytes.iter().all(|b| is_digit(*b))
}

fn are_digits(bytes: &[u8]) -> bool
    ensures { result ≡ are_digits bytes.now }
{
    !bytes.is_empty() && all_digits(bytes)
}

fn is_integer(word: &[u8]) -> bool
    ensures { result ≡ is_integer word.now }
{
    are_digits(unsigned(word))
}

fn is_real(word: &[u8]) -> bool
    ensures { result ≡ is_real word.now }
{
    let bytes = unsigned(word);
    let len = mantissa_len(bytes);
    is_mantissa(&bytes[..len]) && is_exponent(&bytes[len..])
}

/// How many bytes stand before the first `E` or `e`.
fn mantissa_len(bytes: &[u8]) -> usize
    ensures { result ≡ prefix_len isnt_e bytes.now }
{
    bytes
        .iter()
        .take_while(|b| **b != b'E' && **b != b'e')
        .count()
}

fn is_mantissa(bytes: &[u8]) -> bool
    ensures { result ≡ is_mantissa bytes.now }
{
    are_digits_or_points(bytes) && points(bytes) <= 1 && has_digit(bytes)
}

fn are_digits_or_points(bytes: &[u8]) -> bool
    ensures { result ≡ list_all is_digit_or_point bytes.now }
{
    bytes.iter().all(|b| is_digit(*b) || *b == b'.')
}

fn points(bytes: &[u8]) -> usize
    ensures { result ≡ count_by is_point bytes.now }
{
    bytes.iter().filter(|b| **b == b'.').count()
}

fn has_digit(bytes: &[u8]) -> bool
    ensures { result ≡ list_any is_digit bytes.now }
{
    bytes.iter().any(|b| is_digit(*b))
}

fn is_exponent(bytes: &[u8]) -> bool
    ensures { result ≡ is_exponent bytes.now }
{
    match bytes.split_first() {
        None => true,
        Some((_, rest)) => is_integer(rest),
    }
}
