ghost use Rattle.std.specs.Prelude.{◌≡◌, ◌≤◌, length, Some, None, MatchOption};
ghost use Rattle.std.specs.List.{prefix_len};
ghost use Rattle.mn_base.specs.Decimal.{is_digit};
ghost use Rattle.mn_base.specs.Fields.{field_of};

use crate::read_u64;

/// The value of the plain decimal that stands after a label at the front of a text, and what follows the decimal.
///
/// None where the text doesn't begin with the label, or where no decimal with a value below 2^64 stands after it. The
/// decimal goes as far as there are digits: after `pipe ` the text `pipe 07 core 1` has 7, and ` core 1` follows.
#[tactic(auto, unfolding(crate::specs::Fields::field_of))]
pub fn field<'t>(text: &'t [u8], label: &str) -> Option<(u64, &'t [u8])>
    ensures value { MatchOption result (field_of label.now text.now ≡ None) (λ field. field_of label.now text.now ≡ Some (field.0, field.1.now)) }
{
    let behind = text.strip_prefix(label.as_bytes())?;
    let (digits, rest) = behind.split_at(digits_len(behind));
    let number = read_u64(digits)?;
    Some((number, rest))
}

/// How many digits a text begins with.
fn digits_len(text: &[u8]) -> usize
    ensures value { result ≡ prefix_len is_digit text.now }
    ensures within { result ≤ length text.now }
{
    text.iter().take_while(|b| b.is_ascii_digit()).count()
}
