ghost use Rattle.std.specs.Prelude.{◌≡◌, ◌≤◌, ◌<◌, ◌^◌};
ghost use Rattle.std.specs.Option.{SomeIff};
ghost use Rattle.mn_base.specs.Decimal.{decimal_of, with_digit};

/// The value of a plain decimal text.
///
/// None where the text is empty, has a byte other than `0` to `9`, or has a value above 2^64 - 1.
/// Leading zeros are allowed: `007` is 7.
pub fn read_u64(text: &[u8]) -> Option<u64>
    ensures value { result ≡ decimal_of text.now }
{
    if text.is_empty() {
        return None;
    }
    let mut value = 0u64;
    for digit in text {
        if *digit < b'0' || *digit > b'9' {
            return None;
        }
        let Some(longer) = appended(value, *digit) else {
            return None;
        };
        value = longer;
    }
    Some(value)
}

fn appended(value: u64, digit: u8) -> Option<u64>
    requires least { 48 ≤ digit }
    requires most { digit ≤ 57 }
    ensures { SomeIff result (with_digit value digit < 2 ^ 64) (with_digit value digit) }
{
    value.checked_mul(10)?.checked_add(u64::from(digit - b'0'))
}
