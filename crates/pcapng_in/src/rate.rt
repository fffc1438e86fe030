ghost use Rattle.std.specs.Prelude.{◌≡◌, ◌≤◌, ◌<◌, length, IfSome};
ghost use Rattle.std.specs.Option.{option_map};
ghost use Rattle.pcap_io.specs.declared.form.ByteOrder.{ByteOrder};
ghost use Rattle.pcapng_in.specs.Options.{rate, rate_of_code, rate_of_value, found_after, options};

use pcap_io::ByteOrder;

/// The code of the option that tells an interface's time resolution.
pub const RESOLUTION: u16 = 9;

/// The units of time in a second where no option tells them: microseconds.
pub const RATE_DEFAULT: u64 = 1_000_000;

/// The units of time in a second by a resolution: 10^e for e up to 18, 2^(e - 128) for e from 128 to 191.
pub fn rate_of_code(code: u8) -> Option<u64>
    ensures { result ≡ rate_of_code code }
{
    match code {
        0 => Some(1),
        1 => Some(10),
        2 => Some(100),
        3 => Some(1_000),
        4 => Some(10_000),
        5 => Some(100_000),
        6 => Some(1_000_000),
        7 => Some(10 * 1_000_000),
        8 => Some(100_000_000),
        9 => Some(1_000_000_000),
        10 => Some(10_000_000_000),
        11 => Some(100_000_000_000),
        12 => Some(1_000_000_000_000),
        13 => Some(10_000_000_000_000),
        14 => Some(100_000_000_000_000),
        15 => Some(1_000_000_000_000_000),
        16 => Some(10_000_000_000_000_000),
        17 => Some(100_000_000_000_000_000),
        18 => Some(1_000_000_000_000_000_000),
        128..=191 => Some(1 << (code - 128)),
        _ => None,
    }
}

/// The units of time in a second by the value of an option: it is one byte.
fn rate_of_value(value: &[u8]) -> Option<u64>
    ensures { result ≡ rate_of_value value.now }
{
    if value.len() != 1 {
        return None;
    }
    rate_of_code(value[0])
}

/// What was found after one more option: the first resolution counts.
fn found_after(found: Option<Option<u64>>, code: u16, value: &[u8]) -> Option<Option<u64>>
    ensures { result ≡ found_after found (record { code = code; value = value.now }) }
{
    match found {
        Some(told) => Some(told),
        None if code == RESOLUTION => Some(rate_of_value(value)),
        None => None,
    }
}

/// The units of time in a second by the options of an interface, of which the first resolution counts.
///
/// None where an option runs past the options, and `Some(None)` where the first resolution isn't one.
pub fn rate(order: ByteOrder, body: &[u8]) -> Option<Option<u64>>
    ensures { result ≡ option_map rate (options order body.now) }
{
    let mut found = None;
    let mut rest = body;
    'options: while rest.len() >= 4 && order.half(rest, 0) != 0 {
        let code = order.half(rest, 0);
        let len = order.half(rest, 2);
        let padded = (len as usize).div_ceil(4) * 4;
        let (_, value) = rest.split_at(4);
        if value.len() < padded {
            return None;
        }
        found = found_after(found, code, value.split_at(len as usize).0);
        rest = value.split_at(padded).1;
    }
    Some(found.unwrap_or(Some(RATE_DEFAULT)))
}
