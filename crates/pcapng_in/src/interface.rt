ghost use Rattle.std.specs.Prelude.{◌≡◌, ◌≤◌, length};
ghost use Rattle.pcap_io.specs.declared.form.ByteOrder.{ByteOrder};
ghost use Rattle.pcapng_in.specs.Interfaces.{knows_link_type, is_other_type, ReadsInterface};

use crate::fault::NgFault;
use crate::rate::rate;
use mn_base::is_link_type;
use pcap_io::ByteOrder;

/// What an interface block says.
#[derive(Clone, Copy)]
pub struct Interface {
    pub link_type: u32,
    /// How many bytes are captured of a simple packet, at most; 0 is no limit.
    pub snaplen: u32,
    /// How many units of time are a second.
    pub per_second: u64,
}

fn knows_link_type(link_type: u32) -> bool
    ensures { result ≡ knows_link_type link_type }
{
    is_link_type(link_type)
}

/// Whether the file's first interface has another link type.
fn is_other_type(first: Option<u32>, link_type: u32) -> bool
    ensures { result ≡ is_other_type first link_type }
{
    match first {
        None => false,
        Some(first) => first != link_type,
    }
}

/// Reads the interface block of so many bytes that opens the text. The link type of the file's first interface is given, if there was one before.
pub fn read_interface(
    place: u32,
    first: Option<u32>,
    order: ByteOrder,
    len: u32,
    text: &[u8],
) -> Result<Interface, NgFault>
    requires least { 20 ≤ len }
    requires whole { len ≤ length text.now }
    ensures { ReadsInterface place first order len text.now result }
{
    let link_type = u32::from(order.half(text, 8));
    if !knows_link_type(link_type) || is_other_type(first, link_type) {
        return Err(NgFault::LinkType(place));
    }
    let snaplen = order.word(text, 12);
    let (_, behind) = text.split_at(16);
    let (body, _) = behind.split_at(len as usize - 20);
    match rate(order, body) {
        None => Err(NgFault::Options(place)),
        Some(None) => Err(NgFault::Resolution(place)),
        Some(Some(per_second)) => Ok(Interface {
            link_type,
            snaplen,
            per_second,
        }),
    }
}
