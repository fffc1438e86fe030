ghost use Rattle.std.specs.Prelude.{◌≡◌, ℕ, ◌+◌, ◌≤◌, length};
ghost use Rattle.pcap_io.specs.declared.form.ByteOrder.{ByteOrder};
ghost use Rattle.pcapng_in.specs.Blocks.{magic_order, least_length, ReadsShape, ReadsLength};

use crate::fault::NgFault;
use pcap_io::ByteOrder;

/// The type of a section header. It is the same in both byte orders.
pub const SECTION: u32 = 0x0a0d_0d0a;

/// The type of an interface description.
pub const INTERFACE: u32 = 1;

/// The type of a simple packet.
pub const SIMPLE: u32 = 3;

/// The type of an enhanced packet.
pub const ENHANCED: u32 = 6;

/// The byte-order magic of a section, as its byte order reads it.
pub const MAGIC: u32 = 0x1a2b_3c4d;

/// What the first and last bytes of a block say: its byte order, its type and its length in bytes.
#[derive(Clone, Copy)]
pub struct Shape {
    pub order: ByteOrder,
    pub kind: u32,
    pub len: u32,
}

/// The byte order in which the magic of a section header reads as `MAGIC`.
pub fn magic_order(text: &[u8]) -> Option<ByteOrder>
    requires { 12 ≤ length text.now }
    ensures { result ≡ magic_order text.now }
{
    if ByteOrder::Little.word(text, 8) == MAGIC {
        return Some(ByteOrder::Little);
    }
    if ByteOrder::Big.word(text, 8) == MAGIC {
        return Some(ByteOrder::Big);
    }
    None
}

/// The least length of a block of a type, in bytes.
pub fn least_length(kind: u32) -> u32
    ensures value { result ≡ least_length kind }
    ensures least { 12 ≤ result }
{
    match kind {
        SECTION => 28,
        INTERFACE => 20,
        ENHANCED => 32,
        SIMPLE => 16,
        _ => 12,
    }
}

/// The shape of the block that opens the text, which stands at a place of the file.
pub fn read_shape(place: u32, order: ByteOrder, text: &[u8]) -> Result<Shape, NgFault>
    ensures { ReadsShape place order text.now result }
{
    if text.len() < 12 {
        return Err(NgFault::Cut(place));
    }
    let kind = order.word(text, 0);
    if kind != SECTION {
        return read_length(place, order, kind, text);
    }
    match magic_order(text) {
        None => Err(NgFault::Magic(place)),
        Some(order) => read_length(place, order, kind, text),
    }
}

fn read_length(place: u32, order: ByteOrder, kind: u32, text: &[u8]) -> Result<Shape, NgFault>
    requires { 12 ≤ length text.now }
    ensures { ReadsLength place order kind text.now result }
{
    let len = order.word(text, 4);
    if len % 4 != 0 || len < least_length(kind) {
        return Err(NgFault::Length(place));
    }
    if text.len() < len as usize {
        return Err(NgFault::Cut(place));
    }
    if order.word(text, len as usize - 4) != len {
        return Err(NgFault::Length(place));
    }
    Ok(Shape { order, kind, len })
}
