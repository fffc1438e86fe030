ghost use Rattle.std.specs.Prelude.{◌≡◌, ◌+◌, ◌≤◌, length, IfSome, IfNone};
ghost use Rattle.pcap_io.specs.declared.form.Form.{Form};
ghost use Rattle.pcap_io.specs.Form.{half, word};
ghost use Rattle.pcap_io.specs.Reading.{HasMagic};

/// Which byte of a number stands first: the least (little-endian) or the greatest (big-endian).
#[derive(Clone, Copy)]
pub enum ByteOrder {
    Little,
    Big,
}

impl ByteOrder {
    /// The number of the two bytes at an offset, in bytes.
    #[tactic(auto, unfolding(crate::specs::Form::half))]
    pub fn half(self, text: &[u8], offset: usize) -> u16
        requires { offset + 2 ≤ length text.now }
        ensures { result ≡ half self offset text.now }
    {
        let bytes = [text[offset], text[offset + 1]];
        match self {
            ByteOrder::Little => u16::from_le_bytes(bytes),
            ByteOrder::Big => u16::from_be_bytes(bytes),
        }
    }

    /// The number of the four bytes at an offset, in bytes.
    #[tactic(auto, unfolding(crate::specs::Form::word))]
    pub fn word(self, text: &[u8], offset: usize) -> u32
        requires { offset + 4 ≤ length text.now }
        ensures { result ≡ word self offset text.now }
    {
        let bytes = [
            text[offset],
            text[offset + 1],
            text[offset + 2],
            text[offset + 3],
        ];
        match self {
            ByteOrder::Little => u32::from_le_bytes(bytes),
            ByteOrder::Big => u32::from_be_bytes(bytes),
        }
    }
}

/// What the fraction of a record's time counts.
#[derive(Clone, Copy)]
pub enum Resolution {
    Microseconds,
    Nanoseconds,
}

/// The form of a capture, which its first four bytes (the magic number) name.
#[derive(Clone, Copy)]
pub struct Form {
    pub order: ByteOrder,
    pub resolution: Resolution,
}

impl Form {
    /// The form that the first four bytes name, or None where they name none.
    pub fn of(text: &[u8]) -> Option<Form>
        ensures found { IfSome result (λ form. HasMagic form text.now) }
        ensures none { IfNone result ((form : Form) → HasMagic form text.now → ⊥) }
    {
        let (magic, _) = text.split_first_chunk::<4>()?;
        let (order, resolution) = match *magic {
            [0xd4, 0xc3, 0xb2, 0xa1] => (ByteOrder::Little, Resolution::Microseconds),
            [0x4d, 0x3c, 0xb2, 0xa1] => (ByteOrder::Little, Resolution::Nanoseconds),
            [0xa1, 0xb2, 0xc3, 0xd4] => (ByteOrder::Big, Resolution::Microseconds),
            [0xa1, 0xb2, 0x3c, 0x4d] => (ByteOrder::Big, Resolution::Nanoseconds),
            _ => return None,
        };
        Some(Form { order, resolution })
    }
}
