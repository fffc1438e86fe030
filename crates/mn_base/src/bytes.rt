ghost use Rattle.std.specs.Prelude.{◌≡◌, List, ℕ, IfOk};

use crate::refusal::NoMemory;
use std::alloc::Global;
use std::marker::Model;

/// An owned run of bytes, which contracts see as a list.
#[derive(Drop)]
pub struct Bytes {
    bytes: Vec<u8>,
}

impl Model for Bytes {
    ghost Value = { List ℕ };

    ghost view = { λ b. b.bytes.items };
}

impl Bytes {
    /// The same bytes, owned.
    pub fn copy(alloc: Global, from: &[u8]) -> Result<Bytes, NoMemory>
        ensures copied { IfOk result (λ b. b ≡ from.now) }
    {
        let bytes = Vec::from_slice(alloc, from)?;
        Ok(Bytes { bytes })
    }

    /// The bytes of a vector, with no memory taken.
    pub fn from_vec(bytes: Vec<u8>) -> Bytes
        ensures same { result ≡ bytes.items }
    {
        Bytes { bytes }
    }

    /// Lends the bytes.
    pub fn as_slice(&self) -> &[u8]
        ensures lent { result.now ≡ self.now }
    {
        self.bytes.as_slice()
    }
}
