//! Bytes with a name.

ghost use Rattle.std.specs.Prelude.{◌≡◌, string_bytes};
ghost use Rattle.mb_io.specs.Files.{Named};

use std::marker::Model;

/// A name and the bytes under it, which contracts see as two lists.
#[derive(Drop)]
pub struct NamedBytes {
    name: String,
    bytes: Vec<u8>,
}

impl Model for NamedBytes {
    ghost Value = { Named };

    ghost view = { λ f. record { name = string_bytes f.name; bytes = f.bytes.items } };
}

impl NamedBytes {
    /// These bytes under this name.
    pub fn new(name: String, bytes: Vec<u8>) -> NamedBytes
        ensures { result ≡ record { name = string_bytes name; bytes = bytes.items } }
    {
        NamedBytes { name, bytes }
    }

    /// The name.
    pub fn name(&self) -> &str
        ensures { result.now ≡ self.now.name }
    {
        self.name.as_str()
    }

    /// The bytes under the name.
    pub fn bytes(&self) -> &[u8]
        ensures { result.now ≡ self.now.bytes }
    {
        self.bytes.as_slice()
    }
}
