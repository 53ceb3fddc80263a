// Names: bytes of a text that are kept apart from it.
ghost use Rattle.std.specs.Prelude.{◌≡◌, ◌↔◌, IfOk, IsTrue};
ghost use Rattle.text_core.specs.Names.{IsName};

use crate::pieces::is_word;
use items::NoMemory;
use std::alloc::Global;
use std::marker::Model;

/// Bytes that name something. Contracts see the list of the bytes.
pub struct Name {
    bytes: Vec<u8>,
}

// By hand, so that it is proved here alone: a derived one is proved in each crate that drops a name.
impl Drop for Name {
    fn drop(self) {
        let Name { bytes: _bytes } = self;
    }
}

impl Model for Name {
    ghost use Rattle.std.specs.Prelude.{List, ℕ};

    ghost Value = { List ℕ };

    ghost view = { λ name. name.bytes.items };
}

/// Whether bytes are a name: letters, digits and underscores, with no digit first. The cost is linear in them.
pub fn is_name(bytes: &[u8]) -> bool
    ensures { IsTrue result ↔ IsName bytes.now }
{
    if bytes.is_empty() {
        return false;
    }
    if bytes[0].is_ascii_digit() {
        return false;
    }
    for byte in bytes {
        if !is_word(*byte) {
            return false;
        }
    }
    true
}

impl Name {
    /// A copy of the bytes.
    pub fn new(alloc: Global, bytes: &[u8]) -> Result<Name, NoMemory>
        ensures { IfOk result (λ name. name ≡ bytes.now) }
    {
        Ok(Name {
            bytes: Vec::from_slice(alloc, bytes)?,
        })
    }

    pub fn bytes(&self) -> &[u8]
        ensures { result.now ≡ self.now }
    {
        self.bytes.as_slice()
    }

    /// A name of the same bytes, with the allocator of this one.
    pub fn copy(&self) -> Result<Name, NoMemory>
        ensures { IfOk result (λ name. name ≡ self.now) }
    {
        Ok(Name {
            bytes: self.bytes.clone()?,
        })
    }

    pub fn same(&self, other: &Name) -> bool
        ensures { IsTrue result ↔ (self.now ≡ other.now) }
    {
        self.bytes.as_slice() == other.bytes.as_slice()
    }
}
