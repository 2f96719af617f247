//! The payload of a message that was read: in the caller's space, or in a vector.

ghost use Rattle.std.specs.Prelude.{◌≡◌, ◌≤◌, [], length, IfOk, IsOk};
ghost use Rattle.sled_log.specs.Payloads.{payload_in};

use std::alloc::{AllocError, Global};

/// Where `Log::read_to` put the payload of a message.
#[derive(Debug, Drop)]
pub enum Payload {
    /// At the front of the space: its first bytes, this many of them.
    Short(usize),
    /// In a vector.
    Long(Vec<u8>),
}

impl Payload {
    /// Returns the payload, given the space that it was read with.
    pub fn bytes<'a>(&'a self, space: &'a [u8]) -> &'a [u8]
        ensures { result.now ≡ payload_in space.now self.now }
    {
        match self {
            Payload::Short(len) => &space[..space.len().min(*len)],
            Payload::Long(bytes) => bytes,
        }
    }

    /// Returns the payload of a read whose space was empty, as a vector. It allocates nothing.
    pub fn into_vec(self, alloc: Global) -> Vec<u8>
        ensures { result.items ≡ payload_in [] self }
    {
        match self {
            Payload::Short(_) => Vec::new(alloc),
            Payload::Long(bytes) => bytes,
        }
    }

    /// Copies the bytes to the front of `space` if they fit there, and otherwise into a new vector. AllocError: the allocation of
    /// that vector failed.
    pub fn put(alloc: Global, bytes: &[u8], space: &mut [u8]) -> Result<Payload, AllocError>
        ensures put { IfOk result (λ payload. payload_in space.new payload ≡ bytes.now) }
        ensures short { length bytes.now ≤ length space.old → IsOk result }
    {
        let len = bytes.len();
        if len > space.len() {
            return Ok(Payload::Long(bytes.to_vec(alloc)?));
        }
        space[..len].copy_from_slice(bytes);
        Ok(Payload::Short(len))
    }
}
