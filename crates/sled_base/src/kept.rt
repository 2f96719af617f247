//! How the bytes of a string are stored: a short string inline, and a long one as a part of a shared vector.

ghost use Rattle.std.specs.Prelude.{◌≡◌, ◌+◌, ◌<◌, ◌≤◌, length, take, drop, IfOk, OnErr};
ghost use Rattle.std.specs.Fn.{FnOnceTakesAtMut, FnOnceReturnsAtMut};
ghost use Rattle.std.specs.Arc.{arc_value};
ghost use Rattle.sled_base.specs.Limits.{inline_limit};
ghost use Rattle.sled_base.specs.Bases.{bytes_at};

use crate::ivec::CUTOFF;
use std::alloc::{AllocError, Global};
use std::sync::Arc;

#[derive(Drop)]
pub(crate) enum Kept {
    Inline(Short),
    Shared(Part),
}

/// Up to [`CUTOFF`] bytes: the first `len` of an array.
#[derive(Clone, Copy)]
pub(crate) struct Short {
    len: u8,
    bytes: [u8; CUTOFF],
    ghost short: { len ≤ inline_limit },
}

/// More than [`CUTOFF`] bytes: `len` bytes of a shared vector, from `offset` on.
#[derive(Drop)]
pub(crate) struct Part {
    base: Arc<Vec<u8>>,
    offset: usize,
    len: usize,
    ghost long: { inline_limit < len },
    ghost within: { offset + len ≤ length (arc_value base).items },
}

impl Short {
    ghost use Rattle.sled_base.specs.Kept.{short_bytes};

    /// Copies the bytes. There must be at most [`CUTOFF`].
    pub(crate) fn new(from: &[u8]) -> Short
        requires { length from.now ≤ inline_limit }
        ensures { short_bytes result ≡ from.now }
    {
        let mut bytes = [0u8; CUTOFF];
        bytes[..from.len()].copy_from_slice(from);
        Short::front(bytes, from.len())
    }

    /// Returns the first `len` bytes of an array. `len` must be at most [`CUTOFF`].
    pub(crate) fn front(bytes: [u8; CUTOFF], len: usize) -> Short
        requires { len ≤ inline_limit }
        ensures { short_bytes result ≡ take len bytes }
    {
        Short {
            len: len as u8,
            bytes,
        }
    }

    /// Borrows the bytes.
    pub(crate) fn as_slice(&self) -> &[u8]
        ensures { result.now ≡ short_bytes self.now }
    {
        &self.bytes[..self.len as usize]
    }

    /// Calls `f` with the bytes, which it may overwrite, and returns what `f` returns.
    pub(crate) fn write_with<R, F: FnOnce(&mut [u8]) -> R>(&mut self, f: F) -> R
        requires { FnOnceTakesAtMut F.FnOnce f (short_bytes self.old) }
        ensures written { FnOnceReturnsAtMut F.FnOnce f (short_bytes self.old) result
            (short_bytes self.new) }
        ensures length { length (short_bytes self.new) ≡ length (short_bytes self.old) }
    {
        write_front(&mut self.bytes, self.len as usize, f)
    }
}

impl Part {
    ghost use Rattle.sled_base.specs.Kept.{part_bytes};

    /// Returns all bytes of a shared vector, which must have more than [`CUTOFF`].
    pub(crate) fn whole(base: Arc<Vec<u8>>) -> Part
        requires { inline_limit < length (arc_value base).items }
        ensures { part_bytes result ≡ (arc_value base).items }
    {
        let len = base.len();
        Part {
            base,
            offset: 0,
            len,
        }
    }

    /// Borrows the bytes.
    pub(crate) fn as_slice(&self) -> &[u8]
        ensures { result.now ≡ part_bytes self.now }
    {
        &self.base[self.offset..self.offset + self.len]
    }

    /// Returns `len` bytes from `offset` on, shared with these. They must be within these, and more than [`CUTOFF`].
    ///
    /// An error means that there are more holders than can be counted.
    pub(crate) fn part(&self, offset: usize, len: usize) -> Result<Part, AllocError>
        requires long { inline_limit < len }
        requires within { offset + len ≤ length (part_bytes self.now) }
        ensures { IfOk result (λ p. part_bytes p ≡ take len (drop offset (part_bytes self.now))) }
    {
        Ok(Part {
            base: self.base.clone()?,
            offset: self.offset + offset,
            len,
        })
    }

    /// Calls `f` with the bytes, which it may overwrite, and returns what `f` returns. If others hold the bytes too, they are copied first.
    pub(crate) fn write_with<R, F: FnOnce(&mut [u8]) -> R>(
        &mut self,
        alloc: Global,
        f: F,
    ) -> Result<R, AllocError>
        requires { FnOnceTakesAtMut F.FnOnce f (part_bytes self.old) }
        ensures written { IfOk result (λ answer. FnOnceReturnsAtMut F.FnOnce f (part_bytes self.old)
            answer (part_bytes self.new)) }
        ensures length { length (part_bytes self.new) ≡ length (part_bytes self.old) }
        ensures stays { OnErr result (part_bytes self.new ≡ part_bytes self.old) }
    {
        self.own(alloc)?;
        write_part(&mut self.base, self.offset, self.len, f)
    }

    // Copies the bytes where others hold them too.
    fn own(&mut self, alloc: Global) -> Result<(), AllocError>
        ensures same { part_bytes self.new ≡ part_bytes self.old }
    {
        if Arc::strong_count(&self.base) > 1 {
            *self = Part::whole(shared_copy(alloc, self.as_slice())?);
        }
        Ok(())
    }

    /// Converts the bytes into a shared vector: the vector that is shared already if they are all of it, and otherwise a copy.
    pub(crate) fn into_arc(self, alloc: Global) -> Result<Arc<Vec<u8>>, AllocError>
        ensures { IfOk result (λ a. (arc_value a).items ≡ part_bytes self) }
    {
        if self.len < self.base.len() {
            return shared_copy(alloc, self.as_slice());
        }
        let Part { base, .. } = self;
        Ok(base)
    }
}

// What `f` answers, which is lent the first `len` bytes of an array to write.
fn write_front<R, F: FnOnce(&mut [u8]) -> R>(bytes: &mut [u8; CUTOFF], len: usize, f: F) -> R
    requires within { len ≤ inline_limit }
    requires callable { FnOnceTakesAtMut F.FnOnce f (take len bytes.old) }
    ensures written { FnOnceReturnsAtMut F.FnOnce f (take len bytes.old) result
        (take len bytes.new) }
    ensures length { length (take len bytes.new) ≡ length (take len bytes.old) }
{
    f(&mut bytes[..len])
}

// The same for `len` bytes of a list from `offset` on. It is an error where the list has another holder.
fn write_part<R, F: FnOnce(&mut [u8]) -> R>(
    base: &mut Arc<Vec<u8>>,
    offset: usize,
    len: usize,
    f: F,
) -> Result<R, AllocError>
    requires within { offset + len ≤ length (arc_value base.old).items }
    requires callable { FnOnceTakesAtMut F.FnOnce f (bytes_at base.old offset len) }
    ensures written { IfOk result (λ answer. FnOnceReturnsAtMut F.FnOnce f
        (bytes_at base.old offset len) answer (bytes_at base.new offset len)) }
    ensures length { length (arc_value base.new).items ≡ length (arc_value base.old).items }
    ensures stays { OnErr result ((arc_value base.new).items ≡ (arc_value base.old).items) }
{
    match Arc::get_mut(base) {
        Some(bytes) => Ok(f(bytes.slice_mut(offset..offset + len))),
        None => Err(AllocError),
    }
}

/// Copies the bytes into a new shared vector.
pub(crate) fn shared_copy(alloc: Global, bytes: &[u8]) -> Result<Arc<Vec<u8>>, AllocError>
    ensures { IfOk result (λ a. (arc_value a).items ≡ bytes.now) }
{
    let bytes = Vec::from_slice(alloc, bytes)?;
    Ok(Arc::new(alloc, bytes)?)
}
