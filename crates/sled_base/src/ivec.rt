//! Byte strings that are stored inline if they are short, and shared if they are long.

ghost use Rattle.std.specs.Prelude.{◌≡◌, ◌↔◌, ◌-◌, ◌<◌, ◌≤◌, [], length, take, drop, nat_eq, IsTrue, IfOk, IsOk, OnErr, Some, refl};
ghost use Rattle.std.specs.Fn.{FnOnceTakesAtMut, FnOnceReturnsAtMut};
ghost use Rattle.std.specs.Arc.{arc_value};
ghost use Rattle.std.specs.Box.{boxed_slice_items};
ghost use Rattle.std.specs.Cmp as laws;
ghost use Rattle.std.specs.Cmp.Lexicographic.{slice_cmp, pointwise, nat_list_eq_equiv, nat_list_cmp_total, texts_po, texts_ties, same_text};
ghost use Rattle.std.specs.Hash as fed;
ghost use Rattle.std.specs.Ordering.{nat_cmp};
ghost use Rattle.std.proofs.Common.{ap, sym};
ghost use Rattle.sled_base.specs.Limits.{inline_limit};

use crate::kept::{Kept, Part, Short, shared_copy};
use std::alloc::{AllocError, Global};
use std::boxed::BoxedSlice;
use std::cmp::Ordering;
use std::fmt;
use std::hash::{Hash, Hasher};
use std::iter::FromIterator;
use std::marker::Model;
use std::sync::Arc;

/// Up to this many bytes are stored inline, without an allocation.
pub const CUTOFF: usize = 22;

/// A byte string that is cheap to clone: up to [`CUTOFF`] bytes are stored inline, and more are shared.
///
/// Contracts see the list of its bytes. Order, equality and hash are those of the bytes.
#[derive(Drop)]
pub struct IVec {
    kept: Kept,
}

impl Model for IVec {
    ghost use Rattle.std.specs.Prelude.{List, ℕ};
    ghost use Rattle.sled_base.specs.Kept.{bytes_of};

    ghost Value = { List ℕ };

    ghost view = { λ v. bytes_of v.kept };
}

impl IVec {
    /// Copies the bytes. Up to [`CUTOFF`] of them need no allocation. An error means that an allocation failed.
    pub fn from_slice(alloc: Global, bytes: &[u8]) -> Result<IVec, AllocError>
        ensures ok { IfOk result (λ v. v ≡ bytes.now) }
        ensures few { length bytes.now ≤ inline_limit → IsOk result }
    {
        if bytes.len() <= CUTOFF {
            return Ok(IVec::inline(bytes));
        }
        let base = Vec::from_slice(alloc, bytes)?;
        Ok(IVec::shared(Arc::new(alloc, base)?))
    }

    /// Makes a byte string from a vector, which is kept and not copied if it has more than [`CUTOFF`] bytes.
    ///
    /// Up to [`CUTOFF`] bytes need no allocation. An error means that an allocation failed, and drops the vector.
    pub fn from_vec(alloc: Global, bytes: Vec<u8>) -> Result<IVec, AllocError>
        ensures ok { IfOk result (λ v. v ≡ bytes.items) }
        ensures few { length bytes.items ≤ inline_limit → IsOk result }
    {
        if bytes.len() > CUTOFF {
            return Ok(IVec::shared(Arc::new(alloc, bytes)?));
        }
        Ok(IVec::inline(&bytes))
    }

    /// Makes a byte string from a boxed slice, as [`IVec::from_vec`] does from a vector, with the same error.
    pub fn from_box(alloc: Global, bytes: BoxedSlice<u8>) -> Result<IVec, AllocError>
        ensures ok { IfOk result (λ v. v ≡ boxed_slice_items bytes) }
        ensures few { length (boxed_slice_items bytes) ≤ inline_limit → IsOk result }
    {
        IVec::from_vec(alloc, bytes.into_vec())
    }

    /// Makes a byte string from a shared vector, which stays shared if it has more than [`CUTOFF`] bytes.
    ///
    /// It allocates nothing and never fails. It takes an allocator only to match the other calls of its kind.
    pub fn from_arc(_alloc: Global, bytes: Arc<Vec<u8>>) -> Result<IVec, AllocError>
        ensures ok { IfOk result (λ v. v ≡ (arc_value bytes).items) }
        ensures taken { IsOk result }
    {
        if bytes.len() > CUTOFF {
            return Ok(IVec::shared(bytes));
        }
        Ok(IVec::inline(&bytes))
    }

    /// Copies the bytes of a text. Up to [`CUTOFF`] of them need no allocation. An error means that an allocation failed.
    pub fn from_str(alloc: Global, text: &str) -> Result<IVec, AllocError>
        ensures ok { IfOk result (λ v. v ≡ text.now) }
        ensures few { length text.now ≤ inline_limit → IsOk result }
    {
        IVec::from_slice(alloc, text.as_bytes())
    }

    /// Copies the bytes of an array. Up to [`CUTOFF`] of them need no allocation. An error means that an allocation failed.
    pub fn from_array<const N: usize>(alloc: Global, bytes: [u8; N]) -> Result<IVec, AllocError>
        ensures ok { IfOk result (λ v. v ≡ bytes.entry) }
        ensures few { N ≤ inline_limit → IsOk result }
    {
        IVec::from_slice(alloc, &bytes)
    }

    /// Returns the first `len` bytes of an array, stored inline. `len` must be at most [`CUTOFF`]. It allocates nothing.
    pub fn from_front(bytes: [u8; CUTOFF], len: usize) -> IVec
        requires { len ≤ inline_limit }
        ensures { result ≡ take len bytes }
    {
        IVec {
            kept: Kept::Inline(Short::front(bytes, len)),
        }
    }

    /// Returns `len` bytes from `offset` on. They must be within the string: `offset + len` is at most [`len`](IVec::len).
    ///
    /// It allocates nothing: up to [`CUTOFF`] bytes are copied inline, which never fails, and more are shared with this string. An
    /// error means that there are more holders than can be counted.
    pub fn subslice(&self, offset: usize, len: usize) -> Result<IVec, AllocError>
        requires start { offset ≤ length self.now }
        requires end { len ≤ length self.now - offset }
        ensures ok { IfOk result (λ v. v ≡ take len (drop offset self.now)) }
        ensures few { len ≤ inline_limit → IsOk result }
    {
        if let Kept::Shared(part) = &self.kept
            && len > CUTOFF
        {
            return Ok(IVec {
                kept: Kept::Shared(part.part(offset, len)?),
            });
        }
        Ok(IVec::inline(&self.as_slice()[offset..offset + len]))
    }

    /// Converts the string into a shared vector. If the string is all of a vector that is shared already, that vector is returned,
    /// and nothing is allocated. Otherwise the bytes are copied.
    ///
    /// An error means that the copy could not be allocated, and drops the string.
    pub fn into_arc(self, alloc: Global) -> Result<Arc<Vec<u8>>, AllocError>
        ensures { IfOk result (λ a. (arc_value a).items ≡ self) }
    {
        let IVec { kept } = self;
        match kept {
            Kept::Inline(short) => shared_copy(alloc, short.as_slice()),
            Kept::Shared(part) => part.into_arc(alloc),
        }
    }

    /// Borrows the bytes.
    pub fn as_slice(&self) -> &[u8]
        ensures { result.now ≡ self.now }
    {
        match &self.kept {
            Kept::Inline(short) => short.as_slice(),
            Kept::Shared(part) => part.as_slice(),
        }
    }

    /// Calls `f` with the bytes, which it may overwrite, and returns what `f` returns. The length doesn't change.
    ///
    /// No other holder of the bytes sees what is written. Up to [`CUTOFF`] bytes, and more that have no other holder, are written
    /// in place. Others are copied first. An error means that the copy could not be allocated. In that case `f` isn't called,
    /// and the bytes are unchanged.
    pub fn write_with<R, F: FnOnce(&mut [u8]) -> R>(
        &mut self,
        alloc: Global,
        f: F,
    ) -> Result<R, AllocError>
        requires { FnOnceTakesAtMut F.FnOnce f self.old }
        ensures written { IfOk result
            (λ answer. FnOnceReturnsAtMut F.FnOnce f self.old answer self.new) }
        ensures length { length self.new ≡ length self.old }
        ensures few { length self.old ≤ inline_limit → IsOk result }
        ensures stays { OnErr result (self.new ≡ self.old) }
    {
        match &mut self.kept {
            Kept::Inline(short) => Ok(short.write_with(f)),
            Kept::Shared(part) => part.write_with(alloc, f),
        }
    }

    /// Returns the number of bytes.
    pub fn len(&self) -> usize
        ensures { result ≡ length self.now }
    {
        self.as_slice().len()
    }

    /// Returns whether there are no bytes.
    pub fn is_empty(&self) -> bool
        ensures { IsTrue result ↔ (self.now ≡ []) }
    {
        self.as_slice().is_empty()
    }

    /// Returns whether the string consists of these bytes.
    pub fn eq_bytes(&self, bytes: &[u8]) -> bool
        ensures { IsTrue result ↔ (self.now ≡ bytes.now) }
    {
        self.as_slice() == bytes
    }

    fn inline(bytes: &[u8]) -> IVec
        requires { length bytes.now ≤ inline_limit }
        ensures { result ≡ bytes.now }
    {
        IVec {
            kept: Kept::Inline(Short::new(bytes)),
        }
    }

    fn shared(base: Arc<Vec<u8>>) -> IVec
        requires { inline_limit < length (arc_value base).items }
        ensures { result ≡ (arc_value base).items }
    {
        IVec {
            kept: Kept::Shared(Part::whole(base)),
        }
    }
}

impl FromIterator<u8> for IVec {
    type Alloc = Global;

    ghost from_iter_gives = { λ bytes v. v ≡ bytes };

    /// Collects the bytes in their order, first into a vector. An error means that an allocation failed.
    fn from_iter<U: IntoIterator<Item = u8>>(alloc: Global, iter: U) -> Result<IVec, AllocError> {
        IVec::from_vec(alloc, Vec::from_iter(alloc, iter)?)
    }
}

impl Default for IVec {
    ghost is_default = { λ v. v ≡ [] };

    /// Returns the empty string. It allocates nothing.
    fn default() -> IVec {
        IVec::inline(&[])
    }
}

impl Clone for IVec {
    ghost use Rattle.std.specs.Prelude.{◌≡◌};
    ghost use Rattle.sled_base.specs.Kept.{IsShort};

    ghost is_clone = { λ v w. w ≡ v };

    ghost is_infallible = { IsShort };

    /// Returns the same bytes. It allocates nothing: up to [`CUTOFF`] bytes are copied inline, which never fails, and more are shared.
    ///
    /// An error means that there are more holders than can be counted.
    fn clone(&self) -> Result<IVec, AllocError> {
        let kept = match &self.kept {
            Kept::Inline(short) => Kept::Inline(*short),
            Kept::Shared(part) => Kept::Shared(part.part(0, self.len())?),
        };
        Ok(IVec { kept })
    }
}

impl PartialEq for IVec {
    ghost eq = { pointwise nat_eq };

    ghost laws = { laws.partial_equiv_from_equiv nat_list_eq_equiv };

    fn eq(&self, other: &IVec) -> bool {
        self.as_slice() == other.as_slice()
    }
}

impl Eq for IVec {
    ghost laws = { nat_list_eq_equiv };
}

impl PartialOrd for IVec {
    ghost partial_cmp = { λ v w. Some (slice_cmp nat_cmp v w) };

    ghost laws = { texts_po };

    fn partial_cmp(&self, other: &IVec) -> Option<Ordering> {
        Some(self.cmp(other))
    }
}

impl Ord for IVec {
    ghost cmp = { slice_cmp nat_cmp };

    ghost total = { nat_list_cmp_total };

    ghost matches_partial_cmp = { λ v w. refl };

    ghost matches_eq = { texts_ties };

    fn cmp(&self, other: &IVec) -> Ordering {
        self.as_slice().cmp(&other.as_slice())
    }
}

impl Hash for IVec {
    ghost hash_input = { fed.slice fed.u8 };

    ghost respects_eq = { λ v w same. ap (fed.slice fed.u8) (same_text v w (sym same)) };

    fn hash<H: Hasher>(&self, state: &mut H) {
        self.as_slice().hash(state);
    }
}

impl fmt::Debug for IVec {
    fn fmt<W: fmt::Write>(&self, f: &mut fmt::Formatter<W>) -> fmt::Result {
        self.as_slice().fmt(f)
    }
}
