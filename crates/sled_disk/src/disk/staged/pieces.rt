// Bytes of a file that the caller of a staged disk read and handed in.

ghost use Rattle.std.specs.Prelude.{◌≡◌, ◌≤◌, ◌<◌, ◌+◌, ◌-◌, ◌^◌, ℕ, List, [], length, drop, vec_len, IsTrue, IfSome};
ghost use Rattle.std.specs.List.{filter};

use std::alloc::{AllocError, Global};

// Bytes from a place on.
#[derive(Drop)]
struct Piece {
    at: u64,
    bytes: Vec<u8>,
    ghost small: { at + vec_len bytes < 2 ^ 64 },
}

impl Piece {
    // The place behind it.
    fn end(&self) -> u64
        ensures { result ≡ self.now.at + vec_len self.now.bytes }
    {
        self.at + self.bytes.len() as u64
    }

    // Its bytes from a place on, if that place is in it.
    fn from(&self, at: u64) -> Option<&[u8]>
        ensures begins { IfSome result (λ bytes. self.now.at ≤ at) }
        ensures bytes { IfSome result
            (λ bytes. bytes.now ≡ drop (at - self.now.at) self.now.bytes.items) }
    {
        let skipped = at.checked_sub(self.at)?;
        if at >= self.end() {
            return None;
        }
        Some(&self.bytes[skipped as usize..])
    }
}

// The pieces that were handed in, in the order of their places. They may overlap.
#[derive(Drop)]
pub(super) struct Pieces {
    alloc: Global,
    pieces: Vec<Piece>,
}

impl Pieces {
    ghost use Rattle.sled_disk.specs.StagedReads.{StandsAt, ArePieces, is_outside, SameOutside};

    // No pieces.
    pub(super) fn new(alloc: Global) -> Pieces
        ensures { (file : List ℕ) → ArePieces result file }
    {
        Pieces {
            alloc,
            pieces: Vec::new(alloc),
        }
    }

    // Adds a copy of bytes. Where there is no memory for it, nothing is added.
    pub(super) fn add(&mut self, at: u64, bytes: &[u8]) -> Result<(), AllocError>
        requires { at + length bytes.now < 2 ^ 64 }
        ensures { (file : List ℕ) → ArePieces self.old file → StandsAt at bytes.now file
            → ArePieces self.new file }
    {
        let bytes = bytes.to_vec(self.alloc)?;
        let place = self.pieces.partition_point(|piece| piece.at < at);
        self.pieces.insert(place, Piece { at, bytes })?;
        Ok(())
    }

    // Copies the bytes at a place, and says whether all of them were handed in.
    pub(super) fn read(&self, at: u64, into: &mut [u8]) -> bool
        requires { at + length into.old < 2 ^ 64 }
        ensures length { length into.new ≡ length into.old }
        ensures bytes { (file : List ℕ) → ArePieces self.now file → IsTrue result
            → StandsAt at into.new file }
    {
        let mut copied = 0;
        // each piece in turn goes on where those before it end
        for piece in &self.pieces {
            if copied == into.len() {
                break;
            }
            if let Some(bytes) = piece.from(at + copied as u64) {
                let len = bytes.len().min(into.len() - copied);
                into[copied..copied + len].copy_from_slice(&bytes[..len]);
                copied += len;
            }
        }
        copied == into.len()
    }

    // Drops the pieces that have bytes from one place up to another.
    pub(super) fn drop_between(&mut self, from: u64, to: u64)
        ensures dropped { from < to
            → self.new.pieces.items ≡ filter (is_outside from to) self.old.pieces.items }
        ensures kept { to ≤ from → self.new ≡ self.old }
        ensures stand { (old new : List ℕ) → ArePieces self.old old → SameOutside from to old new
            → ArePieces self.new new }
    {
        if from < to {
            self.pieces
                .retain(|piece| to <= piece.at || piece.end() <= from);
        }
    }

    // Drops all of them.
    pub(super) fn clear(&mut self)
        ensures { self.new.pieces.items ≡ [] }
    {
        self.pieces.clear();
    }
}
