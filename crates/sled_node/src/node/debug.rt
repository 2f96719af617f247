//! A leaf as text, for debugging.

use super::Leaf;
use std::fmt;

impl fmt::Debug for Leaf {
    /// Writes the pairs in their order, each string as a list of bytes: `Leaf { pairs: [([107], [118])] }`.
    fn fmt<W: fmt::Write>(&self, f: &mut fmt::Formatter<W>) -> fmt::Result {
        f.debug_struct("Leaf")
            .field("pairs", &Pairs { leaf: self })
            .finish()
    }
}

// The pairs of a leaf, which has no list of them.
#[derive(Drop)]
struct Pairs<'a> {
    leaf: &'a Leaf,
}

impl fmt::Debug for Pairs<'_> {
    fn fmt<W: fmt::Write>(&self, f: &mut fmt::Formatter<W>) -> fmt::Result {
        let mut list = f.debug_list();
        for i in 0..self.leaf.len() {
            list.entry(&self.leaf.pair(i));
        }
        list.finish()
    }
}
