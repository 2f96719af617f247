//! The value that a leaf has for a key.

ghost use Rattle.std.specs.Prelude.{None, IfOk, IsErrOf};
ghost use Rattle.sled_base.specs.declared.types.Error.TheVariants.{Corruption};
ghost use Rattle.sled_search.specs.Search.{Answers, IsLeafOf};

use sled_base::{Error, IVec};
use sled_node::Node;

/// Returns a copy of the value that a leaf has at a whole key, or `None` if it has none.
///
/// Returns [`Error::Corruption`] if the node is not a leaf or its range lacks the key, and only then. [`Error::OutOfMemory`] means that the
/// copy could not be allocated.
pub fn value_in(node: &Node, key: &[u8]) -> Result<Option<IVec>, Error>
    ensures value { IfOk result (λ value. Answers key.now value node.now) }
    ensures elsewhere { (¬ IsLeafOf key.now node.now) → IsErrOf result (Corruption None) }
    ensures here { IsErrOf result (Corruption None) → ¬ IsLeafOf key.now node.now }
{
    if node.is_index() || !node.contains_key(key) {
        return Err(Error::Corruption(None));
    }
    let _ = node.data(); // which says that the keys rise
    let (_, value) = node.node_kv_pair(key)?;
    Ok(value)
}
