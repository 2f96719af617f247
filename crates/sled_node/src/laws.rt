//! Laws of the definitions that contracts cite.

ghost use Rattle.std.specs.Prelude.{◌≡◌, ◌≢◌, ℕ, Some, None};
ghost use Rattle.sled_base.specs.Order.{Bytes};
ghost use Rattle.sled_node.specs.Limits.{bytes_limit, pairs_limit, names_limit};
ghost use Rattle.sled_node.specs.Meta.{Roots, root_of, with_root, without_root};

use crate::meta::MAX_NAMES;
use crate::node::{MAX_BYTES, MAX_PAIRS};

/// Proves that the constants of the crate are the numbers of the definitions.
pub fn constants_are_the_numbers()
    ensures bytes { MAX_BYTES ≡ bytes_limit }
    ensures pairs { MAX_PAIRS ≡ pairs_limit }
    ensures names { MAX_NAMES ≡ names_limit }
{}

/// Proves that reading a name that was set returns its root.
pub fn a_set_name_is_read_back()
    ensures { (name : Bytes) (root : ℕ) (roots : Roots)
        → root_of name (with_root name root roots) ≡ Some root }
{}

/// Proves that a removed name is missing.
pub fn a_name_taken_out_is_missing()
    ensures { (name : Bytes) (roots : Roots) → root_of name (without_root name roots) ≡ None }
{}

/// Proves that setting or removing a name leaves the roots of all other names unchanged.
pub fn other_names_are_left()
    ensures set { (name other : Bytes) (root : ℕ) (roots : Roots) → other ≢ name
        → root_of other (with_root name root roots) ≡ root_of other roots }
    ensures taken_out { (name other : Bytes) (roots : Roots) → other ≢ name
        → root_of other (without_root name roots) ≡ root_of other roots }
{}
