//! How a vector grows so that it leaves little memory unused.

ghost use Rattle.std.specs.Prelude.{◌≡◌, ◌≤◌, ◌+◌, vec_len, vec_capacity, OnOk, IsOk};

use std::alloc::AllocError;

/// Makes room for `additional` more items.
///
/// It allocates only if there is too little room. It then makes room for at least an eighth of the length plus eight items. So a push
/// takes amortized constant time, and little more than an eighth of a long vector's memory is unused. An error means that the
/// allocation failed, and leaves the items unchanged.
pub fn reserve<T>(items: &mut Vec<T>, additional: usize) -> Result<(), AllocError>
    ensures items { items.new.items ≡ items.old.items }
    ensures len { vec_len items.new ≡ vec_len items.old }
    ensures capacity { vec_capacity items.old ≤ vec_capacity items.new }
    ensures ok { OnOk result (vec_len items.new + additional ≤ vec_capacity items.new) }
    ensures always { vec_len items.old + additional ≤ vec_capacity items.old → IsOk result }
{
    if additional <= items.capacity() - items.len() {
        return Ok(());
    }
    items.reserve_exact(additional.max(items.len() / 8 + 8))
}
