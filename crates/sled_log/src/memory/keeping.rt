// How the items of the log in memory are added, and what a crash does to them.

ghost use Rattle.std.specs.Prelude.{◌≡◌, ◌≤◌, ◌<◌, ◌+◌, [], ◌∷◌, ◌++◌, length, take, map, true, false, vec_len, vec_capacity};
ghost use Rattle.sled_log.specs.Inside.Stored.{restarts};

use super::item::LogItem;

// How many items there has to be room for, where one is added: behind one that leaves a batch open comes its closing mark.
pub(super) fn room_for(batch: bool) -> usize
    ensures one { 1 ≤ result }
    ensures open { batch ≡ true → 2 ≤ result }
    ensures closed { batch ≡ false → result ≡ 1 }
{
    if batch { 2 } else { 1 }
}

// Adds an item behind the others, and its payload behind theirs. There is room.
pub(super) fn push(items: &mut Vec<LogItem>, bytes: &mut Vec<u8>, item: LogItem, payload: &[u8])
    requires room { vec_len items.old < vec_capacity items.old }
    requires payload_room { vec_len bytes.old + length payload.now ≤ vec_capacity bytes.old }
    ensures items { items.new.items ≡ items.old.items ++ item ∷ [] }
    ensures bytes { bytes.new.items ≡ bytes.old.items ++ payload.now }
    ensures capacity { vec_capacity items.new ≡ vec_capacity items.old }
{
    let _room_was_reserved = bytes.extend_from_slice(payload);
    items.push_reserved(item);
}

// Lets the clock begin again with these items, all of them stable.
fn restart(items: &mut [LogItem])
    ensures { items.new ≡ map restarts items.old }
{
    for item in items.iter_mut() {
        item.came = 0;
    }
}

// Keeps the first items, as a crash does.
pub(super) fn keep_first(items: &mut Vec<LogItem>, count: usize)
    ensures { items.new.items ≡ map restarts (take count items.old.items) }
{
    items.truncate(count);
    restart(items);
}
