// Where a crash may cut the items of the log in memory.

ghost use Rattle.std.specs.Prelude.{◌≡◌, ◌↔◌, map, IsTrue};
ghost use Rattle.sled_log.specs.Events.{is_open, is_cancelled, IsFair};
ghost use Rattle.sled_log.specs.Inside.Stored.{bare_event};

use super::item::{LogItem, Mark};

// Whether these items leave a batch open.
fn leaves_open(items: &[LogItem]) -> bool
    ensures { result ≡ is_open (map bare_event items.now) }
{
    let mut open = false;
    for item in items {
        match item.mark.unpacked() {
            Mark::Change { .. } => {}
            Mark::Pin => open = true,
            Mark::Seal | Mark::Cancel => open = false,
        }
    }
    open
}

// Whether these items cancel a batch that is open before them.
fn cancels(items: &[LogItem]) -> bool
    ensures { result ≡ is_cancelled (map bare_event items.now) }
{
    for item in items {
        match item.mark.unpacked() {
            Mark::Change { .. } | Mark::Pin => {}
            Mark::Seal => return false,
            Mark::Cancel => return true,
        }
    }
    false
}

// Whether a crash may keep the first `n` of these items.
pub(super) fn is_fair_cut(items: &[LogItem], n: usize) -> bool
    ensures { IsTrue result ↔ IsFair (map bare_event items.now) n }
{
    if items.len() < n {
        return false;
    }
    !leaves_open(&items[..n]) || cancels(&items[n..])
}
