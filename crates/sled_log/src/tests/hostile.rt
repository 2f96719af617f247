// Logs that leave what they like at moments that no other clause names. The law of earlier moments refuses them.

ghost use Rattle.std.specs.Prelude.{◌≡◌, ℕ, ◌≤◌, List, [], ◌∷◌};
ghost use Rattle.sled_log.specs.Inside.Hostile.{left_skipping, left_losing};
ghost use Rattle.sled_log.specs.MemLog.State.{kept_in, state_of};
ghost use Rattle.sled_log.specs.Messages.{Messages, Chain};

use super::*;

// A log whose odd moments nobody looks at, and that leaves anything then.
fn a_log_skips_no_moment(log: &MemLog)
    requires empty { kept_in log.now ≡ [] }
    ensures { ((t u : ℕ) (pages : List Messages) → t ≤ u → left_skipping log.now u pages
        → left_skipping log.now t pages) → ⊥ }
{}

// A log that leaves nothing behind a write fault, whatever was stable.
fn a_log_loses_nothing(log: &MemLog)
    ensures { (chain : Chain) (chains : List Chain)
        → (state_of log.now).stable ≡ chain ∷ chains
        → (state_of log.now).pending ≡ []
        → ((t u : ℕ) (pages : List Messages) → t ≤ u → left_losing log.now u pages
        → left_losing log.now t pages)
        → ⊥ }
{}
