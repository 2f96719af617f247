//! Texts that are split in two.

ghost use Rattle.std.specs.Prelude.{◌≡◌, ◌≢◌, ◌<◌, ◌≤◌, ℕ, length, slice_index};
ghost use Rattle.std.specs.Option.{option_map};
ghost use Rattle.sled_lines.specs.Cut.{IsCutAt};

/// Returns what is before the first byte `mark`, and what is after it, if the text has one.
#[inline(always)]
pub fn cut_at(text: &[u8], mark: u8) -> (&[u8], Option<&[u8]>)
    ensures { IsCutAt mark text.now result.0.now (option_map (λ rest. rest.now) result.1) }
{
    let at = place_of(text, mark);
    if at < text.len() {
        return (&text[..at], Some(&text[at + 1..]));
    }
    (text, None)
}

// The place of the first such byte, or the length where there is none. Each turn tests four bytes.
fn place_of(text: &[u8], mark: u8) -> usize
    ensures end { result ≤ length text.now }
    ensures before { (k : ℕ) → k < result → slice_index text.now k ≢ mark }
    ensures at { result < length text.now → slice_index text.now result ≡ mark }
{
    let mut at = 0;
    while text.len() - at >= 4 {
        if text[at] == mark {
            return at;
        }
        if text[at + 1] == mark {
            return at + 1;
        }
        if text[at + 2] == mark {
            return at + 2;
        }
        if text[at + 3] == mark {
            return at + 3;
        }
        at += 4;
    }
    place_behind(text, mark, at)
}

// The place of the first such byte from a place on, or the length where there is none.
fn place_behind(text: &[u8], mark: u8, start: usize) -> usize
    requires { start ≤ length text.now }
    ensures end { result ≤ length text.now }
    ensures before { (k : ℕ) → start ≤ k → k < result → slice_index text.now k ≢ mark }
    ensures at { result < length text.now → slice_index text.now result ≡ mark }
{
    for at in start..text.len() {
        if text[at] == mark {
            return at;
        }
    }
    text.len()
}
