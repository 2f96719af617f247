//! Moving bytes up or down in a buffer.

ghost use Rattle.std.specs.Prelude.{◌≡◌, ◌+◌, ◌-◌, ◌≤◌, ◌++◌, length, take, drop};

const BLOCK: usize = 32;

const SMALL_BLOCK: usize = 8;

// Moves all but the last bytes up by as many.
pub fn move_up(bytes: &mut [u8], more: usize)
    requires { more ≤ length bytes.old }
    ensures moved { drop more bytes.new ≡ take (length bytes.old - more) bytes.old }
    ensures many { length bytes.new ≡ length bytes.old }
{
    let kept = bytes.len() - more;
    raise(bytes, kept, more);
}

// Moves all but the first bytes down by as many.
pub fn move_down(bytes: &mut [u8], less: usize)
    requires { less ≤ length bytes.old }
    ensures moved { take (length bytes.old - less) bytes.new ≡ drop less bytes.old }
    ensures many { length bytes.new ≡ length bytes.old }
{
    let kept = bytes.len() - less;
    lower(bytes, kept, less);
}

// Moves the first bytes up block by block, from the last block on.
fn raise(bytes: &mut [u8], kept: usize, more: usize)
    requires { kept + more ≤ length bytes.old }
    ensures { bytes.new ≡ take more bytes.old
        ++ (take kept bytes.old ++ drop (more + kept) bytes.old) }
{
    let end = raise_blocks::<BLOCK>(bytes, kept, more);
    let end = raise_blocks::<SMALL_BLOCK>(bytes, end, more);
    bytes.copy_within(..end, more);
}

// Moves the bytes before `end` up in blocks, from the last on, and answers where those end that are left.
fn raise_blocks<const N: usize>(bytes: &mut [u8], end: usize, more: usize) -> usize
    requires some { 1 ≤ N }
    requires within { end + more ≤ length bytes.old }
    ensures left { result ≤ end }
    ensures moved { bytes.new ≡ take (result + more) bytes.old
        ++ (take (end - result) (drop result bytes.old) ++ drop (end + more) bytes.old) }
{
    let mut at = end;
    while at >= N {
        at -= N;
        move_block::<N>(bytes, at, at + more);
    }
    at
}

// Moves so many bytes down, to the front, block by block from the first on.
fn lower(bytes: &mut [u8], kept: usize, less: usize)
    requires { kept + less ≤ length bytes.old }
    ensures { bytes.new ≡ take kept (drop less bytes.old) ++ drop kept bytes.old }
{
    let start = lower_blocks::<BLOCK>(bytes, 0, kept, less);
    let start = lower_blocks::<SMALL_BLOCK>(bytes, start, kept, less);
    bytes.copy_within(start + less..kept + less, start);
}

// Moves the bytes that come from `start` to `end` down in blocks, from the first on, and answers where those begin that are left.
fn lower_blocks<const N: usize>(bytes: &mut [u8], start: usize, end: usize, less: usize) -> usize
    requires some { 1 ≤ N }
    requires order { start ≤ end }
    requires within { end + less ≤ length bytes.old }
    ensures order { start ≤ result }
    ensures left { result ≤ end }
    ensures moved { bytes.new ≡ take start bytes.old ++ (take (result - start)
        (drop (start + less) bytes.old) ++ drop result bytes.old) }
{
    let mut at = start;
    while end - at >= N {
        move_block::<N>(bytes, at + less, at);
        at += N;
    }
    at
}

// Copies a block to another place.
fn move_block<const N: usize>(bytes: &mut [u8], from: usize, to: usize)
    requires from { from + N ≤ length bytes.old }
    requires to { to + N ≤ length bytes.old }
    ensures { bytes.new ≡ take to bytes.old
        ++ (take N (drop from bytes.old) ++ drop (to + N) bytes.old) }
{
    let mut block = [0u8; N];
    block.copy_from_slice(&bytes[from..from + N]);
    bytes[to..to + N].copy_from_slice(&block);
}
