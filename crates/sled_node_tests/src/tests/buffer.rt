// A leaf in one buffer.

use super::links::applies_payload;
use super::*;

const THREE: &[u8] = b"\0\0\0\0\0\0\0\x03\x01a\x01b\x01c\x011\x0222\x013";

const SHORTER: &[u8] = b"\0\0\0\0\0\0\0\x03\x01a\x01b\x01c\x011\0\x013";

const TWO: &[u8] = &[0, 2, 1, 98, 1, 99, 0, 1, 51];

fn are_edited(alloc: Global) -> bool {
    let Some(mut node) = node_of(alloc, THREE) else {
        return false;
    };
    applies_payload(alloc, &mut node, b"\0\x01b\0") == Some(true)
        && is_read(alloc, SHORTER, &node)
        && applies_payload(alloc, &mut node, b"\x01\x01a") == Some(true)
        && is_read(alloc, TWO, node.data())
}

#[test]
fn edits_move_the_later_ends(rt: HostRuntime) {
    assert!(rt; are_edited(rt.alloc()));
}

// A leaf of a hundred pairs of thirty bytes and thirty.
fn long_leaf() -> [u8; 6202] {
    let mut payload = [0u8; 6202];
    payload[1] = 100;
    for i in 0..200 {
        payload[2 + 31 * i] = 30;
        payload[3 + 31 * i] = (i % 100) as u8;
    }
    payload
}

// Run it with the fiftieth allocation refused: a leaf is read with two.
#[test]
fn a_leaf_is_read_with_few_allocations(rt: HostRuntime) {
    let payload = long_leaf();
    let mut rest = payload.as_slice();
    let is_ok = match Data::deserialize(rt.alloc(), &mut rest) {
        Ok(data) => data.len() == 100 && rest.is_empty(),
        Err(_) => false,
    };
    assert!(rt; is_ok);
}
