use sled_pagecache::{Error, Node, Serialize};
use std::alloc::Global;

fn written_and_read(alloc: Global) -> Result<bool, Error> {
    let node = Node::default(alloc);
    let bytes = node.serialize(alloc)?;
    let mut input = bytes.as_slice();
    let same = Node::deserialize(alloc, &mut input)?;
    Ok(same == node && input.is_empty())
}

#[test]
fn a_node_is_written_and_read(rt: HostRuntime) {
    assert!(rt; written_and_read(rt.alloc()) == Ok(true));
}
