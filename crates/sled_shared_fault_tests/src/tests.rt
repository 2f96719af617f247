mod devices;
mod many;
mod reading;

use self::devices::{are_left_so, is_met_by_each, met_by};
use self::many::{ids_in_order, pages_in_order};
use self::reading::{are_answered, are_failing, are_kept};
use sled_shared::Blank;
use std::marker::Brand;

#[test]
fn each_write_and_sync_fails_as_without_shares(rt: HostRuntime) {
    let places = met_by(&rt, rt.alloc(), false);
    assert!(rt; places.is_some_and(|places| is_met_by_each(&places, false)));
}

#[test]
fn each_read_fails_as_without_shares(rt: HostRuntime) {
    let places = met_by(&rt, rt.alloc(), true);
    assert!(rt; places.is_some_and(|places| is_met_by_each(&places, true)));
}

#[test]
fn a_stopped_disk_is_left_as_without_shares(rt: HostRuntime) {
    assert!(rt; are_left_so(&rt, rt.alloc()));
}

#[test]
fn ten_thousand_ids_come_in_their_order(rt: HostRuntime) {
    let drawn = ids_in_order::<Brand, _>(&rt, rt.alloc(), 10_000, Blank::new(2), 2);
    assert_eq!(rt; drawn, Some(10_000));
}

#[test]
fn five_thousand_pages_come_in_their_order(rt: HostRuntime) {
    let made = pages_in_order::<Brand, _>(&rt, rt.alloc(), 5000, 100, Blank::new(2), 2);
    assert_eq!(rt; made, Some((5000, 100)));
}

#[test]
fn several_pages_are_read_as_one_after_the_other(rt: HostRuntime) {
    assert!(rt; are_answered(&rt, rt.alloc()));
}

#[test]
fn a_read_that_fails_ends_a_call_as_without_shares(rt: HostRuntime) {
    assert!(rt; are_failing(&rt, rt.alloc()));
}

#[test]
fn a_kept_error_is_told_in_place_of_each_page(rt: HostRuntime) {
    assert!(rt; are_kept(&rt, rt.alloc()));
}
