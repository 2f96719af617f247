// Crashes at each moment of the list, and what is opened then.

use super::*;

// Whether a crash before the n-th write or sync leaves what it may.
fn stops(alloc: Global, n: usize, way: &Way, fill: Option<u8>) -> bool {
    match made(alloc, way) {
        Some((disk, reach)) => opens_to_prefix(alloc, disk.stop(n, fill), &reach, way),
        None => false,
    }
}

// Whether the same holds where a second crash comes before the m-th write or sync of the next opening.
fn stops_again(alloc: Global, n: usize, m: usize, way: &Way, fill: Option<u8>) -> bool {
    let Some((disk, reach)) = made(alloc, way) else {
        return false;
    };
    match opened(alloc, disk.stop(n, fill), way) {
        Ok(cache) => match disk_of(cache) {
            Some(disk) => opens_to_prefix(alloc, disk.stop(m, fill), &reach, way),
            None => false,
        },
        Err(_) => false,
    }
}

#[test]
fn stop_at_each_device_call(rt: HostRuntime) {
    for kind in KINDS {
        let all = over(kind);
        let made = calls_made(rt.alloc(), &all);
        assert!(rt; made > 12, "{all:?}");
        // the file is made once there were two
        for calls in 3..made.saturating_add(2) {
            for fill in FILLS {
                let way = Way { calls, ..all };
                assert!(rt; stops(rt.alloc(), calls, &way, *fill), "{way:?} {fill:?}");
            }
        }
    }
}

// Also inside the batch, which is open then, and behind any other call.
#[test]
fn stop_behind_each_change(rt: HostRuntime) {
    for kind in KINDS {
        let (_, all) = list_of(&over(kind));
        for changes in 0..all.saturating_add(1) {
            for fill in FILLS {
                let way = Way {
                    changes,
                    ..over(kind)
                };
                assert!(rt;
                    stops(rt.alloc(), usize::MAX, &way, *fill),
                    "{way:?} {fill:?}"
                );
            }
        }
    }
}

// Where the system pages are missing they are made by eight writes and syncs. Else there is a sync, and where the file ends inside a batch
// the four writes and syncs of a frame.
#[test]
fn stop_while_reopening(rt: HostRuntime) {
    for kind in KINDS {
        let all = over(kind);
        let made = calls_made(rt.alloc(), &all);
        assert!(rt; made > 12, "{all:?}");
        for calls in 3..made.saturating_add(2) {
            let spills = all.is_spilling || all.segment_size == 0;
            let seconds = if calls < 12 {
                11
            } else if spills {
                7
            } else {
                3
            };
            for second in 1..seconds {
                for fill in FILLS {
                    let way = Way { calls, ..all };
                    assert!(rt;
                        stops_again(rt.alloc(), calls, second, &way, *fill),
                        "{way:?} {second} {fill:?}"
                    );
                }
            }
        }
    }
}

// ---- a log in memory, where payloads above four bytes are blobs

// A cache behind the first changes of the list, and how far that came, if all is as it should be.
fn in_memory(alloc: Global, way: &Way) -> Option<(Cache, Reach)> {
    let mut cache = opened_over(alloc, CONFIG, MemLog::new(alloc, 4, way.clean_every))?;
    let mut reach = START;
    for row in FIRST_OPENING {
        if reach.made >= way.changes {
            return Some((cache, reach));
        }
        if answer(alloc, &mut cache, &row.0) != row.1 {
            return None;
        }
        reach = with_call(&reach, row, cache.batch_open());
    }
    Some((cache, reach))
}

// Whether a crash that keeps so many of the pending events leaves what it may, or may not come. None comes inside a batch.
fn keeps(alloc: Global, kept: usize, way: &Way) -> bool {
    let Some((cache, reach)) = in_memory(alloc, way) else {
        return false;
    };
    let Some(log) = log_of(cache) else {
        return true;
    };
    if !log.is_fair(kept) {
        return true;
    }
    match left_by(alloc, log, kept) {
        Some(mut cache) => shows_prefix(alloc, &mut cache, &reach, way),
        None => false,
    }
}

#[test]
fn stop_at_each_event(rt: HostRuntime) {
    for clean_every in [0, 1, 3] {
        for changes in 0..CHANGES + 1 {
            for kept in 0..2 * CHANGES {
                let way = Way {
                    changes,
                    ..over(&(false, 4096, clean_every))
                };
                assert!(rt; keeps(rt.alloc(), kept, &way), "{kept} {way:?}");
            }
        }
    }
}
