// Runs of the program over files, one after another: what a file holds for the next run, and which files are refused.

use super::*;
use sled_tree::FileDisk;
use std::fs;

/// Runs over one file: a script for each, and what it is replied to. The examples of docs/KEYS.md are among them.
type Runs = &'static [(&'static str, &'static str)];

const RUNS: &[Runs] = &[
    // What was not flushed is gone.
    &[
        (
            "set fruit apple red\nflush\nset fruit lime green\n",
            "new\nflushed 114\nnew\n",
        ),
        (
            "scan fruit - 10\nmaps\n",
            "pairs 1 apple red\nmaps 1 fruit\n",
        ),
    ],
    &[("", ""), ("maps\nflush\n", "maps 0\nflushed 0\n")],
    // A batch over two maps: one that was not flushed, and one that was.
    &[
        (
            "pin\nset debit anna 10\nset credit bert 10\nseal\n",
            "ok\nnew\nnew\nok\n",
        ),
        (
            "maps\npin\nset debit anna 20\nset credit bert 20\nseal\nflush\n",
            "maps 0\nok\nnew\nnew\nok\nflushed 264\n",
        ),
        (
            "get debit anna\nget credit bert\nmaps\n",
            "value 20\nvalue 20\nmaps 2 credit debit\n",
        ),
    ],
    // A batch that is cancelled, and one that its script leaves open.
    &[
        (
            "set a k 1\nset b k 1\npin\nset a k 2\nset b k 2\ncancel\nflush\npin\nset a k 3\n",
            "new\nnew\nok\nwas 1\nwas 1\nok\nflushed 287\nok\nwas 2\n",
        ),
        ("get a k\nget b k\n", "value 2\nvalue 2\n"),
    ],
    // An id is above all that an earlier run was given, flushed or not.
    &[
        ("id\nid\n", "id 0\nid 1\n"),
        ("id\n", "id 20\n"),
        ("id\n", "id 40\n"),
    ],
    // Keys that are taken out, and maps that are dropped, stay so.
    &[
        (
            "set a k 1\nset a l 2\nset b k 1\nset c k -\ndel a k\ndrop b\nflush\n",
            "new\nnew\nnew\nnew\nwas 1\ndropped\nflushed 399\n",
        ),
        (
            "maps\nget a k\nget a l\nget c k\nset b k 3\nflush\n",
            "maps 2 a c\nnone\nvalue 2\nvalue -\nnew\nflushed 110\n",
        ),
        ("maps\nlen b\nfirst b\n", "maps 3 a b c\nlen 1\npair k 3\n"),
    ],
];

// Whether the program over this file replies so to a script, and ends without a fault.
fn answers<H: Files<File = File> + AllocGlobal>(
    rt: &H,
    path: &str,
    mut script: &[u8],
    want: &[u8],
) -> bool {
    let mut output = Vec::new(rt.alloc());
    ends_so(rt, &[path], &mut script, &mut output, 0, "") && output.as_slice() == want
}

fn removes<H: Files<File = File> + AllocGlobal>(rt: &H, path: &str) -> bool {
    fs::remove_file(rt, path).is_ok()
}

// Whether each run over a file that is not there at first replies so.
fn runs_so<H: Files<File = File> + AllocGlobal>(rt: &H, path: &str, runs: Runs) -> bool {
    let _ = fs::remove_file(rt, path);
    for (script, want) in runs {
        if !answers(rt, path, script.as_bytes(), want.as_bytes()) {
            return false;
        }
    }
    removes(rt, path)
}

#[test]
fn a_file_holds_what_was_flushed(rt: HostRuntime) {
    for runs in RUNS {
        assert!(rt; runs_so(&rt, "runs", runs), "at {}", runs[0].0);
    }
    // The path is one word, whatever is in it.
    assert!(rt; runs_so(&rt, "a path with = and -- in it", RUNS[0]));
}

// Whether the program over this file makes no call, replies nothing and reports this fault.
fn refuses<H: Files<File = File> + AllocGlobal>(rt: &H, path: &str, fault: &str) -> bool {
    ends_so(
        rt,
        &[path],
        &mut b"set m k v\nflush\n".as_slice(),
        &mut Broken,
        1,
        fault,
    )
}

fn holds<H: Files<File = File> + AllocGlobal>(rt: &H, path: &str, bytes: &[u8]) -> bool {
    match fs::read(rt, path) {
        Ok(found) => found.as_slice() == bytes,
        Err(_) => false,
    }
}

/// Bytes that are no log.
const NO_LOGS: &[&[u8]] = &[
    b"S",
    b"SLPCLOG1",
    b"SLPCLOG2\0",
    b"SLPCLOG1\x01\0\0\0\0\0\0\0\0\0",
    b"set m k v\n",
];

// Whether a file of these bytes is refused, and left as it is.
fn is_no_log<H: Files<File = File> + AllocGlobal>(rt: &H, bytes: &[u8]) -> bool {
    fs::write(rt, "no log", bytes).is_ok()
        && refuses(rt, "no log", "dilluvas: error corruption\n")
        && holds(rt, "no log", bytes)
        && removes(rt, "no log")
}

/// Paths of no file: none, folders, one in a folder that is not there, one that no file can have, and a device.
const NO_FILES: &[&str] = &["", ".", "/", "absent/log", "absent/", "log\0", "/dev/null"];

const UNREAD: &str = "dilluvas: error read\n";

// Whether another that has the file open keeps the program from it.
fn is_held<H: Files<File = File> + AllocGlobal>(rt: &H, path: &str) -> bool {
    match FileDisk::open(rt, path) {
        Ok(_holder) => refuses(rt, path, UNREAD) && holds(rt, path, b""),
        Err(_) => false,
    }
}

#[test]
fn a_file_that_is_no_log_or_in_use_is_refused(rt: HostRuntime) {
    for bytes in NO_LOGS {
        assert!(rt; is_no_log(&rt, bytes), "at {bytes:?}");
    }
    for path in NO_FILES {
        assert!(rt; refuses(&rt, path, UNREAD), "at {path}");
    }
    assert!(rt; is_held(&rt, "held") && removes(&rt, "held"));
}
