// Lines that ask for nothing, words that spell nothing, and lines of any length.

use super::*;

/// Lines that are no command, with too few or too many words, or with words that they may not have.
#[rattlefmt::skip]
const NO_COMMANDS: &[&str] = &[
    "", " ", "#", "# a comment", "x", "m", "ge", "gets m k", "GET m k", " get m k", "get  m k", "get m  k", "get m k ", "get m k\r", "get m\tk",
    "get", "get ", "get m", "get m ", "get m k v",
    "set", "set m", "set m k", "set m k ", "set m  v", "set  k v", "set m k v w", "set m k v ",
    "del", "del m", "del m k v",
    "cas", "cas m k", "cas m k none", "cas m k none none none", "cas m k none =1 ", "cas m k  =1", "cas m k 1 =2", "cas m k =1 2", "cas m k - =1",
    "cas m k none -", "cas m k None =1", "cas m k =none  ", "cas m k = =1", "cas m k none =", "cas m k ==\\ none", "cas m k nonee none",
    "first", "first ", "first m k", "last", "last ", "last m k", "above", "above m", "above m ", "above m k v", "below", "below m", "below m k v",
    "scan", "scan m", "scan m -", "scan m - ", "scan m  1", "scan m - 0", "scan m - 1001", "scan m - 01", "scan m - +1", "scan m - -1", "scan m - x",
    "scan m - 1 2", "scan m - 18446744073709551617", "scan m - \\31",
    "len", "len ", "len m k", "drop", "drop ", "drop m k",
    "maps m", "maps ", "id 1", "id ", "flush 1", "flush ", "pin 1", "pin ", "seal 1", "seal ", "cancel 1", "cancel ",
];

/// Words that spell no bytes, or bytes that are spelled otherwise.
#[rattlefmt::skip]
const NO_WORDS: &[&[u8]] = &[
    b"", b"\\", b"\\0", b"\\\\\\", b"\\zz", b"\\0g", b"\\g0", b"\\x00", b"a\\", b"a\\2", b"\\00\\", b"\\00\\f",
    b"\\41", b"\\21", b"\\7e", b"\\5c", b"a\\2d", b"\\2da", b"-\\2d", b"\\2d-", b"\\0A", b"\\FF", b"\\aF",
    b"\t", b"\r", b"\0", b"\x1f", b"\x7f", b"\x80", b"\xc3\xa4", b"\xff", b"a\xff", b"\xffa", b"\\00\x7f", b"aaaaaaaaaaaaaaaaaaaaaaaaaaaaaaaaaaaaaaaa\x80",
];

/// What is put before such a word and behind it, in each place where there may be one.
#[rattlefmt::skip]
const PLACES: &[(&str, &str)] = &[
    ("get ", " k"), ("get m ", ""), ("del ", " k"), ("del m ", ""), ("set ", " k v"), ("set m ", " v"), ("set m k ", ""),
    ("cas ", " k none =1"), ("cas m ", " none =1"), ("cas m k =", " =1"), ("cas m k none =", ""),
    ("first ", ""), ("last ", ""), ("above ", " k"), ("above m ", ""), ("below ", " k"), ("below m ", ""),
    ("scan ", " - 1"), ("scan m ", " 1"), ("len ", ""), ("drop ", ""),
];

// Puts a line that is replied to by `error line` behind the script.
fn put_wrong(script: &mut Script, front: &str, word: &[u8], end: &str) -> Result<(), AllocError> {
    script.asked.extend_from_slice(front.as_bytes())?;
    script.asked.extend_from_slice(word)?;
    script.asked.extend_from_slice(end.as_bytes())?;
    script.asked.push(b'\n')?;
    script.wanted.extend_from_slice(b"error line\n")
}

fn put_no_commands(script: &mut Script) -> Result<(), AllocError> {
    for line in NO_COMMANDS {
        put_wrong(script, line, b"", "")?;
    }
    Ok(())
}

fn put_no_word(script: &mut Script, word: &[u8]) -> Result<(), AllocError> {
    for (front, end) in PLACES {
        put_wrong(script, front, word, end)?;
    }
    Ok(())
}

// Whether each line is refused that has such a word.
fn is_no_word(alloc: Global, word: &[u8]) -> bool {
    let mut script = new_script(alloc);
    put_no_word(&mut script, word).is_ok() && is_replied(alloc, &script)
}

// Whether each line is refused that is no command, and none of them changes what there is.
fn are_no_commands(alloc: Global) -> bool {
    let mut script = new_script(alloc);
    put_no_commands(&mut script).is_ok()
        && script.asked.extend_from_slice(b"maps\nseal\n").is_ok()
        && script
            .wanted
            .extend_from_slice(b"maps 0\nerror batch\n")
            .is_ok()
        && is_replied(alloc, &script)
}

#[test]
fn other_lines_are_refused(rt: HostRuntime) {
    assert!(rt; are_no_commands(rt.alloc()));
    for word in NO_WORDS {
        assert!(rt; is_no_word(rt.alloc(), word), "at {word:?}");
    }
}

// Puts so many bytes behind the text, spelled as that one is.
fn put_many(text: &mut Vec<u8>, spelled: &str, count: usize) -> Result<(), AllocError> {
    for _ in 0..count {
        text.extend_from_slice(spelled.as_bytes())?;
    }
    Ok(())
}

/// A line that sets a long value or a long key, and what it and a look-up of it are replied to.
struct Long {
    front: &'static str,
    // how a byte is spelled, and how many there are
    spelled: &'static str,
    count: usize,
    end: &'static str,
    set: &'static str,
    look: &'static str,
    found: &'static str,
    behind: &'static str,
}

const VALUE: Long = Long {
    front: "set m k ",
    spelled: "v",
    count: 65_528,
    end: "\n",
    set: "new\n",
    look: "get m k\n",
    found: "value ",
    behind: "\n",
};

const KEY: Long = Long {
    front: "set m ",
    spelled: "k",
    count: 65_528,
    end: " v\n",
    set: "new\n",
    look: "first m\n",
    found: "pair ",
    behind: " v\n",
};

const LONG: &[Long] = &[
    VALUE,
    Long { count: 22, ..VALUE },
    Long { count: 23, ..VALUE },
    Long {
        count: 512,
        ..VALUE
    },
    Long {
        count: 513,
        ..VALUE
    },
    Long {
        count: 8_192,
        ..VALUE
    },
    Long {
        spelled: "\\00",
        count: 21_842,
        ..VALUE
    },
    Long {
        spelled: "a\\ff\\\\",
        count: 5_000,
        ..VALUE
    },
    KEY,
    Long {
        spelled: "\\20",
        count: 21_842,
        ..KEY
    },
];

fn put_long(script: &mut Script, long: &Long) -> Result<(), AllocError> {
    script.asked.extend_from_slice(long.front.as_bytes())?;
    put_many(&mut script.asked, long.spelled, long.count)?;
    script.asked.extend_from_slice(long.end.as_bytes())?;
    script.asked.extend_from_slice(long.look.as_bytes())?;
    script.wanted.extend_from_slice(long.set.as_bytes())?;
    script.wanted.extend_from_slice(long.found.as_bytes())?;
    put_many(&mut script.wanted, long.spelled, long.count)?;
    script.wanted.extend_from_slice(long.behind.as_bytes())
}

fn returns_long(alloc: Global, long: &Long) -> bool {
    let mut script = new_script(alloc);
    put_long(&mut script, long).is_ok() && is_replied(alloc, &script)
}

// A line of one byte more is too long.
fn put_too_long(script: &mut Script) -> Result<(), AllocError> {
    script.asked.extend_from_slice(b"set m k ")?;
    put_many(&mut script.asked, "v", 65_529)?;
    script.asked.extend_from_slice(b"\nget m k\n")?;
    script.wanted.extend_from_slice(b"error line\nnone\n")
}

fn refuses_too_long(alloc: Global) -> bool {
    let mut script = new_script(alloc);
    put_too_long(&mut script).is_ok() && is_replied(alloc, &script)
}

#[test]
fn keys_and_values_of_any_length_of_a_line_come_back(rt: HostRuntime) {
    for long in LONG {
        assert!(rt;
            returns_long(rt.alloc(), long),
            "at {} {}",
            long.count,
            long.spelled
        );
    }
    assert!(rt; refuses_too_long(rt.alloc()));
}
