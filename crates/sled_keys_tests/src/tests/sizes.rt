// Maps of many sizes, and each byte.

use super::*;

// Puts the last digit of the number behind the text.
fn put_digit(text: &mut Vec<u8>, number: usize) -> Result<(), AllocError> {
    text.push(b'0' + (number % 10) as u8)?;
    Ok(())
}

// The number, which is below 10,000, with four digits.
fn put_four(text: &mut Vec<u8>, number: usize) -> Result<(), AllocError> {
    put_digit(text, number / 1_000)?;
    put_digit(text, number / 100)?;
    put_digit(text, number / 10)?;
    put_digit(text, number)
}

// The same without zeros in front.
fn put_number(text: &mut Vec<u8>, number: usize) -> Result<(), AllocError> {
    if number >= 1_000 {
        put_digit(text, number / 1_000)?;
    }
    if number >= 100 {
        put_digit(text, number / 100)?;
    }
    if number >= 10 {
        put_digit(text, number / 10)?;
    }
    put_digit(text, number)
}

// The key of a number, and its value behind a space.
fn put_pair(text: &mut Vec<u8>, number: usize) -> Result<(), AllocError> {
    text.push(b'k')?;
    put_four(text, number)?;
    text.extend_from_slice(b" v")?;
    put_four(text, number)
}

// The reply with the pairs of these numbers.
fn put_pairs(text: &mut Vec<u8>, start: usize, end: usize) -> Result<(), AllocError> {
    text.extend_from_slice(b"pairs ")?;
    put_number(text, end.saturating_sub(start))?;
    for number in start..end {
        text.push(b' ')?;
        put_pair(text, number)?;
    }
    text.push(b'\n').map_err(AllocError::from)
}

// Asks for a number's key, by the command in front.
fn ask(script: &mut Script, command: &[u8], number: usize, end: &[u8]) -> Result<(), AllocError> {
    script.asked.extend_from_slice(command)?;
    script.asked.extend_from_slice(b" m k")?;
    put_four(&mut script.asked, number)?;
    script.asked.extend_from_slice(end)
}

// Sets the pairs of so many numbers, not in their order.
fn put_sets(script: &mut Script, count: usize) -> Result<(), AllocError> {
    for i in 0..count {
        script.asked.extend_from_slice(b"set m ")?;
        put_pair(&mut script.asked, i.wrapping_mul(7) % count)?;
        script.asked.push(b'\n')?;
        script.wanted.extend_from_slice(b"new\n")?;
    }
    Ok(())
}

// Asks for all pairs, and for those of ten from the midst on.
fn put_scans(script: &mut Script, count: usize) -> Result<(), AllocError> {
    script.asked.extend_from_slice(b"len m\nscan m - 1000\n")?;
    script.wanted.extend_from_slice(b"len ")?;
    put_number(&mut script.wanted, count)?;
    script.wanted.push(b'\n')?;
    put_pairs(&mut script.wanted, 0, count)?;
    let midst = count / 2;
    ask(script, b"scan", midst, b" 10\n")?;
    put_pairs(&mut script.wanted, midst, count.min(midst + 10))
}

// The pair of a number, or none.
fn put_found(text: &mut Vec<u8>, number: Option<usize>) -> Result<(), AllocError> {
    let Some(number) = number else {
        return text.extend_from_slice(b"none\n");
    };
    text.extend_from_slice(b"pair ")?;
    put_pair(text, number)?;
    text.push(b'\n').map_err(AllocError::from)
}

// Asks for the pairs beside each one.
fn put_neighbours(script: &mut Script, count: usize) -> Result<(), AllocError> {
    for i in 0..count {
        ask(script, b"above", i, b"\n")?;
        put_found(
            &mut script.wanted,
            if i + 1 < count { Some(i + 1) } else { None },
        )?;
        ask(script, b"below", i, b"\n")?;
        put_found(&mut script.wanted, i.checked_sub(1))?;
    }
    Ok(())
}

// Takes out each pair but the first, and asks for all.
fn put_removals(script: &mut Script, count: usize) -> Result<(), AllocError> {
    for i in 1..count {
        ask(script, b"del", i, b"\n")?;
        script.wanted.extend_from_slice(b"was v")?;
        put_four(&mut script.wanted, i)?;
        script.wanted.push(b'\n')?;
    }
    script.asked.extend_from_slice(b"scan m - 9\n")?;
    put_pairs(&mut script.wanted, 0, count.min(1))
}

fn put_size(script: &mut Script, count: usize) -> Result<(), AllocError> {
    put_sets(script, count)?;
    put_scans(script, count)?;
    put_neighbours(script, count)?;
    put_removals(script, count)
}

fn is_ordered(alloc: Global, count: usize) -> bool {
    let mut script = new_script(alloc);
    put_size(&mut script, count).is_ok() && is_replied(alloc, &script)
}

/// How many pairs there are: none of them is divided by seven, so that all numbers are set.
const COUNTS: &[usize] = &[0, 1, 2, 3, 16, 17, 33, 100, 1_000];

#[test]
fn maps_of_any_size_are_ordered(rt: HostRuntime) {
    for count in COUNTS {
        assert!(rt; is_ordered(rt.alloc(), *count), "with {count} pairs");
    }
}

// Puts the word of one byte behind the text.
fn put_byte(text: &mut Vec<u8>, byte: u8) -> Result<(), AllocError> {
    match byte {
        b'-' => text.extend_from_slice(b"\\2d"),
        b'\\' => text.extend_from_slice(b"\\\\"),
        b'!'..=b'~' => text.push(byte).map_err(AllocError::from),
        _ => {
            let digits = b"0123456789abcdef";
            text.push(b'\\')?;
            text.push(digits[usize::from(byte / 16)])?;
            text.push(digits[usize::from(byte % 16)])
                .map_err(AllocError::from)
        }
    }
}

// Sets each byte to the one that is opposite, the last first.
fn put_bytes(script: &mut Script) -> Result<(), AllocError> {
    for byte in 0..=255u8 {
        script.asked.extend_from_slice(b"set m ")?;
        put_byte(&mut script.asked, 255 - byte)?;
        script.asked.push(b' ')?;
        put_byte(&mut script.asked, byte)?;
        script.asked.push(b'\n')?;
        script.wanted.extend_from_slice(b"new\n")?;
    }
    script.asked.extend_from_slice(b"scan m - 256\n")?;
    script.wanted.extend_from_slice(b"pairs 256")?;
    for byte in 0..=255u8 {
        script.wanted.push(b' ')?;
        put_byte(&mut script.wanted, byte)?;
        script.wanted.push(b' ')?;
        put_byte(&mut script.wanted, 255 - byte)?;
    }
    script.wanted.push(b'\n').map_err(AllocError::from)
}

fn are_bytes_spelled(alloc: Global) -> bool {
    let mut script = new_script(alloc);
    put_bytes(&mut script).is_ok() && is_replied(alloc, &script)
}

#[test]
fn each_byte_is_spelled_and_read(rt: HostRuntime) {
    assert!(rt; are_bytes_spelled(rt.alloc()));
}
