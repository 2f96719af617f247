// A log on a file of a system that takes what a failed sync couldn't write for durable, as Linux does: reads go on showing it, and no later
// sync writes it. What a flush has confirmed is there after the power fails, wherever syncs fail before.

ghost use Rattle.std.specs.Prelude.{◌≡◌, ◌≤◌, true, false, [], length, IfOk, IfSome};

use super::*;
use sled_base::MessageKind;
use sled_disk::SystemFile;
use std::io;
use std::io::ErrorKind;

// What the system shows and what the device has, in blocks; which blocks the next sync writes; how many syncs are made before those two
// that fail.
#[derive(Drop)]
struct Forgetful {
    shown: Vec<u8>,
    device: Vec<u8>,
    written: Vec<bool>,
    block: usize,
    syncs: u32,
    fails_at: (u32, u32),
}

// So many bytes are written at once, at most.
const PIECE: usize = 30;

impl Forgetful {
    fn new(alloc: Global, block: usize, fails_at: (u32, u32)) -> Forgetful {
        Forgetful {
            shown: Vec::new(alloc),
            device: Vec::new(alloc),
            written: Vec::new(alloc),
            block: block.max(1),
            syncs: 0,
            fails_at,
        }
    }

    // Writes the first of some bytes at a place, and says how many. None where there is no memory, or the place is behind the end.
    fn write(&mut self, at: usize, bytes: &[u8]) -> Option<usize>
        ensures { IfSome result (λ n. n ≤ length bytes.now) }
    {
        let piece = &bytes[..bytes.len().min(PIECE)];
        if at > self.shown.len() {
            return None;
        }
        let (_, behind) = self.shown.split_at_mut(at);
        let over = behind.len().min(piece.len());
        behind[..over].copy_from_slice(&piece[..over]);
        self.shown.extend_from_slice(&piece[over..]).ok()?;
        for place in at..at.saturating_add(piece.len()) {
            self.note(place / self.block.max(1))?;
        }
        Some(piece.len())
    }

    // Notes that a block is to be written.
    fn note(&mut self, block: usize) -> Option<()> {
        if self.written.len() <= block {
            self.written.resize(block.checked_add(1)?, false).ok()?;
        }
        *self.written.get_mut(block)? = true;
        Some(())
    }

    // Writes a block to the device, as far as it is within the file.
    fn write_block(&mut self, block: usize) -> Option<()> {
        let at = block.checked_mul(self.block)?;
        let end = at.checked_add(self.block)?.min(self.shown.len());
        let bytes = self.shown.get(at..end)?;
        if end > self.device.len() {
            self.device.resize(end, 0).ok()?;
        }
        if at > self.device.len() || bytes.len() > self.device.len() - at {
            return None;
        }
        self.device[at..at + bytes.len()].copy_from_slice(bytes);
        Some(())
    }

    // Writes the blocks that are to be written to the device, or forgets that they are.
    fn write_blocks(&mut self) -> Option<()> {
        self.syncs = self.syncs.saturating_add(1);
        let fails = self.syncs == self.fails_at.0 || self.syncs == self.fails_at.1;
        for block in 0..self.written.len() {
            if !fails && self.written.get(block) == Some(&true) {
                self.write_block(block)?;
            }
        }
        self.written.clear();
        if fails { None } else { Some(()) }
    }

    // The power fails.
    fn crash(self, alloc: Global) -> Forgetful {
        let block = self.block;
        Forgetful {
            shown: self.device,
            ..Forgetful::new(alloc, block, (0, 0))
        }
    }
}

impl SystemFile for Forgetful {
    ghost tells = { ⊥ };

    ghost has_failed = { λ _. false };

    ghost seen = { λ _. [] };

    ghost may_leave = { λ _ _. ⊥ };

    ghost moment = { λ _. 0 };

    ghost left_since = { λ _ _ _. ⊥ };

    ghost are_bytes = { λ file i told. absurd told };

    ghost seen_now = { λ file told. absurd told };

    ghost left_now = { λ file left told may. absurd told };

    ghost only_now = { λ file left told was. absurd told };

    ghost since_earlier = { λ file t u left told le was. absurd told };

    fn size(&self) -> io::Result<u64> {
        Ok(self.shown.len() as u64)
    }

    fn read_whole_at(&self, at: u64, into: &mut [u8]) -> io::Result<()> {
        let len = into.len();
        let end = (at as usize).checked_add(len);
        let found = match end {
            Some(end) => self.shown.get(at as usize..end),
            None => None,
        };
        match found {
            Some(bytes) => {
                into.copy_from_slice(bytes);
                Ok(())
            }
            None => Err(io::Error::from(ErrorKind::UnexpectedEof)),
        }
    }

    fn write_some_at(&mut self, at: u64, bytes: &[u8]) -> io::Result<usize> {
        match self.write(at as usize, bytes) {
            Some(n) => Ok(n),
            None => Err(io::Error::from(ErrorKind::Other)),
        }
    }

    fn write_again_at(&mut self, at: u64, byte: u8) -> io::Result<()> {
        match self.write(at as usize, &[byte]) {
            Some(_) => Ok(()),
            None => Err(io::Error::from(ErrorKind::Other)),
        }
    }

    fn sync_data(&mut self) -> io::Result<()> {
        match self.write_blocks() {
            Some(()) => Ok(()),
            None => Err(io::Error::from(ErrorKind::Other)),
        }
    }
}

// Opens the log of a file, which is made where it has no bytes.
fn log_of(alloc: Global, file: Forgetful) -> Result<DiskLog<FileDisk<Forgetful>>, Forgetful>
    ensures { IfOk result (λ log. log.usable ≡ true) }
{
    let mut disk = FileDisk::new(file);
    if disk.len() == Ok(0) && DiskLog::create(&mut disk).is_err() {
        return Err(disk.into_file());
    }
    match DiskLog::open(alloc, disk, 1 << 20, 0) {
        Ok(log) => Ok(log),
        Err((_, disk)) => Err(disk.into_file()),
    }
}

// How many pages a log has.
fn pages_of(log: &mut DiskLog<FileDisk<Forgetful>>) -> Option<usize>
    requires { log.old.usable ≡ true }
    ensures { log.new.usable ≡ true }
{
    match log.recover() {
        Ok(pages) => Some(pages.len()),
        Err(_) => None,
    }
}

// Adds a page and flushes: how many pages are confirmed then, or none where a call failed.
fn added(log: &mut DiskLog<FileDisk<Forgetful>>) -> Option<usize>
    requires { log.old.usable ≡ true }
    ensures { IfSome result (λ _. log.new.usable ≡ true) }
{
    let pages = pages_of(log)?;
    if log
        .append(MessageKind::InlineNode, pages as u64, &[7; 11])
        .is_err()
        || log.batch_open()
    {
        return None;
    }
    match log.make_stable() {
        Ok(_) => pages.checked_add(1),
        Err(_) => None,
    }
}

// Adds so many pages, up to the first call that fails: how many were confirmed, with those before.
fn add_pages(log: &mut DiskLog<FileDisk<Forgetful>>, most: usize, before: usize) -> usize
    requires { log.old.usable ≡ true }
{
    let mut confirmed = before;
    for _number in 0..most {
        let Some(pages) = added(log) else {
            return confirmed;
        };
        confirmed = pages;
    }
    confirmed
}

// Opens the file, adds so many pages or less, and gives it back, with how many were confirmed.
fn used(alloc: Global, file: Forgetful, most: usize, before: usize) -> (Forgetful, usize) {
    let mut log = match log_of(alloc, file) {
        Ok(log) => log,
        Err(file) => return (file, before),
    };
    let confirmed = add_pages(&mut log, most, before);
    (log.into_disk().into_file(), confirmed)
}

// How many pages were confirmed and aren't there after a crash. The file is opened four times, behind each fault or so many pages.
fn lost(alloc: Global, block: usize, pages: usize, fails_at: (u32, u32)) -> Option<usize> {
    let mut file = Forgetful::new(alloc, block, fails_at);
    let mut confirmed = 0;
    for _ in 0..4 {
        (file, confirmed) = used(alloc, file, pages, confirmed);
    }
    match log_of(alloc, file.crash(alloc)) {
        Ok(mut log) => Some(confirmed.saturating_sub(pages_of(&mut log)?)),
        Err(_) => None,
    }
}

// One sync makes the file, and in each of four openings there is one and two for each page, of which there are two at most.
const SYNCS: u32 = 21;

// Whether nothing is lost with such blocks, so many pages in each opening, and each two syncs, or one, that fail.
fn nothing_is_lost(alloc: Global, block: usize, pages: usize) -> bool {
    for first in 1..=SYNCS {
        for second in first..=SYNCS {
            if lost(alloc, block, pages, (first, second)) != Some(0) {
                return false;
            }
        }
    }
    true
}

// The first block holds the opening bytes and a gate; a frame of one page has 37 bytes, so a gate has each place in a block.
#[test]
fn what_a_flush_confirmed_outlives_failed_syncs(rt: HostRuntime) {
    for block in 16..=40 {
        for pages in 1..=2 {
            assert!(rt;
                nothing_is_lost(rt.alloc(), block, pages),
                "{pages} pages, blocks of {block}"
            );
        }
    }
}
