// A caller that works off the tasks of a staged disk on a list of bytes. Where memory is refused it tries once more.

ghost use Rattle.std.specs.Prelude.{◌≡◌};

use super::*;

// The file of a test, and the room of the buffer that takes the bytes of a task. After so many tasks the power is off.
#[derive(Drop)]
pub(super) struct Device {
    pub(super) file: Vec<u8>,
    room: usize,
    tasks_left: usize,
    pub(super) tasks: usize,
    pub(super) syncs: usize,
    pub(super) handed_in: usize,
    // how often a log wasn't opened for want of memory
    pub(super) refused: usize,
}

pub(super) fn device_of(file: Vec<u8>, room: usize, tasks_left: usize) -> Device {
    Device {
        file,
        room,
        tasks_left,
        tasks: 0,
        syncs: 0,
        handed_in: 0,
        refused: 0,
    }
}

// Writes bytes over those of a file, and past its end.
fn overwrite(file: &mut Vec<u8>, at: u64, bytes: &[u8]) -> bool {
    let at = at as usize;
    if file.len() < at {
        return false;
    }
    for (behind, byte) in bytes.iter().enumerate() {
        match file.get_mut(at.saturating_add(behind)) {
            Some(place) => *place = *byte,
            None => {
                if file.push(*byte).is_err() && file.push(*byte).is_err() {
                    return false;
                }
            }
        }
    }
    true
}

impl Device {
    // Does a task whose bytes stand in front of these.
    fn take(&mut self, task: Task, bytes: &[u8]) -> bool {
        self.tasks = self.tasks.saturating_add(1);
        self.tasks_left = self.tasks_left.saturating_sub(1);
        match task {
            Task::Write { at, len } => match bytes.get(..len) {
                Some(bytes) => overwrite(&mut self.file, at, bytes),
                None => false,
            },
            Task::Sync => {
                self.syncs = self.syncs.saturating_add(1);
                true
            }
        }
    }

    // Does all that waits, until the power is off.
    pub(super) fn work_off(&mut self, disk: &mut StagedDisk) -> bool {
        let mut buffer = [0; 64];
        let Some(into) = buffer.get_mut(..self.room) else {
            return false;
        };
        for _ in 0..1000u32 {
            if self.tasks_left == 0 {
                return true;
            }
            let Some(task) = disk.next_task(into) else {
                return true;
            };
            if !self.take(task, into) {
                return false;
            }
        }
        false
    }

    // The same for a log.
    pub(super) fn work_off_log(&mut self, log: &mut DiskLog<StagedDisk>) -> bool
        ensures { log.new.usable ≡ log.old.usable }
    {
        let mut buffer = [0; 64];
        let Some(into) = buffer.get_mut(..self.room) else {
            return false;
        };
        for _ in 0..1000u32 {
            if self.tasks_left == 0 {
                return true;
            }
            let Some(task) = log.next_task(into) else {
                return true;
            };
            if !self.take(task, into) {
                return false;
            }
        }
        false
    }

    // The bytes that are needed, and their place.
    fn wanted(&mut self, needs: Option<(u64, usize)>) -> Option<(u64, &[u8])> {
        let (at, len) = needs?;
        self.handed_in = self.handed_in.saturating_add(len);
        let from = at as usize;
        Some((at, self.file.get(from..from.saturating_add(len))?))
    }

    // Hands in what is needed and nothing else, once nothing waits.
    pub(super) fn serve(&mut self, disk: &mut StagedDisk) -> bool {
        if !self.work_off(disk) {
            return false;
        }
        let needs = disk.needs();
        disk.forget();
        match self.wanted(needs) {
            Some((at, bytes)) => disk.hand_in(at, bytes).is_ok() || disk.hand_in(at, bytes).is_ok(),
            None => false,
        }
    }

    // The same for a log.
    pub(super) fn serve_log(&mut self, log: &mut DiskLog<StagedDisk>) -> bool
        ensures { log.new.usable ≡ log.old.usable }
    {
        if !self.work_off_log(log) {
            return false;
        }
        let needs = log.disk().needs();
        log.forget();
        match self.wanted(needs) {
            Some((at, bytes)) => log.hand_in(at, bytes).is_ok() || log.hand_in(at, bytes).is_ok(),
            None => false,
        }
    }
}
