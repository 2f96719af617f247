//! The accounts: a map of balances by names, and a map of transfers by numbers, over one file.

use sled_tree::{Config, Disk, DiskLog, Error, FileDisk, IVec, PageCache, Tree, TreeError, Trees};
use std::alloc::{Alloc, AllocError, Global};
use std::fs::{File, Files};
use std::ops::Bound;
use std::{io, str};

/// Why the program fails. `?` makes one from an error of the maps, of an allocation or of a print.
#[derive(Debug, Drop, thiserror::Error)]
pub enum Failure {
    #[error("{0}")]
    Maps(#[from] TreeError),
    #[error("{0}")]
    Memory(#[from] AllocError),
    #[error("{0}")]
    Print(#[from] io::Error),
    /// A rule of the accounts' own: no balance may fall below zero.
    #[error("the balance is too low")]
    Short,
}

const CONFIG: Config = Config {
    cache_capacity: 1 << 20,
    idgen_persist_interval: 100,
    segment_size: 1 << 16,
};

#[derive(Drop)]
pub struct Accounts {
    maps: Trees<DiskLog<FileDisk>>,
    balances: Tree,
    transfers: Tree,
}

impl Accounts {
    /// Opens the file, and creates it if it is absent or empty. It is closed when the accounts go out of scope.
    pub fn open<H: Files<File = File> + Alloc>(
        files: &H,
        alloc: Global,
        path: &str,
    ) -> Result<Accounts, TreeError> {
        let mut maps = Trees::new(alloc, open_cache(files, alloc, path)?);
        let balances = maps.open(b"balances")?;
        let transfers = maps.open(b"transfers")?;
        Ok(Accounts {
            maps,
            balances,
            transfers,
        })
    }

    /// Returns the balance of an account, or zero if there is no such account.
    pub fn balance(&mut self, name: &str) -> Result<u64, TreeError> {
        match self.maps.get(self.balances, name.as_bytes())? {
            Some(value) => Ok(number_in(value.as_slice())),
            None => Ok(0),
        }
    }

    pub fn set_balance(&mut self, alloc: Global, name: &str, balance: u64) -> Result<(), Failure> {
        let digits = format!(in alloc; "{balance}")?;
        let value = IVec::from_str(alloc, digits.as_str())?;
        self.maps.insert(self.balances, name.as_bytes(), value)?;
        Ok(())
    }

    /// Moves an amount and records the transfer in one batch: after a crash all of it is there, or nothing.
    ///
    /// A transfer that is refused has changed no map. An error between two changes, for example a failed allocation, cancels the batch, which undoes
    /// nothing.
    pub fn transfer(
        &mut self,
        alloc: Global,
        from: &str,
        to: &str,
        amount: u64,
    ) -> Result<(), Failure> {
        // in a batch a new counter of ids can't be written
        let number = self.maps.generate_id()?;
        self.maps.pin()?;
        let done = self.change(alloc, number, from, to, amount);
        match done {
            Ok(()) => Ok(self.maps.seal()?),
            Err(error) => {
                self.maps.cancel()?;
                Err(error)
            }
        }
    }

    fn change(
        &mut self,
        alloc: Global,
        number: u64,
        from: &str,
        to: &str,
        amount: u64,
    ) -> Result<(), Failure> {
        let Some(left) = self.balance(from)?.checked_sub(amount) else {
            return Err(Failure::Short);
        };
        self.set_balance(alloc, from, left)?;
        let there = self.balance(to)?;
        self.set_balance(alloc, to, there.saturating_add(amount))?;
        let text = format!(in alloc; "{amount} from {from} to {to}")?;
        // so the keys are in the order of the numbers
        let key = number.to_be_bytes();
        let value = IVec::from_str(alloc, text.as_str())?;
        self.maps.insert(self.transfers, &key, value)?;
        Ok(())
    }

    /// Makes all changes durable, and returns how many bytes that wrote.
    pub fn flush(&mut self) -> Result<usize, TreeError> {
        self.maps.flush()
    }

    /// Returns the accounts in the order of their names: those of one leaf, which are all of them if there are few.
    pub fn balances(&mut self) -> Result<Vec<(IVec, IVec)>, TreeError> {
        let all = Bound::Unbounded;
        Ok(self.maps.range(self.balances, &all, &all)?.pairs)
    }

    /// Returns the last transfer, with its number.
    pub fn last_transfer(&mut self) -> Result<Option<(IVec, IVec)>, TreeError> {
        self.maps.last(self.transfers)
    }
}

fn open_cache<H: Files<File = File> + Alloc>(
    files: &H,
    alloc: Global,
    path: &str,
) -> Result<PageCache<DiskLog<FileDisk>>, Error> {
    let mut disk = FileDisk::open(files, path)?;
    if disk.len()? == 0 {
        DiskLog::create(&mut disk)?;
    }
    let segment_size = CONFIG.segment_size as u64;
    let log = DiskLog::open(alloc, disk, segment_size, 0).map_err(|(error, _)| error)?;
    PageCache::start(alloc, CONFIG, log).map_err(|(error, _)| error)
}

// The number that was written as a balance.
fn number_in(digits: &[u8]) -> u64 {
    match str::from_utf8(digits) {
        Ok(digits) => digits.parse().unwrap_or(0),
        Err(_) => 0,
    }
}
