//! Accounts in a file: two ordered maps, which a transfer changes in one batch, and which are read in key order after the file was closed and
//! reopened.
#![tactic(auto)]

mod accounts;

use accounts::{Accounts, Failure};
use std::{fs, io, str};

const PATH: &str = "accounts.maps";

/// Makes transfers. The third is refused, and the last is lost.
fn write(rt: &HostRuntime, accounts: &mut Accounts) -> Result<(), Failure> {
    let alloc = rt.alloc();
    accounts.set_balance(alloc, "anna", 100)?;
    accounts.transfer(alloc, "anna", "bert", 30)?;
    accounts.transfer(alloc, "bert", "carl", 5)?;
    let bytes = accounts.flush()?;
    println!(rt; "flushed {bytes} bytes")?;
    if let Err(error) = accounts.transfer(alloc, "carl", "anna", 6) {
        println!(rt; "refused: {error}")?;
    }
    accounts.transfer(alloc, "anna", "carl", 70)?;
    Ok(())
}

fn print_pair(rt: &HostRuntime, key: &[u8], value: &[u8]) -> io::Result<()> {
    let (key, value) = (str::from_utf8(key), str::from_utf8(value));
    println!(rt; "{}: {}", key.unwrap_or("?"), value.unwrap_or("?"))
}

fn print_all(rt: &HostRuntime, accounts: &mut Accounts) -> Result<(), Failure> {
    for (name, balance) in &accounts.balances()? {
        print_pair(rt, name.as_slice(), balance.as_slice())?;
    }
    if let Some((_, text)) = accounts.last_transfer()? {
        print_pair(rt, b"the last transfer", text.as_slice())?;
    }
    Ok(())
}

fn main(rt: HostRuntime) -> Result<(), Failure> {
    // each run begins with no file, and so prints the same
    let _ = fs::remove_file(&rt, PATH);
    write(&rt, &mut Accounts::open(&rt, rt.alloc(), PATH)?)?;
    // the first are gone, and their file closed
    print_all(&rt, &mut Accounts::open(&rt, rt.alloc(), PATH)?)
}
