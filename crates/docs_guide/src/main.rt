//! The longer tasks of the guide: records of your own type, a stream that may fail, and a writer
//! and a priority of your own.
#![tactic(auto)]

mod cities;
mod column_first;
mod disk;
mod failing;
mod numbers_last;
mod orders;

use anyhow::Result;

fn main(rt: HostRuntime) -> Result<()> {
    let alloc = rt.alloc();
    println!(rt; "{}\n", cities::cities(alloc)?)?;
    let pairs = "Rome=2746984\nParis\nOslo=717710";
    println!(rt; "{}\n", failing::printed(alloc, pairs)?)?;
    println!(rt; "{}\n", disk::printed(alloc)?)?;
    println!(rt; "{}\n", column_first::narrowed(alloc)?)?;
    println!(rt; "{}\n", numbers_last::narrowed(alloc)?)?;
    println!(rt; "{}", orders::records(alloc)?)?;
    Ok(())
}
