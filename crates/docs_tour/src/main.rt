//! The tour of the README: prints one table for each common task.
#![tactic(auto)]

mod errors;
mod narrow;
mod sources;
mod streamed;

use anyhow::Result;

fn main(rt: HostRuntime) -> Result<()> {
    let alloc = rt.alloc();
    println!(rt; "{}\n", sources::from_values(alloc)?)?;
    println!(rt; "{}\n", sources::from_text(alloc)?)?;
    let table = sources::from_csv(alloc, sources::CITIES)?;
    println!(rt; "{}\n", narrow::styled(table)?)?;
    println!(rt; "{}\n", streamed::stream_rows(alloc)?)?;
    println!(rt; "{}", errors::too_narrow(alloc)?)?;
    println!(rt; "{:?}", errors::widths())?;
    Ok(())
}
