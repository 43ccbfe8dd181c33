//! Prints each picture of the gallery below the name of the function that makes it.
#![tactic(auto)]

use anyhow::Result;
use docs_gallery_printers as printers;
use docs_gallery_settings as settings;

fn main(rt: HostRuntime) -> Result<()> {
    print!(rt; "{}", settings::all_pictures(rt.alloc())?)?;
    print!(rt; "{}", printers::all_pictures(rt.alloc())?)?;
    Ok(())
}
