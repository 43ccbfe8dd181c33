//! Prints a table of people.
#![tactic(auto)]

use anyhow::Result;
use tabled::Table;
use tabled::settings::Style;

fn main(rt: HostRuntime) -> Result<()> {
    let people = [["Name", "Born"], ["Ada", "1815"], ["Grace", "1906"]];
    let text = Table::from_iter(rt.alloc(), people)?
        .with(Style::markdown())?
        .to_text()?;
    println!(rt; "{text}")?;
    Ok(())
}
