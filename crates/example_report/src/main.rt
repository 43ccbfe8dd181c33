//! Prints notes as a report, and proves what it promises: each line is 80 columns wide, and each
//! cell can be read in it.
#![tactic(auto)]

ghost use Rattle.example_report.specs.Report.{HasNoHeights, IsBest, IsReport, KeepsTexts};
ghost use Rattle.example_report.specs.Report.{Strings, cells_from};
ghost use Rattle.std.specs.Prelude.{IfOk, OnOk, string_bytes};

use anyhow::{Result, bail};
use std::alloc::Global;
use std::io;
use tabled::grid::records::IntoRecords;
use tabled::laws::{printed_tables, tables_of_strings};
use tabled::settings::Width;
use tabled::settings::peaker::Priority;
use tabled::{Table, TableError};

fn main(rt: HostRuntime) -> Result<()> {
    let alloc = rt.alloc();
    let text = io::read_to_string(alloc, rt.stdin())?;
    let mut rows = Vec::new(alloc);
    for line in text.lines() {
        let (who, what) = line.split_once(": ").unwrap_or(("", line));
        let what = String::from_str(alloc, what)?;
        rows.push([String::from_str(alloc, who)?, what])?;
    }
    println!(rt; "{}", report(alloc, rows)?)?;
    Ok(())
}

/// Returns the rows as a table of 80 columns. Fails if they need fewer or more.
fn report<I: IntoRecords<Cell = String>>(alloc: Global, rows: I) -> Result<String>
    requires { I.ends rows }
    ensures { IfOk result (λ text. (given : Strings) × I.gives rows given
        × IsReport (cells_from given) (string_bytes text)) }
{
    tables_of_strings();
    printed_tables();
    let mut table = Table::from_iter(alloc, rows)?;
    let shape = table.shape();
    let before = table.total_width()?;
    if before <= 80 {
        bail!("the rows need {before} columns");
    }
    wrap(&mut table)?;
    let after = table.total_width()?;
    if after != 80 || !table.is_apart() || table.shape() != shape {
        bail!("the rows need {after} columns");
    }
    Ok(table.to_text()?)
}

/// Wraps the widest cells between words.
fn wrap(table: &mut Table) -> Result<(), TableError>
    ensures texts { OnOk result (KeepsTexts table.old table.new) }
    ensures best { OnOk result (IsBest table.old table.new) }
    ensures heights { OnOk result (HasNoHeights table.new) }
{
    table.apply(Width::wrap(80).drop_spaces().priority(Priority::max(true)))
}
