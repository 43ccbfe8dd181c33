//! Tables with numbers of any size, printed to a writer that takes 1,000 bytes.

use crate::meagre::{End, Meagre};
use crate::sides::{new_config, set_sides};
use std::alloc::{AllocError, Global};
use tabled::grid::config::{CompactConfig, CompactMultilineConfig};
use tabled::iter::LayoutIterator;
use tabled::tables::{CompactTable, ExtendedTable, IterTable, PoolTable};
use tabled::{IoSink, Table, TableError, TextSink};
use test_case_judge::{Fault, Words, set};
use test_refused_uses::{PAIRS, table_of_pairs};

// Applies commands, up to the first that fails.
fn set_each(alloc: Global, table: &mut Table, commands: &str) -> Result<(), Fault> {
    for command in commands.split("; ") {
        set(alloc, table, command)?;
    }
    Ok(())
}

// Formats a result: its number, or its error.
fn shown(alloc: Global, answer: Result<usize, TableError>) -> Result<String, Fault> {
    match answer {
        Ok(number) => Ok(format!(in alloc; "{number}")?),
        Err(error) => Ok(format!(in alloc; "{error:?}")?),
    }
}

// Formats the result of a print, and the number of bytes written.
fn shown_print(
    alloc: Global,
    answer: Result<(), TableError>,
    writer: &Meagre,
) -> Result<String, Fault> {
    let bytes = writer.taken.len();
    match answer {
        Ok(()) => Ok(format!(in alloc; "Ok {bytes}")?),
        Err(error) => Ok(format!(in alloc; "{error:?} {bytes}")?),
    }
}

fn narrow_room(alloc: Global) -> Meagre {
    Meagre::new(alloc, usize::MAX, 1000, End::TakesNone)
}

// Formats the total width, the total height, and the result of a print.
fn measured(alloc: Global, table: &Table) -> Result<String, Fault> {
    let width = shown(alloc, table.total_width())?;
    let height = shown(alloc, table.total_height())?;
    let mut writer = narrow_room(alloc);
    let answer = table.write_to(&mut IoSink::new(&mut writer));
    let printed = shown_print(alloc, answer, &writer)?;
    Ok(format!(in alloc; "{width} {height} {printed}")?)
}

// Applies commands. Returns `set`, or the error of the command that failed.
fn said(alloc: Global, table: &mut Table, commands: &str) -> Result<String, Fault> {
    match set_each(alloc, table, commands) {
        Ok(()) => Ok(String::from_str(alloc, "set")?),
        Err(Fault::Refused(error)) => Ok(format!(in alloc; "{error:?}")?),
        Err(fault) => Err(fault),
    }
}

// Applies commands to a table of the pairs, then measures and prints it.
fn try_table(alloc: Global, commands: &str) -> Result<String, Fault> {
    let mut table = table_of_pairs(alloc)?;
    let said = said(alloc, &mut table, commands)?;
    let measured = measured(alloc, &table)?;
    Ok(format!(in alloc; "{said} {measured}")?)
}

// The same, printed to a given width.
fn try_look(alloc: Global, commands: &str, width: &str) -> Result<String, Fault> {
    let mut table = table_of_pairs(alloc)?;
    let said = said(alloc, &mut table, commands)?;
    let width = Words::new(width).number()?;
    let mut writer = narrow_room(alloc);
    let answer = table.print_with(&mut IoSink::new(&mut writer), Some(width), None, '*');
    let printed = shown_print(alloc, answer, &writer)?;
    Ok(format!(in alloc; "{said} {printed}")?)
}

// Makes a table of the pairs with a given capacity in rows.
fn try_capacity(alloc: Global, rows: &str) -> Result<String, Fault> {
    let rows = Words::new(rows).number()?;
    match Table::with_capacity(alloc, [("a", "bb"), ("ccc", "")], rows) {
        Ok(table) => measured(alloc, &table),
        Err(error) => Ok(format!(in alloc; "{error:?}")?),
    }
}

type Stream = IterTable<[[&'static str; 2]; 2]>;

fn set_stream(table: &mut Stream, command: &str) -> Result<(), Fault> {
    let mut words = Words::new(command);
    match words.word() {
        "columns" => table.columns(words.number()?),
        "rows" => table.rows(words.number()?),
        "sniff" => table.sniff(words.number()?),
        "width" => table.width(words.number()?),
        "height" => table.height(words.number()?),
        _ => return Err(Fault::Unknown("no such command")),
    };
    Ok(())
}

// Prints an `IterTable` of the pairs with a configuration and the table's own commands.
fn try_stream(alloc: Global, config: CompactConfig, commands: &str) -> Result<String, Fault> {
    let mut table = IterTable::new(PAIRS);
    table.with(config)?;
    for command in commands.split("; ").filter(|command| !command.is_empty()) {
        set_stream(&mut table, command)?;
    }
    let mut writer = narrow_room(alloc);
    let answer = table.fmt(alloc, &mut IoSink::new(&mut writer));
    shown_print(alloc, answer, &writer)
}

// Prints a `CompactTable` of the pairs. The numbers: columns, width of each, rows to skip, rows.
fn try_compact(alloc: Global, config: CompactConfig, numbers: &str) -> Result<String, Fault> {
    let mut words = Words::new(numbers);
    let (columns, width) = (words.number()?, words.number()?);
    let (skip, rows) = (words.number()?, words.number()?);
    let table = CompactTable::new(PAIRS)
        .columns(columns)
        .width(width)
        .skip(skip)
        .rows(rows);
    let table = table.with(config)?;
    let mut writer = narrow_room(alloc);
    let answer = table.fmt(&mut IoSink::new(&mut writer));
    shown_print(alloc, answer, &writer)
}

// Prints a `PoolTable` of the pairs.
fn try_boxes(alloc: Global, config: CompactConfig) -> Result<String, Fault> {
    let mut table = PoolTable::new(alloc, PAIRS)?;
    table.with(CompactMultilineConfig::from_compact(config))?;
    let mut writer = narrow_room(alloc);
    let answer = table.write_to(&mut IoSink::new(&mut writer));
    shown_print(alloc, answer, &writer)
}

// Truncates an `ExtendedTable` of the pairs to a width, and prints it.
fn try_records(alloc: Global, numbers: &str) -> Result<String, Fault> {
    let mut table = ExtendedTable::from_rows(alloc, PAIRS)?;
    let mut words = Words::new(numbers);
    let done = table.truncate(words.number()?, words.word())?;
    let mut writer = narrow_room(alloc);
    let answer = table.write_to(&mut IoSink::new(&mut writer));
    let printed = shown_print(alloc, answer, &writer)?;
    Ok(format!(in alloc; "{done} {printed}")?)
}

// Lists where the first three batches of a `LayoutIterator` begin.
fn try_batches(alloc: Global, numbers: &str) -> Result<String, Fault> {
    let mut words = Words::new(numbers);
    let (from, to) = (words.number()?, words.number()?);
    let mut said = String::from_str(alloc, "begins")?;
    for begin in LayoutIterator::new(from, to, words.number()?).take(3) {
        write!(said, " {begin}")?;
    }
    Ok(said)
}

// Builds a configuration from commands for margin, padding and borders.
fn config_of(settings: &str) -> Result<CompactConfig, Fault> {
    let mut config = new_config();
    for setting in settings.split("; ").filter(|setting| !setting.is_empty()) {
        let mut words = Words::new(setting);
        let kind = words.word();
        config = set_sides(config, kind, &mut words)?;
    }
    Ok(config)
}

// Runs one line, and returns the outcome in the format of the line's last part.
fn tried(alloc: Global, kind: &str, settings: &str, numbers: &str) -> Result<String, Fault> {
    match kind {
        "table" => try_table(alloc, numbers),
        "look" => try_look(alloc, settings, numbers),
        "capacity" => try_capacity(alloc, numbers),
        "stream" => try_stream(alloc, config_of(settings)?, numbers),
        "compact" => try_compact(alloc, config_of(settings)?, numbers),
        "boxes" => try_boxes(alloc, config_of(settings)?),
        "records" => try_records(alloc, numbers),
        "batches" => try_batches(alloc, numbers),
        _ => Err(Fault::Unknown("no such kind of table")),
    }
}

/// Checks lines `kind | settings | numbers | expected`. Returns each line that fails with what was
/// found, and then a line with how many pass and fail.
pub fn told(alloc: Global, lines: &str) -> Result<String, AllocError> {
    let mut report = String::new(alloc);
    let mut held: usize = 0;
    let mut failed: usize = 0;
    for line in lines.lines() {
        if holds(alloc, line, &mut report)? {
            held = held.saturating_add(1);
        } else {
            failed = failed.saturating_add(1);
        }
    }
    write!(report, "{held} lines hold, {failed} don't\n")?;
    Ok(report)
}

// Reports a line that doesn't hold.
fn holds(alloc: Global, line: &str, report: &mut String) -> Result<bool, AllocError> {
    let (told, wanted) = line.rsplit_once(" | ").unwrap_or((line, ""));
    match found(alloc, told) {
        Ok(found) if found.as_str() == wanted => return Ok(true),
        Ok(found) => write!(report, "{line}: {found}\n")?,
        Err(fault) => write!(report, "{line}: {fault}\n")?,
    }
    Ok(false)
}

fn found(alloc: Global, told: &str) -> Result<String, Fault> {
    let mut parts = told.split(" | ");
    let kind = parts.next().unwrap_or("");
    let settings = parts.next().unwrap_or("");
    match parts.next() {
        Some(numbers) => tried(alloc, kind, settings, numbers),
        None => Err(Fault::Unknown("a line without four parts")),
    }
}
