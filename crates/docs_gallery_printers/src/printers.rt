//! Printers. A `Table` stores its rows and prints them to any sink. An `ExtendedTable` prints
//! a line for each field of a record, a `PoolTable` boxes inside boxes.

use std::alloc::Global;
use tabled::grid::ansi::ANSIStr;
use tabled::grid::config::{AlignmentHorizontal, CompactMultilineConfig, Sides};
use tabled::grid::dimension::{DimensionPriority, PoolTableDimension};
use tabled::settings::{Alignment, Padding, Settings, Style, Title};
use tabled::tables::{ExtendedTable, PoolTable, TableValue};
use tabled::{Table, TableError};

const CITIES: [[&str; 3]; 3] = [
    ["City", "Country", "People"],
    ["Paris", "France", "2103778"],
    ["Rome", "Italy", "2746984"],
];

fn cell(alloc: Global, text: &str) -> Result<TableValue, TableError> {
    Ok(TableValue::Cell(String::from_str(alloc, text)?))
}

fn pair(
    alloc: Global,
    first: TableValue,
    second: TableValue,
) -> Result<Vec<TableValue>, TableError> {
    Ok(Vec::from_array(alloc, [first, second])?)
}

/// At least 18 columns wide: a margin fills the rest, here of `*` on both sides. The table doesn't
/// change.
pub fn at_least_as_wide(alloc: Global) -> Result<String, TableError> {
    let table = Table::nohead(alloc, [("a", "bb"), ("ccc", "")])?;
    let mut text = String::new(alloc);
    let centered = Some(AlignmentHorizontal::Center);
    table.print_with(&mut text, Some(18), centered, '*')?;
    Ok(text)
}

/// How large a table is, without printing it, and whether its edges are straight whatever the cells
/// hold.
pub fn totals(alloc: Global) -> Result<String, TableError> {
    let table = Table::nohead(alloc, CITIES)?;
    let (rows, cells) = table.shape();
    let (columns, lines) = (table.total_width()?, table.total_height()?);
    let edges = if table.is_apart() {
        "straight"
    } else {
        "maybe not straight"
    };
    Ok(format!(in alloc;
        "{rows} rows of {cells} cells: {columns} columns, {lines} lines, {edges}"
    )?)
}

/// A title above a table, in the middle of its total width.
pub fn titled(alloc: Global) -> Result<String, TableError> {
    let table = Table::nohead(alloc, [("Paris", "France"), ("Rome", "Italy")])?;
    table.to_titled_text(Title::new("Two capitals").center())
}

/// A title that is wider than its table is wrapped between words. `write_titled` prints to a sink.
pub fn titled_wrapped(alloc: Global) -> Result<String, TableError> {
    let table = Table::nohead(alloc, [("Paris", "France"), ("Rome", "Italy")])?;
    let mut text = String::new(alloc);
    table.write_titled(&mut text, Title::new("Two capitals of Europe").right())?;
    Ok(text)
}

/// Or the title is cut. A new title is at the left.
pub fn titled_cut(alloc: Global) -> Result<String, TableError> {
    let table = Table::nohead(alloc, [("Paris", "France"), ("Rome", "Italy")])?;
    table.to_titled_text(Title::new("Two capitals of Europe").cut())
}

/// `Table::new` puts the names of the fields above the values.
pub fn named(alloc: Global) -> Result<String, TableError> {
    let table = Table::new(alloc, [("Ada", 1815u16), ("Grace", 1906u16)])?;
    table.to_text()
}

/// Numbers are shown as by `Display`, fractions too.
pub fn floats(alloc: Global) -> Result<String, TableError> {
    let table = Table::new(alloc, [("Paris", 105.4f64), ("Oslo", 480.75)])?;
    table.to_text()
}

/// `Table::kv` has a row for each field, with its name and its text.
pub fn key_values(alloc: Global) -> Result<String, TableError> {
    let table = Table::kv(alloc, [("Ada", 1815u16)])?;
    table.to_text()
}

/// Records, of rows. The first row names the fields.
pub fn records(alloc: Global) -> Result<String, TableError> {
    let table = ExtendedTable::from_rows(alloc, CITIES)?;
    table.to_string()
}

/// Records cut to a width. Where the width is too small for that, `truncate` returns `false` and
/// changes nothing.
pub fn narrow_records(alloc: Global) -> Result<String, TableError> {
    let mut table = ExtendedTable::from_rows(alloc, CITIES)?;
    let _is_cut = table.truncate(15, "~")?;
    table.to_string()
}

/// Rows with different numbers of cells.
pub fn rows_of_boxes(alloc: Global) -> Result<String, TableError> {
    let mut rows = Vec::new(alloc);
    rows.push(vec![in alloc; "Paris", "Rome", "Oslo"]?)?;
    rows.push(vec![in alloc; "three capitals of Europe"]?)?;
    let mut table = PoolTable::new(alloc, rows)?;
    table.with(Style::modern())?;
    table.to_text()
}

/// Texts in the middle of their boxes.
pub fn boxes_centered(alloc: Global) -> Result<String, TableError> {
    let mut rows = Vec::new(alloc);
    rows.push(vec![in alloc; "Paris", "Rome"]?)?;
    rows.push(vec![in alloc; "two capitals of Europe"]?)?;
    let mut table = PoolTable::new(alloc, rows)?;
    table.with(Settings::new(Style::modern(), Alignment::center()))?;
    table.to_text()
}

/// Boxes side by side in a `Row`, and one below the other in a `Column`. Columns that are left over
/// go to all boxes of a row.
pub fn boxes(alloc: Global) -> Result<String, TableError> {
    let beside = pair(alloc, cell(alloc, "Paris")?, cell(alloc, "Rome")?)?;
    let title = cell(alloc, "capitals of two countries")?;
    let all = pair(alloc, title, TableValue::Row(beside))?;
    let mut table = PoolTable::from_value(TableValue::Column(all));
    table.with(Style::modern())?;
    table.to_text()
}

/// Columns that are left over go to the last box. `DimensionPriority::First` gives them to the
/// first.
pub fn boxes_last(alloc: Global) -> Result<String, TableError> {
    let beside = pair(alloc, cell(alloc, "Paris")?, cell(alloc, "Rome")?)?;
    let title = cell(alloc, "capitals of two countries")?;
    let all = pair(alloc, title, TableValue::Row(beside))?;
    let mut table = PoolTable::from_value(TableValue::Column(all));
    let last = PoolTableDimension::new(DimensionPriority::Last, DimensionPriority::Last);
    table.with(last)?.with(Padding::zero())?;
    table.to_text()
}

/// Marks of colours around padding. They take no columns; in a terminal they would be escape
/// sequences.
pub fn colours(alloc: Global) -> Result<String, TableError> {
    let mut config = CompactMultilineConfig::new();
    config.set_borders(Style::ascii().get_borders());
    config.set_padding(Padding::new(2, 2, 0, 0).fill('.', '.', ' ', ' ').into());
    config.set_padding_color(Sides::filled(ANSIStr::new("<b>", "</b>")));
    let mut table = PoolTable::new(alloc, [["Paris", "Rome"]])?;
    table.with(config)?;
    table.to_text()
}
