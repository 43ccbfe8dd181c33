//! More calls that set and print tables of each kind.

use crate::found::{Found, whole_if, whole_if_all};
use crate::printers::{PAIRS, PICTURE, sized_table_of_pairs, table_of_pairs};
use std::alloc::Global;
use std::io;
use tabled::grid::config::{ColoredConfig, CompactConfig, CompactMultilineConfig, SpannedConfig};
use tabled::grid::dimension::{
    CompleteDimension, ConstDimension, ConstSize, DimensionPriority, PoolTableDimension,
};
use tabled::grid::records::{Text, VecRecords};
use tabled::grid::{Window, print_compact, print_grid};
use tabled::settings::object::{Rows, Segment};
use tabled::settings::{Margin, Padding, Style, TableOption, Width};
use tabled::tables::{CompactTable, IterTable, PoolTable, TableValue};
use tabled::{IoSink, Plan, Table, TableError, TextSink, render_styled};

/// The names of the calls.
pub const DRAWINGS: &[&str] = &[
    "grids",
    "compact grids",
    "sinks",
    "configurations",
    "parts of tables",
    "streams",
    "streams to writers",
    "compact tables",
    "compact tables to writers",
    "boxes",
    "boxes of values",
    "boxes of lines",
    "joined boxes of lines",
    "styles",
];

const BARE: &str = "a  bb\nccc  ";

const MARKED: &str = "\
| a   | bb |
|-----|----|
| ccc |    |";

// A compact configuration has no lines by index, so the line below the header is missing.
const BARRED: &str = "\
| a   | bb |
| ccc |    |";

const HALF_WRAPPED: &str = "\
+---+----+
| a | bb |
+---+----+
| c |    |
| c |    |
| c |    |
+---+----+";

// Prints a grid with stored sizes.
fn put_grid<S: TextSink>(alloc: Global, sink: &mut S) -> Result<(), TableError> {
    let table = sized_table_of_pairs(alloc)?;
    let config = table.get_config().as_ref();
    print_grid(sink, table.get_records(), config, table.get_dimension())
}

fn puts_grid_text(alloc: Global) -> Result<bool, TableError> {
    let mut text = String::new(alloc);
    put_grid(alloc, &mut text)?;
    Ok(text.as_str() == PICTURE)
}

fn puts_grid_bytes(alloc: Global) -> Result<bool, TableError> {
    let mut bytes: Vec<u8> = Vec::new(alloc);
    put_grid(alloc, &mut bytes)?;
    Ok(bytes.as_slice() == PICTURE.as_bytes())
}

fn grids(alloc: Global) -> Result<Found, TableError> {
    whole_if_all(&[puts_grid_text(alloc), puts_grid_bytes(alloc)])
}

// Prints rows with a compact configuration, without a table.
fn compact_grids(alloc: Global) -> Result<Found, TableError> {
    let mut text = String::new(alloc);
    let sizes = ConstDimension::new(ConstSize::List([3, 2]), ConstSize::Value::<0>(1));
    let window = Window {
        skip: 0,
        limit: None,
    };
    print_compact(&mut text, PAIRS, &CompactConfig::new(), &sizes, 2, window)?;
    Ok(whole_if(text.as_str() == BARE))
}

fn puts_text(alloc: Global) -> Result<bool, TableError> {
    let mut text = String::new(alloc);
    text.write_text("a")?;
    Ok(text.as_str() == "a")
}

fn puts_bytes(alloc: Global) -> Result<bool, TableError> {
    let mut bytes: Vec<u8> = Vec::new(alloc);
    bytes.write_text("bb")?;
    Ok(bytes.as_slice() == b"bb".as_slice())
}

fn puts_into_room() -> Result<bool, TableError> {
    let mut room = io::Cursor::new([0u8; 4]);
    IoSink::new(&mut room).write_text("ccc")?;
    Ok(room.get_ref().starts_with(b"ccc"))
}

// Writes to each kind of sink.
fn sunk(alloc: Global) -> Result<Found, TableError> {
    whole_if_all(&[puts_text(alloc), puts_bytes(alloc), puts_into_room()])
}

// Whether a configuration replaces everything that a style set.
fn prints_bare<O>(table: &mut Table, config: O) -> Result<bool, TableError>
where
    O: TableOption<VecRecords<Text<String>>, ColoredConfig, CompleteDimension> + Drop,
{
    table.with(Style::markdown())?;
    table.with(config)?;
    Ok(table.to_text()?.as_str() == BARE)
}

fn replace_each(alloc: Global, table: &mut Table) -> Result<Found, TableError> {
    let bare = SpannedConfig::new(alloc);
    let lent = prints_bare(table, &bare)?;
    let colored = prints_bare(table, ColoredConfig::new(bare))?;
    let compact = prints_bare(table, CompactConfig::new())?;
    let spanned = prints_bare(table, SpannedConfig::new(alloc))?;
    Ok(whole_if(lent && colored && compact && spanned))
}

fn replaced(alloc: Global) -> Result<Found, TableError> {
    let mut table = table_of_pairs(alloc)?;
    replace_each(alloc, &mut table)
}

// Options for some cells, by value and by reference.
fn modify(table: &mut Table) -> Result<Found, TableError> {
    table.modify(Rows::last(), Width::wrap(1))?;
    table.apply_to(Segment::new(1.., ..), &Width::truncate(1).multiline(true))?;
    table.apply(Padding::new(1, 1, 0, 0))?;
    Ok(whole_if(table.to_text()?.as_str() == HALF_WRAPPED))
}

fn modified(alloc: Global) -> Result<Found, TableError> {
    let mut table = table_of_pairs(alloc)?;
    modify(&mut table)
}

fn streams(alloc: Global) -> Result<Found, TableError> {
    let mut table = IterTable::from_iter(alloc, PAIRS)?;
    table
        .with(Style::markdown())?
        .apply(Padding::new(1, 1, 0, 0))?;
    table.apply(Margin::new(0, 0, 0, 0))?;
    Ok(whole_if(table.to_string(alloc)?.as_str() == BARRED))
}

// Whether exactly the text was written to the buffer.
fn holds_only(buffer: &io::Cursor<[u8; 128]>, text: &str) -> bool {
    buffer.position() == text.len() as u64 && buffer.get_ref().starts_with(text.as_bytes())
}

fn stream_to_writer(alloc: Global) -> Result<Found, TableError> {
    let mut buffer = io::Cursor::new([0u8; 128]);
    IterTable::new(PAIRS).build(alloc, &mut buffer)?;
    Ok(whole_if(holds_only(&buffer, PICTURE)))
}

fn compact_table(alloc: Global) -> Result<Found, TableError> {
    let text = CompactTable::new(PAIRS)
        .columns(2)
        .width(ConstSize::List([5, 4]))
        .with(Style::markdown())?
        .to_string(alloc)?;
    Ok(whole_if(text.as_str() == BARRED))
}

fn compact_to_writer() -> Result<Found, TableError> {
    let mut buffer = io::Cursor::new([0u8; 128]);
    CompactTable::new(PAIRS)
        .columns(2)
        .width([3, 2])
        .with(CompactConfig::new())?
        .build(&mut buffer)?;
    Ok(whole_if(holds_only(&buffer, BARE)))
}

// Applies each kind of option to boxes.
fn set_boxes(table: &mut PoolTable) -> Result<(), TableError> {
    table.with(CompactMultilineConfig::new())?;
    let last = PoolTableDimension::new(DimensionPriority::Last, DimensionPriority::Last);
    table.with(last)?.with(Style::markdown())?;
    table.apply(Padding::new(1, 1, 0, 0))?;
    table.apply(Margin::new(1, 0, 0, 0))
}

// Prints a copy, which must have all settings.
fn boxed(alloc: Global) -> Result<Found, TableError> {
    let mut table = PoolTable::new(alloc, PAIRS)?;
    set_boxes(&mut table)?;
    let text = table.clone()?.to_string()?;
    Ok(whole_if(text.as_str() == " | a | bb |\n | ccc |  |"))
}

// Prints a copy of a cell in a row in a column.
fn nested(alloc: Global) -> Result<Found, TableError> {
    let cell = TableValue::Cell(String::from_str(alloc, "a")?);
    let row = TableValue::Row(Vec::from_array(alloc, [cell])?);
    let column = TableValue::Column(Vec::from_array(alloc, [row])?);
    let text = PoolTable::from_value(column.clone()?).to_string()?;
    Ok(whole_if(text.as_str() == "+---+\n| a |\n+---+"))
}

// A row of two texts.
fn row_of(alloc: Global, first: &str, second: &str) -> Result<PoolTable, TableError> {
    let mut cells = Vec::new(alloc);
    cells.push(TableValue::Cell(String::from_str(alloc, first)?))?;
    cells.push(TableValue::Cell(String::from_str(alloc, second)?))?;
    Ok(PoolTable::from_value(TableValue::Row(cells)))
}

// Prints texts of several lines, whose cursors are allocated.
fn of_lines(alloc: Global) -> Result<Found, TableError> {
    let text = row_of(alloc, "a\nbb\nc", "d\ne")?.to_string()?;
    let picture = "+----+---+\n| a  | d |\n| bb | e |\n| c  |   |\n+----+---+";
    Ok(whole_if(text.as_str() == picture))
}

// Prints a text of two lines beside one that gets no column.
fn joined_boxes(alloc: Global) -> Result<Found, TableError> {
    let mut table = row_of(alloc, "", "a\nbb")?;
    table.with(Padding::zero())?;
    let text = table.to_string()?;
    Ok(whole_if(text.as_str() == "+--+\n|a |\n|bb|\n+--+"))
}

fn styled(alloc: Global) -> Result<Found, TableError> {
    let mut text = String::new(alloc);
    render_styled(
        alloc,
        "a\tbb\nccc\n",
        Style::markdown(),
        Plan::Streamed,
        &mut text,
    )?;
    Ok(whole_if(text.as_str() == MARKED))
}

/// Runs a call by name, and returns its outcome.
pub fn drawn(alloc: Global, name: &str) -> Result<Found, TableError> {
    match name {
        "grids" => grids(alloc),
        "compact grids" => compact_grids(alloc),
        "sinks" => sunk(alloc),
        "configurations" => replaced(alloc),
        "parts of tables" => modified(alloc),
        "streams" => streams(alloc),
        "streams to writers" => stream_to_writer(alloc),
        "compact tables" => compact_table(alloc),
        "compact tables to writers" => compact_to_writer(),
        "boxes" => boxed(alloc),
        "boxes of values" => nested(alloc),
        "boxes of lines" => of_lines(alloc),
        "joined boxes of lines" => joined_boxes(alloc),
        _ => styled(alloc),
    }
}
