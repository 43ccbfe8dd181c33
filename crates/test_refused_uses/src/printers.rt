//! Printers of four cells, and their expected output.

use std::alloc::Global;
use tabled::grid::config::AlignmentHorizontal;
use tabled::grid::dimension::ConstSize;
use tabled::tables::{CompactTable, ExtendedTable, IterTable, PoolTable};
use tabled::{Order, Plan, Table, TableError, TextSink, render};

/// The cells `a` and `bb`, and below them `ccc` and an empty one.
pub const PAIRS: [[&str; 2]; 2] = [["a", "bb"], ["ccc", ""]];

const INPUT: &str = "a\tbb\nccc\n";

/// A way to print the cells.
#[derive(Clone, Copy, Debug)]
pub enum Printer {
    /// A `Table`.
    Table,
    /// A `Table` with a given width, alignment and fill.
    Look,
    /// An `IterTable` that reads all rows ahead.
    Stream,
    /// An `IterTable` that reads one row ahead.
    Rows,
    /// A `CompactTable`.
    Compact,
    /// A `PoolTable`.
    Boxes,
    /// An `ExtendedTable`.
    Records,
    /// A rendered text with `Plan::Buffered`.
    Buffered,
    /// A rendered text with `Plan::Streamed`.
    Streamed,
    /// A rendered text wrapped to nine columns.
    Wrapped,
    /// A rendered text truncated to nine columns.
    Shortened,
}

/// All printers.
pub const PRINTERS: &[Printer] = &[
    Printer::Table,
    Printer::Look,
    Printer::Stream,
    Printer::Rows,
    Printer::Compact,
    Printer::Boxes,
    Printer::Records,
    Printer::Buffered,
    Printer::Streamed,
    Printer::Wrapped,
    Printer::Shortened,
];

/// The expected output of a `Table`.
pub const PICTURE: &str = "\
+-----+----+
| a   | bb |
+-----+----+
| ccc |    |
+-----+----+";

const LOOK: &str = "\
**+-----+----+**
**|  a  | bb |**
**+-----+----+**
**| ccc |    |**
**+-----+----+**";

const ROWS: &str = "\
+---+----+
| a | bb |
+---+----+
| c |    |
+---+----+";

const COMPACT: &str = "\
+-----+----+
| a   | bb |
|-----+----|
| ccc |    |
+-----+----+";

const BOXES: &str = "\
+---+----+
| a | bb |
+---+-+--+
| ccc |  |
+-----+--+";

const RECORDS: &str = "-[ RECORD 0 ]-\na  | ccc\nbb | ";

const WRAPPED: &str = "\
+---+---+
| a | b |
|   | b |
+---+---+
| c |   |
| c |   |
| c |   |
+---+---+";

const SHORTENED: &str = "\
+----+--+
| a  |  |
+----+--+
| cc |  |
+----+--+";

/// Returns the expected output.
pub fn picture(printer: Printer) -> &'static str {
    match printer {
        Printer::Table | Printer::Stream | Printer::Buffered | Printer::Streamed => PICTURE,
        Printer::Look => LOOK,
        Printer::Rows => ROWS,
        Printer::Compact => COMPACT,
        Printer::Boxes => BOXES,
        Printer::Records => RECORDS,
        Printer::Wrapped => WRAPPED,
        Printer::Shortened => SHORTENED,
    }
}

/// Returns a table of the cells.
pub fn table_of_pairs(alloc: Global) -> Result<Table, TableError> {
    Table::from_iter(alloc, PAIRS)
}

// Stores the sizes that would be estimated.
fn store_sizes(alloc: Global, table: &mut Table) -> Result<(), TableError> {
    let (widths, heights) = (vec![in alloc; 5, 4]?, vec![in alloc; 1, 1]?);
    table.get_dimension_mut().set_widths(widths);
    table.get_dimension_mut().set_heights(heights);
    Ok(())
}

/// Returns a table of the cells with stored sizes.
pub fn sized_table_of_pairs(alloc: Global) -> Result<Table, TableError> {
    let mut table = table_of_pairs(alloc)?;
    store_sizes(alloc, &mut table)?;
    Ok(table)
}

fn put_table<S: TextSink>(alloc: Global, sink: &mut S) -> Result<(), TableError> {
    table_of_pairs(alloc)?.write_to(sink)
}

fn put_look<S: TextSink>(alloc: Global, sink: &mut S) -> Result<(), TableError> {
    let table = table_of_pairs(alloc)?;
    table.print_with(sink, Some(16), Some(AlignmentHorizontal::Center), '*')
}

fn put_rows<S: TextSink>(alloc: Global, sink: &mut S) -> Result<(), TableError> {
    let mut table = IterTable::new(PAIRS);
    table.sniff(1);
    table.fmt(alloc, sink)
}

fn put_compact<S: TextSink>(sink: &mut S) -> Result<(), TableError> {
    CompactTable::new(PAIRS)
        .columns(2)
        .width(ConstSize::List([5, 4]))
        .fmt(sink)
}

fn put_boxes<S: TextSink>(alloc: Global, sink: &mut S) -> Result<(), TableError> {
    PoolTable::new(alloc, PAIRS)?.write_to(sink)
}

fn put_records<S: TextSink>(alloc: Global, sink: &mut S) -> Result<(), TableError> {
    ExtendedTable::from_rows(alloc, PAIRS)?.write_to(sink)
}

fn put_plan<S: TextSink>(alloc: Global, printer: Printer, sink: &mut S) -> Result<(), TableError> {
    let plan = match printer {
        Printer::Streamed => Plan::Streamed,
        Printer::Wrapped => Plan::Wrapped {
            target: 9,
            words: false,
            order: Order::Round,
        },
        Printer::Shortened => Plan::Shortened {
            target: 9,
            order: Order::Rightmost,
        },
        _ => Plan::Buffered,
    };
    render(alloc, INPUT, plan, sink)
}

/// Prints the cells.
pub fn put<S: TextSink>(alloc: Global, printer: Printer, sink: &mut S) -> Result<(), TableError> {
    match printer {
        Printer::Table => put_table(alloc, sink),
        Printer::Look => put_look(alloc, sink),
        Printer::Stream => IterTable::new(PAIRS).fmt(alloc, sink),
        Printer::Rows => put_rows(alloc, sink),
        Printer::Compact => put_compact(sink),
        Printer::Boxes => put_boxes(alloc, sink),
        Printer::Records => put_records(alloc, sink),
        _ => put_plan(alloc, printer, sink),
    }
}
