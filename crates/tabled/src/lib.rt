//! Fanlightnard prints text tables whose edges line up whatever the cells contain. This crate
//! re-exports all public names. `render` prints a text as a table, and `run` is the command-line
//! program over any reader and writers.
//!
//! ```rust
//! let rows = [("Ada", 1815), ("Grace", 1906)];
//! Table::nohead(alloc, rows)?.to_text()
//! ```
//!
//! Each module below has an example, which the programs `docs_tour` and `docs_gallery` run.
//!
//! - `rendering`: `render`
//! - `arguments`: the plan of `render`, and the arguments that make one
//! - `program`: the command-line program over any reader and writers, and why a run failed
//! - `block_sink`, `block_buffer`: output in blocks.
#![tactic(auto)]

mod arguments;
mod block_buffer;
mod block_sink;
mod program;
mod rendering;

pub use arguments::{Order, OrderPriority, Plan};
pub use program::run;
pub use rendering::{print_measured, render, render_styled};
pub use tabled_base::{TableError, Text};
pub use tabled_grid::{IoSink, TextSink};
pub use tabled_line::WriterSink;
pub use tabled_table::Table;
pub use tabled_value::Tabled;

/// Proved facts about texts, options and tables. Each is the contract of a function that does
/// nothing. Call it where your proof needs the fact, here that a line takes at most as many columns
/// as its characters count.
///
/// ```rust
/// pub fn counted(line: &str) -> usize
///     ensures { result ≤ count_of (chars line.now) }
/// {
///     count_is_bound();
///     line_width(line)
/// }
/// ```
pub mod laws {
    pub use tabled_grid::laws::{pictures, shown_cells};
    pub use tabled_line::laws::rows_of_any_text;
    pub use tabled_set::laws::{parts_put_back, truncated_texts};
    pub use tabled_table::laws::{
        marked_cells, new_tables, printed_tables, streams_go_on, streams_hold, streams_like_tables,
        tables_of_strings, texts_can_be_cut,
    };
    pub use tabled_text::general_laws::{
        count_is_bound, exact_lines, lines_of_any_text, separators, texts_that_fit,
    };
    pub use tabled_text::laws::{
        additive_columns, additive_line_width, additive_lines, breakings, cut_texts, joined_lines,
        plain_characters, text_bounds, texts_that_stay, word_wrapped_texts, wrapped_texts,
    };
}

/// The kinds of tables:
/// - `Table` stores its cells.
/// - `IterTable` prints rows as an iterator gives them.
/// - `CompactTable` prints single lines without allocating.
/// - `ExtendedTable` prints each record as a list of its fields.
/// - `PoolTable` prints boxes inside boxes.
///
/// ```rust
/// let mut table = IterTable::new(CITIES);
/// table.sniff(1);
/// table.to_string(alloc)
/// ```
pub mod tables {
    pub use tabled_compact::CompactTable;
    pub use tabled_extended::{ExtendedTable, FnTemplate, LabelFn, RecordTemplate, Template};
    pub use tabled_pool::{PoolTable, TableValue};
    pub use tabled_table::{IterTable, Table};
}

/// Rows that may fail, here those of a vector of results, and where the batches of a range of rows
/// begin.
///
/// ```rust
/// let table = IterTable::new(TryRows::new(rows.into_iter()));
/// let (printed, read) = table.try_fmt(alloc, &mut out);
/// printed?;
/// ```
///
/// ```rust
/// for begin in LayoutIterator::new(0, 5, 2) {
///     begins.push(begin)?;
/// }
/// ```
pub mod iter {
    pub use tabled_records::TryRows;
    pub use tabled_table::LayoutIterator;
}

/// Builds tables row by row. Short rows are filled up with empty cells.
///
/// ```rust
/// let mut builder = Builder::new(alloc);
/// builder.push_record(["name", "year"])?;
/// builder.push_record(["C", "1972"])?;
/// builder.push_record(["Go", "2009"])?;
/// ```
pub mod builder {
    pub use tabled_base::Builder;
}

/// Options of a table: `with` applies them to the whole table, `modify` to a part of it.
///
/// ```rust
/// table
///     .with(Style::modern())?
///     .with(Padding::new(0, 0, 0, 0))?
///     .with(Width::wrap(14).priority(Priority::max(true)))?;
/// ```
pub mod settings {
    pub use tabled_base::{CellOption, Settings, StoredSizes, TableOption};
    pub use tabled_config::Style;
    pub use tabled_set::{Alignment, Height, Margin, Padding, PaddingExpand, Width};
    pub use tabled_table::{Modify, ModifyBy, Title, TitleFit};

    /// Numbers of columns or lines that are measured in the table.
    ///
    /// ```rust
    /// table.modify(Columns::last(), Width::truncate(Min))?;
    /// table.modify(Columns::first(), Width::increase(Max).fill_with('.'))?;
    /// ```
    pub mod measurement {
        pub use tabled_set::{Max, Measurement, Min, Percent};
    }

    /// Selections of cells: a row, a column, a cell, the whole table, a range of rows and columns,
    /// or several of these.
    ///
    /// ```rust
    /// table.modify(Segment::new(1.., ..1), marks())?;
    /// ```
    pub mod object {
        pub use tabled_base::{Cell, Columns, Object, Rows, Segment, Union};
    }

    /// Border styles, and the lines they are made of.
    ///
    /// ```rust
    /// let double = HorizontalLine {
    ///     main: Some('='),
    ///     left: Some('#'),
    ///     intersection: Some('#'),
    ///     right: Some('#'),
    /// };
    /// config.insert_horizontal_line(1, double)
    /// ```
    pub mod style {
        pub use tabled_config::{HorizontalLine, LinedStyle, Style};
    }

    /// Priorities: the order in which columns or rows shrink and grow; and checks of the result.
    ///
    /// ```rust
    /// table.with(Width::truncate(52).priority(Priority::left()))?;
    /// ```
    pub mod peaker {
        pub use tabled_size::{
            Peaker, Priority, PriorityLeft, PriorityMax, PriorityMin, PriorityNone, PriorityRight,
            Steps, TakesAll, is_level,
        };
    }

    /// Options that fit a whole table, or the cells of a part, to a width in columns.
    ///
    /// ```rust
    /// let narrow = Width::truncate(12).suffix(" and so on");
    /// let narrow = narrow.suffix_limit(SuffixLimit::Ignore);
    /// table.with(narrow.priority(Priority::max(true)))?;
    /// ```
    pub mod width {
        pub use tabled_set::{
            Justify, MinWidth, NarrowedRows, SuffixLimit, Truncate, Width, WidthList, WordWrap,
            Wrap,
        };
    }

    /// Options that fit a whole table, or the cells of a part, to a height in lines.
    ///
    /// ```rust
    /// table.with(Height::limit(6).priority(Priority::max(true)))?;
    /// ```
    pub mod height {
        pub use tabled_set::{
            CellHeightIncrease, CellHeightLimit, Height, HeightList, TableHeightIncrease,
            TableHeightLimit,
        };
    }

    /// Empty columns and lines around a table.
    ///
    /// ```rust
    /// table.with(Margin::new(2, 2, 1, 1).fill('>', '<', 'v', '^'))?;
    /// ```
    pub mod margin {
        pub use tabled_set::Margin;
    }

    /// Empty columns and lines around the text of a cell.
    ///
    /// ```rust
    /// table.modify(Columns::one(1), Padding::new(4, 0, 0, 0))?;
    /// ```
    pub mod padding {
        pub use tabled_set::{Padding, PaddingExpand};
    }

    /// The direction in which padding expands. No table reads it; it is for callers to match on.
    ///
    /// ```rust
    /// let padding = match Padding::expand(false) {
    ///     PaddingExpand::Horizontal => Padding::new(3, 3, 0, 0),
    ///     PaddingExpand::Vertical => Padding::new(0, 0, 1, 1),
    /// };
    /// table.with(padding)?;
    /// ```
    pub mod padding_expand {
        pub use tabled_set::PaddingExpand;
    }
}

/// Lower layers: records, settings and sizes, and functions that print them without a table. The
/// modules are named as in Rust's `tabled`.
///
/// ```rust
/// let mut text = String::new(alloc);
/// print_grid(&mut text, &records, &config, &sizes)?;
/// Ok(text)
/// ```
pub mod grid {
    pub use tabled_compact::{Window, print_compact};
    pub use tabled_grid::{
        is_additive_config, is_apart_config, is_plain_records, print_estimated, print_grid,
        print_standing,
    };

    /// Prefixes and suffixes, such as colour codes, around the borders, padding and margin of a
    /// `PoolTable`.
    ///
    /// ```rust
    /// config.set_padding_color(Sides::filled(ANSIStr::new("<b>", "</b>")));
    /// ```
    pub mod ansi {
        pub use tabled_config::ANSIStr;
    }

    /// Settings of a table, and the entities that they apply to.
    ///
    /// ```rust
    /// let config = table.get_config_mut().as_mut();
    /// config.set_alignment_horizontal(Entity::Column(1), AlignmentHorizontal::Right)
    /// ```
    pub mod config {
        pub use tabled_base::{Entity, Position};
        pub use tabled_config::{
            ANSIStr, AlignmentHorizontal, AlignmentVertical, Borders, CellStyle, ColoredConfig,
            CompactConfig, CompactMultilineConfig, Formatting, HorizontalLine, Indent, Sides,
            SpannedConfig,
        };
        pub use tabled_table::new_config;
    }

    /// Dimensions: the widths and heights of a table.
    ///
    /// ```rust
    /// let sizes = StaticDimension::new(DimensionValue::Exact(9), DimensionValue::Exact(1));
    /// let table = CompactTable::with_dimension(records, sizes);
    /// ```
    pub mod dimension {
        pub use tabled_size::{
            CompleteDimension, ConstDimension, ConstSize, Dimension, DimensionPriority,
            DimensionValue, Estimate, PoolTableDimension, StaticDimension, ZeroDimension,
        };
    }

    /// Records: the rows of a table and their cells.
    ///
    /// ```rust
    /// let records = IterRecords::new(CITIES, 2, None);
    /// ```
    pub mod records {
        pub use tabled_base::{
            CellText, ExactRecords, IntoRecords, PeekableRecords, Records, RecordsMut, Text,
            VecRecords,
        };
        pub use tabled_records::{
            CutLentRows, EmptyRecords, IterRecords, JoinedRecords, LentRows, RecordsWriter,
        };

        /// Views of records that are read row by row.
        ///
        /// ```rust
        /// let rows = LimitRows::new(SkipRows::new(CITIES, 1), 1);
        /// let table = IterTable::new(LimitColumns::new(rows, 1));
        /// ```
        pub mod into_records {
            pub use tabled_records::{
                BufRecords, CutCell, LimitColumns, LimitRows, SkipRows, TruncateContent,
            };
        }

        /// Records that own their cells.
        ///
        /// ```rust
        /// let records = Builder::from_iter(alloc, CITIES)?.build();
        /// let mut names = String::new(alloc);
        /// for row in records.as_rows() {
        /// ```
        pub mod vec_records {
            pub use tabled_base::{RowSlices, Text, VecRecords};
        }
    }

    /// Functions on texts.
    ///
    /// ```rust
    /// let columns = [text_width("Paris"), text_width("北京"), text_width("a\nbc")];
    /// ```
    pub mod util {
        /// Measuring, cutting and wrapping texts.
        ///
        /// ```rust
        /// let beginning = cut_str(alloc, "goes to the next field", 12)?;
        /// ```
        pub mod string {
            pub use tabled_text::{
                TextLines, count_lines, cut_str, is_additive, is_additive_column, is_fullest,
                is_plain, is_plain_column, is_separator_column, line_width, lines, split_str,
                text_width, wrap_text, wrap_words,
            };
        }
    }
}
