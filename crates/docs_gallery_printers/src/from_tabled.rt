//! What users of the Rust crate write, as it is written here.
ghost use Rattle.std.specs.Prelude.{◌∷◌, [], codes, ⊤};

use serde::Serialize;
use std::alloc::Global;
use std::borrow::CowStr;
use tabled::builder::Builder;
use tabled::grid::config::{Borders, Position};
use tabled::grid::records::{ExactRecords, PeekableRecords, RecordsMut};
use tabled::grid::util::string::line_width;
use tabled::iter::LayoutIterator;
use tabled::settings::object::Columns;
use tabled::settings::peaker::Priority;
use tabled::settings::style::HorizontalLine;
use tabled::settings::{Alignment, Padding, Style, Title, Width};
use tabled::tables::ExtendedTable;
use tabled::{IoSink, Table, TableError, Tabled};
use tabled_serde::RowError;

/// A language and its year.
#[derive(Drop, Serialize)]
pub struct Language {
    name: &'static str,
    year: u16,
}

impl Tabled for Language {
    ghost LENGTH = { 2 };

    ghost shows = { λ _ _. ⊤ };

    ghost names = { codes "name" ∷ codes "year" ∷ [] };

    fn length() -> usize {
        2
    }

    fn fields(&self, alloc: Global) -> Result<Vec<CowStr<'_>>, TableError> {
        let mut fields = Vec::new(alloc);
        fields.push(CowStr::Borrowed(self.name))?;
        fields.push(CowStr::Owned(format!(in alloc; "{}", self.year)?))?;
        Ok(fields)
    }

    fn headers(alloc: Global) -> Result<Vec<CowStr<'static>>, TableError> {
        let mut names = Vec::new(alloc);
        names.push(CowStr::Borrowed("name"))?;
        names.push(CowStr::Borrowed("year"))?;
        Ok(names)
    }
}

/// A table of values that serialize.
fn table_of_values(alloc: Global) -> Result<Table, RowError> {
    let languages = [
        Language {
            name: "C",
            year: 1972,
        },
        Language {
            name: "Go",
            year: 2009,
        },
    ];
    tabled_serde::table(alloc, languages)
}

/// Its text, or why a value can't be a row.
pub fn serialized(alloc: Global) -> Result<String, TableError> {
    match table_of_values(alloc) {
        Ok(table) => table.to_text(),
        Err(RowError::Memory) => Err(TableError::Memory),
        Err(error) => Ok(format!(in alloc; "{error}")?),
    }
}

/// The same by an `impl Tabled`.
pub fn languages(alloc: Global) -> Result<String, TableError> {
    let languages = [
        Language {
            name: "C",
            year: 1972,
        },
        Language {
            name: "Go",
            year: 2009,
        },
    ];
    let table = Table::new(alloc, languages)?;
    table.to_text()
}

/// Row by row, under a style.
pub fn built(alloc: Global) -> Result<String, TableError> {
    let mut builder = Builder::new(alloc);
    builder.push_record(["name", "year"])?;
    builder.push_record(["C", "1972"])?;
    builder.push_record(["Go", "2009"])?;

    let mut table = Table::from(builder);
    table.with(Style::ascii_rounded())?;
    table.to_text()
}

/// Two settings.
pub fn with_settings(alloc: Global) -> Result<String, TableError> {
    let mut table = Table::new(alloc, ["Paris", "Rome"])?;
    table.with(Style::psql())?.with(Alignment::right())?;
    table.to_text()
}

/// Values of an iterator.
pub fn mapped(alloc: Global) -> Result<String, TableError> {
    let languages = [("C", 1972u16), ("Go", 2009)];
    let iter = languages
        .into_iter()
        .map(|(name, year)| (name, year > 2000));
    let table = Table::new(alloc, iter)?;
    table.to_text()
}

/// Tuples with structs in them.
pub fn paired(alloc: Global) -> Result<String, TableError> {
    let (name, year) = ("C", 1972);
    let c = Language { name, year };
    let (name, year) = ("Go", 2009);
    let go = Language { name, year };
    let table = Table::new(alloc, [("Ritchie", c), ("Pike", go)])?;
    table.to_text()
}

/// Rows.
pub fn of_rows(alloc: Global) -> Result<String, TableError> {
    let rows = [["Paris", "+", "-"], ["Oslo", "-", "+"]];
    let table = Table::from_iter(alloc, rows)?;
    table.to_text()
}

/// A row for each field.
pub fn of_fields(alloc: Global) -> Result<String, TableError> {
    let (name, year) = ("C", 1972);
    let c = Language { name, year };
    let (name, year) = ("Go", 2009);
    let go = Language { name, year };
    let table = Table::kv(alloc, [c, go])?;
    table.to_text()
}

/// A line between values.
pub fn ruled(alloc: Global) -> Result<String, TableError> {
    let (name, year) = ("C", 1972);
    let c = Language { name, year };
    let (name, year) = ("Go", 2009);
    let go = Language { name, year };
    let mut table = Table::kv(alloc, [c, go])?;

    table.with(Style::rounded().remove_horizontals())?;
    let line = HorizontalLine::inherit(Style::modern());
    for row in LayoutIterator::kv_batches::<Language>(&table).skip(1) {
        let config = table.get_config_mut().as_mut();
        config.insert_horizontal_line(row, line)?;
    }
    table.to_text()
}

/// A title above a table.
pub fn titled(alloc: Global) -> Result<String, TableError> {
    let table = Table::from_iter(alloc, [["Paris", "France"], ["Rome", "Italy"]])?;
    table.to_titled_text(Title::new("Two capitals").center())
}

/// A chain, from rows to the text.
pub fn chained(alloc: Global) -> Result<String, TableError> {
    let rows = [["name", "year"], ["C", "1972"], ["Go", "2009"]];
    Table::from_iter(alloc, rows)?
        .with(Style::psql())?
        .to_text()
}

/// Values as records.
pub fn as_records(alloc: Global) -> Result<String, TableError> {
    let values = [("C", 1972u16), ("Go", 2009u16)];
    let table = ExtendedTable::new(alloc, values)?;
    table.to_string()
}

/// How many fields a value has, and how many columns a line takes.
pub fn counted(alloc: Global) -> Result<String, TableError> {
    let (fields, columns) = (Language::length(), line_width("北京"));
    Ok(format!(in alloc; "{fields} fields, {columns} columns")?)
}

/// Rows behind those of values.
pub fn continued(alloc: Global) -> Result<String, TableError> {
    let mut builder = Table::builder(alloc, [("C", 1972u16)])?;
    builder.push_record(["Go", "2009"])?;
    let table = Table::from(builder);
    table.to_text()
}

/// Options, one after the other.
pub fn dressed(table: &mut Table) -> Result<(), TableError> {
    table
        .with(Style::modern())?
        .with(Padding::new(0, 0, 0, 0))?
        .with(Width::wrap(14).priority(Priority::max(true)))?;
    Ok(())
}

/// The borders of a style, some of them replaced.
pub fn rounded(table: &mut Table) -> Result<(), TableError> {
    let config = table.get_config_mut().as_mut();
    config.set_borders(Borders {
        top_left: Some('╭'),
        top_right: Some('╮'),
        bottom_left: Some('╰'),
        bottom_right: Some('╯'),
        ..Style::modern().get_borders()
    });
    Ok(())
}

/// A frame, one horizontal line, below the header, and numbers at the right.
pub fn one_line(table: &mut Table) -> Result<(), TableError> {
    table
        .with(Style::sharp())?
        .modify(Columns::one(1), Alignment::right())?;
    Ok(())
}

/// A text that is changed by hand. What is stored of sizes is forgotten by `clear`.
pub fn renamed(table: &mut Table) -> Result<(), TableError> {
    let place = Position::new(1, 0);
    let records = table.get_records_mut();
    if place.row < records.count_rows() && place.column < records.count_columns() {
        let text = records
            .get_text(place)
            .replace(records.allocator(), 'P', "B")?;
        records.set(place, text)?;
    }
    table.get_dimension_mut().clear();
    Ok(())
}

/// Through a writer: how many bytes it took.
pub fn written(alloc: Global) -> Result<String, TableError> {
    let table = Table::nohead(alloc, [("C", 1972u16), ("Go", 2009u16)])?;
    let mut bytes: Vec<u8> = Vec::new(alloc);
    table.write_to(&mut IoSink::new(&mut bytes))?;
    Ok(format!(in alloc; "{} bytes", bytes.len())?)
}
