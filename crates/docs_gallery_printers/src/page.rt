//! All pictures, each below the name of the function that makes it.

use crate::{from_tabled, own, printers, rows, serialized, streams, texts};
use std::alloc::Global;
use tabled::{Table, TableError};

// Pictures that need no table from here.
macro_rules! draw {
    ($page:expr; $($picture:path),+ $(,)?) => {{
        let alloc = *$page.allocator();
        $(add($page, stringify!($picture), $picture(alloc))?;)+
        Ok(())
    }};
}

// Pictures of new tables of cities, to each of which something is done.
macro_rules! show {
    ($page:expr, $table:expr; $($picture:path),+ $(,)?) => {{
        renew($table)?;
        $(add_table($page, stringify!($picture), $picture($table), $table)?;)+
        Ok(())
    }};
}

/// Returns all pictures below their names, in the order of the gallery.
pub fn all_pictures(alloc: Global) -> Result<String, TableError> {
    let mut page = String::new(alloc);
    let mut table = table_of_cities(alloc)?;
    add_all(&mut page, &mut table)?;
    Ok(page)
}

fn table_of_cities(alloc: Global) -> Result<Table, TableError> {
    let rows = [("City", "People"), ("Paris", "2103778"), ("Oslo", "717710")];
    Table::nohead(alloc, rows)
}

fn renew(table: &mut Table) -> Result<(), TableError> {
    *table = table_of_cities(table.get_records().allocator())?;
    Ok(())
}

fn add_all(page: &mut String, table: &mut Table) -> Result<(), TableError> {
    add_printers(page)?;
    add_written(page)?;
    add_values(page)?;
    add_chained(page)?;
    add_changed(page, table)
}

// Adds a picture below its name.
fn add(
    page: &mut String,
    name: &str,
    picture: Result<String, TableError>,
) -> Result<(), TableError> {
    match picture {
        Ok(picture) => Ok(write!(page, "== {name}\n{picture}\n")?),
        Err(error) => Err(error),
    }
}

// Adds a table to which something was done, and puts a new one in its place.
fn add_table(
    page: &mut String,
    name: &str,
    outcome: Result<(), TableError>,
    table: &mut Table,
) -> Result<(), TableError> {
    match outcome {
        Ok(()) => {
            add(page, name, table.to_text())?;
            renew(table)
        }
        Err(error) => Err(error),
    }
}

fn add_printers(page: &mut String) -> Result<(), TableError> {
    add_tables(page)?;
    add_records(page)?;
    add_boxes(page)?;
    add_streams(page)?;
    add_compact(page)?;
    add_serialized(page)?;
    add_rows(page)?;
    add_texts(page)?;
    add_own(page)?;
    add_own_rows(page)
}

fn add_tables(page: &mut String) -> Result<(), TableError> {
    draw!(page;
        printers::at_least_as_wide, printers::totals, printers::titled, printers::titled_wrapped,
        printers::titled_cut, printers::named, printers::floats)
}

fn add_records(page: &mut String) -> Result<(), TableError> {
    draw!(page; printers::key_values, printers::records, printers::narrow_records)
}

fn add_boxes(page: &mut String) -> Result<(), TableError> {
    draw!(page;
        printers::rows_of_boxes, printers::boxes_centered, printers::boxes, printers::boxes_last,
        printers::colours)
}

fn add_streams(page: &mut String) -> Result<(), TableError> {
    draw!(page;
        streams::whole, streams::sniffed, streams::marked, streams::sized, streams::limited,
        streams::aligned)
}

fn add_compact(page: &mut String) -> Result<(), TableError> {
    draw!(page;
        streams::fitting, streams::fitting_right, streams::compact, streams::window,
        streams::overfull)
}

fn add_serialized(page: &mut String) -> Result<(), TableError> {
    draw!(page; serialized::table)
}

fn add_rows(page: &mut String) -> Result<(), TableError> {
    draw!(page; rows::viewed, rows::declared, rows::stored, rows::printed, rows::batches)
}

fn add_texts(page: &mut String) -> Result<(), TableError> {
    write!(page, "== texts::counted\n{}\n", texts::counted("北京"))?;
    draw!(page; texts::measured, texts::wrapped, texts::cut)
}

fn add_own(page: &mut String) -> Result<(), TableError> {
    draw!(page;
        own::labels, own::title_fields, own::borrowed_writer, own::formatting, own::plan,
        own::cell_style)
}

fn add_own_rows(page: &mut String) -> Result<(), TableError> {
    draw!(page;
        own::stored_sizes, own::cut_rows, own::narrowed_rows, own::cut_cells, own::text_lines)
}

fn add_written(page: &mut String) -> Result<(), TableError> {
    draw!(page;
        from_tabled::serialized, from_tabled::languages, from_tabled::built,
        from_tabled::with_settings, from_tabled::mapped)
}

fn add_values(page: &mut String) -> Result<(), TableError> {
    draw!(page;
        from_tabled::paired, from_tabled::of_rows, from_tabled::of_fields, from_tabled::ruled,
        from_tabled::titled)
}

fn add_chained(page: &mut String) -> Result<(), TableError> {
    draw!(page;
        from_tabled::continued, from_tabled::written, from_tabled::chained,
        from_tabled::as_records, from_tabled::counted)
}

fn add_changed(page: &mut String, table: &mut Table) -> Result<(), TableError> {
    show!(page, table;
        from_tabled::dressed, from_tabled::rounded, from_tabled::one_line, from_tabled::renamed)
}
