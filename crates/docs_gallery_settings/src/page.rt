//! All pictures, each below the name of the function that makes it.

use crate::given::{Sample, table_of};
use crate::{alignments, borders, cell_widths, heights, objects, spaces, styles, widths};
use std::alloc::Global;
use tabled::{Table, TableError};

// Pictures of new tables, to each of which something is done.
macro_rules! show {
    ($page:expr, $table:expr, $sample:path; $($picture:path),+ $(,)?) => {{
        renew($table, $sample)?;
        $(add_table($page, stringify!($picture), $picture($table), $table, $sample)?;)+
        Ok(())
    }};
}

/// Returns all pictures below their names, in the order of the gallery.
pub fn all_pictures(alloc: Global) -> Result<String, TableError> {
    let mut page = String::new(alloc);
    let mut table = table_of(alloc, Sample::Cities)?;
    add_all(&mut page, &mut table)?;
    Ok(page)
}

fn add_all(page: &mut String, table: &mut Table) -> Result<(), TableError> {
    add_settings(page, table)?;
    add_sizes(page, table)?;
    add_parts(page, table)
}

fn renew(table: &mut Table, sample: Sample) -> Result<(), TableError> {
    *table = table_of(table.get_records().allocator(), sample)?;
    Ok(())
}

// Adds a table to which something was done, and puts a new one in its place.
fn add_table(
    page: &mut String,
    name: &str,
    outcome: Result<(), TableError>,
    table: &mut Table,
    sample: Sample,
) -> Result<(), TableError> {
    match outcome {
        Ok(()) => {
            add(page, name, table.to_text())?;
            renew(table, sample)
        }
        Err(error) => Err(error),
    }
}

// Adds a picture below its name.
fn add(
    page: &mut String,
    name: &str,
    picture: Result<String, TableError>,
) -> Result<(), TableError> {
    match picture {
        Ok(picture) => Ok(write!(page, "== {name}\n{picture}\n")?),
        Err(error) => Err(error),
    }
}

fn add_settings(page: &mut String, table: &mut Table) -> Result<(), TableError> {
    add_box_styles(page, table)?;
    add_text_styles(page, table)?;
    add_removals(page, table)?;
    add_alignments(page, table)?;
    add_center(page, table)?;
    add_block_alignments(page, table)?;
    add_paddings(page, table)?;
    add_margins(page, table)
}

fn add_sizes(page: &mut String, table: &mut Table) -> Result<(), TableError> {
    add_widths(page, table)?;
    add_suffixes(page, table)?;
    add_priorities(page, table)?;
    add_increases(page, table)?;
    add_cell_widths(page, table)?;
    add_line_widths(page, table)?;
    add_measures(page, table)?;
    add_heights(page, table)
}

fn add_parts(page: &mut String, table: &mut Table) -> Result<(), TableError> {
    add_borders(page, table)?;
    add_objects(page, table)?;
    add_segments(page, table)
}

fn add_box_styles(page: &mut String, table: &mut Table) -> Result<(), TableError> {
    show!(page, table, Sample::Cities;
        styles::rounded, styles::ascii, styles::modern, styles::sharp, styles::modern_rounded,
        styles::extended)
}

fn add_text_styles(page: &mut String, table: &mut Table) -> Result<(), TableError> {
    show!(page, table, Sample::Cities;
        styles::markdown, styles::psql, styles::re_structured_text, styles::ascii_rounded,
        styles::blank, styles::empty)
}

fn add_removals(page: &mut String, table: &mut Table) -> Result<(), TableError> {
    show!(page, table, Sample::Cities;
        styles::without_horizontal, styles::without_horizontals, styles::without_vertical,
        styles::without_frame, styles::without_sides, styles::without_ends, styles::horizontals,
        styles::own_line)
}

fn add_alignments(page: &mut String, table: &mut Table) -> Result<(), TableError> {
    show!(page, table, Sample::Cities;
        alignments::right, alignments::by_setting, alignments::last_one_wins)
}

fn add_center(page: &mut String, table: &mut Table) -> Result<(), TableError> {
    show!(page, table, Sample::Notes; alignments::center)
}

fn add_block_alignments(page: &mut String, table: &mut Table) -> Result<(), TableError> {
    show!(page, table, Sample::Lines;
        alignments::block, alignments::lines, alignments::middle, alignments::bottom)
}

fn add_paddings(page: &mut String, table: &mut Table) -> Result<(), TableError> {
    show!(page, table, Sample::Cities;
        spaces::padding, spaces::no_padding, spaces::filled, spaces::expanded, spaces::of_a_column,
        spaces::configured)
}

fn add_margins(page: &mut String, table: &mut Table) -> Result<(), TableError> {
    show!(page, table, Sample::Cities; spaces::margin, spaces::filled_margin)
}

fn add_widths(page: &mut String, table: &mut Table) -> Result<(), TableError> {
    show!(page, table, Sample::Notes;
        widths::wrapped, widths::widest_wrapped, widths::words, widths::spaces_dropped,
        widths::truncated)
}

fn add_suffixes(page: &mut String, table: &mut Table) -> Result<(), TableError> {
    show!(page, table, Sample::Notes;
        widths::suffixed, widths::suffix_cut, widths::suffix_ignored, widths::suffix_replaced,
        widths::share)
}

fn add_priorities(page: &mut String, table: &mut Table) -> Result<(), TableError> {
    show!(page, table, Sample::Keys;
        widths::in_turn, widths::narrowest_first, widths::widest_first, widths::leftmost_first,
        widths::rightmost_first)
}

fn add_increases(page: &mut String, table: &mut Table) -> Result<(), TableError> {
    show!(page, table, Sample::Cities; widths::increased, widths::last_increased)
}

fn add_cell_widths(page: &mut String, table: &mut Table) -> Result<(), TableError> {
    show!(page, table, Sample::Notes; cell_widths::wrapped, cell_widths::truncated)
}

fn add_line_widths(page: &mut String, table: &mut Table) -> Result<(), TableError> {
    show!(page, table, Sample::Lines; cell_widths::lines_truncated)
}

fn add_measures(page: &mut String, table: &mut Table) -> Result<(), TableError> {
    show!(page, table, Sample::Cities;
        cell_widths::increased, cell_widths::justified, cell_widths::justified_to_the_widest,
        cell_widths::justified_to_the_narrowest, cell_widths::measured, cell_widths::listed)
}

fn add_heights(page: &mut String, table: &mut Table) -> Result<(), TableError> {
    show!(page, table, Sample::Lines;
        heights::increased, heights::last_increased, heights::limited, heights::cells_increased,
        heights::cells_limited, heights::listed)
}

fn add_borders(page: &mut String, table: &mut Table) -> Result<(), TableError> {
    show!(page, table, Sample::Cities;
        borders::changed, borders::own, borders::line, borders::without_lines,
        borders::configured)
}

fn add_objects(page: &mut String, table: &mut Table) -> Result<(), TableError> {
    show!(page, table, Sample::Cities;
        objects::row, objects::last_row, objects::column, objects::last_column, objects::cell)
}

fn add_segments(page: &mut String, table: &mut Table) -> Result<(), TableError> {
    show!(page, table, Sample::Cities;
        objects::whole_table, objects::segment, objects::outside, objects::union, objects::modified,
        objects::settings)
}
