//! How the rows that are shown are laid out.
ghost use Rattle.std.specs.Prelude.{◌≡◌, ℕ, List, [], Contains, IfOk, IfSome, map};
ghost use Rattle.tabview_cells.specs.Kinds.{keeps_width};
ghost use Rattle.tabview_show.specs.Asked.{AreLaid, default_column, number_columns};

use crate::asked::{alignment, fitted_width, narrowing, side_of_kind};
use csv::StringRecord;
use std::alloc::{AllocError, Global};
use tabled_base::ExactRecords;
use tabled_config::AlignmentHorizontal;
use tabview_cells::Kind;
use tabview_options::{Look, Options, Side};
use tabview_print::{Column, Layout, style_for};
use tabview_read::{ReadError, Sheet, is_column};

/// Returns the layout of a sheet. Fails if a column that is to be aligned isn't shown.
pub(crate) fn layout_of(
    alloc: Global,
    options: &Options<'_>,
    names: Option<&StringRecord>,
    sheet: &Sheet,
) -> Result<Layout, ReadError> {
    check_sides(alloc, &options.look, names, sheet)?;
    let columns = columns_of(alloc, options, names, sheet)?;
    Ok(Layout {
        style: style_for(
            options.look.style,
            sheet.has_names,
            sheet.records.count_rows(),
        ),
        width: fitted_width(&options.look),
        narrowing: narrowing(options.look.cut),
        columns,
        has_header: sheet.has_names,
    })
}

fn check_sides(
    alloc: Global,
    look: &Look<'_>,
    names: Option<&StringRecord>,
    sheet: &Sheet,
) -> Result<(), ReadError> {
    for (word, _) in look.sides.iter() {
        if !is_shown(names, sheet, word) {
            return Err(ReadError::NoColumn(String::from_str(alloc, word)?));
        }
    }
    Ok(())
}

fn is_shown(names: Option<&StringRecord>, sheet: &Sheet, word: &str) -> bool {
    sheet.columns.iter().any(|c| is_column(names, *c, word))
}

/// Returns the columns: one for the numbers, if rows have them, and the ones that are shown.
fn columns_of(
    alloc: Global,
    options: &Options<'_>,
    names: Option<&StringRecord>,
    sheet: &Sheet,
) -> Result<Vec<Column>, AllocError>
    ensures { IfOk result (λ columns. AreLaid options.now.choice.numbers
        options.now.look.sides.items sheet.now.kinds.items columns.items) }
{
    let mut columns = number_columns(alloc, options.choice.numbers)?;
    for index in 0..sheet.kinds.len() {
        let column = sheet.columns.get(index).copied().unwrap_or(index);
        columns.push(column_of(&options.look, names, sheet.kinds[index], column))?;
    }
    Ok(columns)
}

/// Returns the column of the rows' numbers, if they have one.
fn number_columns(alloc: Global, numbers: bool) -> Result<Vec<Column>, AllocError>
    ensures { IfOk result (λ columns. columns.items ≡ number_columns numbers) }
{
    let mut columns = Vec::new(alloc);
    if numbers {
        columns.push(Column {
            side: AlignmentHorizontal::Right,
            keeps: true,
        })?;
    }
    Ok(columns)
}

/// Returns a column: at the side that was asked for last, else at that of its kind.
fn column_of(look: &Look<'_>, names: Option<&StringRecord>, kind: Kind, column: usize) -> Column
    ensures keep { result.keeps ≡ keeps_width kind }
    ensures default { look.now.sides.items ≡ [] → result ≡ default_column kind }
{
    let side = asked_side(look, names, column).unwrap_or(side_of_kind(kind));
    Column {
        side: alignment(side),
        keeps: kind.keeps_width(),
    }
}

/// Returns the side that was asked for last of a column, if one was.
fn asked_side(look: &Look<'_>, names: Option<&StringRecord>, column: usize) -> Option<Side>
    ensures { IfSome result (Contains (map (λ s. s.1) look.now.sides.items)) }
{
    let mut side = None;
    for (word, asked) in look.sides.iter() {
        if is_column(names, column, word) {
            side = Some(*asked);
        }
    }
    side
}
