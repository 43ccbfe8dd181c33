//! Calls on the parts of tables: texts, rows, selections, values, settings and sizes.

use crate::found::{Found, whole_if, whole_if_all};
use crate::printers::{PAIRS, PICTURE, table_of_pairs};
use std::alloc::Global;
use std::borrow::CowStr;
use tabled::builder::Builder;
use tabled::grid::config::{
    AlignmentHorizontal, AlignmentVertical, ColoredConfig, Entity, HorizontalLine, Indent,
    Position, Sides, SpannedConfig,
};
use tabled::grid::dimension::{
    CompleteDimension, ConstDimension, ConstSize, Dimension, DimensionValue, Estimate,
    StaticDimension, ZeroDimension,
};
use tabled::grid::records::into_records::BufRecords;
use tabled::grid::records::{CellText, ExactRecords, RecordsMut, Text, VecRecords};
use tabled::grid::util::string::{cut_str, split_str, wrap_text};
use tabled::settings::measurement::{Max, Measurement, Min, Percent};
use tabled::settings::object::{Cell, Columns, Object, Rows, Segment};
use tabled::settings::width::{Truncate, Wrap};
use tabled::settings::{Height, Width};
use tabled::{Table, TableError, Tabled};

/// The names of the calls.
pub const MATERIALS: &[&str] = &[
    "texts",
    "rows",
    "rows of texts",
    "rows read ahead",
    "parts",
    "single values",
    "integers",
    "held values",
    "settings",
    "sizes",
    "given sizes",
    "widths",
    "heights",
];

fn cuts(alloc: Global) -> Result<bool, TableError> {
    let cut = cut_str(alloc, "😳😳😳😳😳", 3)?;
    Ok(cut.as_str() == "😳\u{fffd}")
}

fn splits(alloc: Global) -> Result<bool, TableError> {
    let (front, rest) = split_str(alloc, "123\n456789", 4)?;
    Ok((front.as_str(), rest) == ("123\n4567", "89"))
}

fn wraps(alloc: Global) -> Result<bool, TableError> {
    let wrapped = wrap_text(alloc, "12345", 2, false)?;
    Ok(wrapped.as_str() == "12\n34\n5")
}

fn option_wraps(alloc: Global) -> Result<bool, TableError> {
    let wrapped = Wrap::wrap(alloc, "111 234 1", 4, true)?;
    Ok(wrapped.as_str() == "111 \n234 \n1")
}

fn option_cuts(alloc: Global) -> Result<bool, TableError> {
    let cut = Truncate::truncate(alloc, "123\n45", 3)?;
    Ok(cut.as_str() == "123")
}

fn option_shortens(alloc: Global) -> Result<bool, TableError> {
    let short = Truncate::new(4).suffix("...").shorten(alloc, "Hello", 4)?;
    Ok(short.as_str() == "H...")
}

// Cuts, splits and wraps texts.
fn narrowed(alloc: Global) -> Result<Found, TableError> {
    whole_if_all(&[
        cuts(alloc),
        splits(alloc),
        wraps(alloc),
        option_wraps(alloc),
        option_cuts(alloc),
        option_shortens(alloc),
    ])
}

fn built(alloc: Global) -> Result<VecRecords<Text<String>>, TableError> {
    let mut builder = Builder::with_capacity(alloc, 2, 2)?;
    builder.add_record(["x", "bb"])?;
    builder.push_record(["ccc"])?;
    Ok(builder.build())
}

fn is_copied(alloc: Global, records: &mut VecRecords<Text<String>>) -> Result<bool, TableError> {
    if records.count_rows() == 0 || records.count_columns() == 0 {
        return Ok(false);
    }
    records.set(Position::new(0, 0), String::from_str(alloc, "a")?)?;
    let copy = records.clone()?;
    Ok(copy == *records && copy == Builder::from_iter(alloc, PAIRS)?.build())
}

// Adds, sets and copies rows.
fn added(alloc: Global) -> Result<Found, TableError> {
    let mut records = built(alloc)?;
    let is_same = is_copied(alloc, &mut records)?;
    let picture = Table::from(Builder::from(records)).to_string()?;
    Ok(whole_if(is_same && picture.as_str() == PICTURE))
}

fn texts_of(alloc: Global, row: [&str; 2]) -> Result<Vec<Text<String>>, TableError> {
    let mut texts = Vec::new(alloc);
    for text in row {
        let text = Text::new(String::from_str(alloc, text)?);
        texts.push(text.clone()?)?;
    }
    Ok(texts)
}

fn rows_of_texts(alloc: Global) -> Result<Vec<Vec<Text<String>>>, TableError> {
    let mut rows = Vec::new(alloc);
    for row in PAIRS {
        rows.push(texts_of(alloc, row)?)?;
    }
    Ok(rows)
}

// Makes a table from rows of measured texts.
fn given(alloc: Global) -> Result<Found, TableError> {
    let picture = Table::from(Builder::from_vec(rows_of_texts(alloc)?)?).to_string()?;
    Ok(whole_if(picture.as_str() == PICTURE))
}

// Reads the first row ahead.
fn buffered(alloc: Global) -> Result<Found, TableError> {
    let rows = BufRecords::new(alloc, rows_of_texts(alloc)?, 1)?;
    let ahead = rows.as_slice().len();
    let picture = Table::from(Builder::from_iter(alloc, rows)?).to_string()?;
    Ok(whole_if(ahead == 1 && picture.as_str() == PICTURE))
}

// Whether a selection returns exactly the wanted entity of the pairs.
fn names<T: Object<VecRecords<Text<String>>> + Drop>(
    alloc: Global,
    part: T,
    wanted: Entity,
) -> Result<bool, TableError> {
    let records = Builder::from_iter(alloc, PAIRS)?.build();
    let cells = part.cells(alloc, &records)?;
    Ok(cells.as_slice() == [wanted].as_slice())
}

// Selects cells in each way.
fn chosen(alloc: Global) -> Result<Found, TableError> {
    whole_if_all(&[
        names(alloc, Rows::last(), Entity::Row(1)),
        names(alloc, Columns::first(), Entity::Column(0)),
        names(alloc, Cell::new(1, 0), Entity::Cell(1, 0)),
        names(alloc, (0, 1), Entity::Cell(0, 1)),
        names(alloc, Segment::new(1.., ..1), Entity::Cell(1, 0)),
        names(alloc, Segment::all(), Entity::Global),
    ])
}

// Whether the first cell of a value has the wanted text.
fn puts<T: Tabled>(alloc: Global, value: &T, wanted: &str) -> Result<bool, TableError> {
    let mut row = Vec::new(alloc);
    value.push_cells(&mut row)?;
    match row.first() {
        Some(cell) => Ok(cell.text() == wanted),
        None => Ok(false),
    }
}

fn begin_with(texts: &[CowStr<'_>], wanted: &str) -> bool {
    match texts.first() {
        Some(text) => text.as_str() == wanted,
        None => false,
    }
}

// Whether the first field of a value has the wanted name and text.
fn tells<T: Tabled>(
    alloc: Global,
    value: &T,
    name: &str,
    wanted: &str,
) -> Result<bool, TableError> {
    let is_named = begin_with(&T::headers(alloc)?, name);
    let is_told = begin_with(&value.fields(alloc)?, wanted);
    Ok(is_named && is_told && puts(alloc, value, wanted)?)
}

// Strings, characters and booleans.
fn single(alloc: Global) -> Result<Found, TableError> {
    let owned = String::from_str(alloc, "b")?;
    whole_if_all(&[
        tells(alloc, &"a", "&str", "a"),
        tells(alloc, &owned, "String", "b"),
        tells(alloc, &'中', "char", "中"),
        tells(alloc, &true, "bool", "true"),
    ])
}

fn integers(alloc: Global) -> Result<Found, TableError> {
    whole_if_all(&[
        tells(alloc, &-1i8, "i8", "-1"),
        tells(alloc, &-2i16, "i16", "-2"),
        tells(alloc, &-3i32, "i32", "-3"),
        tells(alloc, &-4i64, "i64", "-4"),
        tells(alloc, &-5i128, "i128", "-5"),
        tells(alloc, &-6isize, "isize", "-6"),
        tells(alloc, &1u8, "u8", "1"),
        tells(alloc, &2u16, "u16", "2"),
        tells(alloc, &3u32, "u32", "3"),
        tells(alloc, &4u64, "u64", "4"),
        tells(alloc, &5u128, "u128", "5"),
        tells(alloc, &6usize, "usize", "6"),
    ])
}

// References, boxes, options, arrays and tuples.
fn held(alloc: Global) -> Result<Found, TableError> {
    let boxed = Box::new(alloc, 'b')?;
    whole_if_all(&[
        tells(alloc, &&'a', "char", "a"),
        tells(alloc, &boxed, "char", "b"),
        tells(alloc, &Some('c'), "char", "c"),
        tells(alloc, &['d', 'e'], "0", "d"),
        tells(alloc, &('a',), "char", "a"),
        tells(alloc, &('a', 1u8), "char", "a"),
        tells(alloc, &('a', 1u8, 2u8), "char", "a"),
        tells(alloc, &('a', 1u8, 2u8, 3u8), "char", "a"),
        tells(alloc, &('a', 1u8, 2u8, 3u8, 4u8), "char", "a"),
        tells(alloc, &('a', 1u8, 2u8, 3u8, 4u8, 5u8), "char", "a"),
    ])
}

const DASHES: HorizontalLine = HorizontalLine {
    main: Some('-'),
    left: None,
    intersection: Some('+'),
    right: None,
};

fn set_styles(config: &mut SpannedConfig) -> Result<(), TableError> {
    config.set_padding(Entity::Global, Sides::filled(Indent::spaced(1)))?;
    config.set_alignment_horizontal(Entity::Row(1), AlignmentHorizontal::Right)?;
    config.set_alignment_vertical(Entity::Column(0), AlignmentVertical::Bottom)?;
    config.set_line_alignment(Entity::Cell(0, 0), true)?;
    config.set_trim_horizontal(Entity::Row(0), true)?;
    config.set_trim_vertical(Entity::Row(1), true)?;
    config.insert_horizontal_line(1, DASHES)
}

// Makes and copies settings.
fn configured(alloc: Global) -> Result<Found, TableError> {
    let mut config = SpannedConfig::new(alloc);
    set_styles(&mut config)?;
    let copy = config.clone()?;
    let is_set = copy.get_alignment_horizontal(Position::new(1, 0)) == AlignmentHorizontal::Right
        && copy.get_trim_vertical(Position::new(1, 1))
        && copy.get_horizontal_line(1) == Some(DASHES);
    compare_copy(
        &ColoredConfig::new(config),
        &ColoredConfig::new(copy),
        is_set,
    )
}

fn compare_copy(
    config: &ColoredConfig,
    same: &ColoredConfig,
    is_set: bool,
) -> Result<Found, TableError> {
    let copy = config.clone()?;
    Ok(whole_if(is_set && copy == *same))
}

fn estimate(alloc: Global, table: &Table) -> Result<CompleteDimension, TableError> {
    let mut sizes = CompleteDimension::new(alloc);
    sizes.estimate(table.get_records(), table.get_config().as_ref())?;
    Ok(sizes)
}

// The same with a `ColoredConfig`.
fn estimate_colored(alloc: Global, table: &Table) -> Result<CompleteDimension, TableError> {
    let mut sizes = CompleteDimension::new(alloc);
    sizes.estimate(table.get_records(), table.get_config())?;
    Ok(sizes)
}

fn compare_sizes(
    alloc: Global,
    table: &Table,
    sizes: &CompleteDimension,
) -> Result<Found, TableError> {
    let colored = estimate_colored(alloc, table)?;
    let copy = sizes.clone()?;
    let is_right = copy.get_widths() == Some(&[5, 4]) && copy.get_heights() == Some(&[1, 1]);
    Ok(whole_if(is_right && copy == colored))
}

fn estimate_each(alloc: Global, table: &Table) -> Result<Found, TableError> {
    let sizes = estimate(alloc, table)?;
    compare_sizes(alloc, table, &sizes)
}

// Estimates and copies sizes.
fn estimated(alloc: Global) -> Result<Found, TableError> {
    let table = table_of_pairs(alloc)?;
    estimate_each(alloc, &table)
}

// Copies a list of widths, and then the dimension that contains it.
fn listed(alloc: Global) -> Result<StaticDimension, TableError> {
    let list = DimensionValue::List(Vec::from_slice(alloc, &[7, 8])?);
    let sizes = StaticDimension::new(list.clone()?, DimensionValue::Exact(3));
    Ok(sizes.clone()?)
}

fn is_listed(alloc: Global, table: &Table) -> Result<bool, TableError> {
    let mut sizes = listed(alloc)?;
    sizes.estimate(table.get_records(), table.get_config())?;
    Ok(sizes.has_width(1) && sizes.get_width(1) == 8)
}

fn is_fixed(table: &Table) -> Result<bool, TableError> {
    let (records, config) = (table.get_records(), table.get_config());
    let mut fixed = ConstDimension::new(ConstSize::List([5, 4]), ConstSize::Value::<0>(1));
    fixed.estimate(records, config)?;
    ZeroDimension::new().estimate(records, config)?;
    Ok(fixed.has_width(0) && fixed.get_width(0) == 5)
}

fn keep_sizes(alloc: Global, table: &Table) -> Result<Found, TableError> {
    let is_listed = is_listed(alloc, table)?;
    Ok(whole_if(is_listed && is_fixed(table)?))
}

// Estimating must leave given sizes unchanged.
fn sized(alloc: Global) -> Result<Found, TableError> {
    let table = table_of_pairs(alloc)?;
    keep_sizes(alloc, &table)
}

fn measured_across(table: &Table) -> Result<[usize; 4], TableError> {
    let (records, config) = (table.get_records(), table.get_config().as_ref());
    Ok([
        Measurement::<Width>::measure(&9, records, config)?,
        Measurement::<Width>::measure(&Max, records, config)?,
        Measurement::<Width>::measure(&Min, records, config)?,
        Measurement::<Width>::measure(&Percent(50), records, config)?,
    ])
}

fn list_across(alloc: Global, table: &mut Table) -> Result<Found, TableError> {
    let is_measured = measured_across(table)? == [9, 3, 1, 6];
    table.with(Width::list(alloc, [6, 5])?)?;
    Ok(whole_if(is_measured && table.total_width()? == 14))
}

// Measures widths, and sets a list of widths.
fn across(alloc: Global) -> Result<Found, TableError> {
    let mut table = table_of_pairs(alloc)?;
    list_across(alloc, &mut table)
}

fn measured_down(table: &Table) -> Result<[usize; 4], TableError> {
    let (records, config) = (table.get_records(), table.get_config().as_ref());
    Ok([
        Measurement::<Height>::measure(&9, records, config)?,
        Measurement::<Height>::measure(&Max, records, config)?,
        Measurement::<Height>::measure(&Min, records, config)?,
        Measurement::<Height>::measure(&Percent(50), records, config)?,
    ])
}

fn list_down(alloc: Global, table: &mut Table) -> Result<Found, TableError> {
    let is_measured = measured_down(table)? == [9, 1, 1, 2];
    table.with(Height::list(alloc, [2, 3])?)?;
    Ok(whole_if(is_measured && table.total_height()? == 8))
}

// Measures heights, and sets a list of heights.
fn down(alloc: Global) -> Result<Found, TableError> {
    let mut table = table_of_pairs(alloc)?;
    list_down(alloc, &mut table)
}

/// Runs a call by name, and returns its outcome.
pub fn handled(alloc: Global, name: &str) -> Result<Found, TableError> {
    match name {
        "texts" => narrowed(alloc),
        "rows" => added(alloc),
        "rows of texts" => given(alloc),
        "rows read ahead" => buffered(alloc),
        "parts" => chosen(alloc),
        "single values" => single(alloc),
        "integers" => integers(alloc),
        "held values" => held(alloc),
        "settings" => configured(alloc),
        "sizes" => estimated(alloc),
        "given sizes" => sized(alloc),
        "widths" => across(alloc),
        _ => down(alloc),
    }
}
