//! Parts for programs of your own. Most programs need none of these types: each is a piece of a
//! printer, or a trait to implement.
ghost use Rattle.std.specs.Prelude.{⊤};

use std::alloc::Global;
use tabled::grid::config::{
    AlignmentHorizontal, ColoredConfig, CompactMultilineConfig, Entity, Formatting, SpannedConfig,
    new_config,
};
use tabled::grid::dimension::CompleteDimension;
use tabled::grid::records::into_records::TruncateContent;
use tabled::grid::records::{CutLentRows, IntoRecords, LentRows};
use tabled::grid::util::string::lines;
use tabled::grid::{print_estimated, print_standing};
use tabled::settings::peaker::Priority;
use tabled::settings::width::NarrowedRows;
use tabled::settings::{
    Alignment, Settings, StoredSizes, Style, TableOption, Title, TitleFit, Width,
};
use tabled::tables::{ExtendedTable, PoolTable, Template};
use tabled::{Order, Plan, Table, TableError, WriterSink, render};
use tabled_records::text_rows;

const CITIES: [[&str; 2]; 2] = [["City", "People"], ["Paris", "2103778"]];

/// A template of which nothing is promised.
#[derive(Drop)]
struct Numbered;

impl Template for Numbered {
    ghost answers = { λ _ _ _. ⊤ };

    ghost fails = { λ _ _. ⊤ };

    fn label(&self, alloc: Global, index: usize) -> Result<String, TableError> {
        Ok(format!(in alloc; "city {index}")?)
    }
}

/// No sizes, so none to clear.
#[derive(Drop)]
struct NoSizes;

impl StoredSizes for NoSizes {
    ghost clears = { λ _ _ _. ⊤ };

    fn clear_for(&mut self, _hint: Option<Entity>) {}
}

/// Records with labels of your own.
pub fn labels(alloc: Global) -> Result<String, TableError> {
    let table = ExtendedTable::from_rows(alloc, CITIES)?.template(Numbered);
    table.to_string()
}

/// A title by its fields.
pub fn title_fields(alloc: Global) -> Result<String, TableError> {
    let table = Table::nohead(alloc, [("Paris", "France"), ("Rome", "Italy")])?;
    table.to_titled_text(Title {
        text: "Two capitals of Europe",
        alignment: AlignmentHorizontal::Center,
        fit: TitleFit::Cut,
    })
}

/// A table printed to a writer that is borrowed. A proof then knows what the writer took.
pub fn borrowed_writer(alloc: Global) -> Result<String, TableError> {
    let table = Table::nohead(alloc, CITIES)?;
    let mut bytes: Vec<u8> = Vec::new(alloc);
    table.write_to(&mut WriterSink::new(&mut bytes))?;
    Ok(format!(in alloc; "{} bytes", bytes.len())?)
}

/// Lines of boxes that are each aligned alone.
pub fn formatting(alloc: Global) -> Result<String, TableError> {
    let mut config = CompactMultilineConfig::new();
    config.set_borders(Style::ascii().get_borders());
    config.set_alignment_horizontal(AlignmentHorizontal::Right);
    config.set_formatting(Formatting::new(false, false, true));
    let mut table = PoolTable::new(alloc, [["one\nthree"], ["seven"]])?;
    table.with(config)?;
    table.to_text()
}

/// A plan for `render`: how it narrows a table, and in which order columns give.
pub fn plan(alloc: Global) -> Result<String, TableError> {
    let plan = Plan::Wrapped {
        target: 20,
        words: true,
        order: Order::Greatest,
    };
    let rows = "Tab\tgoes to the next field\nEsc\tleaves the prompt\n";
    let mut out = String::new(alloc);
    render(alloc, rows, plan, &mut out)?;
    Ok(out)
}

/// The settings of a cell, by its row and column.
pub fn cell_style(alloc: Global) -> Result<String, TableError> {
    let mut table = Table::nohead(alloc, CITIES)?;
    table.with(Alignment::right())?;
    let style = table.get_config().as_ref().style_at(0, 1);
    let (left, right) = (style.padding.left.size, style.padding.right.size);
    Ok(format!(in alloc;
        "{left} + {right} columns of padding, {:?}",
        style.horizontal
    )?)
}

/// Two options as one, of settings without a table. Sizes of your own are cleared between them.
pub fn stored_sizes(alloc: Global) -> Result<String, TableError> {
    let mut config = ColoredConfig::new(new_config(alloc));
    let both = Settings::new(Style::psql(), Alignment::right());
    TableOption::change(both, &mut (), &mut config, &mut NoSizes)?;
    let records = text_rows(alloc, "City\tPeople\nParis\t2103778\n")?;
    let mut out = String::new(alloc);
    print_estimated(alloc, &mut out, &records, config.as_ref())?;
    Ok(out)
}

/// Rows that borrow their text, with the first column cut.
pub fn cut_rows(alloc: Global) -> Result<String, TableError> {
    let rows = text_rows(alloc, "City\tPeople\nParis\t2103778\n")?;
    let widths = Vec::from_array(alloc, [Some(2), None])?;
    let cut = CutLentRows::new(alloc, &rows, widths)?;
    let mut out = String::new(alloc);
    print_estimated(alloc, &mut out, &cut, &new_config(alloc))?;
    Ok(out)
}

/// Rows that borrow their text, narrowed. `narrowed` returns `None` if they aren't too wide.
pub fn narrowed_rows(alloc: Global) -> Result<String, TableError> {
    let rows = text_rows(
        alloc,
        "Tab\tgoes to the next field\nEsc\tleaves the prompt\n",
    )?;
    let mut out = String::new(alloc);
    print_narrowed(&mut out, &rows, &new_config(alloc))?;
    Ok(out)
}

/// Prints rows that are truncated to 20 columns.
fn print_narrowed(
    out: &mut String,
    rows: &LentRows<'_>,
    config: &SpannedConfig,
) -> Result<(), TableError> {
    let mut sizes = CompleteDimension::new(*out.allocator());
    let narrow = Width::truncate(20).priority(Priority::max(true));
    let narrowed = narrow.narrowed(rows, config, &mut sizes)?;
    sizes.clear_height();
    print_either(out, rows, narrowed.as_ref(), config, &sizes)
}

/// Prints the narrowed rows, or the old ones if there are none.
fn print_either(
    out: &mut String,
    rows: &LentRows<'_>,
    narrowed: Option<&NarrowedRows<'_, '_>>,
    config: &SpannedConfig,
    sizes: &CompleteDimension,
) -> Result<(), TableError> {
    match narrowed {
        Some(NarrowedRows::Cut(cells)) => print_standing(out, cells, config, sizes),
        Some(NarrowedRows::Wrapped(cells)) => print_standing(out, cells, config, sizes),
        Some(NarrowedRows::Made(cells)) => print_standing(out, cells, config, sizes),
        None => print_standing(out, rows, config, sizes),
    }
}

/// Cells of any rows, each cut when its text is asked for.
pub fn cut_cells(alloc: Global) -> Result<String, TableError> {
    let mut out = String::new(alloc);
    for row in TruncateContent::new(CITIES, &[2, 4]).iter_rows() {
        for cell in row {
            out.push_str(&cell.text(alloc)?)?;
            out.push(';')?;
        }
    }
    Ok(out)
}

/// The lines of a text.
pub fn text_lines(alloc: Global) -> Result<String, TableError> {
    let mut out = String::new(alloc);
    for line in lines("one\nthree\n") {
        write!(out, "[{line}]")?;
    }
    Ok(out)
}
