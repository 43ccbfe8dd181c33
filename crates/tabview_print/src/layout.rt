//! How rows are laid out.
ghost use Rattle.std.specs.Prelude.{◌≡◌, IfErr, IfOk, OnOk};
ghost use Rattle.tabled_base.specs.declared.error.TableError.TheVariants.{Memory};
ghost use Rattle.tabled_config.specs.Options.{colored};
ghost use Rattle.tabview_print.specs.Layouts.{settings_of, side_at, with_side};

use std::alloc::Global;
use tabled_base::{Entity, TableError, TableOption};
use tabled_config::{AlignmentHorizontal, ColoredConfig, SpannedConfig, Style};
use tabled_table::new_config;

/// What happens to a text that is wider than its column.
#[derive(Clone, Copy, Debug, PartialEq, Eq)]
pub enum Narrowing {
    /// It is wrapped between words.
    Wrap,
    /// It is cut, and ends in `…`.
    Cut,
}

/// A column of a table.
#[derive(Clone, Copy, Debug, PartialEq, Eq)]
pub struct Column {
    /// How its cells are aligned.
    pub side: AlignmentHorizontal,
    /// Whether it keeps the width of its widest cell, where other columns give.
    pub keeps: bool,
}

/// The layout of a table.
#[derive(Debug, Drop)]
pub struct Layout {
    /// Its lines.
    pub style: Style,
    /// The columns that it may take, if it is fitted.
    pub width: Option<usize>,
    /// What happens to cells that are too wide.
    pub narrowing: Narrowing,
    /// Its columns. Further ones are left-aligned and give.
    pub columns: Vec<Column>,
    /// Whether the first row has the names of the columns.
    pub has_header: bool,
}

/// How a table is fitted to a width.
#[derive(Clone, Copy, Debug)]
pub(crate) struct Fit<'a> {
    pub columns: &'a [Column],
    pub has_header: bool,
    pub narrowing: Narrowing,
    pub width: usize,
}

/// Returns the settings of a table: its style, and how its columns are aligned. Fails only
/// with `Memory`.
pub(crate) fn settings(
    alloc: Global,
    style: Style,
    columns: &[Column],
) -> Result<ColoredConfig, TableError>
    ensures ok { IfOk result (λ config. config ≡ colored (settings_of style columns.now)) }
    ensures only { IfErr result (λ e. e ≡ Memory) }
{
    let mut config = new_config(alloc);
    for column in 0..columns.len() {
        let side = side_at(columns, column);
        set_side(&mut config, column, side)?;
    }
    let mut config = ColoredConfig::new(config);
    TableOption::change(style, &mut (), &mut config, &mut ())?;
    Ok(config)
}

/// Returns how a column is aligned.
fn side_at(columns: &[Column], column: usize) -> AlignmentHorizontal
    ensures { result ≡ side_at columns.now column }
{
    if column < columns.len() {
        return columns[column].side;
    }
    AlignmentHorizontal::Left
}

/// Sets how a column is aligned. By default it is left-aligned.
fn set_side(
    config: &mut SpannedConfig,
    column: usize,
    side: AlignmentHorizontal,
) -> Result<(), TableError>
    ensures ok { OnOk result (config.new ≡ with_side config.old column side) }
    ensures only { IfErr result (λ e. e ≡ Memory) }
{
    let entity = Entity::Column(column);
    match side {
        AlignmentHorizontal::Left => Ok(()),
        AlignmentHorizontal::Center | AlignmentHorizontal::Right => {
            config.set_alignment_horizontal(entity, side)
        }
    }
}
