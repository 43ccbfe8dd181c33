//! `Layout`, the numbers that describe the look of a table, and what they mean.
ghost use Rattle.std.specs.List.{All};
ghost use Rattle.std.specs.Prelude.{◌≡◌, ◌↔◌, IfErr, IfOk, MatchOption, OnOk, Some, true};
ghost use Rattle.tabled.specs.declared.arguments.Order.{Order};
ghost use Rattle.tabled.specs.declared.arguments.Plan.{Plan};
ghost use Rattle.tabled_base.specs.declared.error.TableError.TheVariants.{Memory};
ghost use Rattle.tabled_c.specs.Asked.{Asks, IsAlignment, StyleName, alignment_numbered, drawn};
ghost use Rattle.tabled_c.specs.Asked.{draws_header, order_number, style_number, style_of};
ghost use Rattle.tabled_c.specs.Asked.{with_alignments};
ghost use Rattle.tabled_c.specs.Printed.{IsLayoutCause, IsRead};
ghost use Rattle.tabled_config.specs.Options.{with_style};
ghost use Rattle.tabled_table.specs.NewConfig.{new_config};

use crate::error_code::ErrorCode;
use std::alloc::Global;
use tabled::grid::config::{AlignmentHorizontal, ColoredConfig, Entity, SpannedConfig, new_config};
use tabled::settings::{Style, TableOption};
use tabled::{Order, Plan, TableError};

/// How a table looks, and how it is narrowed. C passes a pointer to it.
#[derive(Clone, Copy, Debug)]
#[repr(C)]
pub struct Layout<'a> {
    /// The number of an alignment for each of the first columns: 0 left, 1 right, 2 centered. Other
    /// columns are aligned left.
    pub alignments: &'a [u8],
    /// The text of cells without a value, of a table of cells.
    pub null: &'a [u8],
    /// The total width to fit the table into, in columns; unless `fit` is 0.
    pub width: usize,
    /// The number of a style.
    pub style: u32,
    /// How a wider table is fitted into `width` columns: 0 not at all, 1 wraps its cells, 2 wraps
    /// them between words where possible, 3 truncates them.
    pub fit: u32,
    /// Which columns shrink first: 0 each in turn, 1 the narrowest, 2 the widest, 3 from the left,
    /// 4 from the right. Must be valid if `fit` is 0, too.
    pub order: u32,
    /// Whether the first row is a header. If it isn't, the style's line below it isn't drawn. A
    /// table of one row in a style with a bottom line ends with that line, also if it is a header.
    pub header: bool,
}

/// A style, whether the first row is a header, and a plan.
#[derive(Drop)]
pub(crate) struct Format {
    pub style: Style,
    pub header: bool,
    pub plan: Plan,
}

impl Layout<'_> {
    /// Returns the format that the layout asks for.
    pub(crate) fn read(&self) -> Result<Format, ErrorCode>
        ensures ok { IfOk result (IsRead self.now) }
        ensures err { IfErr result (IsLayoutCause self.now) }
    {
        let Some(style) = style_numbered(self.style) else {
            return Err(ErrorCode::NoStyle);
        };
        let Some(plan) = self.plan() else {
            return Err(ErrorCode::NoPlan);
        };
        if !are_alignments(self.alignments) {
            return Err(ErrorCode::NoAlignment);
        }
        let header = self.header;
        Ok(Format {
            style,
            header,
            plan,
        })
    }

    /// Returns the plan that the layout asks for.
    fn plan(&self) -> Option<Plan>
        ensures { (plan : Plan)
            → (result ≡ Some plan) ↔ Asks plan self.now.fit self.now.order self.now.width }
    {
        let target = self.width;
        let order = order_of(self.order)?;
        match self.fit {
            0 => Some(Plan::Buffered),
            1 => Some(Plan::Wrapped {
                target,
                words: false,
                order,
            }),
            2 => Some(Plan::Wrapped {
                target,
                words: true,
                order,
            }),
            3 => Some(Plan::Shortened { target, order }),
            _ => None,
        }
    }
}

/// Whether the style's line below the first row is drawn in a table of `rows` rows. Below a single
/// row it would take the place of the bottom line, if the style has one.
fn draws_header(style: &Style, header: bool, rows: usize) -> bool
    ensures { result ≡ draws_header header rows style.now }
{
    let replaces_bottom = rows == 1 && style.get_borders().bottom.is_some();
    header && !replaces_bottom
}

/// Returns the style as it is drawn in a table of `rows` rows.
pub(crate) fn drawn(style: Style, header: bool, rows: usize) -> Style
    ensures { result ≡ drawn header rows style }
{
    if draws_header(&style, header, rows) {
        style
    } else {
        style.remove_horizontals()
    }
}

/// Whether all numbers are those of alignments.
fn are_alignments(numbers: &[u8]) -> bool
    ensures { (result ≡ true) ↔ All IsAlignment numbers.now }
{
    numbers.iter().all(|number| *number <= 2)
}

fn style_numbered(number: u32) -> Option<Style>
    ensures { MatchOption result ((name : StyleName) → ¬ (number ≡ style_number name))
        (λ style. (name : StyleName) × (number ≡ style_number name) × (style ≡ style_of name)) }
{
    match number {
        0 => Some(Style::ascii()),
        1 => Some(Style::modern()),
        2 => Some(Style::sharp()),
        3 => Some(Style::rounded()),
        4 => Some(Style::modern_rounded()),
        5 => Some(Style::ascii_rounded()),
        6 => Some(Style::extended()),
        7 => Some(Style::markdown()),
        8 => Some(Style::psql()),
        9 => Some(Style::re_structured_text()),
        10 => Some(Style::blank()),
        11 => Some(Style::empty()),
        _ => None,
    }
}

fn order_of(number: u32) -> Option<Order>
    ensures { (order : Order) → (result ≡ Some order) ↔ (number ≡ order_number order) }
{
    match number {
        0 => Some(Order::Round),
        1 => Some(Order::Least),
        2 => Some(Order::Greatest),
        3 => Some(Order::Leftmost),
        4 => Some(Order::Rightmost),
        _ => None,
    }
}

fn alignment_of(number: u8) -> AlignmentHorizontal
    ensures { result ≡ alignment_numbered number }
{
    match number {
        0 => AlignmentHorizontal::Left,
        1 => AlignmentHorizontal::Right,
        _ => AlignmentHorizontal::Center,
    }
}

/// Sets the alignments of the first columns, by their numbers.
fn align_columns(config: &mut SpannedConfig, alignments: &[u8]) -> Result<(), TableError>
    ensures ok { OnOk result (config.new ≡ with_alignments 0 alignments.now config.old) }
    ensures only { IfErr result (λ e. e ≡ Memory) }
{
    'columns: for column in 0..alignments.len() {
        let alignment = alignment_of(alignments[column]);
        config.set_alignment_horizontal(Entity::Column(column), alignment)?;
    }
    Ok(())
}

/// Returns the settings of a table in a style, with the alignments of its first columns.
pub(crate) fn settings_of(
    alloc: Global,
    style: Style,
    alignments: &[u8],
) -> Result<ColoredConfig, TableError>
    ensures ok { IfOk result (λ settings. settings.config
        ≡ with_style (with_alignments 0 alignments.now new_config) style) }
    ensures only { IfErr result (λ e. e ≡ Memory) }
{
    let mut config = new_config(alloc);
    align_columns(&mut config, alignments)?;
    let mut settings = ColoredConfig::new(config);
    TableOption::change(style, &mut (), &mut settings, &mut ())?;
    Ok(settings)
}
