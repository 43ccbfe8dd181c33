//! The settings of a table: borders, styles, alignments and configurations, and the lookups for
//! each cell.
//!
//! Borders and sides:
//! - `borders`: the characters of a border (`Borders`) and of one horizontal line
//!   (`HorizontalLine`), the vertical lines and the margin of a table (`Frame`), the horizontal
//!   lines set by index.
//! - `sides`: one value for each of the four sides (`Sides`), and a run of one character
//!   (`Indent`).
//!
//! Other plain values:
//! - `alignment`: the alignment of a text in its cell, and the flags for trimming and aligning its
//!   lines.
//! - `colored`: the configuration of a `Table`, and the strings before and after a coloured part.
//! - `style`: ready-made border styles, and what is removed from them; `lined_style`: a style with
//!   lines by index.
//!
//! Configurations:
//! - `compact`: one setting for all cells, of one line or of several.
//! - `spanned`: settings for the whole table, rows, columns and cells (`SpannedConfig`).
//!   - `spanned::entity_settings`: the padding, alignment and flags of an entity.
//!   - `spanned::row_styles`: the styles of a row, and whether cells or rows share their settings.
//! - `options`: configurations and styles as table options.
#![tactic(auto)]

mod alignment;
mod borders;
mod colored;
mod compact;
mod lined_style;
mod options;
mod sides;
mod spanned;
mod style;

pub use alignment::{AlignmentHorizontal, AlignmentVertical, Formatting};
pub use borders::{Borders, Frame, HorizontalLine, VerticalLine};
pub use colored::{ANSIStr, ColoredConfig};
pub use compact::{CompactConfig, CompactMultilineConfig};
pub use lined_style::LinedStyle;
pub use sides::{Indent, Sides};
pub use spanned::{CellStyle, RowStyles, SetStyles, SpannedConfig};
pub use style::Style;
