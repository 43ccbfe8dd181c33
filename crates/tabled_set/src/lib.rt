//! Options that change the widths and heights of a table, its margin and its padding, and the
//! measurements that they read.
//!
//! Measurements:
//! - `measurement`: the trait `Measurement`, with `Max`, `Min` and `Percent`, and the directions
//!   `Width` and `Height`, which create options
//!
//! Options:
//! - `resize`: `Resize`, the type of the options that change widths and heights, with the trait
//!   `TextTransform`, the cells that are changed, and the change of one
//! - `wrap`, `word_wrap`, `truncate`, `min_width`: `Wrap`, `WordWrap`, `Truncate` with
//!   `SuffixLimit`, `MinWidth`, and `Justify`, which makes all cells equally wide
//! - `heights`: `CellHeightIncrease`, `CellHeightLimit`, `TableHeightIncrease` and
//!   `TableHeightLimit`
//! - `sizes`: `WidthList` and `HeightList`; a table's sizes with their total, and lists that a
//!   priority has shrunk or grown
//! - `spaces`: `Margin` and `Padding`; `alignment`: `Alignment`
//! - `laws`: facts about truncated texts
//!
//! Changing cells and tables:
//! - `walk`: changes the cells of an entity, row by row or column by column
//! - `saved_cells`: copies of cells, which are put back if a change fails
//! - `rewriting`: writes records anew, row by row, with some cells changed
//! - `narrowing`: the widths to which columns shrink, and the change of a table to them
//! - `narrowed_cells`: the cells of a narrowed table, for records that are only borrowed
#![tactic(auto)]

mod alignment;
mod heights;
pub mod laws;
mod measurement;
mod min_width;
mod narrowed_cells;
mod narrowing;
mod resize;
mod rewriting;
mod saved_cells;
mod sizes;
mod spaces;
mod truncate;
mod walk;
mod word_wrap;
mod wrap;

pub use alignment::Alignment;
pub use heights::{CellHeightIncrease, CellHeightLimit, TableHeightIncrease, TableHeightLimit};
pub use measurement::{Height, Max, Measurement, Min, Percent, Width};
pub use min_width::{Justify, MinWidth};
pub use narrowed_cells::NarrowedRows;
pub use resize::{CellFilter, Change, ContentSizes};
pub use rewriting::changed_records;
pub use saved_cells::{SavedCell, put_back, save_cells};
pub use sizes::{HeightList, WidthList};
pub use spaces::{Margin, Padding, PaddingExpand};
pub use truncate::{SuffixLimit, Truncate, Truncating, columns_beside};
pub use word_wrap::WordWrap;
pub use wrap::Wrap;
