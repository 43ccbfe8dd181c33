//! Prints rows as a table that is fitted to a width, or while they are read. Records one below the
//! other are in `tabview_records`.
//!
//! - `layout`: how rows are laid out, and what keeps its width.
//! - `floors`: the widths below which columns don't shrink.
//! - `fitting`: a table that is fitted to a width.
//! - `markdown`: the line below the header of a table of Markdown.
//! - `stream`: rows that are printed while they are read.
//! - `fallback`: rows as a table, or one below the other.
//! - `styles`: the styles by their names.
#![tactic(auto)]

mod fallback;
mod fitting;
mod floors;
mod layout;
mod markdown;
mod stream;
mod styles;

pub use fallback::print_or_expand;
pub use fitting::print_table;
pub use layout::{Column, Layout, Narrowing};
pub use markdown::markdown_rule;
pub use stream::print_stream;
pub use styles::{is_markdown, style_for, style_of};
