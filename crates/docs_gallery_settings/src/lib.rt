//! The pictures of the gallery that show a setting: what a new table looks like after it. Each is
//! made by a function of a few lines, which the page shows above it.
#![tactic(auto)]

mod alignments;
mod borders;
mod cell_widths;
mod given;
mod heights;
mod objects;
mod page;
mod spaces;
mod styles;
mod widths;

pub use page::all_pictures;
