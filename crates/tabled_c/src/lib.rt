//! A static library for other languages: formats tables, and measures, truncates and wraps texts.
//! `include/fanlightnard.h` declares what C calls, and `bindings/c/fanlightnard.c` calls these
//! functions once it has checked pointers and lengths.
//!
//! A text is a pointer to UTF-8 and its length in bytes. Each call fills a buffer of the caller and
//! returns the number of bytes needed. A buffer that is too small is left untouched. A negative
//! result is an error, and leaves the buffer untouched, too. Everything that a call allocates is
//! freed before it returns.
//!
//! - `exports.rt`: the exported functions, and filling the buffer of the caller.
//! - `formatting.rt`: the text of a table of cells, and of one of tab-separated rows.
//! - `layout.rt`: how a table looks and is narrowed; `cells.rt`: cells by their ends.
//! - `printing.rt`: printing records under a plan; `error_code.rt`: error codes.
#![tactic(auto)]

mod cells;
mod error_code;
mod exports;
mod formatting;
mod layout;
mod printing;
#[cfg(test)]
mod tests;

pub use cells::PackedCells;
pub use exports::{
    fanlightnard_core_cells, fanlightnard_core_measure, fanlightnard_core_text,
    fanlightnard_core_truncate, fanlightnard_core_wrap,
};
pub use layout::Layout;
