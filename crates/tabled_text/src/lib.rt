//! Measures, cuts and wraps texts for a terminal.
//!
//! A column is what `unicode_width` counts, by Unicode Standard Annex 11. A text has one line more
//! than line feeds, and is as wide as its widest line. Cutting and wrapping count each character
//! alone, as at least 1 column, and so never look ahead. Only a word that wrapping doesn't break is
//! measured as a line. For additive texts, which include plain ones, both measures are equal.
//! Around separators, the columns of any texts add up.
//!
//! Measuring:
//! - `measure`: the columns and lines of a text, and an iterator over its lines.
//! - `letters`: the columns of letters by their bytes, and whether a text is letters alone.
//! - `runs`: runs of bytes within a range, and texts split at a byte.
//!
//! Making texts:
//! - `cut`: cuts a text to n columns.
//! - `wrap`: wraps a text to n columns.
//! - `word_wrap`: wraps a text between words, and drops the space at which a line is broken.
//! - `fewest_lines`: whether a text is another one wrapped, in the fewest lines.
//! - `sink`: where wrapping writes to, and copies of a character.
//!
//! Characters:
//! - `character`: what a character counts; plain, additive and separating characters.
//!
//! Laws, each the contract of a function:
//! - `laws`: additive texts, and cut and wrapped ones.
//! - `general_laws`: texts of any characters, around separators.
#![tactic(auto)]

mod character;
mod cut;
mod fewest_lines;
pub mod general_laws;
pub mod laws;
mod letters;
mod line_ends;
mod measure;
mod runs;
mod sink;
mod word_wrap;
mod wrap;

pub use character::{
    is_additive, is_additive_column, is_plain, is_plain_column, is_separator_column,
};
pub use cut::{append_cut, cut_length, cut_letters, cut_str, split_str};
pub use fewest_lines::is_fullest;
pub use letters::is_letter_text;
pub use line_ends::{LineEnds, first_line, measures_by_bytes, measures_in_place};
pub use measure::{
    TextLines, columns_between, count_lines, line_width, lines, text_measures, text_width,
};
pub use runs::run_end;
pub use sink::{copies, push_copies};
pub use word_wrap::{wrap_words, wrap_words_into};
pub use wrap::{fits_bytes, wrap_into, wrap_text};
