//! Tests texts and tables that are wrapped between words.
use crate::showing::{assert_text, picture};
use std::alloc::AllocError;
use std::test::Fail;
use tabled_text::wrap_words;
use test_table_uses::word_wrapped;

// A string, a width, and the string wrapped between words. Each comment says what is special.
const WRAPPED: [(&str, usize, &str); 17] = [
    // A full line, and then a space.
    ("over the weir", 8, "over the\nweir"),
    ("over the weir", 9, "over the\nweir"),
    // Of two spaces at a break, one is dropped.
    ("the  quick", 5, "the \nquick"),
    ("a  b", 1, "a\n\nb"),
    // A word wider than a line goes on after the word before it.
    ("a longerword b", 4, "a lo\nnger\nword\nb"),
    ("the  quick", 3, "the\n qu\nick"),
    // Spaces at the beginning and at the end.
    (" a b ", 3, " a\nb "),
    (" hello", 5, "\nhello"),
    ("hello ", 5, "hello\n"),
    ("  ", 1, " \n"),
    // Each line is wrapped on its own.
    ("ab cd\nef gh", 2, "ab\ncd\nef\ngh"),
    ("ab\n\ncd ef", 4, "ab\n\ncd\nef"),
    // Wide characters.
    ("北京 東京", 5, "北京\n東京"),
    ("北京 a 東", 6, "北京 a\n東"),
    ("北 a", 1, "\u{FFFD}\na"),
    // No columns, and no text.
    ("a b", 0, ""),
    ("", 4, ""),
];

#[test]
fn a_line_feed_takes_the_place_of_a_space(rt: HostRuntime) -> Result<(), AllocError> {
    for (text, n, want) in WRAPPED {
        let found = wrap_words(rt.alloc(), text, n)?;
        assert!(rt; found.as_str() == want, "{text} at {n}");
    }
    Ok(())
}

// The first column has 8 columns for its text.
const WEIR: &str = picture! {
    "+----------+---+"
    "| over the | a |"
    "| weir     |   |"
    "+----------+---+"
};

#[test]
fn no_line_of_a_cell_begins_with_the_space_of_a_break(rt: HostRuntime) -> Result<(), Fail> {
    assert_text(&rt, word_wrapped(rt.alloc(), 16), WEIR)
}
