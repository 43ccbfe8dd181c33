//! Tests functions on strings: width, plain strings, cutting, and wrapping into the fewest lines.
use tabled_text::{
    count_lines, cut_length, is_additive, is_additive_column, is_fullest, is_plain,
    is_plain_column, lines, text_width,
};

// A string, its width, and its number of lines.
const MEASURES: [(&str, usize, usize); 13] = [
    ("", 0, 1),
    ("a", 1, 1),
    ("中", 2, 1),
    ("a\nbcd\n", 3, 3),
    ("😳", 2, 1),
    ("e\u{301}", 1, 1),
    ("año 1", 5, 1),
    ("север ς", 7, 1),
    ("\u{430}\u{483}", 1, 1),
    ("\u{A0}山水", 5, 1),
    ("한글", 4, 1),
    ("中\u{3099}", 2, 1),
    ("\n", 0, 2),
];

#[test]
fn a_text_is_as_wide_as_its_widest_line(rt: HostRuntime) {
    for (text, columns, count) in MEASURES {
        let found = (text_width(text), count_lines(text));
        assert!(rt; found == (columns, count), "at {text}");
    }
}

#[test]
fn an_empty_line_is_a_line(rt: HostRuntime) {
    let mut left = lines("\nb");
    assert_eq!(rt; left.next(), Some(""));
    assert_eq!(rt; left.next(), Some("b"));
    assert_eq!(rt; left.next(), None);
}

#[test]
fn listed_characters_and_line_feeds_are_plain(rt: HostRuntime) {
    assert!(rt; is_plain("Hello, мир 中文 ─│┼╿ ÀÿÑ \u{FFFD}\n"));
}

// Dashes, dots, daggers, blocks and braille.
const DRAWN: [&str; 13] = [
    "‐", "‗", "‚", "‛", "„", "‧", "†", "•", "…", "▀", "▟", "\u{2800}", "⣿",
];

#[test]
fn what_borders_and_fills_are_drawn_with_is_additive_but_not_plain(rt: HostRuntime) {
    for text in DRAWN {
        assert!(rt; !is_plain(text) && is_additive(text), "at {text}");
    }
}

const OTHERS: [&str; 12] = [
    "a\tb", "e\u{301}", "あ", "😳", "\u{200F}", "‘", "’", "“", "”", "\u{2028}", "■", "⤀",
];

#[test]
fn other_characters_are_not_plain(rt: HostRuntime) {
    for text in OTHERS {
        assert!(rt; !is_plain(text) && !is_additive(text), "at {text}");
    }
}

// `…` and `▀` are one column wide, but not plain.
const ONE_COLUMN: [(char, bool); 12] = [
    ('a', true),
    (' ', true),
    ('я', true),
    ('─', true),
    ('#', true),
    ('…', false),
    ('▀', false),
    ('⣿', false),
    ('中', false),
    ('あ', false),
    ('\t', false),
    ('\n', false),
];

#[test]
fn plain_columns_are_characters_of_one_column(rt: HostRuntime) {
    for (c, want) in ONE_COLUMN {
        assert!(rt; is_plain_column(c) == want, "at {c:?}");
    }
}

#[test]
fn dots_blocks_and_braille_are_additive_columns(rt: HostRuntime) {
    for c in ['…', '▀', '⣿', '─', 'a', '#'] {
        assert!(rt; is_additive_column(c), "at {c}");
    }
}

// A string, a width, and the length in bytes of a cut that needs no fill.
const CUTS: [(&str, usize, Option<usize>); 8] = [
    ("123\n456789", 4, Some(8)),
    ("123\n45", 3, Some(3)),
    ("😳😳😳😳😳", 4, Some(8)),
    ("😳😳😳😳😳", 3, None),
    ("中", 1, None),
    ("ﾃｽﾄﾃｽﾄ", 4, Some(12)),
    ("abc", 0, Some(0)),
    ("", 5, Some(0)),
];

#[test]
fn a_cut_without_filling_is_a_beginning(rt: HostRuntime) {
    for (text, n, want) in CUTS {
        assert!(rt; cut_length(text, n) == want, "{text} at {n}");
    }
}

// A string, a wrapping, the width, whether words are kept, and whether the wrapping is fullest.
const WRAPPINGS: [(&str, &str, usize, bool, bool); 14] = [
    ("111 234 1", "111 \n234 \n1", 4, true, true),
    ("ab", "a\nb", 2, false, false),
    ("中", "�", 1, false, false),
    ("a", "", 0, false, false),
    ("", "", 0, false, false),
    ("", "", 1, false, true),
    ("ab", "ab", 2, false, true),
    ("ab", "ab\n", 2, false, false),
    ("ab", "abc", 2, false, false),
    ("ab", "a", 2, false, false),
    ("abc 中", "abc \n中", 4, true, true),
    ("a 中", "a \n�", 1, true, false),
    ("ab cd", "ab \ncd", 3, true, true),
    ("ab cd", "ab\n cd", 3, true, false),
];

#[test]
fn only_the_wrapping_of_units_that_fit_is_fullest(rt: HostRuntime) {
    for (text, wrapped, n, words, want) in WRAPPINGS {
        let found = is_fullest(text, wrapped, n, words);
        assert!(rt; found == want, "{text} at {n}");
    }
}
