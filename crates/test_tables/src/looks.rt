//! Styles, alignments, and options and parts that are joined.

use crate::showing::{assert_text, picture};
use std::test::Fail;
use tabled_base::{Cell, Columns, Rows, Settings};
use tabled_config::{HorizontalLine, Style};
use tabled_set::{Alignment, Height, Padding};
use tabled_table::Modify;
use test_table_uses::{changed_by, modified_by};

const ROUNDED: &str = picture! {
    "╭──────┬──────╮"
    "│ City │ Born │"
    "├──────┼──────┤"
    "│ Ada  │ 1815 │"
    "╰──────┴──────╯"
};

#[test]
fn rounded_has_a_line_below_the_first_row(rt: HostRuntime) -> Result<(), Fail> {
    assert_text(&rt, changed_by(rt.alloc(), Style::rounded()), ROUNDED)?;
    assert_text(
        &rt,
        changed_by(rt.alloc(), Style::modern_rounded()),
        ROUNDED,
    )
}

const SHARP: &str = picture! {
    "┌──────┬──────┐"
    "│ City │ Born │"
    "├──────┼──────┤"
    "│ Ada  │ 1815 │"
    "└──────┴──────┘"
};

#[test]
fn sharp_is_modern_with_its_line_by_index(rt: HostRuntime) -> Result<(), Fail> {
    let line = HorizontalLine::inherit(Style::modern());
    let lined = Style::modern().remove_horizontal().horizontals([(1, line)]);
    assert_text(&rt, changed_by(rt.alloc(), Style::sharp()), SHARP)?;
    assert_text(&rt, changed_by(rt.alloc(), lined), SHARP)
}

const RE_STRUCTURED_TEXT: &str = picture! {
    "====== ======"
    " City   Born "
    "====== ======"
    " Ada    1815 "
    "====== ======"
};

#[test]
fn re_structured_text_has_three_lines(rt: HostRuntime) -> Result<(), Fail> {
    let drawn = changed_by(rt.alloc(), Style::re_structured_text());
    assert_text(&rt, drawn, RE_STRUCTURED_TEXT)
}

const ASCII_ROUNDED: &str = picture! {
    ".-------------."
    "| City | Born |"
    "| Ada  | 1815 |"
    "'-------------'"
};

#[test]
fn ascii_rounded_has_no_line_between_rows(rt: HostRuntime) -> Result<(), Fail> {
    let drawn = changed_by(rt.alloc(), Style::ascii_rounded());
    assert_text(&rt, drawn, ASCII_ROUNDED)
}

const BLANK: &str = picture! {
    " City   Born "
    " Ada    1815 "
};

#[test]
fn blank_has_a_space_between_columns(rt: HostRuntime) -> Result<(), Fail> {
    assert_text(&rt, changed_by(rt.alloc(), Style::blank()), BLANK)
}

const WITHOUT_FRAME: &str = picture! {
    " City │ Born "
    "──────┼──────"
    " Ada  │ 1815 "
};

#[test]
fn a_line_by_index_ends_where_the_frame_was(rt: HostRuntime) -> Result<(), Fail> {
    let drawn = changed_by(rt.alloc(), Style::sharp().remove_frame());
    assert_text(&rt, drawn, WITHOUT_FRAME)
}

const ONE_CELL_WIDE: &str = picture! {
    "┌────────────┐"
    "│ City  Born │"
    "[════════════]"
    "│ Ada   1815 │"
    "└────────────┘"
};

// The intersection isn't drawn, and of two lines the latest counts.
#[test]
fn removed_columns_leave_lines_without_intersections(rt: HostRuntime) -> Result<(), Fail> {
    let first = HorizontalLine::new('-');
    let next = HorizontalLine::new('═')
        .left('[')
        .intersection('+')
        .right(']');
    let lined = Style::modern().horizontals([(1, first), (1, next)]);
    let drawn = changed_by(rt.alloc(), lined.remove_horizontal().remove_vertical());
    assert_text(&rt, drawn, ONE_CELL_WIDE)
}

const ONLY_BARS: &str = picture! {
    "│ City │ Born │"
    "│ Ada  │ 1815 │"
};

#[test]
fn ends_are_removed_one_by_one(rt: HostRuntime) -> Result<(), Fail> {
    let bars = Style::sharp()
        .remove_top()
        .remove_bottom()
        .remove_horizontals();
    assert_text(&rt, changed_by(rt.alloc(), bars), ONLY_BARS)
}

const AT_THE_RIGHT: &str = picture! {
    "+------+------+"
    "| City | Born |"
    "+------+------+"
    "|  Ada | 1815 |"
    "+------+------+"
};

#[test]
fn a_column_is_aligned_in_three_ways(rt: HostRuntime) -> Result<(), Fail> {
    let alloc = rt.alloc();
    let part = Modify::new(Columns::first()).with(Alignment::right());
    let drawn = modified_by(alloc, Columns::first(), Alignment::right());
    assert_text(&rt, drawn, AT_THE_RIGHT)?;
    assert_text(&rt, changed_by(alloc, part), AT_THE_RIGHT)?;
    assert_text(&rt, changed_by(alloc, Alignment::right()), AT_THE_RIGHT)
}

const AT_THE_BOTTOM: &str = picture! {
    "+----+----+"
    "|    |    |"
    "|City|Born|"
    "+----+----+"
    "|    |    |"
    "| Ada|1815|"
    "+----+----+"
};

#[test]
fn settings_apply_all_of_their_options(rt: HostRuntime) -> Result<(), Fail> {
    let settings = Settings::new(Padding::zero(), Alignment::bottom())
        .with(Alignment::right())
        .with(Height::increase(7));
    assert_text(&rt, changed_by(rt.alloc(), settings), AT_THE_BOTTOM)
}

const MARKED: &str = picture! {
    "+------+------+"
    "|:City:| Born |"
    "+------+------+"
    "|:Ada :|:1815:|"
    "+------+------+"
};

#[test]
fn a_union_names_both_of_its_parts(rt: HostRuntime) -> Result<(), Fail> {
    let marks = Padding::new(1, 1, 0, 0).fill(':', ':', ' ', ' ');
    let parts = Cell::new(0, 0).and(Rows::last()).and(Columns::one(7));
    assert_text(&rt, modified_by(rt.alloc(), parts, marks), MARKED)
}
