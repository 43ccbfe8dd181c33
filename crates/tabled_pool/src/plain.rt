//! `PoolTable::is_plain` and `PoolTable::is_apart`: whether all lines are equally wide, and whether
//! anything is coloured.
ghost use Rattle.std.specs.Prelude.{IsTrue, map, option_map, unwrap_or, ◌↔◌, ◌≡◌};
ghost use Rattle.tabled_config.specs.Compact.{each_side};
ghost use Rattle.tabled_pool.specs.Colours.{AreNoMarks, IsNoMark, line_marks_of, mark_of, marks_of};
ghost use Rattle.tabled_pool.specs.Colours.{no_mark};
ghost use Rattle.tabled_pool.specs.Plain.{EachCharacter, EachFill, HasSeparator, HasSettings};
ghost use Rattle.tabled_pool.specs.Plain.{IsApartPool, IsOfKind, IsPlainPool, IsStraightPool};
ghost use Rattle.tabled_pool.specs.Pool.{borders_of, style_of};
ghost use Rattle.tabled_pool.specs.Tree.{EachText, EachTextIn, tree_of, trees};
ghost use Rattle.tabled_text.specs.Plain.{IsPlain};

use crate::pool_table::PoolTable;
use crate::tree::TableValue;
use tabled_config::{ANSIStr, Borders, Indent, Sides};
use tabled_text::{is_additive_column, is_plain, is_separator_column};

/// Whether the colour of a border is empty or not set.
fn is_uncolored_line(color: Option<ANSIStr<'static>>) -> bool
    ensures { IsTrue result ↔ IsNoMark (option_map mark_of color.entry) }
{
    color.is_none_or(|color| color.is_empty())
}

pub(crate) fn are_uncolored_lines(colors: &Borders<ANSIStr<'static>>) -> bool
    ensures { IsTrue result ↔ AreNoMarks (line_marks_of colors.now) }
{
    is_uncolored_line(colors.top_left)
        && is_uncolored_line(colors.top)
        && is_uncolored_line(colors.top_right)
        && is_uncolored_line(colors.bottom_left)
        && is_uncolored_line(colors.bottom)
        && is_uncolored_line(colors.bottom_right)
        && is_uncolored_line(colors.left)
        && is_uncolored_line(colors.right)
}

pub(crate) fn are_uncolored_sides(colors: &Sides<ANSIStr<'static>>) -> bool
    ensures { IsTrue result ↔ (marks_of colors.now ≡ each_side no_mark) }
{
    colors.left.is_empty()
        && colors.right.is_empty()
        && colors.top.is_empty()
        && colors.bottom.is_empty()
}

/// Which characters are asked for. All take one column.
#[derive(Clone, Copy)]
pub(crate) enum CharacterKind {
    /// Plain characters and separators, whose columns add up.
    Additive,
    /// Characters that join with no text beside them.
    Separator,
}

#[cycle(plain)]
fn are_plain_values(values: &[TableValue]) -> bool
    ensures { IsTrue result ↔ EachTextIn IsPlain (trees (map tree_of values.now)) }
{
    for value in values {
        if !is_plain_value(value) {
            return false;
        }
    }
    true
}

#[cycle(plain)]
fn is_plain_value(value: &TableValue) -> bool
    ensures { IsTrue result ↔ EachText IsPlain (tree_of value.now) }
{
    match value {
        TableValue::Cell(text) => is_plain(text.as_str()),
        TableValue::Row(children) => are_plain_values(children.as_slice()),
        TableValue::Column(children) => are_plain_values(children.as_slice()),
    }
}

/// Whether a character is of a kind. A missing one is a space.
fn is_of_kind(kind: CharacterKind, c: Option<char>) -> bool
    ensures { IsTrue result ↔ IsOfKind kind (unwrap_or c 32) }
{
    let c = c.unwrap_or(' ');
    match kind {
        CharacterKind::Additive => is_additive_column(c),
        CharacterKind::Separator => is_separator_column(c),
    }
}

fn are_borders(kind: CharacterKind, borders: &Borders<char>) -> bool
    ensures { IsTrue result ↔ EachCharacter (IsOfKind kind) borders.now }
{
    is_of_kind(kind, borders.top)
        && is_of_kind(kind, borders.bottom)
        && is_of_kind(kind, borders.left)
        && is_of_kind(kind, borders.right)
        && is_of_kind(kind, borders.top_left)
        && is_of_kind(kind, borders.top_right)
        && is_of_kind(kind, borders.bottom_left)
        && is_of_kind(kind, borders.bottom_right)
        && is_of_kind(kind, borders.top_intersection)
        && is_of_kind(kind, borders.bottom_intersection)
        && is_of_kind(kind, borders.left_intersection)
        && is_of_kind(kind, borders.right_intersection)
        && is_of_kind(kind, borders.intersection)
}

fn are_fills(kind: CharacterKind, sides: &Sides<Indent>) -> bool
    ensures { IsTrue result ↔ EachFill (IsOfKind kind) sides.now }
{
    is_of_kind(kind, Some(sides.left.fill))
        && is_of_kind(kind, Some(sides.right.fill))
        && is_of_kind(kind, Some(sides.top.fill))
        && is_of_kind(kind, Some(sides.bottom.fill))
}

impl PoolTable {
    /// Whether the characters of borders, padding and margin are of a kind, and nothing is
    /// coloured.
    fn has_settings(&self, kind: CharacterKind) -> bool
        ensures { IsTrue result ↔ HasSettings (IsOfKind kind) self.now }
    {
        are_borders(kind, self.config.get_borders())
            && are_fills(kind, self.config.get_padding())
            && are_fills(kind, self.config.get_margin())
            && are_uncolored_lines(self.config.get_borders_color())
            && are_uncolored_sides(self.config.get_padding_color())
            && are_uncolored_sides(self.config.get_margin_color())
    }

    fn has_separator(&self) -> bool
        ensures { IsTrue result ↔ HasSeparator (borders_of self.now) (style_of self.now.config) }
    {
        let padding = self.config.get_padding();
        self.config.get_borders().has_left() || padding.left.size > 0 || padding.right.size > 0
    }

    /// Whether the texts are plain, and the characters of borders, padding and margin are missing,
    /// or plain or separators of one column. Then all printed lines are equally wide and each text
    /// is in its rectangle, if each text has at least one column. This holds even if texts touch.
    ///
    /// Nothing may be coloured, except by an empty colour. Recurses at each level of the value.
    #[tactic(auto, using(crate::proofs::StraightPools::straight_plain))]
    pub fn is_plain(&self) -> bool
        ensures test { IsTrue result ↔ IsPlainPool self.now }
        ensures straight { IsTrue result → IsStraightPool self.now }
    {
        self.has_settings(CharacterKind::Additive) && is_plain_value(&self.value)
    }

    /// Whether the settings separate the texts, so that characters of different texts can't join.
    /// Then all printed lines are equally wide and each text is in its rectangle, if each text has
    /// at least one column.
    ///
    /// Returns `true` exactly if all of these hold, also for characters that aren't drawn:
    /// - Borders, padding and margin are missing or separators of one column, such as a space,
    ///   lines, blocks and dots, and printable ASCII except `#`, `*` and digits.
    /// - There is a vertical border or side padding between texts side by side.
    /// - Nothing is coloured, except by an empty colour.
    pub fn is_apart(&self) -> bool
        ensures { IsTrue result ↔ IsApartPool self.now }
    {
        self.has_settings(CharacterKind::Separator) && self.has_separator()
    }
}
