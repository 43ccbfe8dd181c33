//! The characters of a border (`Borders`) and of one horizontal line (`HorizontalLine`), the
//! vertical lines and the margin as printers read them (`Frame`), and the horizontal lines that are
//! set by index.
ghost use Rattle.std.specs.Cmp.{and_equiv, and_per, nat_eq_equiv, on_equiv, on_per};
ghost use Rattle.std.specs.Cmp.{partial_equiv_from_equiv};
ghost use Rattle.std.specs.Cmp.Lexicographic.{lists_equiv, lists_per, pointwise};
ghost use Rattle.std.specs.Prelude.{IfOk, IsTrue, None, OnErr, OnOk, Some, [], if◌then◌else◌, nat_eq};
ghost use Rattle.std.specs.Prelude.{ℕ};
ghost use Rattle.std.specs.Prelude.{◌&&◌, ◌==◌, ◌≡◌};
ghost use Rattle.tabled_config.specs.Frame.{border_at, frame_of, has_bar, has_inner, has_left};
ghost use Rattle.tabled_config.specs.Frame.{has_right, if_any, inner_line, line_of, no_borders};
ghost use Rattle.tabled_config.specs.Frame.{vertical_line};
ghost use Rattle.tabled_config.specs.Junction.{junction};
ghost use Rattle.tabled_config.specs.StyleChanges.{no_bottom, no_frame, no_horizontal, no_left};
ghost use Rattle.tabled_config.specs.StyleChanges.{no_right, no_top, no_vertical};
ghost use Rattle.tabled_config.specs.Lines.{line_set, with_line};
ghost use Rattle.tabled_config.specs.contracts.borders.HorizontalLineEq.TheImpl.Laws.{laws-law as line_eq};
ghost use Rattle.tabled_config.specs.contracts.borders.HorizontalLinePartialEq.TheImpl.Laws.{laws-law as line_per};

use crate::sides::{Indent, Sides};
use crate::style::Style;
use std::alloc::{AllocError, Global};
use std::collections::BTreeMap;
use std::marker::Model;

/// The fifteen parts of a frame. A part that isn't set is a space if its line is drawn.
#[derive(Clone, Copy, Debug, PartialEq, Eq, PartialOrd, Ord, Hash)]
pub struct Borders<T> {
    /// The top line.
    pub top: Option<T>,
    /// The left end of the top line.
    pub top_left: Option<T>,
    /// The right end of the top line.
    pub top_right: Option<T>,
    /// Where a vertical line meets the top line.
    pub top_intersection: Option<T>,
    /// The bottom line.
    pub bottom: Option<T>,
    /// The left end of the bottom line.
    pub bottom_left: Option<T>,
    /// The right end of the bottom line.
    pub bottom_right: Option<T>,
    /// Where a vertical line meets the bottom line.
    pub bottom_intersection: Option<T>,
    /// The lines between rows.
    pub horizontal: Option<T>,
    /// The lines between columns.
    pub vertical: Option<T>,
    /// The left line.
    pub left: Option<T>,
    /// The right line.
    pub right: Option<T>,
    /// Where a line between rows meets the left line.
    pub left_intersection: Option<T>,
    /// Where a line between rows meets the right line.
    pub right_intersection: Option<T>,
    /// Where a line between rows meets one between columns.
    pub intersection: Option<T>,
}

/// The characters of one horizontal line.
#[derive(Clone, Copy, Debug, PartialEq, Eq, PartialOrd, Ord, Hash)]
pub struct HorizontalLine {
    /// The line itself, across the columns.
    pub main: Option<char>,
    /// At the left vertical line.
    pub left: Option<char>,
    /// At each vertical line between columns.
    pub intersection: Option<char>,
    /// At the right vertical line.
    pub right: Option<char>,
}

impl HorizontalLine {
    /// Makes a line of one character. Where it meets vertical lines it has spaces, until they are
    /// set.
    ///
    /// ```rust
    /// let line = HorizontalLine::new('═').left('╞').intersection('╪').right('╡');
    /// ```
    pub fn new(main: char) -> HorizontalLine
        ensures { result ≡ line_of main }
    {
        HorizontalLine {
            main: Some(main),
            left: None,
            intersection: None,
            right: None,
        }
    }

    /// Returns the line that a style has between all rows.
    pub fn inherit(style: Style) -> HorizontalLine
        ensures { result ≡ inner_line style.borders }
    {
        style.get_borders().inner_line()
    }

    /// Sets the character across the columns.
    pub fn horizontal(self, main: char) -> HorizontalLine
        ensures { result ≡ record self { main = Some main } }
    {
        HorizontalLine {
            main: Some(main),
            ..self
        }
    }

    /// Sets the character at the left vertical line.
    pub fn left(self, left: char) -> HorizontalLine
        ensures { result ≡ record self { left = Some left } }
    {
        HorizontalLine {
            left: Some(left),
            ..self
        }
    }

    /// Sets the character at each vertical line between columns.
    pub fn intersection(self, intersection: char) -> HorizontalLine
        ensures { result ≡ record self { intersection = Some intersection } }
    {
        HorizontalLine {
            intersection: Some(intersection),
            ..self
        }
    }

    /// Sets the character at the right vertical line.
    pub fn right(self, right: char) -> HorizontalLine
        ensures { result ≡ record self { right = Some right } }
    {
        HorizontalLine {
            right: Some(right),
            ..self
        }
    }

    /// Returns the line if any of its characters is set.
    fn if_any(self) -> Option<HorizontalLine>
        ensures { result ≡ if_any self }
    {
        let any = self.main.is_some()
            || self.left.is_some()
            || self.intersection.is_some()
            || self.right.is_some();
        any.then_some(self)
    }
}

impl<T> Borders<T> {
    /// Creates borders without lines.
    pub fn empty() -> Borders<T>
        ensures { result ≡ no_borders }
    {
        Borders {
            top: None,
            top_left: None,
            top_right: None,
            top_intersection: None,
            bottom: None,
            bottom_left: None,
            bottom_right: None,
            bottom_intersection: None,
            horizontal: None,
            vertical: None,
            left: None,
            right: None,
            left_intersection: None,
            right_intersection: None,
            intersection: None,
        }
    }
}

impl<T: Copy> Borders<T> {
    /// Returns the character for the junction of lines that continue on the given sides. `None` on
    /// fewer than two sides and for a straight line, where no lines meet.
    pub fn junction(&self, left: bool, right: bool, up: bool, down: bool) -> Option<T>
        ensures { result ≡ junction self.now left right up down }
    {
        match (left, right, up, down) {
            (false, true, false, true) => self.top_left,
            (true, false, false, true) => self.top_right,
            (false, true, true, false) => self.bottom_left,
            (true, false, true, false) => self.bottom_right,
            (true, true, false, true) => self.top_intersection,
            (true, true, true, false) => self.bottom_intersection,
            (false, true, true, true) => self.left_intersection,
            (true, false, true, true) => self.right_intersection,
            (true, true, true, true) => self.intersection,
            _ => None,
        }
    }
}

impl Borders<char> {
    /// Whether the left vertical line is drawn: any of its characters is set.
    pub fn has_left(&self) -> bool
        ensures { result ≡ has_left self.now }
    {
        self.left.is_some()
            || self.top_left.is_some()
            || self.bottom_left.is_some()
            || self.left_intersection.is_some()
    }

    /// Whether the right vertical line is drawn: any of its characters is set.
    pub fn has_right(&self) -> bool
        ensures { result ≡ has_right self.now }
    {
        self.right.is_some()
            || self.top_right.is_some()
            || self.bottom_right.is_some()
            || self.right_intersection.is_some()
    }

    /// Whether vertical lines are drawn between columns: any of their characters is set.
    pub fn has_inner(&self) -> bool
        ensures { result ≡ has_inner self.now }
    {
        self.vertical.is_some()
            || self.intersection.is_some()
            || self.top_intersection.is_some()
            || self.bottom_intersection.is_some()
    }

    /// Returns the borders without the lines between rows.
    pub(crate) fn without_horizontal(self) -> Borders<char>
        ensures { result ≡ no_horizontal self }
    {
        Borders {
            horizontal: None,
            left_intersection: None,
            right_intersection: None,
            intersection: None,
            ..self
        }
    }

    /// Returns the borders without the lines between columns.
    pub(crate) fn without_vertical(self) -> Borders<char>
        ensures { result ≡ no_vertical self }
    {
        Borders {
            vertical: None,
            top_intersection: None,
            bottom_intersection: None,
            intersection: None,
            ..self
        }
    }

    /// Returns the borders without the top line.
    pub(crate) fn without_top(self) -> Borders<char>
        ensures { result ≡ no_top self }
    {
        Borders {
            top: None,
            top_left: None,
            top_right: None,
            top_intersection: None,
            ..self
        }
    }

    /// Returns the borders without the bottom line.
    pub(crate) fn without_bottom(self) -> Borders<char>
        ensures { result ≡ no_bottom self }
    {
        Borders {
            bottom: None,
            bottom_left: None,
            bottom_right: None,
            bottom_intersection: None,
            ..self
        }
    }

    /// Returns the borders without the left line.
    pub(crate) fn without_left(self) -> Borders<char>
        ensures { result ≡ no_left self }
    {
        Borders {
            left: None,
            top_left: None,
            bottom_left: None,
            left_intersection: None,
            ..self
        }
    }

    /// Returns the borders without the right line.
    pub(crate) fn without_right(self) -> Borders<char>
        ensures { result ≡ no_right self }
    {
        Borders {
            right: None,
            top_right: None,
            bottom_right: None,
            right_intersection: None,
            ..self
        }
    }

    /// Returns the borders without the lines on the four sides.
    pub(crate) fn without_frame(self) -> Borders<char>
        ensures { result ≡ no_frame self }
    {
        self.without_top()
            .without_bottom()
            .without_left()
            .without_right()
    }

    /// Returns the horizontal line above row `index` of `rows` rows, or below the last row for
    /// `index == rows`. `None` if none of its characters is set.
    pub fn line_at(&self, rows: usize, index: usize) -> Option<HorizontalLine>
        ensures { result ≡ border_at self.now rows index }
    {
        let line = if index == 0 {
            HorizontalLine {
                main: self.top,
                left: self.top_left,
                intersection: self.top_intersection,
                right: self.top_right,
            }
        } else if index == rows {
            HorizontalLine {
                main: self.bottom,
                left: self.bottom_left,
                intersection: self.bottom_intersection,
                right: self.bottom_right,
            }
        } else {
            self.inner_line()
        };
        line.if_any()
    }

    /// Returns the horizontal line between two rows. `None` if none of its characters is set.
    pub fn line_between(&self) -> Option<HorizontalLine>
        ensures { result ≡ if_any (inner_line self.now) }
    {
        self.inner_line().if_any()
    }

    /// Returns the characters of the lines between rows.
    fn inner_line(&self) -> HorizontalLine
        ensures { result ≡ inner_line self.now }
    {
        HorizontalLine {
            main: self.horizontal,
            left: self.left_intersection,
            intersection: self.intersection,
            right: self.right_intersection,
        }
    }
}

/// One vertical line of a frame.
#[derive(Clone, Copy, Debug, PartialEq, Eq)]
pub struct VerticalLine {
    /// Whether the line is drawn. It then takes one column of each line of the table.
    pub there: bool,
    /// Its character in the lines of rows; a space if none is set.
    pub main: char,
}

impl VerticalLine {
    fn new(there: bool, main: Option<char>) -> VerticalLine
        ensures { result ≡ vertical_line there main }
    {
        let main = main.unwrap_or(' ');
        VerticalLine { there, main }
    }
}

/// The margin and the vertical lines of a table.
#[derive(Clone, Copy, Debug, PartialEq, Eq)]
pub struct Frame {
    /// The margin around the table.
    pub margin: Sides<Indent>,
    /// The line before the first column.
    pub left: VerticalLine,
    /// The lines between columns.
    pub inner: VerticalLine,
    /// The line after the last column.
    pub right: VerticalLine,
}

impl Frame {
    /// Builds the frame from borders and a margin.
    pub fn new(borders: &Borders<char>, margin: Sides<Indent>) -> Frame
        ensures { result ≡ frame_of borders.now margin }
    {
        Frame {
            margin,
            left: VerticalLine::new(borders.has_left(), borders.left),
            inner: VerticalLine::new(borders.has_inner(), borders.vertical),
            right: VerticalLine::new(borders.has_right(), borders.right),
        }
    }

    /// Whether a vertical line separates `column` from the one before it. The left line doesn't
    /// count.
    pub fn has_bar(&self, column: usize) -> bool
        ensures { result ≡ has_bar self.now column }
    {
        column != 0 && self.inner.there
    }
}

/// Horizontal lines by index.
#[derive(Debug, Drop)]
pub struct HorizontalLines {
    lines: BTreeMap<usize, HorizontalLine>,
}

impl Model for HorizontalLines {
    ghost use Rattle.std.specs.Prelude.{ℕ, List};
    ghost use Rattle.tabled_config.specs.declared.borders.HorizontalLine.{HorizontalLine};

    ghost Value = { List (ℕ × HorizontalLine) };

    ghost view = { λ l. l.lines.entries };
}

impl HorizontalLines {
    pub fn new(alloc: Global) -> HorizontalLines
        ensures { result ≡ [] }
    {
        let lines = BTreeMap::new(alloc);
        HorizontalLines { lines }
    }

    pub fn clone(&self) -> Result<HorizontalLines, AllocError>
        ensures { IfOk result (λ copy. copy ≡ self.now) }
    {
        let lines = self.lines.clone()?;
        Ok(HorizontalLines { lines })
    }

    /// Sets the line at an index. Replacing a line doesn't allocate. On failure nothing changes.
    pub fn insert(&mut self, index: usize, line: HorizontalLine) -> Result<(), AllocError>
        ensures ok { OnOk result (self.new ≡ with_line self.old index line) }
        ensures latest { OnOk result ((i : ℕ) → line_set self.new i
            ≡ (if index == i then Some line else line_set self.old i)) }
        ensures err { OnErr result (self.new ≡ self.old) }
        ensures absent { OnErr result (line_set self.old index ≡ None) }
    {
        self.lines.insert(index, line)?;
        Ok(())
    }

    /// Whether no line is set.
    pub fn is_empty(&self) -> bool
        ensures { IsTrue result → self.now ≡ [] }
    {
        self.lines.is_empty()
    }

    pub fn get(&self, index: usize) -> Option<HorizontalLine>
        ensures { result ≡ line_set self.now index }
    {
        self.lines.get(&index).copied()
    }
}

impl PartialEq for HorizontalLines {
    ghost eq = { λ a b. pointwise (λ p q. nat_eq p.0 q.0
        && ⟦<HorizontalLine as PartialEq>⟧.eq p.1 q.1) a b };

    ghost laws = { lists_per (and_per (on_per (λ p. p.0) (partial_equiv_from_equiv nat_eq_equiv))
        (on_per (λ p. p.1) line_per)) };

    fn eq(&self, other: &HorizontalLines) -> bool {
        self.lines == other.lines
    }
}

impl Eq for HorizontalLines {
    ghost laws = { lists_equiv (and_equiv (on_equiv (λ p. p.0) nat_eq_equiv)
        (on_equiv (λ p. p.1) line_eq)) };
}
