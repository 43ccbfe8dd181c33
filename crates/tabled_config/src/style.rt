//! Border styles: ready-made ones, and what is taken out of them (`Style`).
ghost use Rattle.std.specs.Prelude.{◌≡◌};
ghost use Rattle.tabled_config.specs.Styles.{ascii, ascii_rounded, blank, boxed, extended, framed};
ghost use Rattle.tabled_config.specs.Styles.{line, markdown, modern, modern_rounded, no_style, psql};
ghost use Rattle.tabled_config.specs.Styles.{re_structured_text, rounded, sharp, style_line};
ghost use Rattle.tabled_config.specs.StyleChanges.{without_bottom, without_frame, without_horizontal};
ghost use Rattle.tabled_config.specs.StyleChanges.{without_horizontals, without_left, without_right};
ghost use Rattle.tabled_config.specs.StyleChanges.{without_top, without_vertical};

use crate::borders::{Borders, HorizontalLine};
use crate::lined_style::LinedStyle;

/// A border style: the borders, and optionally a horizontal line below the first row.
#[derive(Debug, Drop)]
pub struct Style {
    borders: Borders<char>,
    below_first: Option<HorizontalLine>,
}

// A complete horizontal line. The parameters are in drawing order.
fn line(left: char, main: char, intersection: char, right: char) -> HorizontalLine
    ensures { result ≡ line left main intersection right }
{
    HorizontalLine {
        main: Some(main),
        left: Some(left),
        intersection: Some(intersection),
        right: Some(right),
    }
}

// A frame of three horizontal lines, with one character for all vertical lines.
fn frame(top: HorizontalLine, inner: HorizontalLine, bottom: HorizontalLine, bar: char) -> Style
    ensures { result ≡ framed top inner bottom bar }
{
    Style {
        borders: Borders {
            top: top.main,
            top_left: top.left,
            top_right: top.right,
            top_intersection: top.intersection,
            bottom: bottom.main,
            bottom_left: bottom.left,
            bottom_right: bottom.right,
            bottom_intersection: bottom.intersection,
            horizontal: inner.main,
            vertical: Some(bar),
            left: Some(bar),
            right: Some(bar),
            left_intersection: inner.left,
            right_intersection: inner.right,
            intersection: inner.intersection,
        },
        below_first: None,
    }
}

// A frame with a line below the first row and none between others.
fn boxed(top: HorizontalLine, below: HorizontalLine, bottom: HorizontalLine, bar: char) -> Style
    ensures { result ≡ boxed top below bottom bar }
{
    let none = HorizontalLine {
        main: None,
        left: None,
        intersection: None,
        right: None,
    };
    Style {
        borders: frame(top, none, bottom, bar).borders,
        below_first: Some(below),
    }
}

impl Style {
    /// Lines of `-` and `|`, joined by `+`.
    pub fn ascii() -> Style
        ensures { result ≡ ascii }
    {
        let rule = line('+', '-', '+', '+');
        frame(rule, rule, rule, '|')
    }

    /// Thin lines of box characters.
    pub fn modern() -> Style
        ensures { result ≡ modern }
    {
        let top = line('┌', '─', '┬', '┐');
        let inner = line('├', '─', '┼', '┤');
        let bottom = line('└', '─', '┴', '┘');
        frame(top, inner, bottom, '│')
    }

    /// Thin lines of box characters: a frame, and one line below the first row.
    pub fn sharp() -> Style
        ensures { result ≡ sharp }
    {
        let top = line('┌', '─', '┬', '┐');
        let below = line('├', '─', '┼', '┤');
        let bottom = line('└', '─', '┴', '┘');
        boxed(top, below, bottom, '│')
    }

    /// A frame with round corners, and one line below the first row.
    pub fn rounded() -> Style
        ensures { result ≡ rounded }
    {
        let top = line('╭', '─', '┬', '╮');
        let below = line('├', '─', '┼', '┤');
        let bottom = line('╰', '─', '┴', '╯');
        boxed(top, below, bottom, '│')
    }

    /// A frame with round corners, and lines between all rows.
    pub fn modern_rounded() -> Style
        ensures { result ≡ modern_rounded }
    {
        let top = line('╭', '─', '┬', '╮');
        let inner = line('├', '─', '┼', '┤');
        let bottom = line('╰', '─', '┴', '╯');
        frame(top, inner, bottom, '│')
    }

    /// A frame of `-` and `|` with `.` and `'` at its corners, and bars between columns.
    pub fn ascii_rounded() -> Style
        ensures { result ≡ ascii_rounded }
    {
        let none = HorizontalLine {
            main: None,
            left: None,
            intersection: None,
            right: None,
        };
        let top = line('.', '-', '-', '.');
        let bottom = line('\'', '-', '-', '\'');
        frame(top, none, bottom, '|')
    }

    /// Double lines of box characters.
    pub fn extended() -> Style
        ensures { result ≡ extended }
    {
        let top = line('╔', '═', '╦', '╗');
        let inner = line('╠', '═', '╬', '╣');
        let bottom = line('╚', '═', '╩', '╝');
        frame(top, inner, bottom, '║')
    }

    /// Vertical lines of `|`, and one line below the first row.
    pub fn markdown() -> Style
        ensures { result ≡ markdown }
    {
        Style {
            borders: Borders {
                vertical: Some('|'),
                left: Some('|'),
                right: Some('|'),
                ..Borders::empty()
            },
            below_first: Some(line('|', '-', '|', '|')),
        }
    }

    /// Vertical lines of `|` between columns, and one line below the first row.
    pub fn psql() -> Style
        ensures { result ≡ psql }
    {
        Style {
            borders: Borders {
                vertical: Some('|'),
                ..Borders::empty()
            },
            below_first: Some(HorizontalLine {
                main: Some('-'),
                left: None,
                intersection: Some('+'),
                right: None,
            }),
        }
    }

    /// Lines of `=` above and below the table and below the first row, with spaces between columns.
    pub fn re_structured_text() -> Style
        ensures { result ≡ re_structured_text }
    {
        Style {
            borders: Borders {
                top: Some('='),
                top_intersection: Some(' '),
                bottom: Some('='),
                bottom_intersection: Some(' '),
                vertical: Some(' '),
                ..Borders::empty()
            },
            below_first: Some(HorizontalLine {
                main: Some('='),
                left: None,
                intersection: Some(' '),
                right: None,
            }),
        }
    }

    /// Spaces between columns.
    pub fn blank() -> Style
        ensures { result ≡ blank }
    {
        Style {
            borders: Borders {
                vertical: Some(' '),
                ..Borders::empty()
            },
            below_first: None,
        }
    }

    /// No lines.
    pub fn empty() -> Style
        ensures { result ≡ no_style }
    {
        Style {
            borders: Borders::empty(),
            below_first: None,
        }
    }

    /// Removes the lines between all rows. That below the first row of another style stays.
    ///
    /// ```rust
    /// table.with(Style::modern().remove_horizontal())?;
    /// ```
    pub fn remove_horizontal(self) -> Style
        ensures { result ≡ without_horizontal self }
    {
        let borders = self.borders.without_horizontal();
        Style { borders, ..self }
    }

    /// Removes the line below the first row that `sharp`, `rounded`, `markdown`, `psql` and
    /// `re_structured_text` have.
    pub fn remove_horizontals(self) -> Style
        ensures { result ≡ without_horizontals self }
    {
        Style {
            below_first: None,
            ..self
        }
    }

    /// Removes the lines between columns.
    pub fn remove_vertical(self) -> Style
        ensures { result ≡ without_vertical self }
    {
        let borders = self.borders.without_vertical();
        Style { borders, ..self }
    }

    /// Removes the line above the first row.
    pub fn remove_top(self) -> Style
        ensures { result ≡ without_top self }
    {
        let borders = self.borders.without_top();
        Style { borders, ..self }
    }

    /// Removes the line below the last row.
    pub fn remove_bottom(self) -> Style
        ensures { result ≡ without_bottom self }
    {
        let borders = self.borders.without_bottom();
        Style { borders, ..self }
    }

    /// Removes the line before the first column.
    pub fn remove_left(self) -> Style
        ensures { result ≡ without_left self }
    {
        let borders = self.borders.without_left();
        Style { borders, ..self }
    }

    /// Removes the line behind the last column.
    pub fn remove_right(self) -> Style
        ensures { result ≡ without_right self }
    {
        let borders = self.borders.without_right();
        Style { borders, ..self }
    }

    /// Removes the lines on all four sides.
    pub fn remove_frame(self) -> Style
        ensures { result ≡ without_frame self }
    {
        let borders = self.borders.without_frame();
        Style { borders, ..self }
    }

    /// Sets lines above rows, by the index of the row from 0, in place of that below the first row.
    /// The number of rows is the index of the line below the last one.
    ///
    /// ```rust
    /// let line = HorizontalLine::inherit(Style::modern());
    /// table.with(Style::modern().remove_horizontal().horizontals([(1, line)]))?;
    /// ```
    pub fn horizontals<const N: usize>(self, lines: [(usize, HorizontalLine); N]) -> LinedStyle<N>
        ensures { result ≡ record { borders = self.borders; lines = lines.entry } }
    {
        LinedStyle::new(self.borders, lines)
    }

    /// Returns the borders.
    pub fn get_borders(&self) -> Borders<char>
        ensures { result ≡ self.now.borders }
    {
        self.borders
    }

    /// Returns the line that the style sets above a row, if any. Rows count from 0.
    pub fn get_horizontal_line(&self, row: usize) -> Option<HorizontalLine>
        ensures { result ≡ style_line self.now row }
    {
        if row == 1 { self.below_first } else { None }
    }
}
