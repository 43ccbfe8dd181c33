//! Titles: a text above a table, over its total width.
ghost use Rattle.std.specs.Cow.{cow_str_bytes};
ghost use Rattle.std.specs.Prelude.{◌≡◌, ◌⊎◌, ◌++◌, ◌∷◌, [], ℕ, List, IfErr, IfOk, IsUtf8, OnOk};
ghost use Rattle.std.specs.Prelude.{false, string_bytes};
ghost use Rattle.tabled_base.specs.declared.error.TableError.TheVariants.{Memory};
ghost use Rattle.tabled_config.specs.declared.alignment.AlignmentHorizontal.TheVariants as horizontal;
ghost use Rattle.tabled_grid.specs.Picture.{table_text};
ghost use Rattle.tabled_grid.specs.Printed.{FailsToPrint, IsPrintableSheet};
ghost use Rattle.tabled_line.specs.Additive.{EachLineTakes};
ghost use Rattle.tabled_line.specs.Sent.{Sent, Writes};
ghost use Rattle.tabled_size.specs.Sheet.{is_empty};
ghost use Rattle.tabled_size.specs.Totals.{total_width};
ghost use Rattle.tabled_table.specs.Titled.{text_with_feeds, title_line, title_lines};

use crate::table::Table;
use std::alloc::{AllocError, Global};
use std::borrow::CowStr;
use tabled_base::TableError;
use tabled_config::{AlignmentHorizontal, Indent, Sides};
use tabled_grid::TextSink;
use tabled_line::{before_text, write_padded_text};
use tabled_text::{cut_str, line_width, lines, text_width, wrap_words};

/// What happens to a title that is wider than its table.
#[derive(Clone, Copy, Debug, PartialEq, Eq)]
pub enum TitleFit {
    /// It is wrapped between words.
    Wrap,
    /// It is cut.
    Cut,
}

/// A title above a table: a text over its total width, in columns, with side margins. A new one is
/// at the left, and is wrapped between words if it is wider than the table.
///
/// ```rust
/// table.to_titled_text(Title::new("Capitals of Europe").center())
/// ```
#[derive(Clone, Copy, Debug, PartialEq, Eq)]
pub struct Title<'a> {
    /// The text.
    pub text: &'a str,
    /// Where each of its lines is placed in the total width.
    pub alignment: AlignmentHorizontal,
    /// What happens if it is wider than the table.
    pub fit: TitleFit,
}

/// The title of a table, fitted to its total width, and the text of the table.
#[derive(Drop)]
struct TitledTable<'a> {
    title: CowStr<'a, Global>,
    width: usize,
    text: String,
}

/// Writes a line of a title, aligned in `width` columns, and a line feed.
fn write_title_line<S: TextSink>(
    sink: &mut S,
    alignment: AlignmentHorizontal,
    width: usize,
    line: &str,
) -> Result<(), TableError>
    ensures { Writes (S.sent sink.old) result (S.sent sink.new)
        (title_line alignment width line.now ++ 10 ∷ []) }
{
    let free = width.saturating_sub(line_width(line));
    let before = before_text(alignment, free);
    let behind = free.saturating_sub(before);
    let padding = Sides::filled(Indent::zero());
    write_padded_text(sink, &padding, before, line, behind)?;
    sink.write_text("\n")
}

/// Writes the lines of a title that fits in `width` columns, each with a line feed behind it.
fn write_title<S: TextSink>(
    sink: &mut S,
    alignment: AlignmentHorizontal,
    width: usize,
    fitted: &str,
) -> Result<(), TableError>
    ensures { Writes (S.sent sink.old) result (S.sent sink.new)
        (text_with_feeds (title_lines alignment width fitted.now)) }
{
    for line in lines(fitted) {
        write_title_line(sink, alignment, width, line)?;
    }
    Ok(())
}

impl<'a> Title<'a> {
    ghost use Rattle.tabled_table.specs.Titled.{IsFitted};
    ghost use Rattle.tabled_table.specs.declared.titled.TitleFit.TheVariants.{Cut, Wrap};

    /// Makes a title of a text.
    pub fn new(text: &'a str) -> Title<'a>
        ensures { result ≡ record { text = text.entry; alignment = horizontal.Left; fit = Wrap } }
    {
        Title {
            text,
            alignment: AlignmentHorizontal::Left,
            fit: TitleFit::Wrap,
        }
    }

    /// Places the lines of the title in the middle.
    pub fn center(self) -> Title<'a>
        ensures { result ≡ record self.entry { alignment = horizontal.Center } }
    {
        let alignment = AlignmentHorizontal::Center;
        Title { alignment, ..self }
    }

    /// Places the lines of the title at the right.
    pub fn right(self) -> Title<'a>
        ensures { result ≡ record self.entry { alignment = horizontal.Right } }
    {
        let alignment = AlignmentHorizontal::Right;
        Title { alignment, ..self }
    }

    /// Cuts the title if it is wider than the table, in place of wrapping it.
    pub fn cut(self) -> Title<'a>
        ensures { result ≡ record self.entry { fit = Cut } }
    {
        let fit = TitleFit::Cut;
        Title { fit, ..self }
    }

    /// Returns the text, wrapped or cut to `width` columns if it is wider. Fails only if an
    /// allocation fails.
    fn fitted(&self, alloc: Global, width: usize) -> Result<CowStr<'a, Global>, AllocError>
        ensures { IfOk result (λ fitted.
            IsFitted self.now.fit width self.now.text.now (cow_str_bytes fitted)) }
    {
        if text_width(self.text) <= width {
            return Ok(CowStr::Borrowed(self.text));
        }
        match self.fit {
            TitleFit::Wrap => Ok(CowStr::Owned(wrap_words(alloc, self.text, width)?)),
            TitleFit::Cut => cut_str(alloc, self.text, width),
        }
    }
}

impl Table {
    ghost use Rattle.tabled_table.specs.TableSheet.{HasNoText, HasText, cells_of, sheet};
    ghost use Rattle.tabled_table.specs.Titled.{IsFitted, IsTitledText, PrintsTitled};

    /// Returns the text of the table and a title over its total width. Fails as `to_text` does.
    fn below_title<'t>(&self, title: &Title<'t>) -> Result<TitledTable<'t>, TableError>
        requires { is_empty (cells_of self.now) ≡ false }
        ensures printable { OnOk result (IsPrintableSheet (sheet self.now)) }
        ensures width { IfOk result (λ all. all.width ≡ total_width (sheet self.now)) }
        ensures title { IfOk result (λ all.
            IsFitted title.now.fit all.width title.now.text.now (cow_str_bytes all.title)) }
        ensures text { IfOk result (λ all. string_bytes all.text ≡ table_text (sheet self.now)) }
        ensures err { IfErr result (λ e. (e ≡ Memory) ⊎ FailsToPrint (sheet self.now) e) }
    {
        let text = self.to_text()?;
        let width = self.total_width()?;
        let title = title.fitted(self.records.allocator(), width)?;
        Ok(TitledTable { title, width, text })
    }

    /// Prints the table below a title, whose lines are aligned in the total width and wrapped or
    /// cut to it. Each line of the title is exactly as wide as the table. A table without rows or
    /// columns prints nothing, nor does its title.
    ///
    /// The table's text is made in memory first. So `Memory` can come before the first byte, as can
    /// each error that `write_to` returns there. Every later error is the sink's, and then a
    /// beginning of the title and the table was written.
    pub fn write_titled<S: TextSink>(
        &self,
        sink: &mut S,
        title: Title<'_>,
    ) -> Result<(), TableError>
        ensures printed { PrintsTitled title.entry (sheet self.now)
            (S.sent sink.old) result (S.sent sink.new) }
        ensures lines { let total = total_width (sheet self.now) in (fitted : List ℕ)
            → IsUtf8 title.entry.text.now
            → IsFitted title.entry.fit total title.entry.text.now fitted
            → EachLineTakes total (title_lines title.entry.alignment total fitted) }
    {
        if self.is_empty() {
            return Ok(());
        }
        let all = self.below_title(&title)?;
        write_title(sink, title.alignment, all.width, &all.title)?;
        sink.write_text(&all.text)
    }

    /// Returns the table below a title, as `write_titled` prints it. Fails with `Memory`, and with
    /// each error that `write_to` returns before its first byte, but never for a table without rows
    /// or columns.
    ///
    /// ```rust
    /// table.to_titled_text(Title::new("Capitals of Europe").center())
    /// ```
    pub fn to_titled_text(&self, title: Title<'_>) -> Result<String, TableError>
        ensures ok { IfOk result (λ text.
            IsTitledText title.entry (sheet self.now) (string_bytes text)) }
        ensures printable { OnOk result (HasText self.now) }
        ensures err { IfErr result (λ e. HasNoText self.now e) }
    {
        let mut text = String::new(self.records.allocator());
        self.write_titled(&mut text, title)?;
        Ok(text)
    }
}
