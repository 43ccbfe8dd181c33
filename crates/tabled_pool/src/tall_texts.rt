//! `TallTexts`: the texts of several lines that a sweep is in, each with a cursor in its line, so
//! that no line is looked for from the start of its text.
ghost use Rattle.std.specs.List.{All};
ghost use Rattle.std.specs.Prelude.{IfSome, length, option_map, slice_get, ℕ, ◌+◌, ◌-◌, ◌<◌, ◌≡◌};
ghost use Rattle.tabled_base.specs.Content.{content_text};
ghost use Rattle.tabled_line.specs.Block.{fill_above};
ghost use Rattle.tabled_pool.specs.Boxes.{drawn_part};
ghost use Rattle.tabled_pool.specs.Plan.{DrawingPlan, plan_of};
ghost use Rattle.tabled_pool.specs.TallTexts.{AreTall, HasLine, IsIn, IsTall};
ghost use Rattle.tabled_text.specs.Measure.{line_columns, lines_of};

use crate::drawing::Drawing;
use crate::piece::{NOT_KNOWN, Piece};
use crate::piece_list::no_pieces;
use crate::rectangle::Rectangle;
use std::alloc::Global;
use tabled_base::Content;
use tabled_config::CellStyle;
use tabled_line::{CellBlock, Cursor};

/// A text of several lines, and a cursor in it.
#[derive(Clone, Copy)]
pub struct TallText<'a> {
    /// The number of its piece.
    number: usize,
    /// The column in which it begins, and the line after its rectangle. No contract says that they
    /// are right.
    x: usize,
    end: usize,
    pub content: Content<'a>,
    pub cursor: Cursor<'a>,
}

/// The text of a box, with a cursor in it if it has several lines. Without one they are looked for
/// from the start of the text.
#[derive(Clone, Copy)]
pub struct BoxText<'c, 'a> {
    pub content: Content<'a>,
    pub cursor: Option<&'c Cursor<'a>>,
}

/// Texts of several lines, with their cursors in one line of a drawing.
#[derive(Drop)]
pub struct TallTexts<'a> {
    texts: Vec<TallText<'a>>,
    /// For each column, the index of the text that begins there. No contract says that it is right.
    /// The list is empty if there are no texts, or if its allocation failed.
    indices: Vec<u32>,
}

/// Allocates the list of indices for `width` columns if that hasn't been done.
fn allocate_indices(indices: &mut Vec<u32>, width: usize) {
    if indices.is_empty() {
        *indices = no_pieces(*indices.allocator(), width);
    }
}

/// Notes the index of each text in the column in which it begins.
fn note_indices(texts: &[TallText<'_>], indices: &mut [u32]) {
    'texts: for index in 0..texts.len() {
        if let Ok(number) = u32::try_from(index)
            && let Some(noted) = indices.get_mut(texts[index].x)
        {
            *noted = number;
        }
    }
}

/// Removes the texts that end above line `y`.
fn remove_ended(texts: &mut Vec<TallText<'_>>, y: usize)
    ensures { (t : DrawingPlan) (line : ℕ) → All (IsTall t line) texts.old.items
        → All (IsTall t line) texts.new.items }
{
    texts.retain(|text| text.end > y);
}

/// Moves each cursor to its next line.
fn move_cursors(texts: &mut Vec<TallText<'_>>)
    ensures { (t : DrawingPlan) (y : ℕ) → All (IsTall t y) texts.old.items
        → All (IsTall t (y + 1)) texts.new.items }
{
    'texts: for index in 0..texts.len() {
        texts[index].cursor.advance();
    }
}

/// Returns how many lines of its rectangle are above a text.
pub fn text_start(style: &CellStyle, place: Rectangle, content: &Content<'_>) -> usize
    ensures { result ≡ fill_above style.now place.height (content_text content.now) }
{
    let cell = CellBlock {
        style: *style,
        width: place.width,
        height: place.height,
        content: *content,
    };
    cell.text_start()
}

impl<'a> TallText<'a> {
    /// Returns the text of a piece, with its cursor in line `y` of the drawing. Returns `None` if
    /// the text begins above that line.
    fn new(style: &CellStyle, piece: &Piece<'a>, number: usize, y: usize) -> Option<TallText<'a>>
        ensures { IfSome result (λ text. (text.number ≡ number)
            × IsIn style.now (drawn_part piece.now) y text) }
    {
        let place = piece.place;
        let content = piece.content();
        let first = place.y.checked_add(text_start(style, place, &content))?;
        if first < y {
            return None;
        }
        Some(TallText {
            number,
            x: place.x,
            end: place.y.saturating_add(place.height),
            content,
            cursor: Cursor::new(&content, first - y),
        })
    }
}

impl<'a> BoxText<'_, 'a> {
    /// Returns line `row` of the text, in which its cursor is, and the width of the line. A text of
    /// one line isn't read: each line below it would take a pass over it.
    #[inline(always)]
    pub fn line(&self, row: usize) -> Option<(&'a str, usize)>
        requires { IfSome self.now.cursor (λ cursor.
            HasLine (content_text self.now.content) row cursor.now) }
        ensures line { option_map (λ line. line.0.now) result
            ≡ slice_get (lines_of (content_text self.now.content)) row }
        ensures columns { IfSome result (λ line. line.1 ≡ line_columns line.0.now) }
    {
        if let Some(cursor) = self.cursor {
            return cursor.line;
        }
        let Content {
            text,
            columns,
            lines,
            ..
        } = self.content;
        if lines != 1 {
            return self.content.line(row);
        }
        if row > 0 {
            return None;
        }
        Some((text, columns))
    }
}

impl<'a> TallTexts<'a> {
    pub fn new(alloc: Global) -> TallTexts<'a>
        ensures { (t : DrawingPlan) (y : ℕ) → AreTall t y result }
    {
        TallTexts {
            texts: Vec::new(alloc),
            indices: Vec::new(alloc),
        }
    }

    /// Adds the text of a piece, with its cursor in line `y` of the drawing, which isn't below the
    /// piece's first line. Without memory it isn't added.
    fn add(&mut self, drawing: &Drawing<'_, 'a>, number: usize, y: usize)
        requires { number < length drawing.now.pieces.now }
        ensures { AreTall (plan_of drawing.now) y self.old
            → AreTall (plan_of drawing.now) y self.new }
    {
        let piece = drawing.pieces[number];
        if let Some(text) = TallText::new(&drawing.style, &piece, number, y) {
            self.push(text, drawing.width);
        }
    }

    /// Adds a text of a drawing of `width` columns. Its index isn't noted before the line on which
    /// it begins, since another text may end in the same column on the line above.
    fn push(&mut self, text: TallText<'a>, width: usize)
        ensures { (t : DrawingPlan) (y : ℕ) → AreTall t y self.old → IsTall t y text.entry
            → AreTall t y self.new }
    {
        if self.texts.push(text).is_ok() {
            allocate_indices(&mut self.indices, width);
        }
    }

    /// Adds the text of a piece if it has several lines (or very many columns).
    #[inline(always)]
    pub fn begin(&mut self, drawing: &Drawing<'_, 'a>, number: usize, y: usize)
        requires { number < length drawing.now.pieces.now }
        ensures { AreTall (plan_of drawing.now) y self.old
            → AreTall (plan_of drawing.now) y self.new }
    {
        if drawing.pieces[number].columns == NOT_KNOWN {
            self.add(drawing, number, y);
        }
    }

    /// Goes on to line `y` of the drawing, from the line before it if there is one. Texts that end
    /// above it are removed.
    pub fn advance(&mut self, y: usize)
        ensures { (t : DrawingPlan) → AreTall t (y - 1) self.old → AreTall t y self.new }
    {
        if y > 0 {
            remove_ended(&mut self.texts, y);
            move_cursors(&mut self.texts);
        }
        note_indices(self.texts.as_slice(), self.indices.as_mut_slice());
    }

    /// Returns the text of a piece that begins in column `x`, if it was added.
    pub fn get(&self, number: usize, x: usize) -> Option<&TallText<'a>>
        ensures { (t : DrawingPlan) (y : ℕ) → AreTall t y self.now
            → IfSome result (λ text. (text.now.number ≡ number) × IsTall t y text.now) }
    {
        let index = *self.indices.get(x)? as usize;
        let text = self.texts.get(index)?;
        if text.number != number {
            return None;
        }
        Some(text)
    }
}
