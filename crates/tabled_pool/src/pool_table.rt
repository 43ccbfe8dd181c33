//! `PoolTable`: its settings, its size, and how it is printed.
ghost use Rattle.std.specs.Prelude.{IfErr, IfOk, IfSome, MatchOption, [], length, map, not};
ghost use Rattle.std.specs.Prelude.{string_bytes, true, ◌++◌, ◌<◌, ◌≡◌, ◌⊎◌};
ghost use Rattle.tabled_base.specs.declared.error.TableError.TheVariants.{Memory, Range};
ghost use Rattle.tabled_config.specs.Styles.{ascii};
ghost use Rattle.tabled_line.specs.Additive.{EachLineTakes};
ghost use Rattle.tabled_line.specs.Sent.{Sent, Writes};
ghost use Rattle.tabled_pool.specs.Boxes.{IsSize, box_of, drawn_part};
ghost use Rattle.tabled_pool.specs.Colours.{marks_of};
ghost use Rattle.tabled_pool.specs.Drawn.{Tiled, drawn};
ghost use Rattle.tabled_pool.specs.Inherited.{block_sheet_of, has_zero_width};
ghost use Rattle.tabled_pool.specs.NewPool.{IsNewPool};
ghost use Rattle.tabled_pool.specs.Plain.{IsStraightPool};
ghost use Rattle.tabled_pool.specs.Plan.{plan_of};
ghost use Rattle.tabled_pool.specs.Pool.{HasColumns, IsInRange, IsOutOfRange, IsPadded, WritesPool};
ghost use Rattle.tabled_pool.specs.Pool.{borders_of, frame_of, frame_place, framed_height};
ghost use Rattle.tabled_pool.specs.Pool.{framed_width, margin_around, marks_for, plan, pool_lines};
ghost use Rattle.tabled_pool.specs.Pool.{pool_text, spacing_of, style_of, total_height};
ghost use Rattle.tabled_pool.specs.Pool.{total_width};
ghost use Rattle.tabled_pool.specs.Sizes.{AreAdded, sizes_within};
ghost use Rattle.tabled_pool.specs.Tree.{IsInner};
ghost use Rattle.tabled_priority.specs.Sums.{one_if};

use crate::drawing::Drawing;
use crate::drawn_block::DrawnBlock;
use crate::junction::{has_bottom, has_top};
use crate::piece::Piece;
use crate::piece_list::PieceList;
use crate::places::{Placer, place_tree};
use crate::plain::{are_uncolored_lines, are_uncolored_sides};
use crate::rectangle::Rectangle;
use crate::sizes::{BoxSpacing, Size, SizeList, measure, sum};
use crate::table_lines::{ColoredMargin, TableLines, draw_lines};
use crate::tree::TableValue;
use crate::tree_walk::{draw_tree, has_zero_width};
use std::alloc::AllocError;
use std::fmt;
use tabled_base::TableError;
use tabled_config::{ANSIStr, Borders, CellStyle, CompactMultilineConfig, Indent, Sides, Style};
use tabled_line::TextSink;
use tabled_size::{DimensionPriority, PoolTableDimension};

pub(crate) fn one_if(there: bool) -> usize
    ensures { result ≡ one_if there }
{
    if there { 1 } else { 0 }
}

/// The thickness of each outer border: one column or line if it is there, else 0.
fn frame_of(borders: &Borders<char>) -> Sides<usize>
    ensures { result ≡ frame_of borders.now }
{
    Sides {
        left: one_if(borders.has_left()),
        right: one_if(borders.has_right()),
        top: one_if(has_top(borders)),
        bottom: one_if(has_bottom(borders)),
    }
}

fn style_of(config: &CompactMultilineConfig) -> CellStyle
    ensures { result ≡ style_of config.now }
{
    CellStyle {
        padding: *config.get_padding(),
        horizontal: config.get_alignment_horizontal(),
        vertical: config.get_alignment_vertical(),
        line_alignment: config.get_formatting().allow_lines_alignment,
    }
}

/// A table of nested boxes: each box holds a text, a row of boxes or a column of boxes. Its rows
/// may have different numbers of cells.
///
/// The stack limits how deep the value may be. Printing recurses at each level of several boxes,
/// and at every level if a text is given no columns; comparing and `is_plain` recurse at every
/// level. On 8 MiB of stack, printing works to about 20,000 such levels, or 15,000 with a text that
/// is given no columns. A value that is too deep overflows the stack and ends the process; no proof
/// covers this. Copying and dropping a table don't recurse.
#[derive(Debug, Drop, PartialEq, Eq, PartialOrd, Ord)]
pub struct PoolTable {
    pub(crate) value: TableValue,
    pub(crate) config: CompactMultilineConfig,
    pub(crate) dimension: PoolTableDimension,
}

impl PoolTable {
    /// Returns a table of a value, without allocating. It has ASCII borders, one column of padding
    /// on the left and right, and no margin. Texts are at the left and the top, and boxes share
    /// surplus columns and lines evenly.
    pub fn from_value(value: TableValue) -> PoolTable
        ensures { IsNewPool value result }
    {
        let one = Indent::spaced(1);
        let none = Indent::zero();
        let mut config = CompactMultilineConfig::new();
        config.set_borders(Style::ascii().get_borders());
        config.set_padding(Sides::new(one, one, none, none));
        PoolTable {
            value,
            config,
            dimension: PoolTableDimension::new(DimensionPriority::List, DimensionPriority::List),
        }
    }

    /// Returns the text that `write_to` writes. Unlike `to_string`, it can be called at the end of
    /// a chain of `with`, which returns `&mut PoolTable`.
    ///
    /// Fails with `Range` if the total width or height exceeds `usize::MAX`, and with `Memory` if
    /// an allocation fails.
    pub fn to_text(&self) -> Result<String, TableError>
        ensures ok { IfOk result (λ text. string_bytes text ≡ pool_text self.now) }
        ensures in_range { IfOk result (λ _. IsInRange self.now) }
        ensures err { IfErr result (λ e. ((e ≡ Memory) × IsInRange self.now)
            ⊎ ((e ≡ Range) × IsOutOfRange self.now)) }
    {
        let mut text = String::new(self.value.allocator());
        self.write_to(&mut text)?;
        Ok(text)
    }

    /// Returns the text of `to_text`, with the same errors. On a `&mut PoolTable`, as `with`
    /// returns it, the name means std's `ToString::to_string`.
    pub fn to_string(&self) -> Result<String, TableError>
        ensures ok { IfOk result (λ text. string_bytes text ≡ pool_text self.now) }
        ensures in_range { IfOk result (λ _. IsInRange self.now) }
        ensures err { IfErr result (λ e. ((e ≡ Memory) × IsInRange self.now)
            ⊎ ((e ≡ Range) × IsOutOfRange self.now)) }
    {
        self.to_text()
    }

    fn spacing(&self) -> BoxSpacing
        ensures { result ≡ spacing_of self.now }
    {
        let borders = self.config.get_borders();
        BoxSpacing {
            padding: *self.config.get_padding(),
            bar: one_if(borders.has_left()),
            rule: one_if(has_top(borders)),
            across: self.dimension.width(),
            down: self.dimension.height(),
        }
    }

    /// A margin with its colours. An empty margin has none.
    fn colored_margin(&self, indent: Sides<Indent>) -> ColoredMargin
        ensures indent { result.indent ≡ indent }
        ensures colors { marks_of result.colors ≡ marks_for self.now indent }
    {
        let has_columns = indent.left.size > 0 || indent.right.size > 0;
        let colors = if has_columns || indent.top.size > 0 || indent.bottom.size > 0 {
            *self.config.get_margin_color()
        } else {
            Sides::filled(ANSIStr::new("", ""))
        };
        ColoredMargin { indent, colors }
    }

    /// The margin around a drawn block. One empty line has none.
    fn margin_around(&self, block: &DrawnBlock) -> Sides<Indent>
        ensures { result ≡ margin_around self.now (block_sheet_of block.now) }
    {
        if block.width == 0 && block.lines.len() == 1 {
            Sides::filled(Indent::zero())
        } else {
            *self.config.get_margin()
        }
    }

    /// The size that the inner value needs, if it fits in `usize`.
    fn inner_size(&self, value: &TableValue, list: &mut SizeList) -> Option<Size>
        requires { IsInner self.now.value value.now }
        ensures size { IsSize result (box_of (spacing_of self.now) self.now.value) }
        ensures list { IfSome result (λ _. AreAdded list.old list.new
            (sizes_within (spacing_of self.now) value.now)) }
    {
        measure(value, &self.spacing(), list)
    }

    /// The width and height without the margin, if the totals with it fit in `usize`. `value` is
    /// the inner value. Adds the sizes of the boxes in it.
    fn checked_size(&self, value: &TableValue, list: &mut SizeList) -> Option<Size>
        requires { IsInner self.now.value value.now }
        ensures size { MatchOption result (IsOutOfRange self.now)
            (λ size. (size.width ≡ framed_width self.now) × (size.height ≡ framed_height self.now)
            × IsInRange self.now) }
        ensures list { IfSome result (λ _. AreAdded list.old list.new
            (sizes_within (spacing_of self.now) value.now)) }
    {
        let frame = frame_of(self.config.get_borders());
        let margin = *self.config.get_margin();
        let own = self.inner_size(value, list)?;
        let width = sum(frame.left, own.width, frame.right)?;
        let height = sum(frame.top, own.height, frame.bottom)?;
        sum(margin.left.size, width, margin.right.size)?;
        sum(margin.top.size, height, margin.bottom.size)?;
        Some(Size { width, height })
    }

    /// The placed pieces of the inner value, from its size and the sizes of the boxes in it.
    fn pieces<'a>(
        &self,
        value: &'a TableValue,
        size: Size,
        measured: SizeList,
    ) -> Result<PieceList<'a>, AllocError>
        requires inner { IsInner self.now.value value.now }
        requires sizes { measured.is_complete ≡ true
            → measured.sizes.items ≡ sizes_within (spacing_of self.now) value.now }
        requires width { size.width ≡ framed_width self.now }
        requires height { size.height ≡ framed_height self.now }
        ensures { IfOk result (λ list. map drawn_part list.pieces.items ≡ (plan self.now).parts) }
    {
        let sizes = measured.all()?;
        let list = PieceList::new(self.value.allocator(), size.height, sizes.len());
        let mut placer = Placer { list, sizes };
        let frame = frame_of(self.config.get_borders());
        let whole = Rectangle {
            x: 0,
            y: 0,
            width: size.width,
            height: size.height,
        };
        place_tree(value, &self.spacing(), &frame, whole, &mut placer)?;
        Ok(placer.list)
    }

    fn drawing<'d, 'a>(&self, list: &'d PieceList<'a>, size: Size) -> Drawing<'d, 'a>
        requires width { size.width ≡ framed_width self.now }
        requires height { size.height ≡ framed_height self.now }
        requires places { map drawn_part list.now.pieces.items ≡ (plan self.now).parts }
        ensures plan { plan_of result ≡ plan self.now }
        ensures spacing { result.spacing ≡ spacing_of self.now }
        ensures width { result.width ≡ size.width }
        ensures height { result.height ≡ size.height }
    {
        let padding = self.config.get_padding_color();
        let borders = self.config.get_borders_color();
        Drawing {
            pieces: list.pieces.as_slice(),
            begins: list.begins.as_slice(),
            width: size.width,
            height: size.height,
            borders: *self.config.get_borders(),
            style: style_of(&self.config),
            spacing: self.spacing(),
            padding_colors: *padding,
            colors: *borders,
            uncolored_padding: are_uncolored_sides(padding),
            uncolored_borders: are_uncolored_lines(borders),
            alloc: self.value.allocator(),
        }
    }

    /// Whether each text has at least one column. Side padding gives it one.
    fn has_columns(&self, pieces: &[Piece<'_>]) -> bool
        requires { map drawn_part pieces.now ≡ (plan self.now).parts }
        ensures { has_zero_width (plan self.now).parts ≡ not result }
    {
        let padding = self.config.get_padding();
        let more = padding.left.size.max(padding.right.size);
        more > 0 || !has_zero_width(pieces)
    }

    /// Writes the table, if its totals fit in `usize`.
    fn write_checked<S: TextSink>(&self, sink: &mut S) -> Result<(), TableError>
        ensures { WritesPool self.now (S.sent sink.old) result (S.sent sink.new) }
    {
        let value = self.value.inner();
        let mut measured = SizeList::new(value);
        let Some(size) = self.checked_size(value, &mut measured) else {
            return Err(TableError::Range);
        };
        let list = self.pieces(value, size, measured)?;
        let has_columns = self.has_columns(list.pieces.as_slice());
        let drawing = self.drawing(&list, size);
        if has_columns {
            let margin = self.colored_margin(*self.config.get_margin());
            return draw_lines(sink, TableLines::Placed(&drawing), &margin);
        }
        let block = draw_tree(&self.value, &drawing)?;
        let margin = self.colored_margin(self.margin_around(&block));
        draw_lines(sink, TableLines::Drawn(&block), &margin)
    }

    /// Writes the boxes with their borders and the margin, line by line. Where borders meet, the
    /// character is the junction of those that continue from there.
    ///
    /// Fails with `Range` if the total width or height, with borders and margin, exceeds
    /// `usize::MAX`, and with `Memory` if an allocation fails. Both come before the first byte. If
    /// the sink fails, its error is returned, and it has a beginning of the text.
    ///
    /// Colours take no columns. Each run of padding or margin is between the prefix and the suffix
    /// of its colour, even if the run is empty; an empty margin has no colours. Along the top or
    /// bottom border of a text, the first colour stays the current one. A part in another colour
    /// starts with the current suffix and its own prefix, and the current suffix ends the border.
    ///
    /// A text that is given no columns changes how the table is drawn; side padding prevents this.
    /// All lines are then built in memory first, and each row copies those of the boxes in it. Each
    /// text draws the borders above it and to its left, and a text of no columns draws none. Boxes
    /// pass on to the next ones where borders meet. A table that is one empty line has no margin.
    ///
    /// Recurses at each level of several boxes (see `PoolTable`). Drawing takes a time that grows
    /// with the printed text, and where rows copy lines also with their levels. Without memory to
    /// find texts and borders by their columns, each run of a line, and each coloured border
    /// character, takes passes over all of them. Without memory for a cursor in a text of several
    /// lines, each of its lines takes a pass over it.
    #[tactic(auto, using(crate::proofs::Padded::padded_columns, crate::proofs::StraightPools::pool_columns, crate::proofs::StraightPools::pool_tiles, crate::proofs::StraightPools::whole_columns, crate::proofs::Totals::whole_lines))]
    pub fn write_to<S: TextSink>(&self, sink: &mut S) -> Result<(), TableError>
        ensures printed { WritesPool self.now (S.sent sink.old) result (S.sent sink.new) }
        ensures padded { IsPadded self.now → HasColumns self.now }
        ensures tiled { IsStraightPool self.now → Tiled (plan self.now) }
        ensures columns { IsStraightPool self.now
            → EachLineTakes (framed_width self.now) (drawn (plan self.now)) }
        ensures width { HasColumns self.now → IsStraightPool self.now
            → EachLineTakes (total_width self.now) (pool_lines self.now) }
        ensures height { HasColumns self.now → length (pool_lines self.now)
            ≡ total_height self.now }
    {
        self.write_checked(sink)
    }
}

/// Writes the text of `to_text`, and ignores the width and precision of the formatter. Fails with
/// `fmt::Error` if `to_text` or the writer fails.
impl fmt::Display for PoolTable {
    ghost use Rattle.std.specs.Prelude.{Some};

    ghost output = { λ table. Some (pool_text table) };

    fn fmt<W: fmt::Write>(&self, f: &mut fmt::Formatter<W>) -> fmt::Result {
        match self.to_text() {
            Ok(text) => f.write_str(&text),
            Err(_) => Err(fmt::Error),
        }
    }
}
