//! `PieceList`: the pieces of a drawing, by the line that they begin on.
ghost use Rattle.std.specs.Prelude.{IfOk, [], length, map, ◌++◌, ◌<◌, ◌∷◌, ◌≡◌};
ghost use Rattle.tabled_pool.specs.Boxes.{part_of, drawn_part};
ghost use Rattle.tabled_pool.specs.PieceText.{piece_text};
ghost use Rattle.tabled_text.specs.Measure.{lines_of, text_columns};

use crate::kind::Kind;
use crate::piece::Piece;
use crate::rectangle::Rectangle;
use crate::sizes::empty_list;
use crate::tree::TableValue;
use std::alloc::{AllocError, Global};
use std::mem;

/// The number of no piece.
pub const NO_PIECE: u32 = u32::MAX;

/// Pieces in the order of their tree. Those that begin on a line are linked when they are placed:
/// later, all would have to be read from memory once more.
#[derive(Drop)]
pub struct PieceList<'a> {
    pub pieces: Vec<Piece<'a>>,
    /// For each line, the number of the last piece that begins there. No contract says that it is
    /// right. The list is empty if its allocation failed.
    pub begins: Vec<u32>,
}

impl<'a> PieceList<'a> {
    /// An empty list for a drawing of `height` lines, with capacity for `boxes` boxes in others,
    /// each with a border behind it. The outermost box and the borders around it are five pieces.
    pub fn new(alloc: Global, height: usize, boxes: usize) -> PieceList<'a>
        ensures { result.pieces.items ≡ [] }
    {
        PieceList {
            pieces: empty_list(alloc, boxes.saturating_mul(2).saturating_add(5)),
            begins: no_pieces(alloc, height),
        }
    }

    /// Makes the next piece the last that begins on the line of its rectangle. Returns the number
    /// of the one that was.
    fn link(&mut self, place: Rectangle) -> u32
        ensures { self.new.pieces.items ≡ self.old.pieces.items }
    {
        let Ok(number) = u32::try_from(self.pieces.len()) else {
            return NO_PIECE;
        };
        match self.begins.get_mut(place.y) {
            Some(last) if place.width > 0 && place.height > 0 => mem::replace(last, number),
            _ => NO_PIECE,
        }
    }

    /// Adds a piece, with the columns of its text if they are known.
    pub fn add(
        &mut self,
        kind: Kind,
        columns: u16,
        place: Rectangle,
        value: &'a TableValue,
    ) -> Result<(), AllocError>
        requires { columns < 65535 → (columns ≡ text_columns (piece_text kind value.now))
            × (1 ≡ length (lines_of (piece_text kind value.now))) }
        ensures { IfOk result (λ _. map drawn_part self.new.pieces.items
            ≡ map drawn_part self.old.pieces.items
            ++ (part_of kind place (piece_text kind value.now) ∷ [])) }
    {
        let earlier = self.link(place);
        self.pieces.push(Piece {
            kind,
            columns,
            earlier,
            place,
            value,
        })?;
        Ok(())
    }
}

/// A list of `count` numbers of no piece, or an empty one if an allocation fails.
pub fn no_pieces(alloc: Global, count: usize) -> Vec<u32> {
    Vec::from_elem(alloc, NO_PIECE, count).unwrap_or_else(|_| Vec::new(alloc))
}
