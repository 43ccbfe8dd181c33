//! Facts about pictures, each the contract of a function.
ghost use Rattle.std.specs.Prelude.{◌≡◌, ◌<◌, ◌≤◌, ℕ, List, length};
ghost use Rattle.std.specs.List.{slice_index};
ghost use Rattle.tabled_base.specs.Cells.{IsInside, IsRectangular, cell_at, columns};
ghost use Rattle.tabled_config.specs.declared.spanned.SpannedConfig.{SpannedConfig};
ghost use Rattle.tabled_text.specs.Measure.{lines_of};
ghost use Rattle.tabled_size.specs.Estimates.{estimated_heights, needed_height};
ghost use Rattle.tabled_size.specs.Sheet.{Sheet};
ghost use Rattle.tabled_size.specs.Totals.{total_height, total_width};
ghost use Rattle.tabled_size.specs.Holds.{Holds};
ghost use Rattle.tabled_grid.specs.Picture.{picture, table_text};
ghost use Rattle.tabled_grid.specs.Shown.{AreShownIn, shown_lines};
ghost use Rattle.tabled_size.specs.PlainCells.{AreAdditive, ArePlain};
ghost use Rattle.tabled_line.specs.Additive.{EachLineTakes};
ghost use Rattle.tabled_size.specs.TextCells.{AreTexts};
ghost use Rattle.tabled_grid.specs.ApartSheet.{IsApartConfig};
ghost use Rattle.tabled_grid.specs.AdditiveSheet.{IsAdditiveConfig};

/// A picture has as many lines as the total height of its table.
///
/// All lines are exactly as wide as the total width if the records are rectangular, the widths hold
/// the cells, and one of these holds:
/// - The settings separate the cells (`is_apart_config`). The cells may contain any text.
/// - Borders, fills and margins are additive characters of one column (`is_additive_config`), and
///   the cells contain additive text, such as plain text.
///
/// No line of a picture contains a line feed under either kind of settings, whatever the cells
/// contain. So the pieces of the printed text between line feeds are these lines, if there is one.
#[tactic(auto, using(crate::proofs::OneLines::printed_lines, crate::proofs::ApartPictures::apart_columns, crate::proofs::Whole::picture_columns, crate::proofs::Whole::picture_lines))]
pub fn pictures()
    ensures texts { (t : Sheet) → IsApartConfig t.config (length t.cells) (columns t.cells)
        → AreTexts t.cells → IsRectangular t.cells → Holds t
        → EachLineTakes (total_width t) (picture t) }
    ensures columns { (t : Sheet) → IsAdditiveConfig t.config (length t.cells) (columns t.cells)
        → AreAdditive t.cells → IsRectangular t.cells → Holds t
        → EachLineTakes (total_width t) (picture t) }
    ensures plain { (cells : List (List (List ℕ))) → ArePlain cells → AreAdditive cells }
    ensures lines { (t : Sheet) → length (picture t) ≡ total_height t }
    ensures printed { (t : Sheet) → IsAdditiveConfig t.config (length t.cells) (columns t.cells)
        → 0 < total_height t → lines_of (table_text t) ≡ picture t }
    ensures apart { (config : SpannedConfig) (rows count : ℕ) → IsApartConfig config rows count
        → IsAdditiveConfig config rows count }
{}

/// The lines of a cell's text are shown in the picture, one below the other: each is a part of its
/// own line of the picture, without any break. As many are shown as the height of the row allows;
/// all of them, if the row is as high as the cell needs, as with an estimated height.
pub fn shown_cells()
    ensures shown { (t : Sheet) (row column : ℕ) → IsInside t.cells row column
        → AreShownIn (shown_lines t row column) (picture t) }
    ensures whole { (t : Sheet) (row column : ℕ) → IsInside t.cells row column
        → needed_height t.cells t.config row column ≤ slice_index t.heights row
        → AreShownIn (lines_of (cell_at t.cells row column)) (picture t) }
    ensures estimated { (cells : List (List (List ℕ))) (config : SpannedConfig) (row column : ℕ)
        → IsInside cells row column → needed_height cells config row column
        ≤ slice_index (estimated_heights cells config) row }
{}
