//! Facts about rows, each the contract of a function.
ghost use Rattle.std.specs.Prelude.{◌≡◌, ℕ, ◌<◌};
ghost use Rattle.tabled_text.specs.Measure.{line_columns};
ghost use Rattle.tabled_line.specs.Apart.{HoldsTexts, IsApartRow, line_total};
ghost use Rattle.tabled_line.specs.Row.{RowSheet, row_line};

/// All lines of a row are equally wide, whatever its cells contain, if the settings separate the
/// cells and the columns hold them. Separated means that no text can join with what is next to it.
pub fn rows_of_any_text()
    ensures { (row : RowSheet) (index : ℕ) → IsApartRow row → HoldsTexts row → index < row.height
        → line_columns (row_line row index) ≡ line_total row.columns }
{}
