//! Laws of tables and of streamed tables, each the contract of a function.
ghost use Rattle.std.specs.Prelude.{◌≡◌, ℕ, List, length, ◌<◌, ◌≤◌, ◌-◌, ◌++◌, All, IsUtf8};
ghost use Rattle.std.specs.Prelude.{None, Option, encode_utf8, false, map, string_bytes, true};
ghost use Rattle.std.specs.Borrow.{Bor};
ghost use Rattle.std.specs.declared.alloc.Global.{Global};
ghost use Rattle.std.specs.declared.string.String.{String};
ghost use Rattle.tabled_base.specs.Cells.{columns, IsRectangular, lengthened_rows};
ghost use Rattle.tabled_size.specs.Holds.{Holds};
ghost use Rattle.tabled_grid.specs.ApartSheet.{IsApartConfig};
ghost use Rattle.tabled_grid.specs.AdditiveSheet.{IsAdditiveConfig};
ghost use Rattle.tabled_table.specs.NewTable.{IsNew};
ghost use Rattle.tabled_table.specs.PrintedLines.{ShowsCells};
ghost use Rattle.tabled_table.specs.TableSheet.{IsApart, IsAdditiveTable, cells_of, new_sheet, sheet};
ghost use Rattle.tabled_table.specs.declared.table.Table.{Table};
ghost use Rattle.tabled_text.specs.Cut.{IsCut};
ghost use Rattle.tabled_text.specs.Fitting.{FitsIn};
ghost use Rattle.tabled_text.specs.Longest.{IsLongestCut};
ghost use Rattle.tabled_text.specs.Measure.{char_count, lines_of, text_columns};
ghost use Rattle.tabled_text.specs.Plain.{IsAdditive};
ghost use Rattle.tabled_text.specs.Exact.{IsExactLine};
ghost use Rattle.tabled_config.specs.declared.compact.CompactConfig.{CompactConfig};
ghost use Rattle.tabled_config.specs.Spanned.{spanned_of_compact};
ghost use Rattle.tabled_size.specs.Sheet.{Sheet, estimated, is_empty};
ghost use Rattle.tabled_size.specs.Stored.{heights_of};
ghost use Rattle.tabled_size.specs.Totals.{total_height};
ghost use Rattle.tabled_grid.specs.Picture.{table_text};
ghost use Rattle.tabled_size.specs.TextCells.{AreTexts};
ghost use Rattle.tabled_table.specs.declared.iter_table.settings.StreamSettings.{StreamSettings};
ghost use Rattle.tabled_table.specs.Stream.GoesOn.{GoesOn};
ghost use Rattle.tabled_table.specs.Stream.LikeTable.{IsLikeTable};
ghost use Rattle.tabled_table.specs.Stream.Marked.{IsCutCell, IsMarked, StaysWhole, mark_fits};
ghost use Rattle.tabled_table.specs.Stream.Streamed.{IsCutRow, IsStreamed, column_count, limited};
ghost use Rattle.tabled_table.specs.Stream.Streamed.{sniffed};

/// A new table has the sizes that its cells need, and these hold the cells. Its settings separate
/// the cells, so each line is exactly the total width, whatever the cells contain. Its borders,
/// fills and margins are additive too.
#[tactic(auto, using(crate::proofs::NewTables::new_stands, crate::proofs::NewTables::new_holds, crate::proofs::NewTables::new_is_apart))]
pub fn new_tables()
    ensures sizes { (cells : List (List (List ℕ))) (table : Table) → IsNew cells table
        → sheet table ≡ new_sheet cells }
    ensures apart { (cells : List (List (List ℕ))) (table : Table) → IsNew cells table
        → IsApartConfig (sheet table).config (length cells) (columns cells) }
    ensures plain { (cells : List (List (List ℕ))) (table : Table) → IsNew cells table
        → IsAdditiveConfig (sheet table).config (length cells) (columns cells) }
    ensures holds { (cells : List (List (List ℕ))) (table : Table) → IsNew cells table
        → Holds (sheet table) }
{}

/// The cells of a table that was made of strings, owned or borrowed, are texts.
pub fn tables_of_strings()
    ensures owned { (cells : List (List (String Global))) (table : Table)
        → IsNew (lengthened_rows (map (map string_bytes) cells)) table
        → AreTexts (cells_of table) }
    ensures borrowed { (cells : List (List (Bor (String Global)))) (table : Table)
        → IsNew (lengthened_rows (map (map (λ s. string_bytes s.now)) cells)) table
        → AreTexts (cells_of table) }
{}

/// A table with a row and a column has a line, if no heights are stored. Then all lines of each
/// cell can be read in its text, one below the other, each whole, if settings are additive. They
/// are if they separate the cells.
pub fn printed_tables()
    ensures some { (table : Table) → is_empty (cells_of table) ≡ false
        → heights_of table.dimension ≡ None → 0 < total_height (sheet table) }
    ensures cells { (table : Table) → IsAdditiveTable table → heights_of table.dimension ≡ None
        → ShowsCells (cells_of table) (table_text (sheet table)) }
    ensures apart { (table : Table) → IsApart table → IsAdditiveTable table }
{}

/// A stream prints the same bytes as a `Table` of the same cells if
/// - it has a row and a column, its rows are equally long, and all of them are read ahead
/// - each cell is one line, as wide as the sum of its characters, each counted as at least one
///   column: a plain line is
/// - no number of columns or rows is set, and no size.
#[tactic(auto, using(tabled_text::proofs::ExactLines::plain_exact, crate::proofs::Stream::SameSheet::like_table))]
pub fn streams_like_tables()
    ensures sheet { (settings : StreamSettings) (config : CompactConfig)
        (rows : List (List (List ℕ))) (t : Sheet) → IsLikeTable settings rows
        → IsStreamed settings config (sniffed settings rows) (limited settings.rows rows) t
        → t ≡ estimated rows (spanned_of_compact config) }
    ensures plain { (text : List ℕ) → IsAdditive text → length (lines_of text) ≡ 1
        → IsExactLine text }
{}

/// Every text can be cut to any number of columns, and every row of texts to any content widths.
pub fn texts_can_be_cut()
    ensures text { (n : ℕ) (text : List ℕ) → IsUtf8 text → (answer : List ℕ) × IsCut n text answer }
    ensures row { (content : ℕ → ℕ) (count : ℕ) (row : List (List ℕ)) → All IsUtf8 row
        → (cells : List (List ℕ)) × IsCutRow content count row cells }
{}

/// With any mark, or none, every text can be cut to any number of columns, and takes no more. A
/// text that stays whole is itself, as a line does whose characters count as many as its columns,
/// if it is no wider. Of a wider one of these, the longest beginning is left that fits in the
/// columns that the mark leaves, and then comes the mark.
pub fn marked_cells()
    ensures exists { (mark : Option ℕ) (n : ℕ) (text : List ℕ) → IsUtf8 text
        → (answer : List ℕ) × IsCutCell mark n text answer }
    ensures fits { (mark : Option ℕ) (n : ℕ) (text answer : List ℕ)
        → IsCutCell mark n text answer → FitsIn n answer }
    ensures kept { (mark : Option ℕ) (n : ℕ) (text answer : List ℕ) → StaysWhole n text
        → IsCutCell mark n text answer → answer ≡ text }
    ensures whole { (n : ℕ) (text : List ℕ) → IsExactLine text → text_columns text ≤ n
        → StaysWhole n text }
    ensures longest { (mark n : ℕ) (text answer : List ℕ) → IsExactLine text
        → n < text_columns text → mark_fits mark n ≡ true → IsMarked mark n text answer
        → (front : List ℕ) × IsLongestCut (n - char_count mark) text front
        × (answer ≡ front ++ encode_utf8 mark) }
{}

/// A table of the first rows can be continued with any rows of texts, however tall. There is a
/// streamed table of all rows, and the lines above the later rows are a beginning of its text.
/// There must be a row and a column, since a table without one has no text.
pub fn streams_go_on()
    ensures { (settings : StreamSettings) (config : CompactConfig)
        (ahead_rows shown rest : List (List (List ℕ))) (t : Sheet)
        → IsStreamed settings config ahead_rows shown t → AreTexts rest
        → 0 < column_count settings ahead_rows → 0 < length (shown ++ rest)
        → GoesOn settings config ahead_rows shown rest t }
{}

/// The rows of a streamed table are equally long, each cell is a text, whatever the bytes of the
/// source's cells are, and the columns hold the cells. So each line of its picture is exactly the
/// total width if the settings separate the cells, by `tabled_grid::laws::pictures`.
pub fn streams_hold()
    ensures rectangular { (settings : StreamSettings) (config : CompactConfig)
        (ahead_rows rows : List (List (List ℕ))) (t : Sheet)
        → IsStreamed settings config ahead_rows rows t → IsRectangular t.cells }
    ensures texts { (settings : StreamSettings) (config : CompactConfig)
        (ahead_rows rows : List (List (List ℕ))) (t : Sheet)
        → IsStreamed settings config ahead_rows rows t → AreTexts t.cells }
    ensures holds { (settings : StreamSettings) (config : CompactConfig)
        (ahead_rows rows : List (List (List ℕ))) (t : Sheet)
        → IsStreamed settings config ahead_rows rows t → Holds t }
{}
