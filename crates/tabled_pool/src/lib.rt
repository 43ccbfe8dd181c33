//! `PoolTable`: trees of rows and columns of texts, drawn as boxes with borders between them.
//!
//! A box is a text with its padding, a row of boxes or a column of boxes. Boxes fill the rectangle
//! that they are given: each position in it belongs to exactly one text or border. A tree is drawn
//! line by line. Only a tree with a *zero-width* text, which is given no columns, is drawn
//! box by box, and its boxes are joined.
//!
//! The table:
//! - `pool_table`: `PoolTable`, its settings, its size, and how it is printed
//! - `making`: tables of rows, copies of tables, and options applied to them
//! - `plain`: whether all characters are plain or the settings separate the texts, so that all
//!   lines are equally wide; whether anything is coloured
//!
//! Trees, and the rectangles of their boxes:
//! - `tree`: `TableValue`, a tree of texts, how it is dropped, and how it is copied
//! - `sizes`: the sizes that boxes need; `SizeList`, those of a tree; and `BoxSpacing`, on which
//!   they depend
//! - `rectangle`: `Rectangle`, and how one of several boxes is split after the first
//! - `kind`, `piece`, `piece_list`: `Piece`, a text or a border in its rectangle; its `Kind`; and
//!   `PieceList`, all of them
//! - `places`: where the boxes of a tree are placed
//! - `drawing`: `Drawing`, the pieces and their settings
//!
//! Shared by both ways of drawing:
//! - `draw`: one line of a drawing, and the lines of the block of a text
//! - `tall_texts`: the text of a box, and texts of several lines, with a cursor in each
//! - `color_marks`: the marks around a border character or a run: a colour's prefix and suffix
//! - `table_lines`: all lines of a table, with the margin
//!
//! Drawing line by line:
//! - `sweep`: the piece at a position, and where to look for it first
//! - `line_runs`: the runs of a line: columns of one text, or of equal border characters
//! - `junction`: the character of a border, and of the junction where borders of boxes meet
//!
//! Drawing box by box, for trees with a zero-width text:
//! - `tree_walk`: the walk over the tree, where each box is in it, and `draw_tree`
//! - `inheriting_box`: what boxes inherit and pass on
//! - `inherited_sizes`: the sizes that a box inherits in a direction, and how they are split
//! - `bordered_text`: the lines of one text, with the borders that it draws
//! - `drawn_block`: the lines of a drawn box, and how drawn boxes are joined
#![tactic(auto)]

mod bordered_text;
mod color_marks;
mod draw;
mod drawing;
mod drawn_block;
mod inherited_sizes;
mod inheriting_box;
mod junction;
mod kind;
mod line_runs;
mod making;
mod piece;
mod piece_list;
mod places;
mod plain;
mod pool_table;
mod rectangle;
mod sizes;
mod sweep;
mod table_lines;
mod tall_texts;
mod tree;
mod tree_walk;

pub use pool_table::PoolTable;
pub use tree::TableValue;
