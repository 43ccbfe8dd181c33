//! Tests tables of cells: worked examples, and each error.

use crate::cells::PackedCells;
use crate::exports::{
    fanlightnard_core_cells, fanlightnard_core_measure, fanlightnard_core_text,
    fanlightnard_core_truncate, fanlightnard_core_wrap,
};
use crate::layout::Layout;
use std::alloc::Global;
use std::test::Fail;

fn rounded<'a>(alignments: &'a [u8], null: &'a [u8]) -> Layout<'a> {
    Layout {
        alignments,
        null,
        width: 0,
        style: 3,
        fit: 0,
        order: 0,
        header: true,
    }
}

const PICTURE: &str = "\
╭───────┬──────────╮
│ Name  │   People │
├───────┼──────────┤
│ Vaduz │     5774 │
│ 北京  │ 21893095 │
╰───────┴──────────╯";

const FITTED: &str = "\
┌──────┬─────────┐
│ Name │ Note    │
│ Ada  │ first   │
│      │ program │
└──────┴─────────┘";

const WITHOUT_VALUES: &str = "\
╭─────┬─────╮
│ a   │ n/a │
├─────┼─────┤
│ n/a │     │
╰─────┴─────╯";

#[test]
fn aligns_columns(rt: HostRuntime) {
    let mut buffer = [b'#'; 400];
    let cells = PackedCells {
        text: "NamePeopleVaduz5774北京21893095".as_bytes(),
        ends: &[4, 10, 15, 19, 25, 33],
        rows: 3,
        columns: 2,
    };
    let layout = rounded(&[0, 1], b"");
    let count = fanlightnard_core_cells(rt.alloc(), &cells, &layout, &mut buffer);
    assert_eq!(rt; count, PICTURE.len() as isize);
    assert!(rt; buffer.starts_with(PICTURE.as_bytes()));
    assert_eq!(rt; buffer.get(PICTURE.len()).copied(), Some(b'#'));
}

#[test]
fn shows_cells_without_values(rt: HostRuntime) {
    let mut buffer = [b'#'; 400];
    let cells = PackedCells {
        text: b"a",
        ends: &[1, usize::MAX, usize::MAX, 1],
        rows: 2,
        columns: 2,
    };
    let layout = rounded(&[], b"n/a");
    let count = fanlightnard_core_cells(rt.alloc(), &cells, &layout, &mut buffer);
    assert_eq!(rt; count, WITHOUT_VALUES.len() as isize);
    assert!(rt; buffer.starts_with(WITHOUT_VALUES.as_bytes()));
}

#[test]
fn fits_without_a_header(rt: HostRuntime) {
    let mut buffer = [b'#'; 400];
    let cells = PackedCells {
        text: b"NameNoteAdafirst program",
        ends: &[4, 8, 11, 24],
        rows: 2,
        columns: 2,
    };
    let layout = Layout {
        width: 18,
        style: 2,
        fit: 2,
        order: 2,
        header: false,
        ..rounded(&[], b"")
    };
    let count = fanlightnard_core_cells(rt.alloc(), &cells, &layout, &mut buffer);
    assert_eq!(rt; count, FITTED.len() as isize);
    assert!(rt; buffer.starts_with(FITTED.as_bytes()));
    let rows = b"Name\tNote\nAda\tfirst program\n";
    let mut other = [b'#'; 400];
    let count = fanlightnard_core_text(rt.alloc(), rows, &layout, &mut other);
    assert_eq!(rt; count, FITTED.len() as isize);
    assert_eq!(rt; &other, &buffer);
}

// A frame with one row ends with its bottom line, and not with the line below the header.
const LINES: [(u32, bool, usize, &str); 11] = [
    (1, true, 2, "┌───┐\n│ a │\n├───┤\n│ b │\n└───┘"),
    (3, true, 2, "╭───╮\n│ a │\n├───┤\n│ b │\n╰───╯"),
    (3, false, 2, "╭───╮\n│ a │\n│ b │\n╰───╯"),
    (1, true, 1, "┌───┐\n│ a │\n└───┘"),
    (2, true, 1, "┌───┐\n│ a │\n└───┘"),
    (3, true, 1, "╭───╮\n│ a │\n╰───╯"),
    (7, true, 1, "| a |\n|---|"),
    (7, false, 1, "| a |"),
    (8, true, 1, " a \n---"),
    (9, true, 1, "===\n a \n==="),
    (3, true, 0, ""),
];

#[test]
fn draws_the_line_below_a_header(rt: HostRuntime) {
    for (style, header, rows, picture) in LINES {
        let layout = Layout {
            style,
            header,
            ..rounded(&[], b"")
        };
        let cells = PackedCells {
            text: &b"ab"[..rows],
            ends: &[1, 2][..rows],
            rows,
            columns: 1,
        };
        let mut buffer = [b'#'; 100];
        let count = fanlightnard_core_cells(rt.alloc(), &cells, &layout, &mut buffer);
        assert_eq!(rt; count, picture.len() as isize);
        assert!(rt; buffer.starts_with(picture.as_bytes()));
        let text = &b"a\nb\n"[..2 * rows];
        let mut other = [b'#'; 100];
        let count = fanlightnard_core_text(rt.alloc(), text, &layout, &mut other);
        assert_eq!(rt; count, picture.len() as isize);
        assert_eq!(rt; &other, &buffer);
    }
}

#[test]
fn returns_errors(rt: HostRuntime) {
    let good = rounded(&[], b"");
    let cases: [(isize, &[u8], &[usize], Layout<'_>); 10] = [
        (-3, b"\xffb", &[1, 2], good),
        (-3, b"ab", &[1, 2], rounded(&[], b"\xff")),
        (-4, b"ab", &[1, 2], Layout { style: 12, ..good }),
        (-5, b"ab", &[1, 2], Layout { fit: 4, ..good }),
        (-5, b"ab", &[1, 2], Layout { order: 5, ..good }),
        (-6, b"ab", &[2, 1], good),
        (-6, b"ab", &[1, 3], good),
        (-6, b"abc", &[1, 2], good),
        (-7, b"ab", &[2], good),
        (-8, b"ab", &[1, 2], rounded(&[3], b"")),
    ];
    for (code, text, ends, layout) in cases {
        let cells = PackedCells {
            text,
            ends,
            rows: 1,
            columns: 2,
        };
        let mut buffer = [b'#'; 4];
        let result = fanlightnard_core_cells(rt.alloc(), &cells, &layout, &mut buffer);
        assert_eq!(rt; result, code);
        assert_eq!(rt; &buffer, b"####");
    }
}

#[test]
fn fits_texts(rt: HostRuntime) {
    assert_eq!(rt; fanlightnard_core_measure("北京\nabc".as_bytes()), 4);
    let mut buffer = [b'#'; 9];
    let count = fanlightnard_core_truncate(rt.alloc(), "北京x".as_bytes(), 3, &mut buffer);
    assert_eq!(rt; count, 6);
    assert_eq!(rt; buffer.as_slice(), "北\u{fffd}###".as_bytes());
    let count = fanlightnard_core_wrap(rt.alloc(), b"one two", 4, true, &mut buffer);
    assert_eq!(rt; count, 8);
    assert_eq!(rt; &buffer, b"one \ntwo#");
}
