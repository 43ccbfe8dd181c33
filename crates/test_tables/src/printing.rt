//! Tables printed to a given width and alignment, and formatted tables.

use std::test::Fail;
use tabled_base::TableError;
use tabled_config::AlignmentHorizontal::{self, Center, Right};
use test_table_uses::{Look, PAIRS, Sheet, formatted, put_with};

// A total width, an alignment, and a fill character.
type Asked = (Option<usize>, Option<AlignmentHorizontal>, char);

fn look((width, align, fill): Asked) -> Look {
    Look { width, align, fill }
}

const PICTURE: &str = "\
+-----+----+
| a   | bb |
+-----+----+
| ccc |    |
+-----+----+";

const CENTERED: &str = "\
**+-----+----+**
**|  a  | bb |**
**+-----+----+**
**| ccc |    |**
**+-----+----+**";

// One column is missing: half of it, rounded down, is 0 on the left.
const NEARLY_CENTERED: &str = "\
+-----+----+*
|  a  | bb |*
+-----+----+*
| ccc |    |*
+-----+----+*";

// Without an alignment, missing columns are added on the left.
const AT_THE_LEFT: &str = "\
..+-----+----+
..| a   | bb |
..+-----+----+
..| ccc |    |
..+-----+----+";

const AT_THE_RIGHT: &str = "\
+-----+----+..
|   a | bb |..
+-----+----+..
| ccc |    |..
+-----+----+..";

const BEHIND_A_SPACE: &str = concat!(
    " +-----+----+\n",
    " | a   | bb |\n",
    " +-----+----+\n",
    " | ccc |    |\n",
    " +-----+----+",
);

const ALIGNED: &str = "\
+-----+----+
|   a | bb |
+-----+----+
| ccc |    |
+-----+----+";

const WIDER: Asked = (Some(16), Some(Center), '*');

const ALIGNMENT_ALONE: Asked = (None, Some(Right), '*');

const PICTURES: [(Asked, &str); 8] = [
    (WIDER, CENTERED),
    ((Some(13), Some(Center), '*'), NEARLY_CENTERED),
    ((Some(14), None, '.'), AT_THE_LEFT),
    ((Some(14), Some(Right), '.'), AT_THE_RIGHT),
    ((Some(13), None, '\0'), BEHIND_A_SPACE),
    ((Some(10), None, '*'), PICTURE),
    ((Some(12), Some(Right), '*'), ALIGNED),
    (ALIGNMENT_ALONE, ALIGNED),
];

#[test]
fn missing_columns_become_margin(rt: HostRuntime) -> Result<(), Fail> {
    for (asked, want) in PICTURES {
        let (answer, text) = put_with(rt.alloc(), &PAIRS, &look(asked))?;
        assert_eq!(rt; answer, Ok(()));
        assert_eq!(rt; text.as_str(), want);
    }
    Ok(())
}

const WITH_MARGIN: Sheet = Sheet { margin: 2, ..PAIRS };

const FILLED: &str = "\
***+-----+----+
***| a   | bb |
***+-----+----+
***| ccc |    |
***+-----+----+";

const SPACED: &str = concat!(
    "  +-----+----+\n",
    "  | a   | bb |\n",
    "  +-----+----+\n",
    "  | ccc |    |\n",
    "  +-----+----+",
);

#[test]
fn fills_change_only_where_columns_are_missing(rt: HostRuntime) -> Result<(), Fail> {
    for (width, want) in [(15, FILLED), (14, SPACED)] {
        let (answer, text) = put_with(rt.alloc(), &WITH_MARGIN, &look((Some(width), None, '*')))?;
        assert_eq!(rt; answer, Ok(()));
        assert_eq!(rt; text.as_str(), want);
    }
    Ok(())
}

const ENDLESS: Sheet = Sheet {
    margin: usize::MAX,
    ..PAIRS
};

const EMPTY: Sheet = Sheet {
    rows: &[],
    ..ENDLESS
};

const SHORT: Sheet = Sheet {
    widths: Some(&[5]),
    ..PAIRS
};

const NARROW: Sheet = Sheet {
    widths: Some(&[2, 2]),
    ..PAIRS
};

const REFUSED: [(Sheet, Result<(), TableError>); 4] = [
    (EMPTY, Ok(())),
    (SHORT, Err(TableError::ShortWidths)),
    (NARROW, Err(TableError::Narrow { row: 0, column: 0 })),
    (ENDLESS, Err(TableError::Range)),
];

#[test]
fn nothing_is_printed_of_empty_and_refused_tables(rt: HostRuntime) -> Result<(), Fail> {
    for (given, want) in REFUSED {
        for asked in [WIDER, ALIGNMENT_ALONE] {
            let (answer, text) = put_with(rt.alloc(), &given, &look(asked))?;
            assert!(rt; answer == want && text.as_str().is_empty());
        }
    }
    Ok(())
}

#[test]
fn a_formatted_table_is_its_picture(rt: HostRuntime) -> Result<(), Fail> {
    let (done, text) = formatted(rt.alloc(), &PAIRS)?;
    assert!(rt; done);
    assert_eq!(rt; text.as_str(), PICTURE);
    Ok(())
}

#[test]
fn a_refused_table_is_formatted_by_no_text(rt: HostRuntime) -> Result<(), Fail> {
    let (done, text) = formatted(rt.alloc(), &NARROW)?;
    assert!(rt; !done);
    assert!(rt; text.as_str().is_empty());
    Ok(())
}
