//! Records, one below the other, and tables whose names are wide. What is printed is worked out by
//! hand.

use super::{Run, check_runs, shown};
use std::test::Fail;

/// A record with a name of 5 columns and a value of 10.
const ALPHA: &str = "alpha\nabcdefghij\n";

const LIBRARY: &str = "k,library\nx,北京大学图书馆\n";

static WHOLE: [Run; 6] = [
    // 18 columns are enough
    Run {
        words: &["tabview", "-x", "-w", "18"],
        input: ALPHA,
        shown: "-[ RECORD 1 ]-----\nalpha | abcdefghij\n",
    },
    Run {
        words: &["tabview", "-x", "-w", "18", "--cut"],
        input: ALPHA,
        shown: "-[ RECORD 1 ]-----\nalpha | abcdefghij\n",
    },
    Run {
        words: &["tabview", "-x", "-w", "19"],
        input: ALPHA,
        shown: "-[ RECORD 1 ]-----\nalpha | abcdefghij\n",
    },
    Run {
        words: &["tabview", "-x"],
        input: ALPHA,
        shown: "-[ RECORD 1 ]-----\nalpha | abcdefghij\n",
    },
    // a head that is wider than the lines is cut to the width
    Run {
        words: &["tabview", "-x", "-w", "5"],
        input: "a,b\n1,x\n",
        shown: "-[ RE\na | 1\nb | x\n",
    },
    // a line feed in a value begins a line behind the bar
    Run {
        words: &["tabview", "-x"],
        input: "id,note\n1,\"harmless\n-[ RECORD 2 ]------\nid   | 999\nnote | forged\"\n\
                2,real\n",
        shown: "-[ RECORD 1 ]-------------\n\
                id   | 1\n\
                note | harmless\n     \
                | -[ RECORD 2 ]------\n     \
                | id   | 999\n     \
                | note | forged\n\
                -[ RECORD 2 ]-------------\n\
                id   | 2\n\
                note | real\n",
    },
];

static NARROW: [Run; 11] = [
    // the page's example
    Run {
        words: &["tabview", "-x", "-w", "20"],
        input: "id,note\n1,\"harmless\n-[ RECORD 2 ]-\nid   | 999\"\n",
        shown: "-[ RECORD 1 ]-------\n\
                id   | 1\n\
                note | harmless\n     \
                | -[ RECORD 2\n     \
                | ]-\n     \
                | id   | 999\n",
    },
    Run {
        words: &["tabview", "-x", "-w", "17"],
        input: ALPHA,
        shown: "-[ RECORD 1 ]----\nalpha | abcdefghi\n      | j\n",
    },
    Run {
        words: &["tabview", "-x", "-w", "17", "--cut"],
        input: ALPHA,
        shown: "-[ RECORD 1 ]----\nalpha | abcdefgh…\n",
    },
    // the least width: names are wrapped, too
    Run {
        words: &["tabview", "-x", "-w", "9"],
        input: ALPHA,
        shown: "-[ RECORD\nalp | abc\nha  | def\n    | ghi\n    | j\n",
    },
    Run {
        words: &["tabview", "-x", "-w", "9", "--cut"],
        input: ALPHA,
        shown: "-[ RECORD\nal… | ab…\n",
    },
    Run {
        words: &["tabview", "-x", "-w", "8"],
        input: ALPHA,
        shown: "a width of at least 9 columns is needed",
    },
    Run {
        words: &["tabview", "-x", "-w", "4"],
        input: "a,b\n1,x\n",
        shown: "a width of at least 5 columns is needed",
    },
    // characters of two columns aren't split
    Run {
        words: &["tabview", "-x", "-w", "16"],
        input: LIBRARY,
        shown: "-[ RECORD 1 ]---\n\
                k      | x\n\
                librar | 北京大\n\
                y      | 学图书\n       \
                | 馆\n",
    },
    Run {
        words: &["tabview", "-x", "-w", "15", "--cut"],
        input: LIBRARY,
        shown: "-[ RECORD 1 ]--\nk      | x\nlibra… | 北京 …\n",
    },
    // spaces at breaks are dropped, and the names are the numbers of the columns
    Run {
        words: &["tabview", "-x", "-w", "14", "--no-header"],
        input: "over the weir,\n",
        shown: "-[ RECORD 1 ]-\n1 | over the\n  | weir\n2 | \n",
    },
    // a cross above the bar
    Run {
        words: &["tabview", "-x", "-w", "24"],
        input: "a name of 22 columns..\nten\n",
        shown: "-[ RECORD 1 ]------+----\n\
                a name of 22       | ten\n\
                columns..          | \n",
    },
];

/// A name may be broken as other texts are.
static NAMES: [Run; 2] = [
    Run {
        words: &["tabview", "-w", "40"],
        input: "spec.template.spec.containers.resources.limits,name\n500m,api\n250m,db\n",
        shown: "╭───────────────────────────────┬──────╮\n\
                │ spec.template.spec.containers │ name │\n\
                │ .resources.limits             │      │\n\
                ├───────────────────────────────┼──────┤\n\
                │ 500m                          │ api  │\n\
                │ 250m                          │ db   │\n\
                ╰───────────────────────────────┴──────╯\n",
    },
    Run {
        words: &["tabview", "-w", "40"],
        input: "{\"user_authentication_last_successful_login_at\":\"2024-01-01\",\"x\":1}\n",
        shown: "╭──────────────────────────────────┬───╮\n\
                │ user_authentication_last_success │ x │\n\
                │ ful_login_at                     │   │\n\
                ├──────────────────────────────────┼───┤\n\
                │ 2024-01-01                       │ 1 │\n\
                ╰──────────────────────────────────┴───╯\n",
    },
];

#[test]
fn records_that_fit_are_whole(rt: HostRuntime) -> Result<(), Fail> {
    check_runs(&rt, &WHOLE)
}

#[test]
fn records_are_narrowed(rt: HostRuntime) -> Result<(), Fail> {
    check_runs(&rt, &NARROW)
}

#[test]
fn names_are_broken(rt: HostRuntime) -> Result<(), Fail> {
    check_runs(&rt, &NAMES)
}

/// Inputs that are hard to lay out.
static HARD: [&str; 12] = [
    ALPHA,
    LIBRARY,
    "a\n\n",
    "a,b,c,d,e,f,g,h,i,j\n1,2,3,4,5,6,7,8,9,0\n",
    "averyverylongheadername,b\n1,2\n",
    "id,note\n1,\"one\n\nthree lines\"\n22222222222222222222,\n",
    "北京大学图书馆,b\n1,学\n2,a学b图c书d\n",
    "\"two\nlines\",b\n\"a b c d e f g h\",\"  spaces  \"\n",
    "k,v\nkey,0123456789012345678901234567890123456789012345678901234567890123456789\n",
    "{\"a\":{\"b\":[1,2,3,{\"c\":\"d e f\"}]},\"longer_key\":null}\n",
    "date,amount\n2024-02-29,1234567.89\n2024-03-01,-0.5\n",
    "a,b\n1,x\n2,y\n3,z\n4,x\n5,y\n6,z\n7,x\n8,y\n9,z\n10,x\n11,y\n",
];

const LOOKS: [&[&str]; 4] = [
    &["tabview", "-x"],
    &["tabview", "-x", "--cut"],
    &["tabview"],
    &["tabview", "--cut"],
];

/// Returns the columns of a line of ASCII, boxes, marks and ideographs. U+FFFD fills the half of an
/// ideograph, and has one.
fn columns(line: &str) -> usize {
    let mut count: usize = 0;
    for c in line.chars() {
        let is_narrow = c < '\u{2E80}' || c == '\u{FFFD}';
        count = count.saturating_add(if is_narrow { 1 } else { 2 });
    }
    count
}

/// Fails with a text that has a line wider than a width.
fn check_width(text: String, width: usize) -> Result<(), String> {
    if text.starts_with("a width of at least") {
        return Ok(());
    }
    for line in text.lines() {
        if columns(line) > width {
            return Err(text);
        }
    }
    Ok(())
}

fn check_widths(rt: &HostRuntime, words: &[&str], input: &str) -> Result<(), Fail> {
    for width in 1..50 {
        check_width(shown(rt, words, Some(width), input.as_bytes())?, width)?;
    }
    Ok(())
}

#[test]
fn no_line_is_wider(rt: HostRuntime) -> Result<(), Fail> {
    for input in &HARD {
        for words in &LOOKS {
            check_widths(&rt, words, input)?;
        }
    }
    Ok(())
}
