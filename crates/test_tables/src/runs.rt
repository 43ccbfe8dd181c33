//! Runs of the program with given arguments and input.

use crate::showing::{assert_picture, picture};
use std::alloc::Global;
use std::process::Abort;
use std::test::Fail;
use tabled::run;

const USAGE: &str =
    "usage: tabprint [--wrap N | --cut N] [--priority none|min|max|left|right] [--words] [--stream]\n";

// Splits a command line at each space. Two spaces in a row make an empty argument.
fn words_of(alloc: Global, line: &str) -> Result<Vec<String>, Fail> {
    let mut words = Vec::new(alloc);
    for word in line.split(' ') {
        words.push(String::from_str(alloc, word)?)?;
    }
    Ok(words)
}

// Runs the program, and returns its status, output and error output.
fn ran(alloc: Global, words: &[String], input: &[u8]) -> (u8, Vec<u8>, Vec<u8>) {
    let mut rest = input;
    let mut out = Vec::new(alloc);
    let mut err = Vec::new(alloc);
    let status = run(alloc, words, &mut rest, &mut out, &mut err);
    (status, out, err)
}

const EMPTY_CELL: &str = picture! {
    "+--+"
    "|  |"
    "+--+"
    ""
};

const PADDED: &str = picture! {
    "+---+---+"
    "| a | b |"
    "+---+---+"
    "| c |   |"
    "+---+---+"
    ""
};

const WIDE: &str = picture! {
    "+----+"
    "| 中 |"
    "+----+"
    ""
};

const PAIRS: &str = picture! {
    "+-----+----+"
    "| a   | bb |"
    "+-----+----+"
    "| ccc |    |"
    "+-----+----+"
    ""
};

const RETURNED: &str = picture! {
    "+----+"
    "| a\r |"
    "+----+"
    ""
};

const LENGTHENED: &str = picture! {
    "+---+---+--+"
    "|   |   |  |"
    "+---+---+--+"
    "|   |   |  |"
    "+---+---+--+"
    "| a | b |  |"
    "+---+---+--+"
    ""
};

const RUNS: [(&str, &str); 7] = [
    ("", ""),
    ("\n", EMPTY_CELL),
    ("a\r\n", RETURNED),
    ("\n\na\tb\t\n", LENGTHENED),
    ("a\tb\nc", PADDED),
    ("中", WIDE),
    ("a\tbb\nccc\t\n", PAIRS),
];

// Fails unless a run succeeds with the wanted output and no error output.
fn assert_run(
    rt: &impl Abort,
    alloc: Global,
    words: &[String],
    input: &str,
    wanted: &str,
) -> Result<(), Fail> {
    let (status, out, err) = ran(alloc, words, input.as_bytes());
    assert_eq!(rt; status, 0, "at {input:?}");
    assert_picture(rt, str::from_utf8(out.as_slice())?, wanted);
    assert!(rt; err.is_empty());
    Ok(())
}

#[test]
fn rows_of_texts_become_tables(rt: HostRuntime) -> Result<(), Fail> {
    for (input, want) in RUNS {
        assert_run(&rt, rt.alloc(), &[], input, want)?;
    }
    Ok(())
}

#[test]
fn bytes_that_are_no_text_are_no_input(rt: HostRuntime) -> Result<(), Fail> {
    let (status, out, err) = ran(rt.alloc(), &[], b"a\n\xFF");
    assert_eq!(rt; status, 1);
    assert_eq!(rt; str::from_utf8(err.as_slice())?, "Input\n");
    assert!(rt; out.is_empty());
    Ok(())
}

const WRAPPED: &str = picture! {
    "+---+---+"
    "| a | b |"
    "|   | b |"
    "+---+---+"
    "| c |   |"
    "| c |   |"
    "| c |   |"
    "+---+---+"
    ""
};

const CUT: &str = picture! {
    "+----+--+"
    "| a  |  |"
    "+----+--+"
    "| cc |  |"
    "+----+--+"
    ""
};

// One column is left, and then three.
const CUT_TO_ONE: &str = picture! {
    "+---+"
    "| \u{FFFD} |"
    "+---+"
    "| м |"
    "+---+"
    ""
};

const CUT_TO_THREE: &str = picture! {
    "+-----+"
    "| 中\u{FFFD} |"
    "+-----+"
    "| мир |"
    "+-----+"
    ""
};

const WHOLE_WORDS: &str = picture! {
    "+------+"
    "| 111  |"
    "| 234  |"
    "| 1    |"
    "+------+"
    ""
};

const PLANNED: [(&str, &str, &str); 9] = [
    ("--wrap 9", "a\tbb\nccc\t\n", WRAPPED),
    ("--cut 9 --priority right", "a\tbb\nccc\t\n", CUT),
    ("--priority right --cut 009", "a\tbb\nccc\t\n", CUT),
    ("--cut 5", "中中\nмирный\n", CUT_TO_ONE),
    ("--cut 7", "中中\nмирный\n", CUT_TO_THREE),
    ("--stream", "a\tbb\nccc\t\n", PAIRS),
    ("--wrap 12", "a\tbb\nccc\t\n", PAIRS),
    ("--wrap 8 --words", "111 234 1", WHOLE_WORDS),
    ("--stream", "", ""),
];

#[test]
fn words_make_plans(rt: HostRuntime) -> Result<(), Fail> {
    for (line, input, want) in PLANNED {
        let words = words_of(rt.alloc(), line)?;
        assert_run(&rt, rt.alloc(), words.as_slice(), input, want)?;
    }
    Ok(())
}

// Arguments, and the first line of a table whose columns are 6, 7 and 6 wide. The total width is
// 23, and 10 with empty cells.
const FIRST_LINES: &str = picture! {
    "--wrap 15 --priority left|+--+---+------+"
    "--wrap 15 --priority max|+----+----+---+"
    "--wrap 15 --priority none|+---+----+----+"
    "--wrap 15|+---+----+----+"
    "--wrap 15 --priority min|+--+-------+--+"
    "--wrap 15 --priority right|+------+---+--+"
    "--words --wrap 15|+---+----+----+"
    "--priority max --wrap 15|+----+----+---+"
    "--wrap 15 --priority left --words|+--+---+------+"
    "--words --priority right --wrap 15|+------+---+--+"
    "--priority max --words --wrap 15|+----+----+---+"
    "--cut 15|+---+----+----+"
    "--cut 15 --priority none|+---+----+----+"
    "--priority min --cut 15|+--+-------+--+"
    "--cut 15 --priority max|+----+----+---+"
    "--priority left --cut 15|+--+---+------+"
    "--cut 15 --priority right|+------+---+--+"
    "--cut 0|+--+--+--+"
    "--wrap 0|+--+--+--+"
    "--cut 0015|+---+----+----+"
    "--cut 0000000000000000000000000000000015|+---+----+----+"
    "--cut 23|+------+-------+------+"
    "--cut 18446744073709551615|+------+-------+------+"
    "--wrap 18446744073709551615|+------+-------+------+"
    "--stream|+------+-------+------+"
};

const GREETINGS: &str = "&str\t&str\ti32\n1\tHello\t100\n2\tWorld\t1000\n";

// Fails unless a run succeeds with the wanted first line.
fn assert_top(rt: &impl Abort, alloc: Global, line: &str, wanted: &str) -> Result<(), Fail> {
    let words = words_of(alloc, line)?;
    let (status, out, _err) = ran(alloc, words.as_slice(), GREETINGS.as_bytes());
    assert_eq!(rt; status, 0);
    let first = str::from_utf8(out.as_slice())?.split('\n').next();
    assert_eq!(rt; first, Some(wanted), "at {line}");
    Ok(())
}

#[test]
fn words_in_any_order_make_their_plan(rt: HostRuntime) -> Result<(), Fail> {
    for case in FIRST_LINES.split('\n') {
        let (line, want) = case.split_once('|').unwrap_or((case, ""));
        assert_top(&rt, rt.alloc(), line, want)?;
    }
    Ok(())
}

// Arguments that are unknown, lack a value, or have an invalid one.
const UNKNOWN_WORDS: &str = picture! {
    ""
    "9"
    "wrap"
    "--help"
    "-wrap 9"
    "--Wrap 9"
    "--wra 9"
    "--wraps 9"
    "--wrap=9"
    "--stream x"
    "--wrap 9 9"
    "--wrap 9  --words"
    "--wrap"
    "--cut"
    "--priority"
    "--words --wrap"
    "--cut 9 --priority"
    "--wrap x"
    "--wrap "
    "--wrap --words"
    "--wrap +1"
    "--wrap -1"
    "--wrap 1_0"
    "--wrap 0x9"
    "--wrap 9."
    "--cut 9x"
    "--cut ９"
    "--cut ٩"
    "--cut 18446744073709551616"
    "--wrap 99999999999999999999"
    "--wrap 00018446744073709551616"
    "--cut 9 --priority "
    "--cut 9 --priority Min"
    "--cut 9 --priority minimum"
    "--cut 9 --priority 9"
    "--cut 9 --priority round"
    "--priority --cut 9"
};

// Options given twice.
const REPEATED_WORDS: &str = picture! {
    "--wrap 9 --wrap 9"
    "--wrap 9 --wrap 8"
    "--wrap 9 --words --wrap 9"
    "--cut 9 --cut 9"
    "--cut 9 --priority max --cut 8"
    "--cut 9 --priority min --priority min"
    "--priority min --cut 9 --priority none"
    "--wrap 9 --words --words"
    "--words --wrap 9 --words"
    "--stream --stream"
};

// Options that exclude each other, or lack the one they need.
const UNFIT_WORDS: &str = picture! {
    "--wrap 9 --cut 9"
    "--cut 9 --wrap 9"
    "--wrap 9 --words --cut 8"
    "--words"
    "--cut 9 --words"
    "--words --cut 9"
    "--words --stream"
    "--priority max"
    "--priority none"
    "--priority max --words"
    "--priority max --stream"
    "--stream --wrap 9"
    "--wrap 9 --stream"
    "--cut 9 --stream"
    "--stream --cut 9 --priority min"
    "--wrap 9 --words --stream"
};

// Fails unless a run prints only the usage. The input isn't UTF-8, so reading it would fail, too.
fn assert_usage(rt: &impl Abort, alloc: Global, line: &str) -> Result<(), Fail> {
    let words = words_of(alloc, line)?;
    let (status, out, err) = ran(alloc, words.as_slice(), b"\xFF");
    assert_eq!(rt; status, 2, "at {line}");
    assert_eq!(rt; str::from_utf8(err.as_slice())?, USAGE);
    assert!(rt; out.is_empty());
    Ok(())
}

#[test]
fn wrong_words_end_the_run_before_the_input(rt: HostRuntime) -> Result<(), Fail> {
    for line in UNKNOWN_WORDS.split('\n') {
        assert_usage(&rt, rt.alloc(), line)?;
    }
    for line in REPEATED_WORDS.split('\n') {
        assert_usage(&rt, rt.alloc(), line)?;
    }
    for line in UNFIT_WORDS.split('\n') {
        assert_usage(&rt, rt.alloc(), line)?;
    }
    Ok(())
}

#[test]
fn output_of_many_blocks_is_whole(rt: HostRuntime) -> Result<(), Fail> {
    let mut input = String::new(rt.alloc());
    let mut want = String::new(rt.alloc());
    want.push_str("+---+\n")?;
    for _row in 0..20_000 {
        input.push_str("x\n")?;
        want.push_str("| x |\n+---+\n")?;
    }
    let (status, out, _err) = ran(rt.alloc(), &[], input.as_bytes());
    assert_eq!(rt; status, 0);
    assert!(rt; out.as_slice() == want.as_bytes());
    Ok(())
}
