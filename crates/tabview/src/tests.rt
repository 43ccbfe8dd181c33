//! Runs of the viewer: each option, and input that is wrong. The tables are worked out by hand.

mod databases;
mod lines;
mod records;

use std::test::Fail;
use tabview_options::{Options, command};
use tabview_show::show_input;

/// A run: the words of its command line, its input, and what it prints, with the error.
struct Run {
    words: &'static [&'static str],
    input: &'static str,
    shown: &'static str,
}

const CITIES: &str = "City,People,Census\nVaduz,5774,2021-12-31\n北京,21893095,2020-11-01\n";

static TABLES: [Run; 9] = [
    // numbers are at the right
    Run {
        words: &["tabview"],
        input: CITIES,
        shown: "╭───────┬──────────┬────────────╮\n\
                │ City  │   People │ Census     │\n\
                ├───────┼──────────┼────────────┤\n\
                │ Vaduz │     5774 │ 2021-12-31 │\n\
                │ 北京  │ 21893095 │ 2020-11-01 │\n\
                ╰───────┴──────────┴────────────╯\n",
    },
    // columns by name and number
    Run {
        words: &["tabview", "--columns", "3,City", "-s", "ascii", "-n"],
        input: CITIES,
        shown: "+---+------------+-------+\n\
                | # | Census     | City  |\n\
                +---+------------+-------+\n\
                | 1 | 2021-12-31 | Vaduz |\n\
                +---+------------+-------+\n\
                | 2 | 2020-11-01 | 北京  |\n\
                +---+------------+-------+\n",
    },
    Run {
        words: &["tabview", "-s", "markdown", "--rows", "1", "--count"],
        input: "a,b\n1,x\n2,y\n3,z\n",
        shown: "| a | b |\n|--:|---|\n| 1 | x |\n\n… 2 rows more\n",
    },
    Run {
        words: &["tabview", "-s", "markdown", "--tail", "2", "--number"],
        input: "a,b\n1,x\n2,y\n3,z\n",
        shown: "| # | a | b |\n|--:|--:|---|\n| 2 | 2 | y |\n| 3 | 3 | z |\n",
    },
    // a side, and a text that counts as empty
    Run {
        words: &[
            "tabview",
            "-s",
            "markdown",
            "-a",
            "bbb=right",
            "--null",
            "NA",
        ],
        input: "aaa,bbb\n1,x\nNA,y\n",
        shown: "| aaa | bbb |\n|----:|----:|\n|   1 |   x |\n|  NA |   y |\n",
    },
    Run {
        words: &["tabview", "-x"],
        input: "a,b\n1,x\n",
        shown: "-[ RECORD 1 ]-\na | 1\nb | x\n",
    },
    // a header alone
    Run {
        words: &["tabview"],
        input: "a,b\n",
        shown: "╭───┬───╮\n│ a │ b │\n╰───┴───╯\n",
    },
    Run {
        words: &["tabview", "-x"],
        input: "a,b\n",
        shown: "",
    },
    Run {
        words: &["tabview", "--no-header"],
        input: "a,b\nc,d\n",
        shown: "╭───┬───╮\n│ a │ b │\n│ c │ d │\n╰───┴───╯\n",
    },
];

const GATE: &str = "id,remark\n1234567890,the east gate\n";

static WIDTHS: [Run; 7] = [
    Run {
        words: &["tabview", "-s", "psql", "-w", "24", "--wrap"],
        input: GATE,
        shown: "         id | remark    \n\
                ------------+-----------\n 1234567890 | the east  \n\
                \x20           | gate      \n",
    },
    Run {
        words: &["tabview", "-s", "psql", "-w", "24", "--cut"],
        input: GATE,
        shown: "         id | remark    \n\
                ------------+-----------\n 1234567890 | the east… \n",
    },
    // a row of Markdown is one line, so it may be cut, and isn't wrapped
    Run {
        words: &["tabview", "-s", "markdown", "-w", "24", "--cut"],
        input: GATE,
        shown: "|         id | remark  |\n\
                |-----------:|---------|\n\
                | 1234567890 | the ea… |\n",
    },
    Run {
        words: &["tabview", "-s", "markdown", "-w", "24"],
        input: GATE,
        shown: "|         id | remark        |\n\
                |-----------:|---------------|\n\
                | 1234567890 | the east gate |\n",
    },
    // a width that is too small
    Run {
        words: &["tabview", "-w", "16"],
        input: "id,remark\n1234567890,go\n",
        shown: "-[ RECORD 1 ]---\nid     | 1234567\n       | 890\nremark | go\n",
    },
    // a later cell is wider
    Run {
        words: &["tabview", "--stream", "1", "-s", "psql", "-n"],
        input: "id,name\n1,Oslo\n2,Thiruvananthapuram\n",
        shown: " # | id | name \n 1 | 1  | Oslo \n 2 | 2  | Thi… \n",
    },
    // the names alone are measured
    Run {
        words: &["tabview", "--stream", "0", "-s", "psql", "-n"],
        input: "id,name\n1,Vaduz\n",
        shown: " # | id | name \n 1 | 1  | Vad… \n",
    },
];

/// The ending of a path comes before the first bytes of the input.
static ENDINGS: [Run; 6] = [
    Run {
        words: &["tabview", "-s", "markdown", "a.json.csv"],
        input: "[a],b\nx,1\n",
        shown: "| [a] | b |\n|-----|--:|\n| x   | 1 |\n",
    },
    Run {
        words: &["tabview", "-s", "markdown", "a.tsv"],
        input: "a,b\tc\nx,y\t3\n",
        shown: "| a,b | c |\n|-----|--:|\n| x,y | 3 |\n",
    },
    Run {
        words: &["tabview", "-s", "markdown", "a.ndjson"],
        input: "[1,2]\n[3,4]\n",
        shown: "| 1 | 2 |\n|--:|--:|\n| 3 | 4 |\n",
    },
    Run {
        words: &["tabview", "a.sqlite3"],
        input: "a,b\n",
        shown: "a database",
    },
    // no ending, and one that is no format
    Run {
        words: &["tabview", "-s", "markdown", "a.csv/b"],
        input: "[[\"a\"],[\"b\"]]",
        shown: "| a |\n|---|\n| b |\n",
    },
    Run {
        words: &["tabview", "-s", "markdown", "csv"],
        input: "[[\"a\"],[\"b\"]]",
        shown: "| a |\n|---|\n| b |\n",
    },
];

static INPUTS: [Run; 16] = [
    Run {
        words: &["tabview", "-s", "empty", "--no-header"],
        input: "\u{1b}[1mred,a\tb\n",
        shown: " ␛[1mred  a␉b \n",
    },
    // directional marks
    Run {
        words: &["tabview", "-s", "empty", "--no-header"],
        input: "a\u{202e}b\u{2066}\n",
        shown: " a␦eb␦f \n",
    },
    Run {
        words: &["tabview", "-s", "empty", "--no-header", "--raw"],
        input: "a\u{7}b\n",
        shown: " a\u{7}b \n",
    },
    Run {
        words: &["tabview", "-s", "markdown", "--fill"],
        input: "a,b\n1\n",
        shown: "| a | b |\n|--:|---|\n| 1 |   |\n",
    },
    // a row is longer than the names
    Run {
        words: &["tabview", "-s", "markdown", "--fill"],
        input: "a,b\n2,3,4\n",
        shown: "| a | b |   |\n|--:|--:|--:|\n| 2 | 3 | 4 |\n",
    },
    Run {
        words: &["tabview", "-s", "markdown"],
        input: "a\tb\n1\t2\n",
        shown: "| a | b |\n|--:|--:|\n| 1 | 2 |\n",
    },
    // a byte-order mark and CR LF
    Run {
        words: &["tabview", "-s", "markdown", "-d", ";"],
        input: "\u{feff}a;b\r\n1;2\r\n",
        shown: "| a | b |\n|--:|--:|\n| 1 | 2 |\n",
    },
    Run {
        words: &["tabview", "-s", "markdown"],
        input: "[{\"a\": 1, \"b\": null}, {\"b\": [1, 2], \"a\": \"x\"}]",
        shown: "| a | b     |\n|---|-------|\n| 1 | NULL  |\n| x | [1,2] |\n",
    },
    Run {
        words: &["tabview", "-s", "markdown"],
        input: "{\"a\": 1, \"b\": null}\n{\"b\": [1, 2], \"a\": \"x\"}\n",
        shown: "| a | b     |\n|---|-------|\n| 1 | NULL  |\n| x | [1,2] |\n",
    },
    Run {
        words: &["tabview", "-s", "markdown", "-f", "json"],
        input: "[[\"a\"],[1]]",
        shown: "| a |\n|--:|\n| 1 |\n",
    },
    // blank lines, and a key that the first line lacks
    Run {
        words: &["tabview", "-s", "markdown"],
        input: "{\"a\":1}\r\n\n{\"b\":2}\n",
        shown: "| a | b |\n|--:|--:|\n| 1 |   |\n|   | 2 |\n",
    },
    Run {
        words: &["tabview", "-s", "markdown", "-f", "jsonl"],
        input: "[\"a\"]\n[1]\n[2]",
        shown: "| a |\n|--:|\n| 1 |\n| 2 |\n",
    },
    // null has a text, an empty cell has none
    Run {
        words: &["tabview", "-s", "markdown", "--null", "-"],
        input: "{\"a\":10}\n{\"a\":null}\n{\"a\":\"\"}\n",
        shown: "|  a |\n|---:|\n| 10 |\n|  - |\n|    |\n",
    },
    // with progress the table is the same
    Run {
        words: &["tabview", "-s", "empty", "--progress"],
        input: "a\n1\n",
        shown: " a \n 1 \n",
    },
    Run {
        words: &["tabview"],
        input: "",
        shown: "",
    },
    Run {
        words: &["tabview", "--stream", "1"],
        input: "",
        shown: "",
    },
];

static FAULTS: [Run; 17] = [
    Run {
        words: &["tabview", "--columns", "Town"],
        input: CITIES,
        shown: "there is no column Town",
    },
    Run {
        words: &["tabview", "-a", "Town=left"],
        input: CITIES,
        shown: "there is no column Town",
    },
    Run {
        words: &["tabview", "-a", "City"],
        input: CITIES,
        shown: "--align takes COLUMN=left, COLUMN=right or COLUMN=center, not City",
    },
    Run {
        words: &["tabview", "-d", "ab"],
        input: "a\n",
        shown: "--delimiter takes one character of ASCII, or \\t",
    },
    Run {
        words: &["tabview", "-q", "x"],
        input: "a\n",
        shown: "--query needs a database of SQLite",
    },
    Run {
        words: &["tabview", "--table", "x"],
        input: "a\n",
        shown: "--table needs a database of SQLite",
    },
    Run {
        words: &["tabview"],
        input: "SQLite format 3\0",
        shown: "a database",
    },
    Run {
        words: &["tabview", "-f", "tsv"],
        input: "a\tb\n1\n",
        shown: "line 2: 1 cell, but 2 in the first record (record 1, byte 4)",
    },
    Run {
        words: &["tabview"],
        input: "[{\"a\":1},\n {\"a\"}]",
        shown: "line 2, column 6: invalid JSON",
    },
    Run {
        words: &["tabview"],
        input: "[{\"a\":1},\n {\"a\":}]",
        shown: "line 2, column 7: invalid JSON",
    },
    Run {
        words: &["tabview"],
        input: "[{\"a\":1},\n {\"a\":1]]",
        shown: "line 2, column 8: invalid JSON",
    },
    Run {
        words: &["tabview"],
        input: "[{\"a\":1},\n [2]]",
        shown: "line 2, column 2: objects and arrays are mixed",
    },
    Run {
        words: &["tabview"],
        input: "[[1,2],\n [3]]",
        shown: "line 2, column 2: 1 cell, but 2 in the first row",
    },
    Run {
        words: &["tabview"],
        input: "[{},\n 3]",
        shown: "line 2, column 2: a row is neither an object nor an array",
    },
    Run {
        words: &["tabview"],
        input: "[3,\n {}]",
        shown: "line 2, column 2: objects and arrays are mixed",
    },
    Run {
        words: &["tabview"],
        input: "{\"a\":1}\n{\"a\":\n",
        shown: "line 2, column 6: invalid JSON",
    },
    // a key that wasn't read ahead
    Run {
        words: &["tabview", "--stream", "1", "-s", "empty"],
        input: "{\"a\":1}\n{\"b\":1}\n",
        shown: " a \n 1 \nline 2, column 1: the key b is in none of the rows read ahead",
    },
];

/// Returns what is printed for an input, or the message of the error. The terminal may have a
/// width.
fn shown(
    rt: &HostRuntime,
    words: &[&str],
    terminal: Option<usize>,
    input: &[u8],
) -> Result<String, Fail> {
    let alloc = rt.alloc();
    let matches = match command(alloc)?.try_get_matches_from(words) {
        Ok(matches) => matches,
        Err(error) => return Ok(format!(in alloc; "{error}")?),
    };
    match Options::of(alloc, &matches, terminal) {
        Ok(options) => printed(rt, &options, input),
        Err(error) => Ok(format!(in alloc; "{error}")?),
    }
}

fn printed(rt: &HostRuntime, options: &Options<'_>, input: &[u8]) -> Result<String, Fail> {
    let mut out = Vec::new(rt.alloc());
    let shown = show_input(rt, options, input, &mut out);
    let mut text = String::from_utf8(out)?;
    match shown {
        Ok(true) => (),
        Ok(false) => text.push_str("a database")?,
        Err(error) => write!(text, "{error}")?,
    }
    Ok(text)
}

/// Fails with a text, unless it is what is wanted.
fn check(shown: String, wanted: &str) -> Result<(), String> {
    if shown.as_str() == wanted {
        return Ok(());
    }
    Err(shown)
}

fn check_runs(rt: &HostRuntime, runs: &[Run]) -> Result<(), Fail> {
    for run in runs {
        check_run(rt, run)?;
    }
    Ok(())
}

fn check_run(rt: &HostRuntime, run: &Run) -> Result<(), Fail> {
    let text = shown(rt, run.words, None, run.input.as_bytes())?;
    check(text, run.shown)?;
    Ok(())
}

#[test]
fn tables_are_shown(rt: HostRuntime) -> Result<(), Fail> {
    check_runs(&rt, &TABLES)
}

#[test]
fn tables_fit_a_width(rt: HostRuntime) -> Result<(), Fail> {
    check_runs(&rt, &WIDTHS)
}

#[test]
fn endings_name_formats(rt: HostRuntime) -> Result<(), Fail> {
    check_runs(&rt, &ENDINGS)
}

#[test]
fn inputs_are_read(rt: HostRuntime) -> Result<(), Fail> {
    check_runs(&rt, &INPUTS)
}

#[test]
fn faults_are_named(rt: HostRuntime) -> Result<(), Fail> {
    check_runs(&rt, &FAULTS)
}

#[test]
fn a_terminal_has_a_width(rt: HostRuntime) -> Result<(), Fail> {
    let narrow = "         id | remark    \n\
                  ------------+-----------\n 1234567890 | the east  \n\
                  \x20           | gate      \n";
    let words = ["tabview", "-s", "psql"];
    check(shown(&rt, &words, Some(24), GATE.as_bytes())?, narrow)?;
    let words = ["tabview", "-s", "psql", "-w", "24"];
    check(shown(&rt, &words, Some(80), GATE.as_bytes())?, narrow)?;
    Ok(())
}

#[test]
fn bytes_that_are_no_text(rt: HostRuntime) -> Result<(), Fail> {
    let text = shown(&rt, &["tabview"], None, b"a,b\n1,\xFF\n")?;
    check(text, "line 2, column 2: invalid UTF-8 (record 1)")?;
    let text = shown(&rt, &["tabview"], None, b"[\"\xC3\xA4\",\n\xFF")?;
    check(text, "line 2, column 1: invalid UTF-8")?;
    let words = ["tabview", "-s", "markdown", "--lossy"];
    let text = shown(&rt, &words, None, b"a,b\n1,\xFF\n")?;
    check(text, "| a | b |\n|--:|---|\n| 1 | \u{fffd} |\n")?;
    Ok(())
}

#[test]
fn help_fits_80_columns(rt: HostRuntime) -> Result<(), Fail> {
    let alloc = rt.alloc();
    let Err(help) = command(alloc)?.try_get_matches_from(&["tabview", "--help"]) else {
        return Err(Fail::from("no help"));
    };
    let text = format!(in alloc; "{help}")?;
    for line in text.lines() {
        if line.chars().count() > 80 {
            return Err(Fail::from(String::from_str(alloc, line)?));
        }
    }
    Ok(())
}
