//! Runs over lines and values: where rows begin and end in an input.

use super::{Run, check_runs};
use std::test::Fail;

/// Values of JSON over several lines, or several in one line, and arrays of plain values.
static VALUES: [Run; 9] = [
    Run {
        words: &["tabview", "-s", "markdown"],
        input: "{\n  \"a\": 1,\n  \"b\": \"}\"\n}\n{\n  \"a\": 2\n}\n",
        shown: "| a | b |\n|--:|---|\n| 1 | } |\n| 2 |   |\n",
    },
    Run {
        words: &["tabview", "-s", "markdown"],
        input: "{\"a\":1}{\"a\":\"\\\"{\"} {\"a\":3}",
        shown: "| a  |\n|----|\n| 1  |\n| \"{ |\n| 3  |\n",
    },
    Run {
        words: &["tabview", "-s", "markdown"],
        input: "[1,\"x\",null]",
        shown: "| value |\n|-------|\n| 1     |\n| x     |\n| NULL  |\n",
    },
    Run {
        words: &["tabview", "-s", "markdown", "-f", "jsonl"],
        input: "1\n2.5 true\n\"x\"\n",
        shown: "| value |\n|-------|\n| 1     |\n| 2.5   |\n| true  |\n| x     |\n",
    },
    Run {
        words: &["tabview", "-s", "markdown", "a.json"],
        input: "{\"a\":1}\n{\"a\":2}\n",
        shown: "| a |\n|--:|\n| 1 |\n| 2 |\n",
    },
    // the last of two keys counts
    Run {
        words: &["tabview", "-s", "markdown"],
        input: "{\"a\":1,\"a\":2,\"b\":3}\n",
        shown: "| a | b |\n|--:|--:|\n| 2 | 3 |\n",
    },
    // the rows behind the first ones aren't read, and their keys aren't shown
    Run {
        words: &["tabview", "-s", "markdown", "--rows", "1"],
        input: "{\"a\":1}\n{\"b\":2}\n{bad",
        shown: "| a |\n|--:|\n| 1 |\n",
    },
    Run {
        words: &["tabview", "-s", "markdown", "--rows", "1"],
        input: "[\"a\"]\n[1]\n[bad",
        shown: "| a |\n|--:|\n| 1 |\n",
    },
    Run {
        words: &["tabview", "-s", "empty", "--rows", "1", "--count"],
        input: "{\"a\":1}\n{\"b\":2}\n",
        shown: " a \n 1 \n… 1 row more\n",
    },
];

/// Tables of Markdown.
static MARKDOWN: [Run; 4] = [
    Run {
        words: &["tabview", "-s", "markdown", "-a", "c\\\\d=center"],
        input: "a|b,c\\d\n\"x|y\",\"l1\nl2\"\n",
        shown: "| a\\|b |   c\\\\d   |\n\
                |------|:--------:|\n\
                | x\\|y | l1<br>l2 |\n",
    },
    Run {
        words: &["tabview", "-s", "markdown", "--stream", "1"],
        input: "a,b\n1,x|y\n2,z\n",
        shown: "| a | b    |\n|---|------|\n| 1 | x\\|y |\n| 2 | z    |\n",
    },
    // a header alone, and no table
    Run {
        words: &["tabview", "-s", "markdown"],
        input: "a,b\n",
        shown: "| a | b |\n|---|---|\n",
    },
    Run {
        words: &["tabview", "-s", "markdown", "-x"],
        input: "a,b\n1,x|y\n",
        shown: "-[ RECORD 1 ]-\na | 1\nb | x|y\n",
    },
];

/// Blank lines of one column, and delimiters that are found.
static LINES: [Run; 11] = [
    Run {
        words: &["tabview", "-s", "markdown", "-n"],
        input: "name\nAnn\n\nBo\n",
        shown: "| # | name |\n|--:|------|\n| 1 | Ann  |\n| 2 |      |\n| 3 | Bo   |\n",
    },
    // CR LF, before the names, inside quotes, and at the end
    Run {
        words: &["tabview", "-s", "markdown"],
        input: "\r\nname\r\n\r\n\r\n\"a\n\n\"\r\n\r\n",
        shown: "| name      |\n\
                |-----------|\n\
                |           |\n\
                |           |\n\
                | a<br><br> |\n\
                |           |\n",
    },
    // of several columns a blank line is no row
    Run {
        words: &["tabview", "-s", "markdown"],
        input: "a,b\n\n1,2\n",
        shown: "| a | b |\n|--:|--:|\n| 1 | 2 |\n",
    },
    Run {
        words: &["tabview", "-s", "markdown"],
        input: "a,b\n1,\"x\n\"\n2,\"y\n",
        shown: "line 4: a quote isn't closed",
    },
    Run {
        words: &["tabview", "-s", "markdown"],
        input: "a,b\n\"x,y\n",
        shown: "line 2: a quote isn't closed",
    },
    Run {
        words: &["tabview", "-s", "markdown"],
        input: "a;b\n\"x;\";2,5\n",
        shown: "| a  |   b |\n|----|----:|\n| x; | 2,5 |\n",
    },
    Run {
        words: &["tabview", "-s", "markdown", "a.csv"],
        input: "a|b\n1|2\n",
        shown: "| a | b |\n|--:|--:|\n| 1 | 2 |\n",
    },
    Run {
        words: &["tabview", "-s", "markdown", "a.csv"],
        input: "a\tb;\n1\t2;\n",
        shown: "| a | b; |\n|--:|----|\n| 1 | 2; |\n",
    },
    // not equally often, a comma in the first line, and a delimiter that is given
    Run {
        words: &["tabview", "-s", "markdown"],
        input: "a;b\n1\n",
        shown: "| a;b |\n|----:|\n|   1 |\n",
    },
    Run {
        words: &["tabview", "-s", "markdown"],
        input: "a;b,c\n1;2,3\n",
        shown: "| a;b | c |\n|-----|--:|\n| 1;2 | 3 |\n",
    },
    Run {
        words: &["tabview", "-s", "markdown", "-d", ","],
        input: "a;b\n1;2\n",
        shown: "| a;b |\n|-----|\n| 1;2 |\n",
    },
];

#[test]
fn values_are_rows(rt: HostRuntime) -> Result<(), Fail> {
    check_runs(&rt, &VALUES)
}

#[test]
fn lines_are_told_apart(rt: HostRuntime) -> Result<(), Fail> {
    check_runs(&rt, &LINES)
}

#[test]
fn tables_of_markdown(rt: HostRuntime) -> Result<(), Fail> {
    check_runs(&rt, &MARKDOWN)
}
