//! The options, with their help.

/// What an option takes.
#[derive(Clone, Copy, Debug, PartialEq, Eq)]
pub(crate) enum Takes {
    Nothing,
    Number,
    /// A text, the last one if there are several.
    Text,
    /// A text each time that the option is there.
    Texts,
    /// Texts with commas between them, each time that the option is there.
    List,
    /// One of some words.
    Word(&'static [&'static str]),
}

/// An option of the command line.
#[derive(Clone, Copy, Debug)]
pub(crate) struct Described {
    pub name: &'static str,
    pub letter: Option<char>,
    pub takes: Takes,
    /// What its value is called.
    pub value: &'static str,
    /// Its help: lines of at most 51 columns, with `{n}` between them, behind the option in 29.
    pub help: &'static str,
    /// The options that don't go with it.
    pub excludes: &'static [&'static str],
}

/// What is read, and how.
pub(crate) static READING: [Described; 8] = [
    Described {
        name: "from",
        letter: Some('f'),
        takes: Takes::Word(&["csv", "tsv", "json", "jsonl", "sqlite"]),
        value: "FORMAT",
        help: "Format: csv, tsv, json, jsonl or sqlite{n}\
            [default: by the file's ending, else by its{n}first bytes]",
        excludes: &[],
    },
    Described {
        name: "delimiter",
        letter: Some('d'),
        takes: Takes::Text,
        value: "C",
        help: "Character between cells: one of ASCII, or \\t{n}\
            [default: a comma, or a tab, ; or | by the{n}first lines]",
        excludes: &[],
    },
    Described {
        name: "query",
        letter: Some('q'),
        takes: Takes::Text,
        value: "SQL",
        help: "Query of an SQLite file{n}\
            [default: its only table, or a list of them]",
        excludes: &[],
    },
    Described {
        name: "table",
        letter: None,
        takes: Takes::Text,
        value: "NAME",
        help: "Table or view of an SQLite file",
        excludes: &["query"],
    },
    Described {
        name: "no-header",
        letter: None,
        takes: Takes::Nothing,
        value: "",
        help: "The first row is no header",
        excludes: &[],
    },
    Described {
        name: "fill",
        letter: None,
        takes: Takes::Nothing,
        value: "",
        help: "Fill short rows with empty cells; else an error",
        excludes: &[],
    },
    Described {
        name: "lossy",
        letter: None,
        takes: Takes::Nothing,
        value: "",
        help: "Show bytes that are no UTF-8 as \u{fffd}; else an error",
        excludes: &[],
    },
    Described {
        name: "null",
        letter: None,
        takes: Takes::Text,
        value: "TEXT",
        help: "Text shown for null; cells of CSV with it count{n}as empty [default: NULL]",
        excludes: &[],
    },
];

/// Which rows and columns are shown.
pub(crate) static CHOOSING: [Described; 5] = [
    Described {
        name: "columns",
        letter: None,
        takes: Takes::List,
        value: "A,B,..",
        help: "Show these columns, by name or number, in this{n}order",
        excludes: &[],
    },
    Described {
        name: "rows",
        letter: None,
        takes: Takes::Number,
        value: "N",
        help: "Show the first N rows",
        excludes: &[],
    },
    Described {
        name: "tail",
        letter: None,
        takes: Takes::Number,
        value: "N",
        help: "Show the last N rows",
        excludes: &["rows"],
    },
    Described {
        name: "number",
        letter: Some('n'),
        takes: Takes::Nothing,
        value: "",
        help: "Put the number of each row before it",
        excludes: &[],
    },
    Described {
        name: "count",
        letter: None,
        takes: Takes::Nothing,
        value: "",
        help: "End with the number of rows that aren't shown",
        excludes: &[],
    },
];

/// How they are shown.
pub(crate) static SHOWING: [Described; 9] = [
    Described {
        name: "style",
        letter: Some('s'),
        takes: Takes::Word(&[
            "rounded",
            "sharp",
            "modern",
            "modern-rounded",
            "ascii",
            "ascii-rounded",
            "extended",
            "markdown",
            "psql",
            "rst",
            "blank",
            "empty",
        ]),
        value: "STYLE",
        help: "Lines of the table: rounded, sharp, modern,{n}\
            modern-rounded, ascii, ascii-rounded, extended,{n}\
            markdown, psql, rst, blank or empty{n}\
            [default: rounded]",
        excludes: &[],
    },
    Described {
        name: "width",
        letter: Some('w'),
        takes: Takes::Number,
        value: "N",
        help: "Fit the table to N columns; 9 are always enough{n}\
            [default: COLUMNS of the environment]",
        excludes: &[],
    },
    Described {
        name: "align",
        letter: Some('a'),
        takes: Takes::Texts,
        value: "COLUMN=SIDE",
        help: "Align a column: left, right or center{n}[default: right for numbers]",
        excludes: &[],
    },
    Described {
        name: "wrap",
        letter: None,
        takes: Takes::Nothing,
        value: "",
        help: "Wrap texts that are too wide between words{n}[default]",
        excludes: &[],
    },
    Described {
        name: "cut",
        letter: None,
        takes: Takes::Nothing,
        value: "",
        help: "Cut texts that are too wide, and end them in …",
        excludes: &["wrap"],
    },
    Described {
        name: "expand",
        letter: Some('x'),
        takes: Takes::Nothing,
        value: "",
        help: "Show one row below the other, a line for each{n}cell; chosen where no table fits",
        excludes: &[],
    },
    Described {
        name: "raw",
        letter: None,
        takes: Takes::Nothing,
        value: "",
        help: "Show control characters as they are",
        excludes: &[],
    },
    Described {
        name: "stream",
        letter: None,
        takes: Takes::Number,
        value: "N",
        help: "Print each row when it is read, as wide as the{n}first N; wider cells are cut",
        excludes: &["tail", "expand", "count"],
    },
    Described {
        name: "progress",
        letter: None,
        takes: Takes::Nothing,
        value: "",
        help: "Show on standard error how many rows were read,{n}after two seconds",
        excludes: &["stream"],
    },
];
