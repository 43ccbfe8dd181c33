//! The format of an input.
ghost use Rattle.std.specs.Prelude.{◌≡◌};
ghost use Rattle.tabview_read.specs.Formats.{first_separator, first_visible, format_of_head};
ghost use Rattle.tabview_read.specs.Formats.{format_of_name, format_of_path, format_of_text};
ghost use Rattle.tabview_read.specs.Formats.{without_mark};

/// The formats that are read.
#[derive(Clone, Copy, PartialEq, Eq)]
pub enum Format {
    /// Comma-separated values.
    Csv,
    /// Tab-separated values.
    Tsv,
    /// An array of objects or of arrays, or one object.
    Json,
    /// An object or an array in each line.
    JsonLines,
    /// A database of SQLite.
    Sqlite,
}

/// The first bytes of a database of SQLite.
const SQLITE_HEAD: &[u8] = b"SQLite format 3\0";

impl Format {
    /// Returns the format of a name.
    pub fn of_name(name: &str) -> Option<Format>
        ensures { result ≡ format_of_name name.now }
    {
        match name {
            "csv" => Some(Format::Csv),
            "tsv" | "tab" => Some(Format::Tsv),
            "json" => Some(Format::Json),
            "jsonl" | "ndjson" => Some(Format::JsonLines),
            "sqlite" | "sqlite3" | "db" => Some(Format::Sqlite),
            _ => None,
        }
    }

    /// Returns the format that the ending of a path names.
    pub fn of_path(path: &str) -> Option<Format>
        ensures { result ≡ format_of_path path.now }
    {
        match path.rsplit_once('.') {
            Some((_, ending)) => Format::of_name(ending),
            None => None,
        }
    }

    /// Returns the format that the first bytes of an input are of: SQLite by its magic, JSON by an
    /// opening bracket, JSON lines by a brace, tab-separated values by a tab in the first line
    /// before any comma, and else comma-separated ones.
    pub fn of_head(head: &[u8]) -> Format
        ensures { result ≡ format_of_head head.now }
    {
        if head.starts_with(SQLITE_HEAD) {
            return Format::Sqlite;
        }
        Format::of_text(without_mark(head))
    }

    /// Returns the format of a text.
    fn of_text(text: &[u8]) -> Format
        ensures { result ≡ format_of_text text.now }
    {
        match first_visible(text) {
            Some(b'[') => Format::Json,
            Some(b'{') => Format::JsonLines,
            _ => match first_separator(text) {
                Some(b'\t') => Format::Tsv,
                _ => Format::Csv,
            },
        }
    }
}

/// Returns the first byte that isn't white space.
fn first_visible(text: &[u8]) -> Option<u8>
    ensures { result ≡ first_visible text.now }
{
    text.iter().copied().find(|b| !b.is_ascii_whitespace())
}

/// Returns the first tab, comma or line feed.
fn first_separator(text: &[u8]) -> Option<u8>
    ensures { result ≡ first_separator text.now }
{
    text.iter()
        .copied()
        .find(|b| *b == b'\t' || *b == b',' || *b == b'\n')
}

/// Returns a text without a byte-order mark before it.
pub(crate) fn without_mark(text: &[u8]) -> &[u8]
    ensures { result.now ≡ without_mark text.now }
{
    text.strip_prefix(b"\xEF\xBB\xBF").unwrap_or(text)
}
