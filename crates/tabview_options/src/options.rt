//! What is asked for.
ghost use Rattle.std.specs.Prelude.{◌↔◌, ◌≡◌, ℕ, IfErr, IfOk, List, MatchOption, Some, codes};
ghost use Rattle.std.specs.Prelude.{map, option_map};
ghost use Rattle.tabview_options.specs.Asked.{Asks, AsksChoice, AsksInput, AsksLook, HasNoSide};
ghost use Rattle.tabview_options.specs.Asked.{IsDelimiter, IsFlag, IsMisaligned, IsNumber};
ghost use Rattle.tabview_options.specs.Asked.{IsPath, IsUndelimited, IsWrong, Means, Writes};
ghost use Rattle.tabview_options.specs.Asked.{aligned, value_of, values_of};

use clap::ArgMatches;
use std::alloc::{AllocError, Global};
use std::{error, fmt};

/// What is asked for.
#[derive(Debug, Drop)]
pub struct Options<'a> {
    pub input: Input<'a>,
    pub choice: Choice<'a>,
    pub look: Look<'a>,
    /// The count of rows that a stream measures.
    pub stream: Option<usize>,
    pub progress: bool,
}

/// What is read, and how.
#[derive(Clone, Copy, Debug)]
pub struct Input<'a> {
    /// The path of the file, or `None` for standard input.
    pub file: Option<&'a str>,
    /// The name of the format.
    pub format: Option<&'a str>,
    pub delimiter: Option<u8>,
    pub query: Option<&'a str>,
    /// The name of a table of a database.
    pub table: Option<&'a str>,
    pub has_header: bool,
    pub fill: bool,
    pub lossy: bool,
    /// What is shown for null.
    pub null: Option<&'a str>,
}

/// Which rows and columns are shown.
#[derive(Debug, Drop)]
pub struct Choice<'a> {
    pub columns: Vec<&'a str>,
    pub rows: Option<usize>,
    pub tail: Option<usize>,
    pub numbers: bool,
    pub count: bool,
}

/// How they are shown.
#[derive(Debug, Drop)]
pub struct Look<'a> {
    /// The name of the style.
    pub style: Option<&'a str>,
    pub width: Option<usize>,
    /// The sides of columns, by their names or numbers.
    pub sides: Vec<(&'a str, Side)>,
    pub cut: bool,
    pub expand: bool,
    pub raw: bool,
}

/// Where the texts of a column are.
#[derive(Clone, Copy, Debug, PartialEq, Eq)]
pub enum Side {
    Left,
    Right,
    Center,
}

/// A command line that asks for what can't be.
#[derive(Debug, Drop)]
pub enum WrongOption {
    /// An allocation failed.
    Memory,
    /// `--delimiter` is no character of ASCII.
    Delimiter,
    /// `--align` has no side.
    Align(String),
}

impl fmt::Display for WrongOption {
    fn fmt<W: fmt::Write>(&self, f: &mut fmt::Formatter<W>) -> fmt::Result {
        match self {
            WrongOption::Memory => f.write_str("out of memory"),
            WrongOption::Delimiter => f.write_str(
                "--delimiter takes one character of ASCII, or \\t",
            ),
            WrongOption::Align(word) => {
                write!(
                    f,
                    "--align takes COLUMN=left, COLUMN=right or COLUMN=center, not {word}"
                )
            }
        }
    }
}

impl error::Error for WrongOption {}

impl From<AllocError> for WrongOption {
    ghost use Rattle.std.specs.Prelude.{◌≡◌};
    ghost use Rattle.tabview_options.specs.declared.options.WrongOption.TheVariants.{Memory};

    ghost from_gives = { λ _ e. e ≡ Memory };

    fn from(_error: AllocError) -> WrongOption {
        WrongOption::Memory
    }
}

impl<'a> Options<'a> {
    /// Reads the options of a command line. A terminal of some columns gives the width that isn't
    /// asked for.
    ///
    /// Errors: an allocation failed; `--delimiter` is no character of ASCII; `--align` has no side.
    pub fn of(
        alloc: Global,
        matches: &ArgMatches<'a>,
        terminal: Option<usize>,
    ) -> Result<Options<'a>, WrongOption>
        ensures ok { IfOk result (Asks matches.now terminal) }
        ensures errors { IfErr result (IsWrong matches.now) }
    {
        let input = Input::of(matches)?;
        let choice = Choice::of(alloc, matches)?;
        let look = Look::of(alloc, matches, terminal)?;
        Ok(Options {
            input,
            choice,
            look,
            stream: number_of(matches, "stream"),
            progress: is_set(matches, "progress"),
        })
    }
}

impl<'a> Input<'a> {
    fn of(matches: &ArgMatches<'a>) -> Result<Input<'a>, WrongOption>
        ensures ok { IfOk result (AsksInput matches.now) }
        ensures errors { IfErr result (IsUndelimited (value_of matches.now (codes "delimiter"))) }
    {
        let delimiter = delimiter(matches.get_str("delimiter"))?;
        Ok(Input {
            file: path_of(matches.get_str("file")),
            format: matches.get_str("from"),
            delimiter,
            query: matches.get_str("query"),
            table: matches.get_str("table"),
            has_header: !is_set(matches, "no-header"),
            fill: is_set(matches, "fill"),
            lossy: is_set(matches, "lossy"),
            null: matches.get_str("null"),
        })
    }
}

impl<'a> Choice<'a> {
    fn of(alloc: Global, matches: &ArgMatches<'a>) -> Result<Choice<'a>, AllocError>
        ensures { IfOk result (AsksChoice matches.now) }
    {
        let columns = Vec::from_slice(alloc, matches.get_strs("columns").unwrap_or(&[]))?;
        Ok(Choice {
            columns,
            rows: number_of(matches, "rows"),
            tail: number_of(matches, "tail"),
            numbers: is_set(matches, "number"),
            count: is_set(matches, "count"),
        })
    }
}

impl<'a> Look<'a> {
    fn of(
        alloc: Global,
        matches: &ArgMatches<'a>,
        terminal: Option<usize>,
    ) -> Result<Look<'a>, WrongOption>
        ensures ok { IfOk result (AsksLook matches.now terminal) }
        ensures errors { IfErr result (IsMisaligned (values_of matches.now (codes "align"))) }
    {
        let sides = sides(alloc, matches.get_strs("align").unwrap_or(&[]))?;
        Ok(Look {
            style: matches.get_str("style"),
            width: number_of(matches, "width").or(terminal),
            sides,
            cut: is_set(matches, "cut"),
            expand: is_set(matches, "expand"),
            raw: is_set(matches, "raw"),
        })
    }
}

/// Returns the width of a terminal by its variable `COLUMNS`: none, if that is no number.
pub fn width_of(columns: &str) -> Option<usize>
    ensures { Writes columns.now result }
{
    columns.parse::<usize>().ok()
}

/// Returns the number of an argument, if it has one.
fn number_of(matches: &ArgMatches<'_>, name: &str) -> Option<usize>
    ensures { IsNumber matches.now name.now result }
{
    matches.get_one(name)
}

/// Whether a flag is there.
fn is_set(matches: &ArgMatches<'_>, name: &str) -> bool
    ensures { IsFlag matches.now name.now result }
{
    matches.get_flag(name)
}

/// Returns the path of a file. Without one, and for `-`, standard input is read.
fn path_of<'a>(word: Option<&'a str>) -> Option<&'a str>
    ensures { IsPath (option_map (λ s. s.now) word.entry) (option_map (λ s. s.now) result) }
{
    let path = word?;
    if path == "-" { None } else { Some(path) }
}

/// Returns the byte that is asked for between cells.
fn delimiter(word: Option<&str>) -> Result<Option<u8>, WrongOption>
    ensures ok { IfOk result (IsDelimiter (option_map (λ s. s.now) word.entry)) }
    ensures errors { IfErr result (IsUndelimited (option_map (λ s. s.now) word.entry)) }
{
    let Some(word) = word else {
        return Ok(None);
    };
    match byte_of(word) {
        Some(byte) => Ok(Some(byte)),
        None => Err(WrongOption::Delimiter),
    }
}

/// Returns the byte that a word means: a character of ASCII itself, and `\t` a tab.
fn byte_of(word: &str) -> Option<u8>
    ensures { (byte : ℕ) → (result ≡ Some byte) ↔ Means word.now byte }
{
    if word == "\\t" {
        return Some(b'\t');
    }
    match word.as_bytes() {
        [byte] if byte.is_ascii() => Some(*byte),
        _ => None,
    }
}

fn sides<'a>(alloc: Global, words: &[&'a str]) -> Result<Vec<(&'a str, Side)>, WrongOption>
    ensures ok { IfOk result (λ sides. map (λ s. aligned s.0.now s.1) sides.items
        ≡ map (λ s. s.now) words.now) }
    ensures errors { IfErr result (IsMisaligned (map (λ s. s.now) words.now)) }
{
    let mut list = Vec::new(alloc);
    for word in words {
        match side_of(word) {
            Some(side) => list.push(side).map_err(AllocError::from)?,
            None => return Err(WrongOption::Align(String::from_str(alloc, word)?)),
        }
    }
    Ok(list)
}

/// Returns the column and the side of `COLUMN=SIDE`.
fn side_of(word: &str) -> Option<(&str, Side)>
    ensures { MatchOption result (HasNoSide word.now) (λ s. word.now ≡ aligned s.0.now s.1) }
{
    if let Some(column) = word.strip_suffix("=left") {
        return Some((column, Side::Left));
    }
    if let Some(column) = word.strip_suffix("=right") {
        return Some((column, Side::Right));
    }
    let column = word.strip_suffix("=center")?;
    Some((column, Side::Center))
}
