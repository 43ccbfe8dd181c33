//! What is wrong with a query.

use crate::error::ReadError;
use crate::place::place_after;
use crate::sql_tokens::{Token, name_of, token_from};
use crate::tables::select_all;
use sqlite::{Alter, Connection, Error};
use sqlite_resolve::CompileError;
use sqlite_syntax::error::ParseError;
use std::alloc::{AllocError, Global};
use std::fmt;
use tabview_cells::escape;
use tabview_database::{LeftOut, Obstacle};

/// What is wrong with a query. Its words are escaped as cells are.
pub enum QueryFault {
    /// The query ends too early.
    Incomplete,
    /// No rule reads this word.
    Syntax(String),
    /// This word begins what isn't supported.
    Unsupported(String),
    /// The database has no such table.
    NoTable(String),
    /// The table of the schema, by this name, is read with another one.
    NotAlone(String),
}

impl fmt::Display for QueryFault {
    fn fmt<W: fmt::Write>(&self, f: &mut fmt::Formatter<W>) -> fmt::Result {
        match self {
            QueryFault::Incomplete => f.write_str("incomplete input"),
            QueryFault::Syntax(word) => write!(f, "near \"{word}\": syntax error"),
            QueryFault::Unsupported(word) => write!(f, "near \"{word}\": this SQL isn't supported"),
            QueryFault::NoTable(name) => write!(f, "no such table: {name}"),
            QueryFault::NotAlone(name) => write!(f, "{name} can't be read with another table"),
        }
    }
}

/// Drops a fault in one call, so that callers need no proof for each kind.
impl Drop for QueryFault {
    fn drop(self) {
        match self {
            QueryFault::Incomplete => {}
            QueryFault::Syntax(_) => {}
            QueryFault::Unsupported(_) => {}
            QueryFault::NoTable(_) => {}
            QueryFault::NotAlone(_) => {}
        }
    }
}

/// Returns the error of a query that isn't begun, with its word and its place.
pub(crate) fn query_error<S: Alter>(
    alloc: Global,
    connection: &mut Connection<S>,
    left_out: &[LeftOut],
    sql: &str,
    error: Error,
) -> ReadError {
    let found = match error {
        Error::SqlInputError(CompileError::Parse(error)) => parse_error(alloc, sql, error),
        Error::SqlInputError(CompileError::NoSuchTable) => table_error(
            alloc, connection, left_out, sql,
        ),
        Error::SqlInputError(CompileError::Unsupported | CompileError::NeedsView(_)) =>
            unsupported_error(alloc, connection, sql),
        _ => Ok(None),
    };
    match found {
        Ok(Some(found)) => found,
        Ok(None) => ReadError::Query(error),
        Err(_) => ReadError::Memory,
    }
}

/// Returns the error of a text that isn't read to its end.
fn parse_error(
    alloc: Global,
    sql: &str,
    error: ParseError,
) -> Result<Option<ReadError>, AllocError> {
    match error {
        ParseError::Syntax(left) => {
            let (start, word) = word_before(alloc, sql, left)?;
            let fault = match word {
                Some(word) => QueryFault::Syntax(word),
                None => QueryFault::Incomplete,
            };
            Ok(Some(fault_at(sql, start, fault)))
        }
        ParseError::Unsupported(left) => {
            let (start, word) = word_before(alloc, sql, left)?;
            let fault = QueryFault::Unsupported(word.unwrap_or(String::new(alloc)));
            Ok(Some(fault_at(sql, start, fault)))
        }
        _ => Ok(None),
    }
}

/// Returns the word that begins `left` bytes before the end, and its offset.
fn word_before(
    alloc: Global,
    sql: &str,
    left: usize,
) -> Result<(usize, Option<String>), AllocError> {
    let bytes = sql.as_bytes();
    let at = bytes.len().saturating_sub(left);
    match token_from(bytes, at) {
        Some(token) => Ok((token.start, Some(visible(alloc, token.text(bytes))?))),
        None => Ok((at, None)),
    }
}

fn fault_at(sql: &str, start: usize, fault: QueryFault) -> ReadError {
    ReadError::Sql(place_after(sql.as_bytes(), start), fault)
}

/// Returns the error of a query of a table that isn't there, if the table is found.
fn table_error<S: Alter>(
    alloc: Global,
    connection: &mut Connection<S>,
    left_out: &[LeftOut],
    sql: &str,
) -> Result<Option<ReadError>, AllocError> {
    let bytes = sql.as_bytes();
    let Some(token) = failing_table(alloc, connection, bytes, CompileError::NoSuchTable)? else {
        return schema_error(alloc, sql);
    };
    let name = name_of(token.text(bytes)).unwrap_or(&[]);
    let shown = visible(alloc, name)?;
    if let Some(object) = object_named(left_out, name) {
        return Ok(Some(ReadError::LeftOut(object.obstacle, shown)));
    }
    Ok(Some(fault_at(sql, token.start, QueryFault::NoTable(shown))))
}

/// Returns the error of a query that reads the table of the schema with another one, if it does.
fn schema_error(alloc: Global, sql: &str) -> Result<Option<ReadError>, AllocError> {
    let bytes = sql.as_bytes();
    let mut at = 0;
    for _token in 0..bytes.len() {
        let Some(token) = token_from(bytes, at) else {
            return Ok(None);
        };
        at = token.end;
        let text = token.text(bytes);
        if is_one_of(text, &["sqlite_schema", "sqlite_master"]) {
            let fault = QueryFault::NotAlone(visible(alloc, text)?);
            return Ok(Some(fault_at(sql, token.start, fault)));
        }
    }
    Ok(None)
}

/// Returns the error of a query that isn't supported: it names the table that can't be read, if
/// there is one.
fn unsupported_error<S: Alter>(
    alloc: Global,
    connection: &mut Connection<S>,
    sql: &str,
) -> Result<Option<ReadError>, AllocError> {
    let bytes = sql.as_bytes();
    match failing_table(alloc, connection, bytes, CompileError::Unsupported)? {
        Some(token) => {
            let name = name_of(token.text(bytes)).unwrap_or(&[]);
            let shown = visible(alloc, name)?;
            Ok(Some(ReadError::LeftOut(Obstacle::Table, shown)))
        }
        None => Ok(Some(ReadError::Unsupported)),
    }
}

/// Returns the object of a name that was left out and has rows.
pub(crate) fn object_named<'a>(left_out: &'a [LeftOut], name: &[u8]) -> Option<&'a LeftOut> {
    left_out.iter().find(|object| {
        object.obstacle.has_rows() && object.name.as_bytes().eq_ignore_ascii_case(name)
    })
}

/// Returns a text with its control characters as visible ones.
pub(crate) fn visible(alloc: Global, text: &[u8]) -> Result<String, AllocError> {
    let text = String::from_utf8_lossy(alloc, text)?;
    let shown = escape(alloc, &text, false)?;
    String::from_str(alloc, shown.as_str())
}

/// Where a name in a query is that of a table.
#[derive(Drop)]
struct Scan {
    /// Whether the next name is one.
    expects: bool,
    /// Whether the next comma is between two tables.
    in_from: bool,
}

impl Scan {
    /// Takes the next token. Returns whether it is the name of a table.
    fn takes(&mut self, token: &[u8]) -> bool {
        if self.expects {
            self.expects = false;
            return name_of(token).is_some();
        }
        if is_one_of(token, &["from", "join", "into", "update", "table"]) {
            self.expects = true;
            self.in_from = is_one_of(token, &["from", "join"]);
        } else if is_one_of(token, &[","]) {
            self.expects = self.in_from;
        } else if is_one_of(token, &CLAUSES) {
            self.in_from = false;
        }
        false
    }
}

/// What ends a list of tables.
const CLAUSES: [&str; 15] = [
    "select",
    "where",
    "group",
    "order",
    "having",
    "limit",
    "on",
    "using",
    "union",
    "except",
    "intersect",
    "set",
    "values",
    "(",
    ")",
];

/// Whether a token is one of some words, in any case of letters.
fn is_one_of(token: &[u8], words: &[&str]) -> bool {
    words
        .iter()
        .any(|word| token.eq_ignore_ascii_case(word.as_bytes()))
}

/// Returns the first table of a query that can't be read for some cause.
fn failing_table<S: Alter>(
    alloc: Global,
    connection: &mut Connection<S>,
    sql: &[u8],
    cause: CompileError,
) -> Result<Option<Token>, AllocError> {
    let mut scan = Scan {
        expects: false,
        in_from: false,
    };
    let mut at = 0;
    for _token in 0..sql.len() {
        let Some(token) = token_from(sql, at) else {
            return Ok(None);
        };
        at = token.end;
        let text = token.text(sql);
        if scan.takes(text)
            && !is_defined(sql, text)
            && cause_of(alloc, connection, text)? == Some(cause)
        {
            return Ok(Some(token));
        }
    }
    Ok(None)
}

/// Returns why a table can't be read, if it can't.
fn cause_of<S: Alter>(
    alloc: Global,
    connection: &mut Connection<S>,
    token: &[u8],
) -> Result<Option<CompileError>, AllocError> {
    let name = String::from_utf8_lossy(alloc, name_of(token).unwrap_or(&[]))?;
    let select = select_all(alloc, &name)?;
    match connection.prepare(&select) {
        Err(Error::SqlInputError(error)) => Ok(Some(error)),
        _ => Ok(None),
    }
}

/// Whether a query names a table or a schema of its own so.
fn is_defined(sql: &[u8], name: &[u8]) -> bool {
    let name = name_of(name).unwrap_or(&[]);
    let mut at = 0;
    for _token in 0..sql.len() {
        let Some(token) = token_from(sql, at) else {
            return false;
        };
        at = token.end;
        if is_name(token.text(sql), name) && is_definition(sql, at) {
            return true;
        }
    }
    false
}

/// Whether a token is a name, in any case of letters.
fn is_name(token: &[u8], name: &[u8]) -> bool {
    match name_of(token) {
        Some(own) => own.eq_ignore_ascii_case(name),
        None => false,
    }
}

/// Whether what follows a name defines it, or makes it the name of a schema or a function.
fn is_definition(sql: &[u8], at: usize) -> bool {
    let Some(token) = token_from(sql, at) else {
        return false;
    };
    let text = token.text(sql);
    is_one_of(text, &["(", "."]) || is_one_of(text, &["as"]) && begins_list(sql, token.end)
}

/// Whether the next token is a parenthesis.
fn begins_list(sql: &[u8], at: usize) -> bool {
    match token_from(sql, at) {
        Some(token) => is_one_of(token.text(sql), &["(", "materialized", "not"]),
        None => false,
    }
}
