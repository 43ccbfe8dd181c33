//! The rows of a query of a database.
ghost use Rattle.csv.specs.Records.{fields_of};
ghost use Rattle.sqlite_sql.specs.Spelling.{spelled};
ghost use Rattle.std.specs.Prelude.{◌≡◌, ◌++◌, ◌∷◌, [], OnOk};
ghost use Rattle.std.specs.Str.Lossy.{utf8_lossy};

use crate::error::ReadError;
use crate::query_fault::query_error;
use crate::row::{Row, Rows};
use csv::StringRecord;
use sqlite::types::ValueRef;
use sqlite::{Alter, Connection, Statement};
use sqlite_sql::spelling::of_float;
use std::alloc::{AllocError, Global};
use std::str::from_utf8;
use tabview_database::LeftOut;

/// The rows of a query.
pub struct SqliteRows<'a, S: Alter> {
    alloc: Global,
    names: StringRecord,
    rows: sqlite::Rows<'a, S>,
    /// Whether invalid UTF-8 is shown as U+FFFD.
    lossy: bool,
}

impl<S: Alter> Drop for SqliteRows<'_, S> {
    fn drop(self) {
        let SqliteRows {
            alloc: _,
            names: _,
            rows: _,
            lossy: _,
        } = self;
    }
}

impl<'a, S: Alter> SqliteRows<'a, S> {
    /// Begins a query. The objects that were left out of the schema have no rows.
    pub fn new(
        alloc: Global,
        connection: &'a mut Connection<S>,
        left_out: &[LeftOut],
        query: &str,
        lossy: bool,
    ) -> Result<SqliteRows<'a, S>, ReadError> {
        match connection.prepare(query) {
            Ok(statement) => SqliteRows::of_statement(alloc, connection, &statement, lossy),
            Err(error) => Err(query_error(alloc, connection, left_out, query, error)),
        }
    }

    fn of_statement(
        alloc: Global,
        connection: &'a mut Connection<S>,
        statement: &Statement,
        lossy: bool,
    ) -> Result<SqliteRows<'a, S>, ReadError> {
        let names = names_of(alloc, statement)?;
        Ok(SqliteRows {
            alloc,
            names,
            rows: statement.query(connection, &[])?,
            lossy,
        })
    }
}

impl<S: Alter> Rows for SqliteRows<'_, S> {
    fn names(&self) -> Option<&StringRecord> {
        Some(&self.names)
    }

    fn read(&mut self, row: &mut Row) -> Result<bool, ReadError> {
        row.clear();
        self.rows.advance()?;
        match self.rows.get() {
            Some(values) => {
                put_values(self.alloc, row, values, self.lossy)?;
                Ok(true)
            }
            None => Ok(false),
        }
    }
}

fn names_of(alloc: Global, statement: &Statement) -> Result<StringRecord, AllocError> {
    let mut names = StringRecord::new(alloc);
    for name in statement.column_names() {
        names.push_field(&String::from_utf8_lossy(alloc, name.as_slice())?)?;
    }
    Ok(names)
}

fn put_values(
    alloc: Global,
    row: &mut Row,
    values: &sqlite::Row,
    lossy: bool,
) -> Result<(), ReadError> {
    for column in 0..values.column_count() {
        let value = values.get_ref(column)?;
        if !put_value(alloc, row, value, lossy)? {
            return Err(ReadError::Query(sqlite::Error::Utf8Error(column)));
        }
    }
    Ok(())
}

/// Adds the cell of a value, unless it is text that is invalid UTF-8. Bytes are written as in SQL.
fn put_value(
    alloc: Global,
    row: &mut Row,
    value: ValueRef<'_>,
    lossy: bool,
) -> Result<bool, AllocError> {
    match value {
        ValueRef::Null => row.push_null()?,
        ValueRef::Int(number) => row.push_text(&format!(in alloc; "{number}")?)?,
        ValueRef::Real(number) => put_float(alloc, row, number)?,
        ValueRef::Blob(bytes) => row.push_text(&hex(alloc, bytes)?)?,
        ValueRef::Text(bytes) => return put_text(alloc, row, bytes, lossy),
    }
    Ok(true)
}

/// Adds the cell of a number as SQLite writes it, such as `3.0` and `1.0e+100`.
fn put_float(alloc: Global, row: &mut Row, number: f64) -> Result<(), AllocError>
    ensures cells { OnOk result (fields_of row.new.cells
        ≡ fields_of row.old.cells ++ utf8_lossy (spelled number) ∷ []) }
    ensures nulls { OnOk result (row.new.nulls.items ≡ row.old.nulls.items) }
{
    row.push_text(&String::from_utf8_lossy(alloc, of_float(number).as_slice())?)
}

/// Adds the cell of a text, unless it is invalid UTF-8 that isn't shown as U+FFFD.
fn put_text(alloc: Global, row: &mut Row, bytes: &[u8], lossy: bool) -> Result<bool, AllocError> {
    match from_utf8(bytes) {
        Ok(text) => row.push_text(text)?,
        Err(_) if lossy => row.push_text(&String::from_utf8_lossy(alloc, bytes)?)?,
        Err(_) => return Ok(false),
    }
    Ok(true)
}

fn hex(alloc: Global, bytes: &[u8]) -> Result<String, AllocError> {
    let mut text = String::from_str(alloc, "x'")?;
    for byte in bytes {
        write!(text, "{byte:02x}")?;
    }
    text.push('\'')?;
    Ok(text)
}
