//! Shows a database of SQLite.
ghost use Rattle.std.specs.Prelude.{◌||◌, ◌≡◌, is_some};

use crate::error::ViewError;
use crate::input::show_rows;
use sqlite::{Alter, Connection};
use std::alloc::Global;
use std::io::Write;
use tabview_database::{Database, DatabaseFiles, Image, LeftOut, is_empty, open, read_settled};
use tabview_options::{Input, Options};
use tabview_read::{Overview, ReadError, SqliteRows, overview_of, query_of_table};

/// Shows the database at a path.
pub(crate) fn show_database_at<W: Write>(
    rt: &HostRuntime,
    options: &Options<'_>,
    path: &str,
    out: &mut W,
) -> Result<(), ViewError> {
    let mut files = DatabaseFiles::at(rt, path)?;
    let image = read_settled(&mut files)?;
    show_image(rt, options, image, out)
}

/// Shows a database in memory. An empty one without a query shows nothing, as any empty input.
fn show_image<W: Write>(
    rt: &HostRuntime,
    options: &Options<'_>,
    image: Image,
    out: &mut W,
) -> Result<(), ViewError> {
    if is_empty(&image) && !has_query(&options.input) {
        return Ok(());
    }
    let mut database = open(rt.alloc(), image)?;
    show_opened(rt, options, &mut database, out)
}

/// Whether the input says what is shown of a database.
fn has_query(input: &Input<'_>) -> bool
    ensures { result ≡ (is_some input.now.query || is_some input.now.table) }
{
    input.query.is_some() || input.table.is_some()
}

fn show_opened<W: Write>(
    rt: &HostRuntime,
    options: &Options<'_>,
    database: &mut Database,
    out: &mut W,
) -> Result<(), ViewError> {
    let Database {
        connection,
        left_out,
    } = database;
    connection.set_clock(rt);
    show_database(rt, options, connection, left_out, out)
}

/// Shows a query of a database, a table of it, its only table, or a list of its tables.
///
/// Errors: as of `show`.
pub fn show_database<S: Alter, W: Write>(
    rt: &HostRuntime,
    options: &Options<'_>,
    connection: &mut Connection<S>,
    left_out: &[LeftOut],
    out: &mut W,
) -> Result<(), ViewError> {
    let lossy = options.input.lossy;
    match asked(rt.alloc(), &options.input, connection, left_out)? {
        Overview::Query(query) => {
            let mut rows = SqliteRows::new(rt.alloc(), connection, left_out, &query, lossy)?;
            show_rows(rt, options, &mut rows, out)
        }
        Overview::List(mut list) => show_rows(rt, options, &mut list, out),
    }
}

/// Returns what is asked for of a database.
fn asked<S: Alter>(
    alloc: Global,
    input: &Input<'_>,
    connection: &mut Connection<S>,
    left_out: &[LeftOut],
) -> Result<Overview, ReadError> {
    match (input.query, input.table) {
        (Some(query), _) => Ok(Overview::Query(String::from_str(alloc, query)?)),
        (None, Some(table)) => Ok(Overview::Query(query_of_table(
            alloc, connection, left_out, table,
        )?)),
        (None, None) => overview_of(alloc, connection, left_out),
    }
}
