//! Runs over databases: what is shown of them, and what is wrong with a query.

use super::check;
use sqlite::Connection;
use std::test::Fail;
use tabview_options::{Options, command};
use tabview_show::show_database;

/// Returns what is printed for a database, or the message of the error.
fn queried(rt: &HostRuntime, tables: &[&str], words: &[&str]) -> Result<String, Fail> {
    let alloc = rt.alloc();
    let mut connection = Connection::open_in_memory(alloc)?;
    for table in tables {
        connection.execute_batch(table)?;
    }
    let matches = command(alloc)?.try_get_matches_from(words)?;
    let options = Options::of(alloc, &matches, None)?;
    let mut out = Vec::new(alloc);
    let shown = show_database(rt, &options, &mut connection, &[], &mut out);
    let mut text = String::from_utf8(out)?;
    if let Err(error) = shown {
        write!(text, "{error}")?;
    }
    Ok(text)
}

const CITY: &str = "CREATE TABLE city (name TEXT, people INTEGER, mark BLOB);
    INSERT INTO city VALUES ('Vaduz', 5774, x'00ff'), ('', NULL, '')";

#[test]
fn databases_are_queried(rt: HostRuntime) -> Result<(), Fail> {
    let query = "SELECT people, name, mark FROM city";
    let words = ["tabview", "-s", "markdown", "-q", query];
    check(
        queried(&rt, &[CITY], &words)?,
        "| people | name  | mark    |\n\
         |-------:|-------|---------|\n\
         |   5774 | Vaduz | x'00ff' |\n\
         |   NULL |       |         |\n",
    )?;
    Ok(())
}

const LAND: &str = "CREATE TABLE land (name TEXT);
    CREATE VIEW large AS SELECT name FROM city WHERE people > 1000";

#[test]
fn tables_are_listed_and_chosen(rt: HostRuntime) -> Result<(), Fail> {
    let text = queried(&rt, &[], &["tabview"])?;
    check(text, "the database has no table")?;
    let words = ["tabview", "-s", "markdown"];
    check(
        queried(&rt, &["CREATE TABLE land (name TEXT)"], &words)?,
        "| name |\n|------|\n",
    )?;
    check(
        queried(&rt, &[CITY, LAND], &words)?,
        "| table | columns            | rows |\n\
         |-------|--------------------|-----:|\n\
         | city  | name, people, mark |    2 |\n\
         | land  | name               |    0 |\n\
         | large | name               |    1 |\n",
    )?;
    let words = ["tabview", "-s", "markdown", "--table", "Large"];
    check(
        queried(&rt, &[CITY, LAND], &words)?,
        "| name  |\n|-------|\n| Vaduz |\n",
    )?;
    Ok(())
}

/// Numbers as SQLite spells them.
#[test]
fn numbers_of_a_database(rt: HostRuntime) -> Result<(), Fail> {
    let numbers = "CREATE TABLE n (x REAL);
        INSERT INTO n VALUES (3), (1e100), (1e-7), (-0.0), (105.4), (NULL)";
    check(
        queried(&rt, &[numbers], &["tabview", "-s", "markdown"])?,
        "|        x |\n\
         |---------:|\n\
         |      3.0 |\n\
         | 1.0e+100 |\n\
         |  1.0e-07 |\n\
         |      0.0 |\n\
         |    105.4 |\n\
         |     NULL |\n",
    )?;
    Ok(())
}

/// Options of a query or a table, and what is wrong with them.
static QUERY_FAULTS: [(&[&str], &str); 9] = [
    (
        &["tabview", "-q", "SELECT * FROM nope"],
        "query, line 1, column 15: no such table: nope",
    ),
    (
        &["tabview", "-q", "SELECT 1\n FROM city, [no\u{1b}[1mpe]"],
        "query, line 2, column 13: no such table: no␛[1mpe",
    ),
    // a table that the query defines, and one that it doesn't
    (
        &[
            "tabview",
            "-q",
            "WITH own AS (SELECT 1) SELECT * FROM own, nope AS it",
        ],
        "query, line 1, column 43: no such table: nope",
    ),
    (
        &["tabview", "-q", "SELECT name frm city"],
        "query, line 1, column 17: near \"city\": syntax error",
    ),
    (
        &["tabview", "-q", "SELECT *\nFROM"],
        "query, line 2, column 5: incomplete input",
    ),
    (
        &["tabview", "-q", "ALTER TABLE city RENAME TO town"],
        "query, line 1, column 1: near \"ALTER\": this SQL isn't supported",
    ),
    (
        &["tabview", "-q", "SELECT * FROM sqlite_schema, city"],
        "query, line 1, column 15: sqlite_schema can't be read with another table",
    ),
    (&["tabview", "--table", "no\u{7}pe"], "no such table: no␇pe"),
    (
        &["tabview", "-q", "DELETE FROM city"],
        "the statement returns no rows",
    ),
];

#[test]
fn faults_of_queries_are_named(rt: HostRuntime) -> Result<(), Fail> {
    for (words, fault) in &QUERY_FAULTS {
        check(queried(&rt, &[CITY], words)?, fault)?;
    }
    Ok(())
}
