//! Expected output written line by line, and its comparison.

use std::fmt;
use std::process::Abort;
use std::test::Fail;
use tabled_base::TableError;

/// Joins lines with line feeds, so that each line of output has a line of source.
macro_rules! picture {
    ($first:literal $($line:literal)*) => { concat!($first $(, "\n", $line)*) };
}

pub(crate) use picture;

// Shows each line between bars, so that trailing spaces are visible.
struct Barred<'a>(&'a str);

impl fmt::Display for Barred<'_> {
    fn fmt<W: fmt::Write>(&self, f: &mut fmt::Formatter<W>) -> fmt::Result {
        for line in self.0.split('\n') {
            write!(f, "\n¦{line}¦")?;
        }
        Ok(())
    }
}

/// Fails unless the output is the wanted one, and shows both.
pub(crate) fn assert_picture(rt: &impl Abort, drawn: &str, wanted: &str) {
    assert!(rt;
        drawn == wanted,
        "drawn:{}\nwanted:{}",
        Barred(drawn),
        Barred(wanted)
    );
}

/// The same for a print that may fail, which fails the test.
pub(crate) fn assert_text(
    rt: &impl Abort,
    drawn: Result<String, TableError>,
    wanted: &str,
) -> Result<(), Fail> {
    assert_picture(rt, drawn?.as_str(), wanted);
    Ok(())
}
