//! Rows that may fail: the rows of a source of results before its first error.
ghost use Rattle.std.specs.Prelude.{◌≡◌, None, option_copied};
ghost use Rattle.tabled_records.specs.RowsBeforeError.{can_try, ended_by, try_steps};

/// The rows of an iterator of results, up to its first error. The error is kept, and the iterator
/// isn't asked again. After the last row, `finish` returns the error.
///
/// ```rust
/// let mut rows = TryRows::new(results);
/// let builder = Builder::from_iter(alloc, &mut rows)?;
/// rows.finish()?;
/// ```
#[derive(Debug, Drop)]
pub struct TryRows<I, E> {
    pub(crate) rows: I,
    pub(crate) error: Option<E>,
}

impl<I, E> TryRows<I, E> {
    /// Makes rows of an iterator of results.
    pub fn new(rows: I) -> TryRows<I, E>
        ensures rows { result.rows ≡ rows }
        ensures error { result.error ≡ None }
    {
        TryRows { rows, error: None }
    }

    /// Returns the error that ended the rows, if there is one.
    pub fn error(&self) -> Option<&E>
        ensures { option_copied result ≡ self.now.error }
    {
        self.error.as_ref()
    }

    /// Returns the error that ended the rows, if there is one, and drops the iterator.
    pub fn finish(self) -> Result<(), E>
    where
        I: Drop,
        ensures { result ≡ ended_by self.error }
    {
        let TryRows { error, .. } = self;
        match error {
            Some(error) => Err(error),
            None => Ok(()),
        }
    }
}

impl<I: Iterator<Item = Result<R, E>>, R, E: Drop> Iterator for TryRows<I, E> {
    type Item = R;

    ghost can_next = { can_try I.can_next };

    ghost next_gives = { try_steps I.next_gives };

    ghost remaining = { λ s. I.remaining s.rows };

    fn next(&mut self) -> Option<R> {
        if self.error.is_some() {
            return None;
        }
        match self.rows.next()? {
            Ok(row) => Some(row),
            Err(error) => {
                self.error = Some(error);
                None
            }
        }
    }
}
