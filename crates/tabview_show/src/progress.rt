//! How far reading is.
ghost use Rattle.std.specs.Prelude.{◌≡◌};

use csv::StringRecord;
use std::rt::Clock;
use std::time::{Duration, Instant};
use tabview_read::{ReadError, Row, Rows};

/// The rows between two looks at the clock.
const ROWS: u64 = 1024;

/// Rows whose count is shown on standard error, if reading them takes more than two seconds.
pub(crate) struct Progress<'a, T: Rows, R: Clock + Eprint> {
    rows: &'a mut T,
    rt: &'a R,
    start: Option<Instant>,
    count: u64,
    is_shown: bool,
}

impl<T: Rows, R: Clock + Eprint> Drop for Progress<'_, T, R> {
    fn drop(self) {
        let Progress {
            rows: _,
            rt: _,
            start: _,
            count: _,
            is_shown: _,
        } = self;
    }
}

impl<'a, T: Rows, R: Clock + Eprint> Progress<'a, T, R> {
    pub fn new(rt: &'a R, rows: &'a mut T) -> Progress<'a, T, R>
        ensures same_reference { result.rows.ghost_name ≡ rows.entry.ghost_name }
        ensures rows { result.rows.now ≡ rows.old }
    {
        Progress {
            rows,
            rt,
            start: Instant::now(rt).ok(),
            count: 0,
            is_shown: false,
        }
    }

    /// Shows the count, if reading has taken more than two seconds.
    fn show(&mut self)
        ensures same_reference { self.new.rows.ghost_name ≡ self.old.rows.ghost_name }
        ensures rows { self.new.rows.now ≡ self.old.rows.now }
    {
        let Some(start) = self.start else {
            return;
        };
        let count = self.count;
        if let Ok(time) = start.elapsed(self.rt)
            && time >= Duration::from_secs(2)
        {
            self.is_shown = true;
            let _shown = eprint!(self.rt; "\r{count} rows");
        }
    }

    /// Takes the count away.
    pub fn clear(&mut self)
        ensures same_reference { self.new.rows.ghost_name ≡ self.old.rows.ghost_name }
        ensures rows { self.new.rows.now ≡ self.old.rows.now }
    {
        if self.is_shown {
            self.is_shown = false;
            let _cleared = eprint!(self.rt; "\r\u{1b}[K");
        }
    }
}

impl<T: Rows, R: Clock + Eprint> Rows for Progress<'_, T, R> {
    ghost names_give = { λ s names. T.Rows.names_give s.rows.now names };

    ghost read_gives = { λ from row to. T.Rows.read_gives from.rows.now row to.rows.now };

    fn names(&self) -> Option<&StringRecord> {
        self.rows.names()
    }

    fn read(&mut self, row: &mut Row) -> Result<bool, ReadError> {
        self.count = self.count.saturating_add(1);
        if self.count % ROWS == 0 {
            self.show();
        }
        self.rows.read(row)
    }
}
