//! The byte between cells, as the first records of a text show it.
ghost use Rattle.std.specs.Prelude.{◌≡◌, ◌&&◌, nat_lt, unwrap_or};
ghost use Rattle.tabview_read.specs.Delimiters.{delimiter_of, ended, finished, separates, tally_after};
ghost use Rattle.tabview_read.specs.Delimiters.{tally_of};

use crate::format::without_mark;
use crate::scan::Within;

/// How often a delimiter is in the records that were read.
#[derive(Clone, Copy)]
struct Tally {
    within: Within,
    /// How often it is in the record that is begun.
    count: u64,
    /// How often it is in the first record, once that has ended.
    first: Option<u64>,
    /// Whether each record that has ended has it as often.
    is_equal: bool,
}

impl Tally {
    /// Takes one more byte.
    fn after(self, byte: u8, delimiter: u8) -> Tally
        ensures { result ≡ tally_after delimiter self byte }
    {
        let within = self.within.after(byte, delimiter);
        match within {
            Within::Field => self.with(within, self.count.saturating_add(1)),
            Within::Record if self.within != Within::Record => self.ended(),
            _ => self.with(within, self.count),
        }
    }

    fn with(self, within: Within, count: u64) -> Tally
        ensures { result ≡ record self { within = within; count = count } }
    {
        Tally {
            within,
            count,
            first: self.first,
            is_equal: self.is_equal,
        }
    }

    /// Ends a record.
    fn ended(self) -> Tally
        ensures { result ≡ ended self }
    {
        Tally {
            within: Within::Record,
            count: 0,
            first: Some(self.first.unwrap_or(self.count)),
            is_equal: self.is_equal && self.first.unwrap_or(self.count) == self.count,
        }
    }

    /// Ends the last record, if the text is whole.
    fn finished(self, is_whole: bool) -> Tally
        ensures { result ≡ finished is_whole self }
    {
        if is_whole && self.within != Within::Record {
            return self.ended();
        }
        self
    }

    /// Whether the first record has the delimiter.
    fn is_in_first(self) -> bool
        ensures { result ≡ nat_lt 0 (unwrap_or self.first self.count) }
    {
        self.first.unwrap_or(self.count) > 0
    }

    /// Whether each record has the delimiter, and equally often.
    fn separates(self) -> bool
        ensures { result ≡ separates self }
    {
        self.is_equal && self.first.unwrap_or(0) > 0
    }
}

/// Returns how often a delimiter is in the records of a text.
fn tally_of(text: &[u8], is_whole: bool, delimiter: u8) -> Tally
    ensures { result ≡ tally_of delimiter is_whole text.now }
{
    let mut tally = Tally {
        within: Within::Record,
        count: 0,
        first: None,
        is_equal: true,
    };
    for byte in text {
        tally = tally.after(*byte, delimiter);
    }
    tally.finished(is_whole)
}

/// Returns the byte between the cells of a text that begins with these bytes, or `is_whole` with
/// them: a comma if the first record has one, else the first of tab, `;` and `|` that splits these
/// records into equally many cells, at least two, else a comma.
pub fn delimiter_of(head: &[u8], is_whole: bool) -> u8
    ensures { result ≡ delimiter_of head.now is_whole }
{
    let text = without_mark(head);
    if tally_of(text, is_whole, b',').is_in_first() {
        return b',';
    }
    if tally_of(text, is_whole, b'\t').separates() {
        return b'\t';
    }
    if tally_of(text, is_whole, b';').separates() {
        return b';';
    }
    if tally_of(text, is_whole, b'|').separates() {
        return b'|';
    }
    b','
}
