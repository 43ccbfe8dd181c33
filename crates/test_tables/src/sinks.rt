//! Tests a custom sink whose allocation fails.

use std::alloc::Global;
use std::test::Fail;
use tabled_base::TableError;
use tabled_line::TextSink;
use tabled_table::IterTable;

// The first row is sniffed, and has two lines. The second cell of the second row is cut inside of
// `中`, and filled up to the width.
const PICTURE: &str = "\
+----+------+
| a  | 中中 |
| bb |      |
+----+------+
| cc | d中\u{FFFD} |
+----+------+";

fn table() -> IterTable<[[&'static str; 2]; 2]> {
    let mut table = IterTable::new([["a\nbb", "中中"], ["ccc", "d中中"]]);
    table.sniff(1);
    table
}

// Accepts `texts` writes, and then fails with `Memory`.
#[derive(Drop)]
struct LimitedSink {
    taken: String,
    texts: usize,
    // The bytes taken after each write.
    ends: Vec<usize>,
}

impl TextSink for LimitedSink {
    ghost sent = { λ sink. ⟦<String as TextSink>⟧.sent sink.taken };

    fn write_text(&mut self, text: &str) -> Result<(), TableError> {
        if self.texts == 0 {
            return Err(TableError::Memory);
        }
        self.texts -= 1;
        self.taken.write_text(text)?;
        self.ends.push(self.taken.len())?;
        Ok(())
    }
}

fn printed(alloc: Global, texts: usize) -> (Result<(), TableError>, LimitedSink) {
    let mut sink = LimitedSink {
        taken: String::new(alloc),
        texts,
        ends: Vec::new(alloc),
    };
    let outcome = table().fmt(alloc, &mut sink);
    (outcome, sink)
}

// Whether a print failed that had to, and the sink took the same writes as one without a limit.
fn is_right(outcome: Result<(), TableError>, found: &LimitedSink, all: &[usize]) -> bool {
    let ends = found.ends.as_slice();
    let bytes = ends.last().copied().unwrap_or(0);
    let failed = outcome == Err(TableError::Memory) && ends.len() < all.len();
    let printed = outcome.is_ok() && ends.len() == all.len();
    found.texts == 0
        && (failed || printed)
        && all.starts_with(ends)
        && PICTURE.as_bytes().starts_with(found.taken.as_bytes())
        && found.taken.len() == bytes
}

#[test]
fn a_sink_without_memory_stops_a_table_anywhere(rt: HostRuntime) -> Result<(), Fail> {
    let (outcome, whole) = printed(rt.alloc(), usize::MAX);
    assert_eq!(rt; outcome, Ok(()));
    assert_eq!(rt; whole.taken.as_str(), PICTURE);
    let ends = whole.ends.as_slice();
    assert!(rt; ends.len() > 1, "one write");
    for texts in 0..ends.len() {
        let (outcome, sink) = printed(rt.alloc(), texts);
        assert!(rt;
            is_right(outcome, &sink, ends),
            "{texts} texts: {}",
            sink.taken
        );
        assert_eq!(rt; sink.ends.len(), texts);
    }
    let (outcome, sink) = printed(rt.alloc(), ends.len());
    assert!(rt; is_right(outcome, &sink, ends));
    Ok(())
}
