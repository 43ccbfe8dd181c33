//! Where a value of JSON ends.
ghost use Rattle.std.specs.Prelude.{◌≤◌, length};

/// What the next byte of a value belongs to.
#[derive(Clone, Copy, Debug, PartialEq, Eq)]
enum Part {
    /// A value may begin, or brackets are open.
    Open,
    /// It is in a string.
    Text,
    /// It is behind a backslash in a string.
    Escape,
    /// It is in a number or a word without brackets around it.
    Word,
    /// It is behind the value.
    Ended,
}

/// The bytes that were taken of a value: the brackets that are open, and the part of the next byte.
#[derive(Clone, Copy)]
pub(crate) struct ValueScan {
    depth: u64,
    part: Part,
}

impl ValueScan {
    /// Begins before a value, which begins with its first byte.
    pub(crate) fn new() -> ValueScan {
        ValueScan {
            depth: 0,
            part: Part::Open,
        }
    }

    /// Whether the value has ended.
    pub(crate) fn is_ended(self) -> bool {
        self.part == Part::Ended
    }

    /// Takes the bytes of the value at the beginning of a text, and returns their count.
    pub(crate) fn take(&mut self, text: &[u8]) -> usize
        ensures { result ≤ length text.now }
    {
        for index in 0..text.len() {
            if self.part == Part::Ended || self.ends_before(text[index]) {
                self.part = Part::Ended;
                return index;
            }
            *self = self.after(text[index]);
        }
        text.len()
    }

    /// Whether a number or a word ends before a byte.
    fn ends_before(self, byte: u8) -> bool {
        self.part == Part::Word
            && (byte.is_ascii_whitespace() || matches!(byte, b'{' | b'[' | b'"'))
    }

    /// Takes one more byte.
    fn after(self, byte: u8) -> ValueScan {
        match (self.part, byte) {
            (Part::Open, b'"') => self.to(Part::Text),
            (Part::Open, b'{' | b'[') => ValueScan {
                depth: self.depth.saturating_add(1),
                part: Part::Open,
            },
            (Part::Open, b'}' | b']') => self.closed(),
            (Part::Open, _) if self.depth == 0 => self.to(Part::Word),
            (Part::Text, b'\\') => self.to(Part::Escape),
            (Part::Text, b'"') => self.behind(),
            (Part::Escape, _) => self.to(Part::Text),
            _ => self,
        }
    }

    /// Goes on in another part.
    fn to(self, part: Part) -> ValueScan {
        ValueScan {
            depth: self.depth,
            part,
        }
    }

    /// Closes a bracket.
    fn closed(self) -> ValueScan {
        ValueScan {
            depth: self.depth.saturating_sub(1),
            part: self.part,
        }
        .behind()
    }

    /// Goes on behind a string or a closing bracket: the value has ended if no bracket is open.
    fn behind(self) -> ValueScan {
        if self.depth == 0 {
            return self.to(Part::Ended);
        }
        self.to(Part::Open)
    }
}

/// Whether something follows the first value of a text.
pub fn is_sequence(text: &[u8]) -> bool {
    let text = text.trim_ascii();
    ValueScan::new().take(text) < text.len()
}
