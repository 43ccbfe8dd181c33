//! A value whose field name must be escaped.
ghost use Rattle.std.specs.Prelude.{◌≡◌, ◌∷◌, [], codes};

use std::alloc::Global;
use std::borrow::CowStr;
use tabled_base::TableError;
use tabled_value::Tabled;

/// The name of its field contains a quote.
#[derive(Drop)]
pub(crate) struct Quoted(pub &'static str);

impl Tabled for Quoted {
    ghost LENGTH = { 1 };

    ghost shows = { λ it row. row ≡ it.0.now ∷ [] };

    ghost names = { codes "a\"b" ∷ [] };

    fn length() -> usize {
        1
    }

    fn fields(&self, alloc: Global) -> Result<Vec<CowStr<'_>>, TableError> {
        let mut fields = Vec::new(alloc);
        fields.push(CowStr::Borrowed(self.0))?;
        Ok(fields)
    }

    fn headers(alloc: Global) -> Result<Vec<CowStr<'static>>, TableError> {
        let mut names = Vec::new(alloc);
        names.push(CowStr::Borrowed("a\"b"))?;
        Ok(names)
    }
}
