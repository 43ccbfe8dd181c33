//! `Tabled` for strings, characters, booleans and numbers: one field, named after the type.
ghost use Rattle.std.specs.Cow.{cow_str_bytes};
ghost use Rattle.std.specs.Fmt.{signed_decimal};
ghost use Rattle.std.specs.Prelude.{◌≡◌, ◌∷◌, [], IfErr, IfOk, codes, decimal, encode_utf8};
ghost use Rattle.std.specs.Prelude.{if◌then◌else◌, map, string_bytes, vec_len};
ghost use Rattle.tabled_base.specs.declared.error.TableError.TheVariants.{Memory};
ghost use Rattle.tabled_value.specs.Fields.{IsOneText};

use super::Tabled;
use crate::rows::{displayed, one_text, push_printable, push_signed, push_text, push_unsigned};
use itoa::Buffer;
use std::alloc::Global;
use std::borrow::CowStr;
use tabled_base::{TableError, Text};

impl Tabled for &str {
    ghost shows = { λ s row. row ≡ s.now ∷ [] };

    ghost names = { codes "&str" ∷ [] };

    fn length() -> usize
        ensures { result ≡ 1 }
    {
        1
    }

    fn fields(&self, alloc: Global) -> Result<Vec<CowStr<'_>>, TableError> {
        one_text(alloc, CowStr::Borrowed(*self))
    }

    fn headers(alloc: Global) -> Result<Vec<CowStr<'static>>, TableError>
        ensures names { IfOk result (λ v. map cow_str_bytes v.items ≡ codes "&str" ∷ []) }
        ensures length { IfOk result (λ v. vec_len v ≡ 1) }
        ensures only { IfErr result (λ e. e ≡ Memory) }
    {
        one_text(alloc, CowStr::Borrowed("&str"))
    }

    #[inline(always)]
    fn push_cells(&self, row: &mut Vec<Text<String>>) -> Result<(), TableError> {
        push_text(row, self)
    }
}

impl Tabled for String {
    ghost shows = { λ s row. row ≡ string_bytes s ∷ [] };

    ghost names = { codes "String" ∷ [] };

    fn length() -> usize {
        1
    }

    fn fields(&self, alloc: Global) -> Result<Vec<CowStr<'_>>, TableError> {
        one_text(alloc, CowStr::Borrowed(self.as_str()))
    }

    fn headers(alloc: Global) -> Result<Vec<CowStr<'static>>, TableError> {
        one_text(alloc, CowStr::Borrowed("String"))
    }

    fn push_cells(&self, row: &mut Vec<Text<String>>) -> Result<(), TableError> {
        push_text(row, self.as_str())
    }
}

impl Tabled for char {
    ghost shows = { λ c row. row ≡ encode_utf8 c ∷ [] };

    ghost names = { codes "char" ∷ [] };

    fn length() -> usize {
        1
    }

    fn fields(&self, alloc: Global) -> Result<Vec<CowStr<'_>>, TableError> {
        one_text(alloc, displayed(alloc, self)?)
    }

    fn headers(alloc: Global) -> Result<Vec<CowStr<'static>>, TableError> {
        one_text(alloc, CowStr::Borrowed("char"))
    }

    fn push_cells(&self, row: &mut Vec<Text<String>>) -> Result<(), TableError> {
        push_text(row, self.encode_utf8(&mut [0; 4]))
    }
}

impl Tabled for bool {
    ghost shows = { λ b row. row ≡ (if b then codes "true" else codes "false") ∷ [] };

    ghost names = { codes "bool" ∷ [] };

    fn length() -> usize {
        1
    }

    fn fields(&self, alloc: Global) -> Result<Vec<CowStr<'_>>, TableError> {
        one_text(alloc, displayed(alloc, self)?)
    }

    fn headers(alloc: Global) -> Result<Vec<CowStr<'static>>, TableError> {
        one_text(alloc, CowStr::Borrowed("bool"))
    }

    #[inline(always)]
    fn push_cells(&self, row: &mut Vec<Text<String>>) -> Result<(), TableError> {
        push_printable(row, if *self { "true" } else { "false" })
    }
}

impl Tabled for i8 {
    ghost shows = { λ n row. row ≡ signed_decimal n ∷ [] };

    ghost names = { codes "i8" ∷ [] };

    fn length() -> usize {
        1
    }

    fn fields(&self, alloc: Global) -> Result<Vec<CowStr<'_>>, TableError> {
        one_text(alloc, displayed(alloc, self)?)
    }

    fn headers(alloc: Global) -> Result<Vec<CowStr<'static>>, TableError> {
        one_text(alloc, CowStr::Borrowed("i8"))
    }

    fn push_cells(&self, row: &mut Vec<Text<String>>) -> Result<(), TableError> {
        push_signed(row, *self as i64)
    }
}

impl Tabled for i16 {
    ghost shows = { λ n row. row ≡ signed_decimal n ∷ [] };

    ghost names = { codes "i16" ∷ [] };

    fn length() -> usize {
        1
    }

    fn fields(&self, alloc: Global) -> Result<Vec<CowStr<'_>>, TableError> {
        one_text(alloc, displayed(alloc, self)?)
    }

    fn headers(alloc: Global) -> Result<Vec<CowStr<'static>>, TableError> {
        one_text(alloc, CowStr::Borrowed("i16"))
    }

    fn push_cells(&self, row: &mut Vec<Text<String>>) -> Result<(), TableError> {
        push_signed(row, *self as i64)
    }
}

impl Tabled for i32 {
    ghost shows = { λ n row. row ≡ signed_decimal n ∷ [] };

    ghost names = { codes "i32" ∷ [] };

    fn length() -> usize {
        1
    }

    fn fields(&self, alloc: Global) -> Result<Vec<CowStr<'_>>, TableError> {
        one_text(alloc, displayed(alloc, self)?)
    }

    fn headers(alloc: Global) -> Result<Vec<CowStr<'static>>, TableError> {
        one_text(alloc, CowStr::Borrowed("i32"))
    }

    fn push_cells(&self, row: &mut Vec<Text<String>>) -> Result<(), TableError> {
        push_signed(row, *self as i64)
    }
}

impl Tabled for i64 {
    ghost shows = { λ n row. row ≡ signed_decimal n ∷ [] };

    ghost names = { codes "i64" ∷ [] };

    fn length() -> usize {
        1
    }

    fn fields(&self, alloc: Global) -> Result<Vec<CowStr<'_>>, TableError> {
        one_text(alloc, displayed(alloc, self)?)
    }

    fn headers(alloc: Global) -> Result<Vec<CowStr<'static>>, TableError> {
        one_text(alloc, CowStr::Borrowed("i64"))
    }

    fn push_cells(&self, row: &mut Vec<Text<String>>) -> Result<(), TableError> {
        push_signed(row, *self)
    }
}

impl Tabled for i128 {
    ghost shows = { λ n row. row ≡ signed_decimal n ∷ [] };

    ghost names = { codes "i128" ∷ [] };

    fn length() -> usize {
        1
    }

    fn fields(&self, alloc: Global) -> Result<Vec<CowStr<'_>>, TableError> {
        one_text(alloc, displayed(alloc, self)?)
    }

    fn headers(alloc: Global) -> Result<Vec<CowStr<'static>>, TableError> {
        one_text(alloc, CowStr::Borrowed("i128"))
    }

    fn push_cells(&self, row: &mut Vec<Text<String>>) -> Result<(), TableError> {
        push_text(row, Buffer::new().format(*self))
    }
}

impl Tabled for isize {
    ghost shows = { λ n row. row ≡ signed_decimal n ∷ [] };

    ghost names = { codes "isize" ∷ [] };

    fn length() -> usize {
        1
    }

    fn fields(&self, alloc: Global) -> Result<Vec<CowStr<'_>>, TableError> {
        one_text(alloc, displayed(alloc, self)?)
    }

    fn headers(alloc: Global) -> Result<Vec<CowStr<'static>>, TableError> {
        one_text(alloc, CowStr::Borrowed("isize"))
    }

    fn push_cells(&self, row: &mut Vec<Text<String>>) -> Result<(), TableError> {
        push_signed(row, *self as i64)
    }
}

impl Tabled for u8 {
    ghost shows = { λ n row. row ≡ decimal n ∷ [] };

    ghost names = { codes "u8" ∷ [] };

    fn length() -> usize {
        1
    }

    fn fields(&self, alloc: Global) -> Result<Vec<CowStr<'_>>, TableError> {
        one_text(alloc, displayed(alloc, self)?)
    }

    fn headers(alloc: Global) -> Result<Vec<CowStr<'static>>, TableError> {
        one_text(alloc, CowStr::Borrowed("u8"))
    }

    fn push_cells(&self, row: &mut Vec<Text<String>>) -> Result<(), TableError> {
        push_unsigned(row, *self as u64)
    }
}

impl Tabled for u16 {
    ghost shows = { λ n row. row ≡ decimal n ∷ [] };

    ghost names = { codes "u16" ∷ [] };

    fn length() -> usize {
        1
    }

    fn fields(&self, alloc: Global) -> Result<Vec<CowStr<'_>>, TableError> {
        one_text(alloc, displayed(alloc, self)?)
    }

    fn headers(alloc: Global) -> Result<Vec<CowStr<'static>>, TableError> {
        one_text(alloc, CowStr::Borrowed("u16"))
    }

    fn push_cells(&self, row: &mut Vec<Text<String>>) -> Result<(), TableError> {
        push_unsigned(row, *self as u64)
    }
}

impl Tabled for u32 {
    ghost shows = { λ n row. row ≡ decimal n ∷ [] };

    ghost names = { codes "u32" ∷ [] };

    fn length() -> usize {
        1
    }

    fn fields(&self, alloc: Global) -> Result<Vec<CowStr<'_>>, TableError> {
        one_text(alloc, displayed(alloc, self)?)
    }

    fn headers(alloc: Global) -> Result<Vec<CowStr<'static>>, TableError> {
        one_text(alloc, CowStr::Borrowed("u32"))
    }

    fn push_cells(&self, row: &mut Vec<Text<String>>) -> Result<(), TableError> {
        push_unsigned(row, *self as u64)
    }
}

impl Tabled for u64 {
    ghost shows = { λ n row. row ≡ decimal n ∷ [] };

    ghost names = { codes "u64" ∷ [] };

    fn length() -> usize {
        1
    }

    fn fields(&self, alloc: Global) -> Result<Vec<CowStr<'_>>, TableError> {
        one_text(alloc, displayed(alloc, self)?)
    }

    fn headers(alloc: Global) -> Result<Vec<CowStr<'static>>, TableError> {
        one_text(alloc, CowStr::Borrowed("u64"))
    }

    fn push_cells(&self, row: &mut Vec<Text<String>>) -> Result<(), TableError> {
        push_unsigned(row, *self)
    }
}

impl Tabled for u128 {
    ghost shows = { λ n row. row ≡ decimal n ∷ [] };

    ghost names = { codes "u128" ∷ [] };

    fn length() -> usize {
        1
    }

    fn fields(&self, alloc: Global) -> Result<Vec<CowStr<'_>>, TableError> {
        one_text(alloc, displayed(alloc, self)?)
    }

    fn headers(alloc: Global) -> Result<Vec<CowStr<'static>>, TableError> {
        one_text(alloc, CowStr::Borrowed("u128"))
    }

    fn push_cells(&self, row: &mut Vec<Text<String>>) -> Result<(), TableError> {
        push_text(row, Buffer::new().format(*self))
    }
}

impl Tabled for usize {
    ghost shows = { λ n row. row ≡ decimal n ∷ [] };

    ghost names = { codes "usize" ∷ [] };

    fn length() -> usize {
        1
    }

    fn fields(&self, alloc: Global) -> Result<Vec<CowStr<'_>>, TableError> {
        one_text(alloc, displayed(alloc, self)?)
    }

    fn headers(alloc: Global) -> Result<Vec<CowStr<'static>>, TableError> {
        one_text(alloc, CowStr::Borrowed("usize"))
    }

    fn push_cells(&self, row: &mut Vec<Text<String>>) -> Result<(), TableError> {
        push_unsigned(row, *self as u64)
    }
}

/// Shown as `Display` shows it: the shortest digits that are read as this number, without an
/// exponent. The contract says only that it is one text, in UTF-8; which one is tested.
impl Tabled for f32 {
    ghost shows = { λ _ row. IsOneText row };

    ghost names = { codes "f32" ∷ [] };

    fn length() -> usize {
        1
    }

    fn fields(&self, alloc: Global) -> Result<Vec<CowStr<'_>>, TableError> {
        one_text(alloc, displayed(alloc, self)?)
    }

    fn headers(alloc: Global) -> Result<Vec<CowStr<'static>>, TableError> {
        one_text(alloc, CowStr::Borrowed("f32"))
    }
}

/// Shown as `Display` shows it: the shortest digits that are read as this number, without an
/// exponent. The contract says only that it is one text, in UTF-8; which one is tested.
impl Tabled for f64 {
    ghost shows = { λ _ row. IsOneText row };

    ghost names = { codes "f64" ∷ [] };

    fn length() -> usize {
        1
    }

    fn fields(&self, alloc: Global) -> Result<Vec<CowStr<'_>>, TableError> {
        one_text(alloc, displayed(alloc, self)?)
    }

    fn headers(alloc: Global) -> Result<Vec<CowStr<'static>>, TableError> {
        one_text(alloc, CowStr::Borrowed("f64"))
    }
}
