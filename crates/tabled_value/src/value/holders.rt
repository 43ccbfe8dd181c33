//! `Tabled` for references, boxes and options.
ghost use Rattle.std.specs.Prelude.{◌≡◌, [], MatchOption, replicate};

use super::Tabled;
use crate::rows::{empty_texts, push_texts};
use std::alloc::Global;
use std::borrow::CowStr;
use tabled_base::{TableError, Text};

impl<T: Tabled> Tabled for &T {
    ghost LENGTH = { T.LENGTH };

    ghost shows = { λ value row. T.shows value.now row };

    ghost names = { T.names };

    fn length() -> usize {
        T::length()
    }

    fn fields(&self, alloc: Global) -> Result<Vec<CowStr<'_>>, TableError> {
        T::fields(*self, alloc)
    }

    fn headers(alloc: Global) -> Result<Vec<CowStr<'static>>, TableError> {
        T::headers(alloc)
    }

    #[inline(always)]
    fn push_cells(&self, row: &mut Vec<Text<String>>) -> Result<(), TableError> {
        T::push_cells(*self, row)
    }
}

impl<T: Tabled> Tabled for Box<T> {
    ghost LENGTH = { T.LENGTH };

    ghost shows = { λ value row. T.shows value.value row };

    ghost names = { T.names };

    fn length() -> usize {
        T::length()
    }

    fn fields(&self, alloc: Global) -> Result<Vec<CowStr<'_>>, TableError> {
        T::fields(self, alloc)
    }

    fn headers(alloc: Global) -> Result<Vec<CowStr<'static>>, TableError> {
        T::headers(alloc)
    }

    fn push_cells(&self, row: &mut Vec<Text<String>>) -> Result<(), TableError> {
        T::push_cells(self, row)
    }
}

/// The fields of `None` are empty.
impl<T: Tabled> Tabled for Option<T> {
    ghost LENGTH = { T.LENGTH };

    ghost shows = { λ value row. MatchOption value (row ≡ replicate T.LENGTH [])
        (λ some. T.shows some row) };

    ghost names = { T.names };

    fn length() -> usize {
        T::length()
    }

    fn fields(&self, alloc: Global) -> Result<Vec<CowStr<'_>>, TableError> {
        match self {
            None => Ok(empty_texts(alloc, T::length())?),
            Some(value) => value.fields(alloc),
        }
    }

    fn headers(alloc: Global) -> Result<Vec<CowStr<'static>>, TableError> {
        T::headers(alloc)
    }

    fn push_cells(&self, row: &mut Vec<Text<String>>) -> Result<(), TableError> {
        match self {
            None => Ok(push_texts(row, empty_texts(*row.allocator(), T::length())?)?),
            Some(value) => value.push_cells(row),
        }
    }
}
