//! `Tabled` for tuples: the fields of each part, one after another. And for arrays of `Display`
//! values: one field for each item, named by its index.
ghost use Rattle.std.specs.List.{AllZip, range_with_len};
ghost use Rattle.std.specs.Prelude.{◌+◌, ◌++◌, ◌-◌, ◌^◌, decimal, map, min};
ghost use Rattle.tabled_value.specs.Fields.{Joined, Says};

use super::Tabled;
use crate::rows::{displayed, joined};
use std::alloc::Global;
use std::borrow::CowStr;
use std::fmt::Display;
use tabled_base::{TableError, Text};

impl<A: Tabled> Tabled for (A,) {
    ghost LENGTH = { A.LENGTH };

    ghost shows = { λ t row. A.shows t.0 row };

    ghost names = { A.names };

    fn length() -> usize {
        A::length()
    }

    fn fields(&self, alloc: Global) -> Result<Vec<CowStr<'_>>, TableError> {
        A::fields(&self.0, alloc)
    }

    fn headers(alloc: Global) -> Result<Vec<CowStr<'static>>, TableError> {
        A::headers(alloc)
    }

    fn push_cells(&self, row: &mut Vec<Text<String>>) -> Result<(), TableError> {
        A::push_cells(&self.0, row)
    }
}

impl<A: Tabled, B: Tabled> Tabled for (A, B) {
    ghost LENGTH = { min (A.LENGTH + B.LENGTH) (2 ^ 64 - 1) };

    ghost shows = { λ t row. Joined (A.shows t.0) (B.shows t.1) row };

    ghost names = { A.names ++ B.names };

    fn length() -> usize {
        A::length().saturating_add(B::length())
    }

    fn fields(&self, alloc: Global) -> Result<Vec<CowStr<'_>>, TableError> {
        joined(self.0.fields(alloc)?, self.1.fields(alloc)?)
    }

    fn headers(alloc: Global) -> Result<Vec<CowStr<'static>>, TableError> {
        joined(A::headers(alloc)?, B::headers(alloc)?)
    }

    fn push_cells(&self, row: &mut Vec<Text<String>>) -> Result<(), TableError> {
        self.0.push_cells(row)?;
        self.1.push_cells(row)
    }
}

impl<A: Tabled, B: Tabled, C: Tabled> Tabled for (A, B, C) {
    ghost LENGTH = { min (A.LENGTH + B.LENGTH + C.LENGTH) (2 ^ 64 - 1) };

    ghost shows = { λ t row. Joined (A.shows t.0) (Joined (B.shows t.1) (C.shows t.2)) row };

    ghost names = { A.names ++ (B.names ++ C.names) };

    fn length() -> usize {
        <(A, (B, C)) as Tabled>::length()
    }

    fn fields(&self, alloc: Global) -> Result<Vec<CowStr<'_>>, TableError> {
        let rest = joined(self.1.fields(alloc)?, self.2.fields(alloc)?)?;
        joined(self.0.fields(alloc)?, rest)
    }

    fn headers(alloc: Global) -> Result<Vec<CowStr<'static>>, TableError> {
        <(A, (B, C)) as Tabled>::headers(alloc)
    }

    fn push_cells(&self, row: &mut Vec<Text<String>>) -> Result<(), TableError> {
        (&self.0, (&self.1, &self.2)).push_cells(row)
    }
}

impl<A: Tabled, B: Tabled, C: Tabled, D: Tabled> Tabled for (A, B, C, D) {
    ghost LENGTH = { min (A.LENGTH + B.LENGTH + C.LENGTH + D.LENGTH) (2 ^ 64 - 1) };

    ghost shows = { λ t row. Joined (A.shows t.0) (Joined (B.shows t.1)
        (Joined (C.shows t.2) (D.shows t.3))) row };

    ghost names = { A.names ++ (B.names ++ (C.names ++ D.names)) };

    fn length() -> usize {
        <(A, (B, (C, D))) as Tabled>::length()
    }

    fn fields(&self, alloc: Global) -> Result<Vec<CowStr<'_>>, TableError> {
        let rest = joined(self.2.fields(alloc)?, self.3.fields(alloc)?)?;
        let rest = joined(self.1.fields(alloc)?, rest)?;
        joined(self.0.fields(alloc)?, rest)
    }

    fn headers(alloc: Global) -> Result<Vec<CowStr<'static>>, TableError> {
        <(A, (B, (C, D))) as Tabled>::headers(alloc)
    }

    fn push_cells(&self, row: &mut Vec<Text<String>>) -> Result<(), TableError> {
        (&self.0, (&self.1, (&self.2, &self.3))).push_cells(row)
    }
}

impl<A: Tabled, B: Tabled, C: Tabled, D: Tabled, E: Tabled> Tabled for (A, B, C, D, E) {
    ghost LENGTH = { min (A.LENGTH + B.LENGTH + C.LENGTH + D.LENGTH + E.LENGTH) (2 ^ 64 - 1) };

    ghost shows = { λ t row. Joined (A.shows t.0) (Joined (B.shows t.1)
        (Joined (C.shows t.2) (Joined (D.shows t.3) (E.shows t.4)))) row };

    ghost names = { A.names ++ (B.names ++ (C.names ++ (D.names ++ E.names))) };

    fn length() -> usize {
        <(A, (B, (C, (D, E)))) as Tabled>::length()
    }

    fn fields(&self, alloc: Global) -> Result<Vec<CowStr<'_>>, TableError> {
        let rest = joined(self.3.fields(alloc)?, self.4.fields(alloc)?)?;
        let rest = joined(self.2.fields(alloc)?, rest)?;
        let rest = joined(self.1.fields(alloc)?, rest)?;
        joined(self.0.fields(alloc)?, rest)
    }

    fn headers(alloc: Global) -> Result<Vec<CowStr<'static>>, TableError> {
        <(A, (B, (C, (D, E)))) as Tabled>::headers(alloc)
    }

    fn push_cells(&self, row: &mut Vec<Text<String>>) -> Result<(), TableError> {
        (&self.0, (&self.1, (&self.2, (&self.3, &self.4)))).push_cells(row)
    }
}

impl<A: Tabled, B: Tabled, C: Tabled, D: Tabled, E: Tabled, F: Tabled> Tabled
    for (A, B, C, D, E, F) {
    ghost LENGTH = { min (A.LENGTH + B.LENGTH + C.LENGTH + D.LENGTH + E.LENGTH + F.LENGTH)
        (2 ^ 64 - 1) };

    ghost shows = { λ t row. Joined (A.shows t.0) (Joined (B.shows t.1)
        (Joined (C.shows t.2) (Joined (D.shows t.3) (Joined (E.shows t.4) (F.shows t.5))))) row };

    ghost names = { A.names ++ (B.names ++ (C.names ++ (D.names ++ (E.names ++ F.names)))) };

    fn length() -> usize {
        <(A, (B, (C, (D, (E, F))))) as Tabled>::length()
    }

    fn fields(&self, alloc: Global) -> Result<Vec<CowStr<'_>>, TableError> {
        let rest = joined(self.4.fields(alloc)?, self.5.fields(alloc)?)?;
        let rest = joined(self.3.fields(alloc)?, rest)?;
        let rest = joined(self.2.fields(alloc)?, rest)?;
        let rest = joined(self.1.fields(alloc)?, rest)?;
        joined(self.0.fields(alloc)?, rest)
    }

    fn headers(alloc: Global) -> Result<Vec<CowStr<'static>>, TableError> {
        <(A, (B, (C, (D, (E, F))))) as Tabled>::headers(alloc)
    }

    fn push_cells(&self, row: &mut Vec<Text<String>>) -> Result<(), TableError> {
        (&self.0, (&self.1, (&self.2, (&self.3, (&self.4, &self.5))))).push_cells(row)
    }
}

impl<T: Display, const N: usize> Tabled for [T; N] {
    ghost LENGTH = { N };

    ghost shows = { λ items row. AllZip (λ item text. Says (T.output item) text) items row };

    ghost names = { map decimal (range_with_len 0 N) };

    fn length() -> usize {
        N
    }

    fn fields(&self, alloc: Global) -> Result<Vec<CowStr<'_>>, TableError> {
        let mut texts = Vec::with_capacity(alloc, N)?;
        'items: for item in self {
            texts.push(displayed(alloc, item)?)?;
        }
        Ok(texts)
    }

    fn headers(alloc: Global) -> Result<Vec<CowStr<'static>>, TableError> {
        let mut names = Vec::with_capacity(alloc, N)?;
        'places: for place in 0..N {
            names.push(displayed(alloc, &place)?)?;
        }
        Ok(names)
    }
}
