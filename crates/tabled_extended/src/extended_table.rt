//! `ExtendedTable`: its texts and settings, and how it is made from values or rows.
ghost use Rattle.std.specs.Iterator.{IsFiniteIterable};
ghost use Rattle.std.specs.List.{AllZip};
ghost use Rattle.std.specs.Prelude.{IfErr, IfOk, List, map, ℕ, ◌≡◌};
ghost use Rattle.tabled_base.specs.Cells.{row_texts};
ghost use Rattle.tabled_base.specs.Given.{Given};
ghost use Rattle.tabled_base.specs.declared.error.TableError.TheVariants.{Memory};
ghost use Rattle.tabled_extended.specs.Escaped.{escaped};
ghost use Rattle.tabled_extended.specs.Rows.{first_row, further_rows};

use crate::printing::escaped_texts;
use crate::template::RecordTemplate;
use std::alloc::Global;
use tabled_base::{CellText, IntoRecords, TableError, Text};
use tabled_value::Tabled;

/// A table that prints each record as a list: a header, then a line `name | value` for each field.
#[derive(Debug)]
pub struct ExtendedTable<F = RecordTemplate> {
    pub(crate) fields: Vec<Text<String>>,
    pub(crate) records: Vec<Vec<Text<String>>>,
    pub(crate) template: F,
}

/// Drops a table in one call, so that callers don't have to prove the drop of each part.
impl<F: Drop> Drop for ExtendedTable<F> {
    fn drop(self) {
        let ExtendedTable {
            fields: _,
            records: _,
            template: _,
        } = self;
    }
}

impl<F: Drop> ExtendedTable<F> {
    /// Replaces the template of the headers.
    pub fn template<T>(self, template: T) -> ExtendedTable<T>
        ensures fields { result.fields.items ≡ self.fields.items }
        ensures records { row_texts result.records.items ≡ row_texts self.records.items }
        ensures template { result.template ≡ template }
    {
        let ExtendedTable {
            fields,
            records,
            template: _,
        } = self;
        ExtendedTable {
            fields,
            records,
            template,
        }
    }
}

impl<F: Copy> ExtendedTable<F> {
    /// Copies the table. Error: `Memory`.
    pub fn clone(&self) -> Result<ExtendedTable<F>, TableError>
        ensures fields { IfOk result (λ copy. copy.fields.items ≡ self.now.fields.items) }
        ensures records { IfOk result
            (λ copy. row_texts copy.records.items ≡ row_texts self.now.records.items) }
        ensures template { IfOk result (λ copy. copy.template ≡ self.now.template) }
        ensures only { IfErr result (λ e. e ≡ Memory) }
    {
        let alloc = *self.fields.allocator();
        let all = self.records.as_slice();
        let mut records = Vec::with_capacity(alloc, all.len())?;
        for record in all {
            records.push(copied_texts(alloc, record.as_slice())?)?;
        }
        Ok(ExtendedTable {
            fields: copied_texts(alloc, self.fields.as_slice())?,
            records,
            template: self.template,
        })
    }
}

fn copied_texts(alloc: Global, texts: &[Text<String>]) -> Result<Vec<Text<String>>, TableError>
    ensures ok { IfOk result (λ copy. copy.items ≡ texts.now) }
    ensures only { IfErr result (λ e. e ≡ Memory) }
{
    let mut copy = Vec::with_capacity(alloc, texts.len())?;
    for text in texts {
        copy.push(text.clone()?)?;
    }
    Ok(copy)
}

impl ExtendedTable<RecordTemplate> {
    /// Makes a table of values. Control characters, quotes and backslashes in field names and texts
    /// are escaped. Error: `Memory`.
    pub fn new<I: IntoIterator>(
        alloc: Global,
        iter: I,
    ) -> Result<ExtendedTable<RecordTemplate>, TableError>
    where
        I::Item: Tabled + Drop,
        requires { IsFiniteIterable I.into_iter_gives I.IntoIter.can_next I.IntoIter.remaining
            iter }
        ensures fields { IfOk result (λ table. table.fields.items ≡ map escaped I.Item.names) }
        ensures records { IfOk result (λ table. (values : List I.Item)
            × (rows : List (List (List ℕ)))
            × Given I.into_iter_gives I.IntoIter.next_gives iter values
            × AllZip I.Item.shows values rows
            × (row_texts table.records.items ≡ map (map escaped) rows)) }
        ensures only { IfErr result (λ e. e ≡ Memory) }
    {
        let values = iter.into_iter();
        let fields = escaped_texts(alloc, I::Item::headers(alloc)?)?;
        let mut records = Vec::new(alloc);
        'values: for value in values {
            records.push(escaped_texts(alloc, value.fields(alloc)?)?)?;
        }
        Ok(ExtendedTable {
            fields,
            records,
            template: RecordTemplate,
        })
    }

    /// Makes a table of rows: the first has the names of the fields, the others are records, of any
    /// length. Nothing is escaped. No rows give no fields and no records. Error: `Memory`.
    #[tactic(auto, using(crate::proofs::MadeRows::first_removed, crate::proofs::MadeRows::further_removed, crate::proofs::MadeRows::first_of_none, crate::proofs::MadeRows::further_of_none))]
    pub fn from_rows<I: IntoRecords>(
        alloc: Global,
        rows: I,
    ) -> Result<ExtendedTable<RecordTemplate>, TableError>
    where
        I::Cell: CellText + Drop,
        requires { I.ends rows }
        ensures ok { IfOk result (λ table. (cells : List (List I.Cell)) × I.gives rows cells
            × (table.fields.items ≡ first_row (map (map I.Cell.text) cells))
            × (row_texts table.records.items ≡ further_rows (map (map I.Cell.text) cells))) }
        ensures only { IfErr result (λ e. e ≡ Memory) }
    {
        let mut all = Vec::new(alloc);
        for row in rows.iter_rows() {
            all.push(collect_row(alloc, row)?)?;
        }
        let fields = if all.is_empty() {
            Vec::new(alloc)
        } else {
            all.remove(0)
        };
        Ok(ExtendedTable {
            fields,
            records: all,
            template: RecordTemplate,
        })
    }
}

fn collect_row<I: IntoIterator>(alloc: Global, cells: I) -> Result<Vec<Text<String>>, TableError>
where
    I::Item: CellText + Drop,
    requires { IsFiniteIterable I.into_iter_gives I.IntoIter.can_next I.IntoIter.remaining cells }
    ensures ok { IfOk result (λ row. (items : List I.Item)
        × Given I.into_iter_gives I.IntoIter.next_gives cells items
        × (row.items ≡ map I.Item.text items)) }
    ensures only { IfErr result (λ e. e ≡ Memory) }
{
    let mut row = Vec::new(alloc);
    for cell in cells {
        row.push(Text::copied(alloc, cell.text())?)?;
    }
    Ok(row)
}
