//! Makes tables of rows, copies tables, and applies options to them.
ghost use Rattle.std.specs.Borrow.{RestsIfErr, sem};
ghost use Rattle.std.specs.Iterator.{IsFiniteIterable};
ghost use Rattle.std.specs.Prelude.{IfErr, IfOk, List, OnOk, map, ◌≡◌, ◌⊎◌};
ghost use Rattle.tabled_base.specs.Given.{Given};
ghost use Rattle.tabled_base.specs.declared.error.TableError.TheVariants.{Memory, Range};
ghost use Rattle.tabled_pool.specs.NewPool.{IsAppliedToPool, IsCopy, IsPoolOfRows, WasOutOfRange};
ghost use Rattle.tabled_pool.specs.Tree.{across, leaf, tree_of, tree_of_row, trees};

use crate::pool_table::PoolTable;
use crate::tree::TableValue;
use std::alloc::{AllocError, Global};
use tabled_base::{CellText, IntoRecords, TableError, TableOption};
use tabled_config::CompactMultilineConfig;
use tabled_records::EmptyRecords;
use tabled_size::PoolTableDimension;

impl PoolTable {
    ghost use Rattle.tabled_pool.specs.contracts.pool_table.PoolTable.{the_row};

    /// Returns a table of rows, which may have different numbers of cells: a column of boxes, one
    /// for each row. Without rows it is drawn as an empty text. The settings are those of
    /// `from_value`. Fails only with `Memory`, if an allocation fails.
    pub fn new<I: IntoRecords>(alloc: Global, records: I) -> Result<PoolTable, TableError>
    where
        I::Cell: CellText + Drop,
        requires { I.ends records }
        ensures ok { IfOk result (λ table. (cells : List (List I.Cell)) × I.gives records cells
            × IsPoolOfRows (map (map I.Cell.text) cells) table) }
        ensures only { IfErr result (λ e. e ≡ Memory) }
    {
        let rows = collect_rows(alloc, records)?;
        Ok(PoolTable::from_value(TableValue::Column(rows)))
    }

    /// Returns a copy of the table. Fails only with `Memory`, if an allocation fails.
    pub fn clone(&self) -> Result<PoolTable, TableError>
        ensures ok { IfOk result (λ copy. IsCopy self.now copy) }
        ensures only { IfErr result (λ e. e ≡ Memory) }
    {
        Ok(PoolTable {
            value: self.value.clone()?,
            config: self.config,
            dimension: self.dimension,
        })
    }

    /// Applies an option to the settings. The option sees records without rows, and can't change
    /// the texts. Use this instead of `with` if you need the table after an error.
    ///
    /// Fails with `Memory` if an allocation fails, and with `Range` if a sum or product of the
    /// option exceeds `usize::MAX`. The settings are then as the option left them.
    pub fn apply<O: TableOption<EmptyRecords, CompactMultilineConfig, PoolTableDimension>>(
        &mut self,
        option: O,
    ) -> Result<(), TableError>
        ensures ok { OnOk result (IsAppliedToPool (O.changes option) self.old self.new) }
        ensures promised { OnOk result (IsAppliedToPool (O.promises option) self.old self.new) }
        ensures err { IfErr result (λ e. IsAppliedToPool (O.fails option e) self.old self.new) }
        ensures only { IfErr result (λ e. (e ≡ Memory) ⊎ (e ≡ Range)) }
        ensures range { IfErr result (λ e. e ≡ Range
            → WasOutOfRange (O.out_of_range option) self.old) }
    {
        let mut records = EmptyRecords {
            rows: 0,
            columns: 0,
        };
        option.change(&mut records, &mut self.config, &mut self.dimension)
    }

    /// Applies an option to the settings, and returns the table. The option sees records without
    /// rows, and can't change the texts.
    ///
    /// Fails with `Memory` if an allocation fails, and with `Range` if a sum or product of the
    /// option exceeds `usize::MAX`. The settings are then as the option left them.
    pub fn with<O: TableOption<EmptyRecords, CompactMultilineConfig, PoolTableDimension>>(
        &mut self,
        option: O,
    ) -> Result<&mut Self, TableError>
        ensures* rests { sem 𝓛 (RestsIfErr the_row self.entry (λ table. table.ghost_name) result
            (λ last. IfErr result (λ e. IsAppliedToPool (O.fails option e) self.old last))) }
        ensures same_reference { IfOk result (λ table. table.ghost_name ≡ self.entry.ghost_name) }
        ensures ok { IfOk result (λ table. IsAppliedToPool (O.changes option) self.old table.now) }
        ensures promised { IfOk result (λ table. IsAppliedToPool (O.promises option) self.old table.now) }
        ensures only { IfErr result (λ e. (e ≡ Memory) ⊎ (e ≡ Range)) }
        ensures range { IfErr result (λ e. e ≡ Range
            → WasOutOfRange (O.out_of_range option) self.old) }
    {
        match self.apply(option) {
            Ok(()) => Ok(self),
            Err(error) => Err(error),
        }
    }
}

fn collect_rows<I: IntoRecords>(alloc: Global, records: I) -> Result<Vec<TableValue>, AllocError>
where
    I::Cell: CellText + Drop,
    requires { I.ends records }
    ensures { IfOk result (λ rows. (cells : List (List I.Cell)) × I.gives records cells
        × (map tree_of rows.items ≡ map tree_of_row (map (map I.Cell.text) cells))) }
{
    let mut rows = Vec::new(alloc);
    for row in records.iter_rows() {
        let value = TableValue::Row(collect_row(alloc, row)?);
        rows.push(value)?;
    }
    Ok(rows)
}

fn collect_row<I: IntoIterator>(alloc: Global, cells: I) -> Result<Vec<TableValue>, AllocError>
where
    I::Item: CellText + Drop,
    requires { IsFiniteIterable I.into_iter_gives I.IntoIter.can_next I.IntoIter.remaining cells }
    ensures { IfOk result (λ row. (items : List I.Item)
        × Given I.into_iter_gives I.IntoIter.next_gives cells items
        × (map tree_of row.items ≡ map leaf (map I.Item.text items))) }
{
    let mut row = Vec::new(alloc);
    for cell in cells {
        row.push(TableValue::Cell(String::from_str(alloc, cell.text())?))?;
    }
    row.shrink_to_fit();
    Ok(row)
}
