//! Counting records in tables.

ghost use Rattle.std.specs.Prelude.{◌≡◌, ◌+◌, ◌<◌, ℕ, length, map, slice_get, Some, All, IfOk};
ghost use Rattle.prefix_lattice.specs.{node_count, total_weight};
ghost use Rattle.space_saving.specs.{TableValue, table_limit, table_total};
ghost use Rattle.shard_state.specs.Snapshot.{table_after, tables_after};

use crate::table::Table;
use prefix_lattice::{Grain, Node, Prefix, Record};
use space_saving::{Flat, Summary};
use std::alloc::{AllocError, Global};

/// Counts records in each table of a grain, one table after the other, so that the entries of a table stay in the
/// nearest cache.
pub(crate) fn count_in_tables(grain: Grain, tables: &mut [Table], records: &[Record])
    requires as_many { length tables.old ≡ node_count grain }
    requires room { All (λ table. table_total table.entries + total_weight records.now < table_limit) tables.old }
    ensures { tables.new ≡ tables_after grain 0 tables.old records.now }
{
    for place in 0..grain.nodes() {
        let node = Node::from_index(grain, place).unwrap();
        count_in_table(&mut tables[usize::from(place)], node, records);
    }
}

// Counts records in the table of a node.
fn count_in_table(table: &mut Table, node: Node, records: &[Record])
    requires { table_total table.old.entries + total_weight records.now < table_limit }
    ensures { table.new ≡ table_after node records.now table.old }
{
    for rec in records {
        table.add(Prefix::of(rec, node).key(), rec.weight);
    }
}

/// Tables with the contents of these.
pub(crate) fn restored(alloc: Global, flats: &[Flat]) -> Result<Vec<Table>, AllocError>
    ensures { IfOk result (λ tables. tables.items ≡ flats.now) }
{
    let mut tables = Vec::with_capacity(alloc, flats.len())?;
    for flat in flats {
        tables.push(Table::restore(alloc, flat)?)?;
    }
    Ok(tables)
}

/// Makes flat tables equal to these, each of the same capacity as its source. It allocates no memory.
pub(crate) fn copy_tables(tables: &[Table], into: &mut [Flat])
    requires shape { length into.old ≡ length tables.now }
    requires capacities { (place : ℕ) (table flat : TableValue) → slice_get tables.now place ≡ Some table
        → slice_get into.old place ≡ Some flat → flat.capacity ≡ table.capacity }
    ensures { into.new ≡ tables.now }
{
    for place in 0..tables.len() {
        tables[place].copy_into(&mut into[place]);
    }
}
