//! How much a file may hold.

ghost use Rattle.std.specs.Prelude.{◌≡◌, map};
ghost use Rattle.std.specs.List.{enumerate_from};
ghost use Rattle.json_shapes.specs.Places.{path};
ghost use Rattle.project_spec.specs.Limits.{counts_from, table_measures, blocks_place};
ghost use Rattle.block_table.specs.Table.{numbered};
ghost use Rattle.project_check.specs.File.{file_in};
ghost use Rattle.project_check.specs.Measured.{counts_in, texts_from, Measures, IsMeasured, IsTooManyAt, Bounds, of_records, of_blocks};

use crate::file::FileParts;
use block_table::{BlockRefusal, BlockTable, FileTable};
use json_shapes::Place;
use project_spec::{MOST_MONITORS, MOST_TARGETS, Refusal};
use std::alloc::Global;
use target_records::{RecordRefusal, Records};

const MOST_BLOCKS: u64 = 200_000;

/// The records and the blocks of a file in which nothing is too many.
#[derive(Drop)]
pub struct Measured {
    pub records: Records,
    pub tables: Vec<BlockTable>,
}

// What is at the place is too many.
fn too_many(alloc: Global, place: &Place) -> Refusal
    ensures { IsTooManyAt (path place.now) result }
{
    match place.path(alloc) {
        Ok(path) => Refusal::TooMany { path },
        Err(_) => Refusal::NoMemory,
    }
}

// The blocks of all targets together are few enough.
fn test_blocks(alloc: Global, tables: &[FileTable]) -> Result<(), Refusal>
    ensures { Measures result (counts_from 0 (enumerate_from 0 tables.now)) }
{
    let mut total = 0u64;
    for (t, table) in tables.iter().enumerate() {
        total += u64::from(table.len());
        if total > MOST_BLOCKS {
            let root = Place::root();
            let targets = root.member("targets");
            let target = targets.item(t);
            return Err(too_many(alloc, &target.member("blocks")));
        }
    }
    Ok(())
}

// Targets, monitors and blocks are few enough.
fn test_counts(alloc: Global, file: &FileParts) -> Result<(), Refusal>
    ensures { Measures result (counts_in (file_in file.now)) }
{
    if file.records.targets() > MOST_TARGETS {
        return Err(too_many(alloc, &Place::root().member("targets")));
    }
    if file.records.monitors() > MOST_MONITORS {
        return Err(too_many(alloc, &Place::root().member("monitors")));
    }
    test_blocks(alloc, &file.tables)
}

fn of_records(refusal: RecordRefusal) -> Refusal
    ensures { result ≡ of_records refusal }
{
    match refusal {
        RecordRefusal::Shape { path } => Refusal::Shape { path },
        RecordRefusal::StageCount { n } => Refusal::StageCount { n },
        RecordRefusal::TooMany { path } => Refusal::TooMany { path },
        RecordRefusal::NoMemory => Refusal::NoMemory,
    }
}

fn of_blocks(refusal: BlockRefusal) -> Refusal
    ensures { result ≡ of_blocks refusal }
{
    match refusal {
        BlockRefusal::Shape { path } => Refusal::Shape { path },
        BlockRefusal::TooLong { path } => Refusal::TooMany { path },
        BlockRefusal::NoMemory => Refusal::NoMemory,
    }
}

// The table of target t, where no text in it is too long.
fn bounded_table(alloc: Global, t: usize, table: FileTable) -> Result<BlockTable, Refusal>
    ensures { Bounds (λ b. b) result (numbered table) (table_measures (blocks_place t) table) }
{
    let root = Place::root();
    let targets = root.member("targets");
    let target = targets.item(t);
    match table.bounded(alloc, &target.member("blocks")) {
        Ok(table) => Ok(table),
        Err(refusal) => Err(of_blocks(refusal)),
    }
}

// The tables, where no text in them is too long.
fn bounded_tables(alloc: Global, tables: Vec<FileTable>) -> Result<Vec<BlockTable>, Refusal>
    ensures { Bounds (λ v. v.items) result (map numbered tables.items) (texts_from 0 tables.items) }
{
    let mut bounded = Vec::new(alloc);
    for table in tables {
        let t = bounded.len();
        let table = match bounded_table(alloc, t, table) {
            Ok(table) => table,
            Err(refusal) => return Err(refusal),
        };
        bounded.push(table)?;
    }
    Ok(bounded)
}

/// The file in which nothing is too many: its stages are counted first, then its targets, monitors and blocks, then the
/// items of its lists and the bytes of its texts, in the order of the file.
pub fn measure(alloc: Global, file: FileParts) -> Result<Measured, Refusal>
    ensures { IsMeasured (file_in file) result }
{
    let n = file.records.stages();
    if n != 1 {
        return Err(Refusal::StageCount { n });
    }
    match test_counts(alloc, &file) {
        Ok(()) => {}
        Err(refusal) => return Err(refusal),
    }
    let FileParts { records, tables } = file;
    let records = match records.bounded(alloc) {
        Ok(records) => records,
        Err(refusal) => return Err(of_records(refusal)),
    };
    match bounded_tables(alloc, tables) {
        Ok(tables) => Ok(Measured { records, tables }),
        Err(refusal) => Err(refusal),
    }
}
