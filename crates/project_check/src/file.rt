//! Reading a document, before anything is tested.

ghost use Rattle.std.specs.Prelude.{◌≡◌, ◌<◌, ◌^◌, map};
ghost use Rattle.project_json.specs.View.{tree};
ghost use Rattle.project_json.specs.Tree.{trees_of};
ghost use Rattle.project_json.specs.Size.{size_of, items_size};
ghost use Rattle.json_shapes.specs.Reads.{Reads};
ghost use Rattle.json_shapes.specs.Shapes as shape;
ghost use Rattle.project_spec.specs.Reading.{table_in, file_of};
ghost use Rattle.project_check.specs.File.{file_in};

use block_table::{FileTable, read_table};
use json_shapes::{Fault, Place, members, required_items, required_members};
use project_json::Json;
use std::alloc::Global;
use target_records::{FileRecords, read_monitors, read_targets};

/// What a document tells: the records, and the blocks of each target.
#[derive(Drop)]
pub struct FileParts {
    pub records: FileRecords,
    pub tables: Vec<FileTable>,
}

// The blocks of a target.
fn table(alloc: Global, place: &Place, target: &Json) -> Result<FileTable, Fault>
    requires { size_of (tree target.now) < 2 ^ 32 }
    ensures { Reads (λ t. t) result (table_in place.now (tree target.now)) }
{
    let members = members(alloc, place, target)?;
    let blocks = required_members(alloc, place, members, "blocks")?;
    read_table(alloc, &place.member("blocks"), blocks)
}

// The blocks of each target.
fn tables(alloc: Global, place: &Place, targets: &[Json]) -> Result<Vec<FileTable>, Fault>
    requires { items_size (trees_of (map tree targets.now)) < 2 ^ 32 }
    ensures { Reads (λ v. v.items) result (shape.each table_in place.now (map tree targets.now)) }
{
    let mut tables = Vec::new(alloc);
    for (i, target) in targets.iter().enumerate() {
        let table = table(alloc, &place.item(i), target)?;
        tables.push(table)?;
    }
    Ok(tables)
}

/// What a document tells, or the first value that has not its shape.
pub fn read_file(alloc: Global, document: &Json) -> Result<FileParts, Fault>
    requires { size_of (tree document.now) < 2 ^ 32 }
    ensures { Reads file_in result (file_of (tree document.now)) }
{
    let place = Place::root();
    let members = members(alloc, &place, document)?;
    let items = required_items(alloc, &place, members, "targets")?;
    let targets = read_targets(alloc, &place.member("targets"), items)?;
    let monitors = read_monitors(alloc, &place, members)?;
    let tables = tables(alloc, &place.member("targets"), items)?;
    Ok(FileParts {
        records: FileRecords::new(targets, monitors),
        tables,
    })
}
