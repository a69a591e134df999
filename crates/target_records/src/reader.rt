//! The records of a document, in one.

ghost use Rattle.std.specs.Prelude.{◌≡◌, ◌<◌, ◌^◌};
ghost use Rattle.project_json.specs.Size.{size_of};
ghost use Rattle.project_json.specs.View.{tree};
ghost use Rattle.target_records.specs.Answers.{Answers, counts_in};
ghost use Rattle.target_records.specs.Bounds.{Bounds};
ghost use Rattle.target_records.specs.Reading.{records_of};
ghost use Rattle.target_records.specs.Records.{file_records_in};
ghost use Rattle.json_shapes.specs.Reads.{Reads};

use crate::file_records::FileRecords;
use crate::monitors::read_monitors;
use crate::records::Records;
use crate::refusal::RecordRefusal;
use crate::targets::read_targets;
use json_shapes::{Fault, Place, members, required_items};
use project_json::Json;
use project_spec::{MOST_MONITORS, MOST_TARGETS};
use std::alloc::Global;

fn file_records(alloc: Global, document: &Json) -> Result<FileRecords, Fault>
    requires { size_of (tree document.now) < 2 ^ 32 }
    ensures { Reads file_records_in result (records_of (tree document.now)) }
{
    let root = Place::root();
    let members = members(alloc, &root, document)?;
    let items = required_items(alloc, &root, members, "targets")?;
    let targets = read_targets(alloc, &root.member("targets"), items)?;
    let monitors = read_monitors(alloc, &root, members)?;
    Ok(FileRecords::new(targets, monitors))
}

// Whether there are not too many targets and monitors.
fn counted(alloc: Global, records: &FileRecords) -> Result<(), RecordRefusal>
    ensures { Bounds (λ _. file_records_in records.now) result (file_records_in records.now) (counts_in (file_records_in records.now)) }
{
    let root = Place::root();
    if records.targets() > MOST_TARGETS {
        return Err(RecordRefusal::too_many(alloc, &root.member("targets")));
    }
    if records.monitors() > MOST_MONITORS {
        return Err(RecordRefusal::too_many(alloc, &root.member("monitors")));
    }
    Ok(())
}

/// The records that a document tells of its targets and monitors (Scratch 3 project file format; scratch-vm,
/// serialization/sb3.js). Its blocks are not read.
///
/// `Shape` is the path of the first value that has not its shape: of the members of each target, then of the monitors. A
/// document that is no object has the empty path. Then `StageCount` is the number of targets that are the stage, where it
/// is not 1. Then `TooMany` is the path of the first that is too many: more than 1,000 targets or 10,000 monitors, a list
/// of more than 200,000 items, a text of a value or a name of a costume of more than 1,048,576 bytes.
pub fn read(alloc: Global, document: &Json) -> Result<Records, RecordRefusal>
    requires { size_of (tree document.now) < 2 ^ 32 }
    ensures { Answers result (records_of (tree document.now)) }
{
    let records = file_records(alloc, document)?;
    let n = records.stages();
    if n != 1 {
        return Err(RecordRefusal::StageCount { n });
    }
    counted(alloc, &records)?;
    records.bounded(alloc)
}
