//! The records that a file tells, before their lengths are tested.

ghost use Rattle.std.specs.Prelude.{◌≡◌, length};

use crate::file_targets::FileTargets;
use crate::monitors::Monitors;
use crate::records::Records;
use crate::refusal::RecordRefusal;
use crate::text_lengths::bounded_targets;
use std::alloc::Global;

/// What a file tells of its targets and its monitors. Texts may be of any length.
#[derive(Debug, Drop)]
pub struct FileRecords {
    targets: FileTargets,
    monitors: Monitors,
}

impl FileRecords {
    ghost use Rattle.std.specs.Prelude.{◌≡◌, length, map};
    ghost use Rattle.target_records.specs.Answers.{stages_in};
    ghost use Rattle.target_records.specs.Bounds.{Bounds, lengths_in};
    ghost use Rattle.target_records.specs.Records.{monitor_in, file_records_in, records_in};

    /// The records of these targets and monitors.
    pub fn new(targets: FileTargets, monitors: Monitors) -> FileRecords
        ensures { file_records_in result ≡ record { targets = targets; monitors = map monitor_in monitors } }
    {
        FileRecords { targets, monitors }
    }

    /// How many targets there are.
    pub fn targets(&self) -> usize
        ensures { result ≡ length (file_records_in self.now).targets }
    {
        self.targets.len()
    }

    /// How many monitors there are.
    pub fn monitors(&self) -> usize
        ensures { result ≡ length (file_records_in self.now).monitors }
    {
        self.monitors.len()
    }

    /// How many targets are the stage.
    pub fn stages(&self) -> u32
        ensures { result ≡ stages_in (file_records_in self.now) }
    {
        self.targets.stages()
    }

    /// The records, where no list has more than 200,000 items, and no text of a value and no name of a costume more than
    /// 1,048,576 bytes; `TooMany` is the path of the first that is longer, in the order of the targets, and in each its
    /// variables, its lists and its costumes. The only other refusal is `NoMemory`.
    pub fn bounded(self, alloc: Global) -> Result<Records, RecordRefusal>
        ensures { Bounds records_in result (file_records_in self) (lengths_in (file_records_in self).targets) }
    {
        let FileRecords { targets, monitors } = self;
        let targets = bounded_targets(alloc, targets)?;
        Ok(Records::new(targets, monitors))
    }
}
