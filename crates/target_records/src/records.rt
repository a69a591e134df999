//! The records of a project: its targets and its monitors.

ghost use Rattle.std.specs.Prelude.{◌≡◌, [], slice_index_or};

use crate::held_targets::HeldTargets;
use crate::monitors::Monitors;
use machine_spec::{CostumeNames, TargetId, TargetRecord};
use scratch_values::VarName;
use std::alloc::AllocError;

/// The targets of a project, in file order, and its monitors. There are fewer than 2^32 targets, each has fewer than 2^32
/// variables and fewer than 2^32 lists, and no list has more than 200,000 items. Contracts see them as `records_in`.
#[derive(Debug)]
pub struct Records {
    targets: HeldTargets,
    monitors: Monitors,
}

// Not derived: whoever holds one calls this, and does not prove anew how it is taken apart.
impl Drop for Records {
    fn drop(self) {
        let Records {
            targets: _targets,
            monitors: _monitors,
        } = self;
    }
}

// A name of costumes; empty where there is none at the place.
fn costume_at(names: &CostumeNames, place: u32) -> &str
    ensures { result.now ≡ slice_index_or names.now place [] }
{
    match names.get(place as usize) {
        Some(name) => name.as_str(),
        None => "",
    }
}

impl Records {
    ghost use Rattle.std.specs.Prelude.{◌≡◌, ◌+◌, ◌<◌, ◌^◌, [], length, map, option_map, slice_get, slice_index_or, OnOk, OnErr, IfOk, IfSome};
    ghost use Rattle.machine_spec.specs.Lists.{changed_at};
    ghost use Rattle.machine_spec.specs.Program.{record_at, stage_number};
    ghost use Rattle.project_spec.specs.Resolving.{with_added, OfVariable, OfList};
    ghost use Rattle.std.specs.List.{All};
    ghost use Rattle.target_records.specs.Held.{HasShortLists, IsSmall};
    ghost use Rattle.target_records.specs.Records.{monitor_in, records_in};

    // The records of these targets and monitors.
    pub(crate) fn new(targets: HeldTargets, monitors: Monitors) -> Records
        ensures { records_in result ≡ record { targets = targets; monitors = map monitor_in monitors } }
    {
        Records { targets, monitors }
    }

    /// How many targets there are.
    pub fn targets(&self) -> u32
        ensures { result ≡ length (records_in self.now).targets }
    {
        self.targets.len()
    }

    /// The first target that is the stage. Records that were read have one stage; where there is none it is the target 0.
    pub fn stage(&self) -> TargetId
        ensures { result ≡ stage_number (records_in self.now) }
    {
        TargetId(self.targets.stage())
    }

    /// The record of a target, and that it has fewer than 2^32 variables and lists.
    pub fn target(&self, target: TargetId) -> &TargetRecord
        requires { target < length (records_in self.now).targets }
        ensures held { slice_get (records_in self.now).targets target ≡ Some result.now }
        ensures small { IsSmall result.now }
    {
        self.targets.get(target.0)
    }

    /// The record of a target, if there is one.
    pub fn get(&self, target: TargetId) -> Option<&TargetRecord>
        ensures record { option_map (λ t. t.now) result ≡ slice_get (records_in self.now).targets target }
        ensures small { IfSome result (λ t. IsSmall t.now) }
    {
        if target.0 >= self.targets() {
            return None;
        }
        Some(self.target(target))
    }

    /// The name of a costume of a target; empty where there is none.
    pub fn costume_name(&self, target: TargetId, costume: u32) -> &str
        ensures { result.now ≡ slice_index_or (record_at target (records_in self.now)).costumes costume [] }
    {
        match self.get(target) {
            Some(record) => costume_at(&record.costumes, costume),
            None => "",
        }
    }

    /// The records of all targets, in file order, and that no list of theirs has more than 200,000 items.
    pub fn all_targets(&self) -> &[TargetRecord]
        ensures all { result.now ≡ (records_in self.now).targets }
        ensures short { All HasShortLists result.now }
    {
        self.targets.as_slice()
    }

    /// The monitors, in file order.
    pub fn monitors(&self) -> &Monitors
        ensures { map monitor_in result.now ≡ (records_in self.now).monitors }
    {
        &self.monitors
    }

    /// Adds a variable of the name, with the value 0, to a target, and gives its number among the target's variables. The
    /// only error is want of memory.
    pub fn add_variable(&mut self, target: TargetId, name: &VarName) -> Result<u32, AllocError>
        requires held { target < length (records_in self.old).targets }
        requires room { length (record_at target (records_in self.old)).variables + 1 < 2 ^ 32 }
        ensures number { IfOk result (λ i. i ≡ length (record_at target (records_in self.old)).variables) }
        ensures added { OnOk result (records_in self.new ≡ record (records_in self.old) { targets = changed_at (with_added OfVariable name.now) target (records_in self.old).targets }) }
        ensures err { OnErr result (self.new ≡ self.old) }
    {
        self.targets.add_variable(target.0, name)
    }

    /// Adds an empty list of the name to a target, and gives its number among the target's lists. The only error is want of
    /// memory.
    pub fn add_list(&mut self, target: TargetId, name: &VarName) -> Result<u32, AllocError>
        requires held { target < length (records_in self.old).targets }
        requires room { length (record_at target (records_in self.old)).lists + 1 < 2 ^ 32 }
        ensures number { IfOk result (λ i. i ≡ length (record_at target (records_in self.old)).lists) }
        ensures added { OnOk result (records_in self.new ≡ record (records_in self.old) { targets = changed_at (with_added OfList name.now) target (records_in self.old).targets }) }
        ensures err { OnErr result (self.new ≡ self.old) }
    {
        self.targets.add_list(target.0, name)
    }
}
