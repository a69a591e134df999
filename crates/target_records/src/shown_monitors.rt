//! What monitors show.

ghost use Rattle.std.specs.Prelude.{◌≡◌, ◌&&◌, not, bytes_eq, position, option_map, ◌<◌, ◌^◌, length, IfSome};
ghost use Rattle.machine_spec.specs.declared.variables.Shown.TheVariants.{Variable, List as Items};
ghost use Rattle.machine_spec.specs.Monitors as monitors;
ghost use Rattle.machine_spec.specs.Program.{sprite_named as named};
ghost use Rattle.target_records.specs.Records.{monitor_in, records_in};
ghost use Rattle.target_records.specs.Shown.{shown_by};

use crate::monitors::MonitorRecord;
use crate::records::Records;
use machine_spec::{ListRecords, Shown, TargetId, TargetRecord, VariableRecords};
use project_json::Text;

// Whether a name's id is this one.
fn has_id(id: &str, own: &Option<Text>) -> bool
    ensures { result ≡ monitors.has_id id.now own.now }
{
    match own {
        Some(text) => text.as_str() == id,
        None => false,
    }
}

// The place of the variable of an id.
fn variable_of(id: &str, variables: &VariableRecords) -> Option<usize>
    ensures place { result ≡ position (λ v. monitors.has_id id.now v.name.id) variables.now }
    ensures within { IfSome result (λ i. i < length variables.now) }
{
    variables
        .as_slice()
        .iter()
        .position(|variable| has_id(id, &variable.name.id))
}

// The place of the list of an id.
fn list_of(id: &str, lists: &ListRecords) -> Option<usize>
    ensures place { result ≡ position (λ l. monitors.has_id id.now l.name.id) lists.now }
    ensures within { IfSome result (λ i. i < length lists.now) }
{
    lists
        .as_slice()
        .iter()
        .position(|list| has_id(id, &list.name.id))
}

// The variable of a target that has an id, as what a monitor shows.
fn shown_variable(id: &str, target: TargetId, own: &TargetRecord) -> Option<Shown>
    requires { length own.now.variables < 2 ^ 32 }
    ensures { result ≡ option_map (Variable target) (position (λ v. monitors.has_id id.now v.name.id) own.now.variables) }
{
    match variable_of(id, &own.variables) {
        Some(index) => Some(Shown::Variable(target, index as u32)),
        None => None,
    }
}

// The list of a target that has an id, as what a monitor shows.
fn shown_list(id: &str, target: TargetId, own: &TargetRecord) -> Option<Shown>
    requires { length own.now.lists < 2 ^ 32 }
    ensures { result ≡ option_map (Items target) (position (λ l. monitors.has_id id.now l.name.id) own.now.lists) }
{
    match list_of(id, &own.lists) {
        Some(index) => Some(Shown::List(target, index as u32)),
        None => None,
    }
}

// The variable or list that a monitor shows, by the record of its target.
fn shown_of(monitor: &MonitorRecord, target: TargetId, own: &TargetRecord) -> Option<Shown>
    requires variables { length own.now.variables < 2 ^ 32 }
    requires lists { length own.now.lists < 2 ^ 32 }
    ensures { result ≡ shown_by (monitor_in monitor.now) target own.now }
{
    match monitor.opcode.as_str() {
        "data_variable" => shown_variable(monitor.id.as_str(), target, own),
        "data_listcontents" => shown_list(monitor.id.as_str(), target, own),
        _ => None,
    }
}

// The variable or list of a target that a monitor shows.
fn shown_in(monitor: &MonitorRecord, records: &Records, target: TargetId) -> Option<Shown>
    ensures { result ≡ monitors.shown_in (monitor_in monitor.now) (records_in records.now) target }
{
    match records.get(target) {
        Some(own) => shown_of(monitor, target, own),
        None => None,
    }
}

// The place of the first sprite of a name.
fn sprite_place(targets: &[TargetRecord], name: &str) -> Option<usize>
    ensures place { result ≡ position (λ t. not t.is_stage && bytes_eq t.name name.now) targets.now }
    ensures within { IfSome result (λ i. i < length targets.now) }
{
    targets
        .iter()
        .position(|target| !target.is_stage && target.name.as_str() == name)
}

// The number of the first sprite of a name.
fn sprite_named(records: &Records, name: &str) -> Option<TargetId>
    ensures { result ≡ named name.now (records_in records.now) }
{
    // There are fewer than 2^32 targets.
    let _count = records.targets();
    match sprite_place(records.all_targets(), name) {
        Some(place) => Some(TargetId(place as u32)),
        None => None,
    }
}

impl Records {
    /// The target of a monitor: the stage where the monitor names no sprite, else the first sprite of the name.
    pub fn monitored(&self, monitor: &MonitorRecord) -> Option<TargetId>
        ensures { result ≡ monitors.monitored (monitor_in monitor.now).sprite (records_in self.now) }
    {
        match &monitor.sprite {
            None => Some(self.stage()),
            Some(name) => sprite_named(self, name.as_str()),
        }
    }

    /// The variable or list that a monitor of the file shows (scratch-vm, engine/monitor-record.js).
    pub fn what_shows(&self, monitor: &MonitorRecord) -> Option<Shown>
        ensures { result ≡ monitors.what_shows (records_in self.now) (monitor_in monitor.now) }
    {
        match self.monitored(monitor) {
            Some(target) => shown_in(monitor, self, target),
            None => None,
        }
    }
}
