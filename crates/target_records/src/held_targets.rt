//! The targets of a project.

ghost use Rattle.std.specs.Prelude.{◌≡◌, ◌+◌, ◌<◌, ◌^◌, length, position, unwrap_or, slice_get, IfSome, OnOk, OnErr, IfOk};
ghost use Rattle.std.specs.List.{All};
ghost use Rattle.machine_spec.specs.Lists.{changed_at};
ghost use Rattle.machine_spec.specs.Program.{no_target};
ghost use Rattle.project_spec.specs.Resolving.{with_added, OfVariable, OfList};
ghost use Rattle.target_records.specs.Held.{HasShortLists, IsSmall, stage_in};

use lists::ListOf;
use machine_spec::{ListRecord, TargetRecord, VariableRecord};
use scratch_number::of_whole;
use scratch_values::{Value, VarName};
use std::alloc::{AllocError, Global};
use std::marker::Model;

// Targets in file order, fewer than 2^32, and the place of the stage among them. Each has fewer than 2^32 variables and
// lists, and no list has more than 200,000 items. Contracts see the list of their records.
#[derive(Debug, Drop)]
pub(crate) struct HeldTargets {
    targets: Vec<TargetRecord>,
    stage: u32,
}

impl Model for HeldTargets {
    ghost use Rattle.std.specs.Prelude.{List};
    ghost use Rattle.machine_spec.specs.declared.records.TargetRecord.{TargetRecord};
    ghost use Rattle.target_records.specs.Held.{AreHeld};

    ghost Value = { List TargetRecord };

    ghost view = { λ t. t.targets.items };

    ghost invariant = { λ t. AreHeld t.targets.items t.stage };
}

// The place of the first target that is the stage.
fn first_stage(targets: &[TargetRecord]) -> Option<usize>
    ensures value { result ≡ position (λ t. t.is_stage) targets.now }
    ensures within { IfSome result (λ place. place < length targets.now) }
{
    targets.iter().position(|target| target.is_stage)
}

// The place of the first target that is the stage; 0 where none is.
fn stage_of(targets: &[TargetRecord]) -> u32
    requires { length targets.now < 2 ^ 32 }
    ensures { result ≡ stage_in targets.now }
{
    match first_stage(targets) {
        Some(place) => place as u32,
        None => 0,
    }
}

// A variable with the name and the value 0 at the end of a target's.
fn add_variable(target: &mut TargetRecord, name: VarName) -> Result<u32, AllocError>
    requires { length target.old.variables + 1 < 2 ^ 32 }
    ensures number { IfOk result (λ i. i ≡ length target.old.variables) }
    ensures added { OnOk result (target.new ≡ with_added OfVariable name target.old) }
    ensures err { OnErr result (target.new ≡ target.old) }
{
    let number = target.variables.len() as u32;
    let value = Value::Number(of_whole(0));
    target.variables.push(VariableRecord { name, value })?;
    Ok(number)
}

// An empty list with the name at the end of a target's.
fn add_list(alloc: Global, target: &mut TargetRecord, name: VarName) -> Result<u32, AllocError>
    requires { length target.old.lists + 1 < 2 ^ 32 }
    ensures number { IfOk result (λ i. i ≡ length target.old.lists) }
    ensures added { OnOk result (target.new ≡ with_added OfList name target.old) }
    ensures err { OnErr result (target.new ≡ target.old) }
{
    let number = target.lists.len() as u32;
    let items = ListOf::new(alloc);
    target.lists.push(ListRecord { name, items })?;
    Ok(number)
}

impl HeldTargets {
    // These targets.
    pub(crate) fn new(targets: Vec<TargetRecord>) -> HeldTargets
        requires few { length targets.items < 2 ^ 32 }
        requires small { All IsSmall targets.items }
        requires short { All HasShortLists targets.items }
        ensures { result ≡ targets.items }
    {
        let stage = stage_of(&targets);
        HeldTargets { targets, stage }
    }

    pub(crate) fn len(&self) -> u32
        ensures { result ≡ length self.now }
    {
        self.targets.len() as u32
    }

    pub(crate) fn stage(&self) -> u32
        ensures { result ≡ stage_in self.now }
    {
        self.stage
    }

    pub(crate) fn as_slice(&self) -> &[TargetRecord]
        ensures value { result.now ≡ self.now }
        ensures short { All HasShortLists result.now }
    {
        self.targets.as_slice()
    }

    pub(crate) fn get(&self, place: u32) -> &TargetRecord
        requires { place < length self.now }
        ensures held { slice_get self.now place ≡ Some result.now }
        ensures small { IsSmall result.now }
    {
        &self.targets[place as usize]
    }

    pub(crate) fn add_variable(&mut self, place: u32, name: &VarName) -> Result<u32, AllocError>
        requires held { place < length self.old }
        requires room { length (unwrap_or (slice_get self.old place) no_target).variables + 1 < 2 ^ 32 }
        ensures number { IfOk result (λ i. i ≡ length (unwrap_or (slice_get self.old place) no_target).variables) }
        ensures added { OnOk result (self.new ≡ changed_at (with_added OfVariable name.now) place self.old) }
        ensures err { OnErr result (self.new ≡ self.old) }
    {
        let name = name.clone()?;
        add_variable(&mut self.targets[place as usize], name)
    }

    pub(crate) fn add_list(&mut self, place: u32, name: &VarName) -> Result<u32, AllocError>
        requires held { place < length self.old }
        requires room { length (unwrap_or (slice_get self.old place) no_target).lists + 1 < 2 ^ 32 }
        ensures number { IfOk result (λ i. i ≡ length (unwrap_or (slice_get self.old place) no_target).lists) }
        ensures added { OnOk result (self.new ≡ changed_at (with_added OfList name.now) place self.old) }
        ensures err { OnErr result (self.new ≡ self.old) }
    {
        let name = name.clone()?;
        let alloc = *self.targets.allocator();
        add_list(alloc, &mut self.targets[place as usize], name)
    }
}
