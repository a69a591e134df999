//! What names lead to while the blocks of a target are gone through.

ghost use Rattle.std.specs.Prelude.{◌≡◌, ◌+◌, ◌<◌, ◌≤◌, ◌^◌, length, OnOk, IfOk};
ghost use Rattle.scratch_values.specs.declared.names.VarName.{VarName as Name};
ghost use Rattle.machine_spec.specs.Program.{record_at};
ghost use Rattle.project_spec.specs.Resolving.{names_of, resolved_name};
ghost use Rattle.target_records.specs.Records.{records_in};
ghost use Rattle.name_resolving.specs.Directory.{Adds, sort_in};
ghost use Rattle.name_resolving.specs.Naming.{naming_in};
ghost use Rattle.name_resolving.specs.Room.{holdings};
ghost use Rattle.name_resolving.specs.Scope.{AddsIf, IsScope, NotesName, added_at};

use crate::directory::Directory;
use crate::field_names::Naming;
use crate::lookup::found;
use crate::sort::Sort;
use machine_spec::TargetId;
use scratch_values::{VarName, VarRef};
use std::alloc::{AllocError, Global};
use target_records::Records;

/// A target, and where the variables and lists of it and of the stage stand. The target may be the stage.
#[derive(Debug, Drop)]
pub(crate) struct Scope {
    pub(crate) target: TargetId,
    pub(crate) is_stage: bool,
    pub(crate) own: Directory,
    pub(crate) stage: Directory,
}

// Adds a variable or a list to a target's record.
fn added(
    records: &mut Records,
    target: TargetId,
    sort: Sort,
    name: &VarName,
) -> Result<u32, AllocError>
    requires held { target < length (records_in records.old).targets }
    requires room { holdings (record_at target (records_in records.old)) + 1 < 2 ^ 32 }
    ensures number { IfOk result (λ i. i ≡ length (names_of (sort_in sort) (record_at target (records_in records.old)))) }
    ensures added { OnOk result (records_in records.new ≡ added_at (sort_in sort) name.now target (records_in records.old)) }
{
    match sort {
        Sort::Variable => records.add_variable(target, name),
        Sort::List => records.add_list(target, name),
    }
}

// Adds a name to a directory, under a condition.
fn add_if(
    is_stage: bool,
    directory: &mut Directory,
    alloc: Global,
    sort: Sort,
    name: &VarName,
    number: u32,
) -> Result<(), AllocError>
    ensures { OnOk result (AddsIf is_stage directory.old directory.new (sort_in sort) name.now number) }
{
    if !is_stage {
        return Ok(());
    }
    directory.add(alloc, sort, name, number)
}

impl Scope {
    /// The scope of the stage's own blocks.
    pub(crate) fn of_stage(alloc: Global, records: &Records) -> Result<Scope, AllocError>
        requires { 0 < length (records_in records.now).targets }
        ensures { IfOk result (λ scope. IsScope scope (records_in records.now)) }
    {
        let target = records.stage();
        let record = records.target(target);
        Ok(Scope {
            target,
            is_stage: true,
            own: Directory::of(alloc, record)?,
            stage: Directory::of(alloc, record)?,
        })
    }

    /// Goes on to the blocks of a target. After want of memory the scope is only dropped.
    pub(crate) fn enter(
        &mut self,
        alloc: Global,
        records: &Records,
        target: TargetId,
    ) -> Result<(), AllocError>
        requires scope { IsScope self.old (records_in records.now) }
        requires held { target < length (records_in records.now).targets }
        ensures scope { OnOk result (IsScope self.new (records_in records.now)) }
        ensures target { OnOk result (self.new.target ≡ target) }
    {
        self.own = Directory::of(alloc, records.target(target))?;
        self.is_stage = target.0 == records.stage().0;
        self.target = target;
        Ok(())
    }

    // Notes a name that was added to the target.
    fn note(
        &mut self,
        alloc: Global,
        sort: Sort,
        name: &VarName,
        number: u32,
    ) -> Result<(), AllocError>
        ensures noted { OnOk result (NotesName self.old self.new (sort_in sort) name.now number) }
        ensures target { self.new.target ≡ self.old.target }
    {
        self.own.add(alloc, sort, name, number)?;
        add_if(self.is_stage, &mut self.stage, alloc, sort, name, number)
    }

    /// What a name leads to; where nothing has it, one is added to the target. After want of memory the scope and the
    /// records are only dropped.
    pub(crate) fn resolve(
        &mut self,
        alloc: Global,
        records: &mut Records,
        naming: &Naming,
    ) -> Result<VarRef, AllocError>
        requires scope { IsScope self.old (records_in records.old) }
        requires room { holdings (record_at self.old.target (records_in records.old)) + 1 < 2 ^ 32 }
        ensures resolved { IfOk result (λ ref. resolved_name self.old.target (naming_in naming.now) (records_in records.old)
            ≡ record { records = records_in records.new; what = ref }) }
        ensures scope { OnOk result (IsScope self.new (records_in records.new)) }
        ensures target { self.new.target ≡ self.old.target }
    {
        let own = self.own.index(naming.sort);
        let stage = self.stage.index(naming.sort);
        if let Some(found) = found(own, stage, naming.name) {
            return Ok(found);
        }
        let number = added(records, self.target, naming.sort, naming.name)?;
        self.note(alloc, naming.sort, naming.name, number)?;
        Ok(VarRef::Own(number))
    }
}
