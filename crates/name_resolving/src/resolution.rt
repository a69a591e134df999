//! Resolving the names of all blocks.

ghost use Rattle.std.specs.Prelude.{◌≡◌, ℕ, length, map, IfOk};
ghost use Rattle.project_spec.specs.Resolving.{resolved_targets};
ghost use Rattle.target_records.specs.Records.{records_in};
ghost use Rattle.name_resolving.specs.Blocks.{flag_of, flags_by};
ghost use Rattle.std.specs.Prelude.{slice_get};
ghost use Rattle.name_resolving.specs.Room.{HasRoom};

use crate::scope::Scope;
use crate::target::resolve_target;
use block_table::BlockTable;
use lists::ListOf;
use machine_spec::TargetId;
use project_spec::Resolved;
use std::alloc::{AllocError, Global};
use target_records::Records;

/// What each block of each target names: of a target a list for each of its blocks, in block order.
pub type ResolvedNames = ListOf<ListOf<ListOf<Resolved>>>;

// The flags of a target; none past the last.
fn flags<'a>(checked: &[&'a [bool]], target: usize) -> &'a [bool]
    ensures { result.now ≡ flags_by (slice_get checked.now target) }
{
    match checked.get(target) {
        Some(flags) => *flags,
        None => &[],
    }
}

/// Resolves the names in the blocks of all targets, in file order, by the flags of the blocks of checked scripts: by id
/// in the target, by id in the stage, by name in the target, by name in the stage, and where nothing is found, by adding
/// it to the target (scratch-vm, engine/target.js). The tables are those of the targets of the records, and numbers of 32
/// bits have room for what may be added. The only error is want of memory: then the records are only dropped.
pub fn resolve(
    alloc: Global,
    records: &mut Records,
    tables: &[BlockTable],
    checked: &[&[bool]],
) -> Result<ResolvedNames, AllocError>
    requires each { length tables.now ≡ length (records_in records.old).targets }
    requires room { HasRoom (records_in records.old) (map (λ t. t.blocks) tables.now) }
    ensures { IfOk result (λ names. resolved_targets (flag_of checked.now) 0 (map (λ t. t.blocks) tables.now) (records_in records.old)
        ≡ record { records = records_in records.new; what = names }) }
{
    let count = records.targets();
    let mut all = ListOf::new(alloc);
    if count == 0 {
        return Ok(all);
    }
    let mut scope = Scope::of_stage(alloc, records)?;
    for t in 0..count {
        let place = t as usize;
        scope.enter(alloc, records, TargetId(t))?;
        let blocks = tables[place].blocks();
        let names = resolve_target(alloc, &mut scope, records, blocks, flags(checked, place))?;
        all.push(names)?;
    }
    Ok(all)
}
