//! Resolving the names of the blocks of a target.

ghost use Rattle.std.specs.Prelude.{◌≡◌, ◌+◌, ◌<◌, ◌^◌, length, IfOk};
ghost use Rattle.std.specs.List.{sum_by};
ghost use Rattle.machine_spec.specs.Program.{record_at};
ghost use Rattle.target_records.specs.Records.{records_in};
ghost use Rattle.name_resolving.specs.Blocks.{PassesBlocks, flag};
ghost use Rattle.name_resolving.specs.Room.{holdings, parts};
ghost use Rattle.name_resolving.specs.Scope.{IsScope};

use crate::block::resolve_block;
use crate::scope::Scope;
use lists::ListOf;
use project_spec::{Block, Resolved};
use std::alloc::{AllocError, Global};
use target_records::Records;

// The flag at a place; false past the last.
fn flag(flags: &[bool], place: usize) -> bool
    ensures { result ≡ flag flags.now place }
{
    match flags.get(place) {
        Some(flag) => *flag,
        None => false,
    }
}

/// What each block of a target names, in block order.
pub(crate) fn resolve_target(
    alloc: Global,
    scope: &mut Scope,
    records: &mut Records,
    blocks: &[Block],
    checked: &[bool],
) -> Result<ListOf<ListOf<Resolved>>, AllocError>
    requires scope { IsScope scope.old (records_in records.old) }
    requires room { holdings (record_at scope.old.target (records_in records.old)) + sum_by parts blocks.now < 2 ^ 32 }
    ensures { IfOk result (λ refs. PassesBlocks scope.old scope.new (flag checked.now) blocks.now (records_in records.old) (records_in records.new) refs) }
{
    let mut all = ListOf::new(alloc);
    for i in 0..blocks.len() {
        let is_checked = flag(checked, i);
        let refs = resolve_block(alloc, scope, records, &blocks[i], is_checked)?;
        all.push(refs)?;
    }
    Ok(all)
}
