//! The fields of a block.

ghost use Rattle.std.specs.Prelude.{◌≡◌};
ghost use Rattle.machine_spec.specs.Stores.{index_of, owner_of};
ghost use Rattle.machine_spec.specs.View.{field_at, variable_at};
ghost use Rattle.target_records.specs.Records.{records_in};

use machine_spec::InstanceId;
use scratch_values::{Args, VarRef};
use target_records::Records;

/// The text of a field; it is empty where there is no such field.
#[inline]
pub fn field<'v>(args: &'v Args<'_>, name: &str) -> &'v str
    ensures { result.now ≡ field_at name.now args.now }
{
    match args.field(name) {
        Some(text) => text.as_str(),
        None => "",
    }
}

/// Where a variable or a list is held: the instance that has it, and its number there.
#[derive(Clone, Copy, PartialEq, Eq, Debug)]
pub struct Place {
    pub of: InstanceId,
    pub index: u32,
}

/// Where the variable or list is held that a field names, of this instance or of the stage; where there is no such field,
/// the first one of the instance.
#[inline]
pub fn held_at(args: &Args<'_>, field: &str, here: InstanceId, records: &Records) -> Place
    ensures of { result.of ≡ owner_of (variable_at field.now args.now) here (records_in records.now) }
    ensures index { result.index ≡ index_of (variable_at field.now args.now) }
{
    match args.variable(field) {
        Some(VarRef::Own(index)) => Place { of: here, index },
        Some(VarRef::Stage(index)) => Place {
            of: InstanceId(u64::from(records.stage().0)),
            index,
        },
        None => Place { of: here, index: 0 },
    }
}

/// The variable or list that a field names; the first own one where there is no such field.
#[inline]
pub fn named(args: &Args<'_>, field: &str) -> VarRef
    ensures { result ≡ variable_at field.now args.now }
{
    match args.variable(field) {
        Some(variable) => variable,
        None => VarRef::Own(0),
    }
}
