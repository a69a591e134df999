//! Variables and lists that monitors show.

ghost use Rattle.std.specs.Prelude.{◌≡◌, ◌++◌, OnOk};
ghost use Rattle.std.specs.Option.{option_map};
ghost use Rattle.machine_spec.specs.FrameText as machine;
ghost use Rattle.target_records.specs.Records.{records_in};

use crate::labels::{push_list_lines, push_value_line};
use crate::names::{list_name, variable_name};
use crate::told_values::Told;
use machine_spec::{InstanceId, Shown};
use std::alloc::AllocError;
use target_records::Records;
use variables::Variables;

// Appends the lines of a variable or list of an original, under the name of a sprite or none.
pub(crate) fn push_shown(
    out: &mut Vec<u8>,
    records: &Records,
    variables: &Variables,
    sprite: Option<&str>,
    what: &Shown,
) -> Result<(), AllocError>
    ensures { OnOk result (out.new.items ≡ out.old.items ++ machine.shown_lines (option_map (λ s. s.now) sprite.entry) (records_in records.now) variables.now what.now) }
{
    match what {
        Shown::Variable(target, index) => {
            let value = variables.value(InstanceId(u64::from(target.0)), *index);
            let name = variable_name(records, *target, *index);
            push_value_line(out, sprite, name, &Told::Held(value))
        }
        Shown::List(target, index) => {
            let items = variables.items(InstanceId(u64::from(target.0)), *index);
            let name = list_name(records, *target, *index);
            push_list_lines(out, sprite, name, items.as_slice())
        }
    }
}
