//! The lines of monitors: those of the file, and those that blocks added.

ghost use Rattle.std.specs.Prelude.{◌≡◌, ◌++◌, false, flat_map, slice_get, unwrap_or, OnOk};
ghost use Rattle.std.specs.List.{zip};
ghost use Rattle.std.specs.Option.{option_map};
ghost use Rattle.machine_spec.specs.FrameText as machine;
ghost use Rattle.target_records.specs.Records.{monitor_in, records_in};
ghost use Rattle.stage_frame.specs.Found.{are_found, found_lines, target_line};
ghost use Rattle.stage_frame.specs.Seen.{seen_stage};

use crate::frame::View;
use crate::labels::push_value_line;
use crate::names::sprite_name;
use crate::shown_values::push_shown;
use crate::values::told_of;
use crate::watches::{Watch, watch_at};
use machine_spec::{Made, Shown, TargetId};
use std::alloc::AllocError;
use target_records::{MonitorRecord, Records};
use variables::Variables;

// The name of the sprite of a monitor.
fn sprite_of(monitor: &MonitorRecord) -> Option<&str>
    ensures { option_map (λ s. s.now) result ≡ (monitor_in monitor.now).sprite }
{
    match &monitor.sprite {
        Some(name) => Some(name.as_str()),
        None => None,
    }
}

// Appends the line of a monitor of a target that shows no variable and no list, where it tells something.
fn push_target_line(
    out: &mut Vec<u8>,
    records: &Records,
    view: &View<'_>,
    monitor: &MonitorRecord,
    target: TargetId,
) -> Result<(), AllocError>
    ensures { OnOk result (out.new.items ≡ out.old.items ++ target_line (monitor_in monitor.now).sprite target (records_in records.now) (seen_stage view.now) (monitor_in monitor.now)) }
{
    match told_of(records, view, monitor, target) {
        Some(told) => push_value_line(out, sprite_of(monitor), monitor.opcode.as_str(), &told),
        None => Ok(()),
    }
}

// Appends the lines of a monitor of the file, where it is visible, by what it shows.
fn push_if_visible(
    out: &mut Vec<u8>,
    records: &Records,
    view: &View<'_>,
    monitor: &MonitorRecord,
    watch: Watch,
    visible: bool,
) -> Result<(), AllocError>
    ensures { OnOk result (out.new.items ≡ out.old.items ++ found_lines watch (records_in records.now) (seen_stage view.now) (monitor_in monitor.now, visible)) }
{
    if !visible {
        return Ok(());
    }
    let variables = view.variables;
    match watch {
        Watch::Variable(target, index) => {
            let what = Shown::Variable(target, index);
            push_shown(out, records, variables, sprite_of(monitor), &what)
        }
        Watch::List(target, index) => {
            let what = Shown::List(target, index);
            push_shown(out, records, variables, sprite_of(monitor), &what)
        }
        Watch::Target(target) => push_target_line(out, records, view, monitor, target),
        Watch::Nothing => Ok(()),
    }
}

// Whether the monitor at a place is visible.
fn is_visible(shown: &[bool], place: usize) -> bool
    ensures { result ≡ unwrap_or (slice_get shown.now place) false }
{
    match shown.get(place) {
        Some(visible) => *visible,
        None => false,
    }
}

// Appends the lines of the monitors of the file that are visible, in its order, by what each shows.
pub(crate) fn push_file_monitors(
    out: &mut Vec<u8>,
    records: &Records,
    view: &View<'_>,
    watches: &[Watch],
) -> Result<(), AllocError>
    requires { watches.now ≡ are_found (records_in records.now) }
    ensures { OnOk result (out.new.items ≡ out.old.items ++ flat_map (machine.monitor_lines (records_in records.now) (seen_stage view.now)) (zip (records_in records.now).monitors view.now.variables.now.file_monitors)) }
{
    let monitors = records.monitors().as_slice();
    let shown = view.variables.file_monitors().as_slice();
    for (place, monitor) in monitors.iter().enumerate() {
        let watch = watch_at(watches, place);
        let visible = is_visible(shown, place);
        push_if_visible(out, records, view, monitor, watch, visible)?;
    }
    Ok(())
}

// The target of what is shown.
fn shown_target(what: &Shown) -> TargetId
    ensures { result ≡ machine.target_of what.now }
{
    match what {
        Shown::Variable(target, _) => *target,
        Shown::List(target, _) => *target,
    }
}

// Appends the lines of a monitor that a block added, where it is visible.
fn push_made(
    out: &mut Vec<u8>,
    records: &Records,
    variables: &Variables,
    made: &Made,
) -> Result<(), AllocError>
    ensures { OnOk result (out.new.items ≡ out.old.items ++ machine.made_lines (records_in records.now) variables.now made.now) }
{
    if !made.visible {
        return Ok(());
    }
    let sprite = sprite_name(records, shown_target(&made.what));
    push_shown(out, records, variables, sprite, &made.what)
}

// Appends the lines of the monitors that blocks added, in the order of adding.
pub(crate) fn push_all_made(
    out: &mut Vec<u8>,
    records: &Records,
    variables: &Variables,
) -> Result<(), AllocError>
    ensures { OnOk result (out.new.items ≡ out.old.items ++ flat_map (machine.made_lines (records_in records.now) variables.now) variables.now.made) }
{
    let made = variables.made().as_slice();
    for own in made {
        push_made(out, records, variables, own)?;
    }
    Ok(())
}
