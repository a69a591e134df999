//! What monitors tell that show no variable and no list.

ghost use Rattle.std.specs.Prelude.{◌≡◌, ◌+◌, Some, pos, unwrap_or};
ghost use Rattle.std.specs.Option.{option_map};
ghost use Rattle.project_json.specs.View.{tree};
ghost use Rattle.machine_spec.specs.FrameText as machine;
ghost use Rattle.machine_spec.specs.Sensing as sensing;
ghost use Rattle.machine_spec.specs.Stores.{live, no_instance};
ghost use Rattle.target_records.specs.Records.{monitor_in, records_in};
ghost use Rattle.stage_frame.specs.Found.{told_of};
ghost use Rattle.stage_frame.specs.Seen.{seen_stage};
ghost use Rattle.stage_frame.specs.Told.{told_value};

use crate::frame::View;
use crate::told_values::Told;
use machine_spec::{Instance, InstanceId, TargetId};
use project_json::{Json, is_null, member, text_of};
use scratch_number::{of_whole, round};
use target_records::{MonitorRecord, Records};
use targets::{Targets, costume_of, target_of};

// Whether a monitor with this NUMBER_NAME shows the number of a costume.
fn is_number_name(json: &Json) -> bool
    ensures { result ≡ machine.is_number_name (Some (tree json.now)) }
{
    if is_null(json) {
        return true;
    }
    match text_of(json) {
        Some(text) => "number" == text.as_str(),
        None => false,
    }
}

// Whether a monitor shows the number of a costume, and not its name.
fn shows_number(monitor: &MonitorRecord) -> bool
    ensures { result ≡ machine.shows_number (monitor_in monitor.now) }
{
    match member(&monitor.params, "NUMBER_NAME") {
        Some(json) => is_number_name(json),
        None => true,
    }
}

// The number of the present costume, from 1, or its name.
fn number_or_name<'a>(
    by_number: bool,
    records: &'a Records,
    instance: Option<&Instance>,
) -> Told<'a>
    ensures { told_value result ≡ sensing.number_or_name by_number (records_in records.now) (unwrap_or (option_map (λ i. i.now) instance.entry) no_instance) }
{
    let costume = costume_of(instance);
    if by_number {
        return Told::Number(of_whole(i64::from(costume) + 1));
    }
    Told::Text(records.costume_name(target_of(instance), costume))
}

// The original of a target.
fn original(targets: &Targets, target: TargetId) -> Option<&Instance>
    ensures { option_map (λ i. i.now) result ≡ live target targets.now }
{
    targets.get(InstanceId(u64::from(target.0)))
}

// What a monitor tells that shows no variable and no list of a sprite; nothing where its opcode tells nothing.
fn common_value<'a>(
    records: &'a Records,
    view: &View<'a>,
    monitor: &MonitorRecord,
) -> Option<Told<'a>>
    ensures { option_map told_value result ≡ machine.common_value (records_in records.now) view.now.targets.now view.now.devices.now (monitor_in monitor.now) }
{
    match monitor.opcode.as_str() {
        "sensing_timer" => Some(Told::Number(view.devices.timer())),
        "sensing_answer" => Some(Told::Text(view.devices.last_answer().as_str())),
        "looks_backdropnumbername" => {
            let stage = original(view.targets, records.stage());
            Some(number_or_name(shows_number(monitor), records, stage))
        }
        _ => None,
    }
}

// What a monitor tells of a sprite; nothing where its opcode tells nothing.
fn sprite_value<'a>(
    records: &'a Records,
    view: &View<'a>,
    monitor: &MonitorRecord,
    sprite: &'a Instance,
) -> Option<Told<'a>>
    ensures { option_map told_value result ≡ machine.sprite_value (records_in records.now) view.now.targets.now view.now.devices.now (monitor_in monitor.now) sprite.now }
{
    match monitor.opcode.as_str() {
        "motion_xposition" => Some(Told::Number(sprite.x)),
        "motion_yposition" => Some(Told::Number(sprite.y)),
        "motion_direction" => Some(Told::Number(sprite.direction)),
        "looks_size" => Some(Told::Number(round(sprite.size))),
        "looks_costumenumbername" => Some(number_or_name(
            shows_number(monitor),
            records,
            Some(sprite),
        )),
        _ => common_value(records, view, monitor),
    }
}

// What a monitor of a target tells that shows no variable and no list; where that target is no longer live, nothing of a
// sprite.
pub(crate) fn told_of<'a>(
    records: &'a Records,
    view: &View<'a>,
    monitor: &MonitorRecord,
    target: TargetId,
) -> Option<Told<'a>>
    ensures { option_map told_value result ≡ told_of (monitor_in monitor.now).sprite target (records_in records.now) (seen_stage view.now) (monitor_in monitor.now) }
{
    match &monitor.sprite {
        Some(_) => match original(view.targets, target) {
            Some(sprite) => sprite_value(records, view, monitor, sprite),
            None => None,
        },
        None => common_value(records, view, monitor),
    }
}
