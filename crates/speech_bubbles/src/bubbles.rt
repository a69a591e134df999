//! Updates of bubbles.

ghost use Rattle.std.specs.Prelude.{◌≡◌, OnOk, OnErr, IfErr};
ghost use Rattle.machine_spec.specs.Outcome.{Goes, StopIs};
ghost use Rattle.machine_spec.specs.Parts.{bubble_updated};
ghost use Rattle.machine_spec.specs.Stopping.{bubble_emptied};
ghost use Rattle.machine_spec.specs.Stores.{instance_at};
ghost use Rattle.targets.specs.Live.{IsSameCast};
ghost use Rattle.speech_bubbles.specs.Scenes.{scene_in};
ghost use Rattle.speech_bubbles.specs.Stops.{IsOfBubbles};

use devices::Devices;
use machine_spec::{BubbleText, InstanceId, Say};
use script_words::{CounterKind, Stop};
use std::alloc::Global;
use targets::Targets;

/// Updates the bubble of an instance, and gives it the next number of an update; one that is not live has no bubble, and
/// nothing changes (scratch-vm, blocks/scratch3_looks.js, `_updateBubble`). The only stop is `Counter` of bubbles, exactly
/// where the instance is live and 2^62 − 2 updates were made, and then nothing changes. It takes no memory.
pub fn update_bubble(
    targets: &mut Targets,
    devices: &mut Devices,
    of: InstanceId,
    kind: Say,
    text: BubbleText,
) -> Result<(), Stop>
    ensures ok { OnOk result (bubble_updated of kind text (scene_in targets.old devices.old) ≡ Goes (scene_in targets.new devices.new)) }
    ensures stop { StopIs result (bubble_updated of kind text (scene_in targets.old devices.old)) }
    ensures kind { IfErr result IsOfBubbles }
    ensures err { OnErr result (scene_in targets.new devices.new ≡ scene_in targets.old devices.old) }
    ensures cast { IsSameCast targets.old targets.new }
{
    if !targets.is_live(of) {
        return Ok(());
    }
    match devices.next_usage() {
        Ok(usage) => {
            targets.set_bubble(of, kind, text, usage);
            Ok(())
        }
        Err(_) => Err(Stop::Counter {
            which: CounterKind::Bubble,
        }),
    }
}

// The kind of the bubble of an instance; that of one that is not live is `Say`.
fn kind(targets: &Targets, of: InstanceId) -> Say
    ensures { result ≡ (instance_at of targets.now).bubble.kind }
{
    match targets.get(of) {
        Some(instance) => instance.bubble.kind,
        None => Say::Say,
    }
}

/// Updates the bubble of an instance to the empty text of its kind. The only stop is `Counter` of bubbles, as for any
/// update, and then nothing changes.
pub fn empty_bubble(
    alloc: Global,
    targets: &mut Targets,
    devices: &mut Devices,
    of: InstanceId,
) -> Result<(), Stop>
    ensures ok { OnOk result (bubble_emptied of (scene_in targets.old devices.old) ≡ Goes (scene_in targets.new devices.new)) }
    ensures stop { StopIs result (bubble_emptied of (scene_in targets.old devices.old)) }
    ensures kind { IfErr result IsOfBubbles }
    ensures err { OnErr result (scene_in targets.new devices.new ≡ scene_in targets.old devices.old) }
    ensures cast { IsSameCast targets.old targets.new }
{
    let kind = kind(targets, of);
    update_bubble(targets, devices, of, kind, BubbleText::new(alloc))
}
