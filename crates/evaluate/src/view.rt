//! What an evaluation reads.

ghost use Rattle.std.specs.Prelude.{◌≡◌, [], option_map};
ghost use Rattle.reporters.specs.Sight as reporters;
ghost use Rattle.evaluate.specs.Seen.{params_of, seen};

use devices::Devices;
use machine_spec::{InstanceId, TargetId};
use project_check::Project;
use reporters::Sight;
use scratch_values::Params;
use targets::Targets;
use thread_frames::Levels;
use variables::Variables;

/// What an evaluation reads: the project, which outlives it, the stores of the run, the instance that evaluates with the
/// target whose block it is, and the levels of its thread, if it has some: the parameters of the procedure that it runs are
/// looked for there when they are read. Contracts see it as the view of the reference machine.
#[derive(Drop)]
pub struct View<'p, 'a> {
    pub project: &'p Project,
    pub targets: &'a Targets,
    pub variables: &'a Variables,
    pub devices: &'a Devices,
    pub here: InstanceId,
    pub target: TargetId,
    pub levels: Option<Levels<'a>>,
}

// The parameters of the procedure that runs, if one does.
fn params<'v>(view: &'v View<'_, '_>) -> Option<&'v Params>
    ensures { option_map (λ p. p.now) result ≡ params_of view.now.levels }
{
    match &view.levels {
        Some(levels) => levels.params(),
        None => None,
    }
}

// What reporters read of it, but for the parameters.
#[inline(always)]
pub(crate) fn stores<'v>(view: &'v View<'_, '_>) -> Sight<'v>
    ensures { reporters.seen result ≡ record (seen view.now) { params = [] } }
{
    Sight {
        records: view.project.records(),
        targets: view.targets,
        variables: view.variables,
        devices: view.devices,
        here: view.here,
        params: None,
    }
}

// What reporters read of it.
#[inline(always)]
pub(crate) fn sight<'v>(view: &'v View<'_, '_>) -> Sight<'v>
    ensures { reporters.seen result ≡ seen view.now }
{
    Sight {
        params: params(view),
        ..stores(view)
    }
}
