//! The stores of a run.

ghost use Rattle.std.specs.Prelude.{◌≡◌, true, map, IfOk};
ghost use Rattle.std.specs.List.{list_all};
ghost use Rattle.saved_parts.specs.Telling.{made_of};
ghost use Rattle.project_check.specs.Loaded.{basis_of};
ghost use Rattle.saved_spec.specs.RunShapes.{stores_in_order};
ghost use Rattle.variables.specs.Parts.{AreStores};
ghost use Rattle.saved_stores.specs.Held.{AreDevices, AreHeld, is_of};
ghost use Rattle.saved_stores.specs.Stores.{targets_in, variables_in, devices_in, devices_of, KeepRules};

use crate::instances::{Standings, instances_told};
use crate::keys::held;
use crate::order::in_order;
use crate::questions::asked;
use crate::shown_monitors::made;
use crate::told_parts::{ToldDevices, ToldStores};
use devices::{DeviceParts, Devices};
use machine_spec::{Store, Stores};
use project_check::Project;
use saved_parts::{ToldMadeList, ToldTruths};
use scratch_values::BoundText;
use std::alloc::{AllocError, Global};
use targets::Targets;
use variables::{VariableParts, Variables};

/// The stores of a run: its instances, its variables, lists and monitors, and its devices.
#[derive(Drop)]
pub struct RunStores {
    pub targets: Targets,
    pub variables: Variables,
    pub devices: Devices,
}

// The devices that are told. The only error is want of memory.
fn devices_again(alloc: Global, told: ToldDevices) -> Result<Devices, AllocError>
    requires { AreDevices told }
    ensures { IfOk result (λ devices. devices ≡ devices_of told) }
{
    let keys = held(alloc, &told.keys)?;
    let answer = BoundText::from_short(alloc, told.answer)?;
    let questions = asked(alloc, told.questions)?;
    let parts = DeviceParts {
        answer,
        clock: told.clock,
        timer: told.timer,
        keys,
        mouse_x: told.mouse.x as i32,
        mouse_y: told.mouse.y as i32,
        button: told.mouse.down,
        questions,
        timers: told.timers,
        turbo: told.turbo,
        usage: told.usage,
    };
    Ok(Devices::rebuild(alloc, parts))
}

// The variables and lists of these stores, in order, and the monitors. The only error is want of memory.
fn variables_again(
    alloc: Global,
    project: &Project,
    stores: Vec<Store>,
    file_monitors: ToldTruths,
    told: &ToldMadeList,
) -> Result<Variables, AllocError>
    requires stores { AreStores (stores_in_order stores.items) }
    requires made { list_all (is_of (basis_of project.now)) told.now ≡ true }
    ensures { IfOk result (λ variables. variables ≡ record { stores = stores_in_order stores.items; file_monitors = file_monitors; made = map made_of told.now }) }
{
    let stores = Stores::from_vec(in_order(stores)?);
    let made = made(alloc, project, told)?;
    let parts = VariableParts {
        stores,
        file_monitors,
        made,
    };
    Ok(Variables::rebuild(alloc, parts))
}

// The stores of parts that are held.
pub(crate) fn stores_again(
    alloc: Global,
    project: &Project,
    told: ToldStores,
) -> Result<RunStores, AllocError>
    requires { AreHeld (basis_of project.now) told }
    ensures targets { IfOk result (λ stores. stores.targets ≡ targets_in told) }
    ensures variables { IfOk result (λ stores. stores.variables ≡ variables_in told) }
    ensures devices { IfOk result (λ stores. stores.devices ≡ devices_in told) }
{
    let ToldStores {
        instances,
        monitors,
        made,
        devices,
    } = told;
    let Standings { instances, stores } = instances_told(alloc, instances)?;
    let targets = Targets::rebuild(alloc, instances)?;
    let variables = variables_again(alloc, project, stores, monitors, &made)?;
    let devices = devices_again(alloc, devices)?;
    Ok(RunStores {
        targets,
        variables,
        devices,
    })
}

/// The stores that are told, by parts of a run of the project that breaks no rule of saved runs. The only error is want of
/// memory.
pub fn stores_of(
    alloc: Global,
    project: &Project,
    told: ToldStores,
) -> Result<RunStores, AllocError>
    requires { KeepRules (basis_of project.now) told }
    ensures targets { IfOk result (λ stores. stores.targets ≡ targets_in told) }
    ensures variables { IfOk result (λ stores. stores.variables ≡ variables_in told) }
    ensures devices { IfOk result (λ stores. stores.devices ≡ devices_in told) }
{
    // There are fewer than 2^32 targets, costumes of a target and blocks.
    let _records = project.records();
    let _targets = project.target_count();
    let _blocks = project.block_count();
    stores_again(alloc, project, told)
}
