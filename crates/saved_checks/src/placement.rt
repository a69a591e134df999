//! Instances against the targets that they are of.

ghost use Rattle.std.specs.Prelude.{◌≡◌, ◌==◌, ◌&&◌, ◌||◌, false, not, length, map, nat_le, nat_lt, slice_get, IfOk};
ghost use Rattle.std.specs.List.{list_all};
ghost use Rattle.std.specs.Option.{option_map_or};
ghost use Rattle.machine_spec.specs.Program.{record_at};
ghost use Rattle.project_spec.specs.Basis as basis;
ghost use Rattle.project_check.specs.Loaded.{basis_of};
ghost use Rattle.project_spec.specs.Basis.{records_of};
ghost use Rattle.saved_spec.specs.Rules as rules;
ghost use Rattle.saved_parts.specs.Telling.{instance_of};

use crate::given_numbers::is_original;
use crate::project_parts::{costumes, is_edge, is_sprite, is_stage, lists, targets, variables};
use crate::ranges::is_as_the_stage;
use crate::referents::instances_differ;
use project_check::Project;
use saved_parts::{ToldEdges, ToldInstance};
use std::alloc::{AllocError, Global};

// Whether the first instance is the stage.
pub(crate) fn stage_is_first(project: &Project, instances: &[ToldInstance]) -> bool
    ensures { result ≡ option_map_or (λ i. (record_at i.of (records_of (basis_of project.now))).is_stage) (slice_get instances.now 0) false }
{
    match instances.first() {
        Some(instance) => is_stage(project, instance.of),
        None => false,
    }
}

// Whether an instance is a clone of a sprite: its number is not that of a target, and below the next.
fn is_clone(project: &Project, next: u64, instance: &ToldInstance) -> bool
    ensures { result ≡ (rules.is_sprite (basis_of project.now) instance.now.of && nat_le (length (records_of (basis_of project.now)).targets) instance.now.number && nat_lt instance.now.number next) }
{
    let targets = u64::from(targets(project));
    is_sprite(project, instance.of) && targets <= instance.number && instance.number < next
}

// Whether an instance is the original of a target.
fn is_original_of_target(project: &Project, instance: &ToldInstance) -> bool
    ensures { result ≡ ((instance.now.number == instance.now.of) && nat_lt instance.now.of (length (records_of (basis_of project.now)).targets)) }
{
    is_original(instance) && instance.of < u64::from(targets(project))
}

// Whether an instance is the original of a target or a clone of a sprite.
fn is_instance(project: &Project, next: u64, instance: &ToldInstance) -> bool
    ensures { result ≡ (((instance.now.number == instance.now.of) && nat_lt instance.now.of (length (records_of (basis_of project.now)).targets))
        || (rules.is_sprite (basis_of project.now) instance.now.of && nat_le (length (records_of (basis_of project.now)).targets) instance.now.number && nat_lt instance.now.number next)) }
{
    is_original_of_target(project, instance) || is_clone(project, next, instance)
}

// The same of all instances.
fn are_instances(project: &Project, next: u64, instances: &[ToldInstance]) -> bool
    ensures { result ≡ list_all (λ i. ((i.number == i.of) && nat_lt i.of (length (records_of (basis_of project.now)).targets))
        || (rules.is_sprite (basis_of project.now) i.of && nat_le (length (records_of (basis_of project.now)).targets) i.number && nat_lt i.number next)) instances.now }
{
    instances
        .iter()
        .all(|instance| is_instance(project, next, instance))
}

// Whether every instance is an original or a clone of a sprite, with a number of its own.
pub(crate) fn have_numbers(
    alloc: Global,
    project: &Project,
    next: u64,
    instances: &[ToldInstance],
) -> Result<bool, AllocError>
    ensures { IfOk result (λ r. r ≡ (list_all (λ i. ((i.number == i.of) && nat_lt i.of (length (records_of (basis_of project.now)).targets))
        || (rules.is_sprite (basis_of project.now) i.of && nat_le (length (records_of (basis_of project.now)).targets) i.number && nat_lt i.number next)) instances.now
        && rules.differ (map (λ i. i.number) instances.now))) }
{
    let differ = instances_differ(alloc, instances)?;
    Ok(are_instances(project, next, instances) && differ)
}

// Whether every instance has one of its target's costumes.
pub(crate) fn have_costumes(project: &Project, instances: &[ToldInstance]) -> bool
    ensures { result ≡ list_all (λ i. nat_lt i.costume (length (record_at i.of (records_of (basis_of project.now))).costumes)) instances.now }
{
    instances.iter().all(|instance| instance.costume < costumes(project, instance.of) as u64)
}

// Whether an instance is not the stage, or stands as the stage does.
fn is_in_place(project: &Project, instance: &ToldInstance) -> bool
    ensures { result ≡ (not (record_at instance.now.of (records_of (basis_of project.now))).is_stage || rules.is_as_the_stage (instance_of instance.now)) }
{
    !is_stage(project, instance.of) || is_as_the_stage(instance)
}

// The same of all instances.
pub(crate) fn are_in_place(project: &Project, instances: &[ToldInstance]) -> bool
    ensures { result ≡ list_all (λ i. not (record_at i.of (records_of (basis_of project.now))).is_stage || rules.is_as_the_stage (instance_of i)) instances.now }
{
    instances
        .iter()
        .all(|instance| is_in_place(project, instance))
}

// Whether an instance has as many variables and lists as its target.
fn has_values(project: &Project, instance: &ToldInstance) -> bool
    ensures { result ≡ ((length instance.now.values == length (record_at instance.now.of (records_of (basis_of project.now))).variables)
        && (length instance.now.lists == length (record_at instance.now.of (records_of (basis_of project.now))).lists)) }
{
    instance.values.len() == variables(project, instance.of)
        && instance.lists.len() == lists(project, instance.of)
}

// The same of all instances.
pub(crate) fn have_values(project: &Project, instances: &[ToldInstance]) -> bool
    ensures { result ≡ list_all (λ i. (length i.values == length (record_at i.of (records_of (basis_of project.now))).variables)
        && (length i.lists == length (record_at i.of (records_of (basis_of project.now))).lists)) instances.now }
{
    instances
        .iter()
        .all(|instance| has_values(project, instance))
}

// Whether all these blocks are edge hats of a target.
fn are_edges(project: &Project, target: u64, edges: &ToldEdges) -> bool
    ensures { result ≡ list_all (λ e. basis.is_edge target e.0 (basis_of project.now)) edges.now }
{
    edges.iter().all(|edge| is_edge(project, target, edge.0))
}

// Whether what was recorded for every instance was recorded for edge hats of its target.
pub(crate) fn have_edges(project: &Project, instances: &[ToldInstance]) -> bool
    ensures { result ≡ list_all (λ i. list_all (λ e. basis.is_edge i.of e.0 (basis_of project.now)) i.edges) instances.now }
{
    instances.iter().all(|instance| are_edges(project, instance.of, &instance.edges))
}
