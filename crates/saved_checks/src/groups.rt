//! The rules in groups, each tested whole.

ghost use Rattle.std.specs.Prelude.{◌≡◌, map, true, IfOk};
ghost use Rattle.std.specs.Option.{option_copied};
ghost use Rattle.saved_parts.specs.Telling.{told_of};
ghost use Rattle.project_check.specs.Loaded.{basis_of};
ghost use Rattle.saved_spec.specs.Rules.{differ};
ghost use Rattle.saved_checks.specs.Groups as group;
ghost use Rattle.saved_checks.specs.Groups.{broken_in};

use crate::device_rules::{are_held, are_next, is_in_time, is_on_stage, was_reset};
use crate::given_numbers::{are_few, have_few_levels, is_next, timers_were_updated, were_updated};
use crate::lengths::{ask_briefly, have_little_to_say, have_short_lists, is_value_text};
use crate::levels::{have_given, have_short_params};
use crate::live_targets::LiveTargets;
use crate::monitors::are_shown;
use crate::originals::are_there;
use crate::placement::{
    are_in_place, have_costumes, have_edges, have_numbers, have_values, stage_is_first,
};
use crate::project_parts::{monitors, targets};
use crate::ranges::{are_directed, are_due, are_sized, have_effects};
use crate::referents::{are_questions, are_timers};
use crate::rule_order::first_broken;
use crate::thread_places::{have_blocks, have_hats};
use project_check::Project;
use saved_parts::ToldRun;
use std::alloc::{AllocError, Global};

// The rules on the clock, the devices, the counters and the monitors.
pub(crate) fn of_devices(
    alloc: Global,
    project: &Project,
    run: &ToldRun,
) -> Result<Option<&'static str>, AllocError>
    ensures { IfOk result (λ r. option_copied r ≡ broken_in (group.of_devices (basis_of project.now) (told_of run.now))) }
{
    let keys = are_held(alloc, run.keys.as_slice())?;
    let rules = [
        ("clock", is_in_time(run)),
        ("timer", was_reset(run)),
        ("mouse", is_on_stage(&run.mouse)),
        ("keys", keys),
        ("drawn", is_next(run.drawn)),
        ("frame", is_next(run.frame)),
        ("next", are_next(project, &run.next)),
        ("made", are_shown(project, run.made.as_slice())),
        ("monitors", run.monitors.len() == monitors(project)),
    ];
    Ok(first_broken(&rules))
}

// The rules on which instances there are.
pub(crate) fn of_instances(
    alloc: Global,
    project: &Project,
    run: &ToldRun,
) -> Result<Option<&'static str>, AllocError>
    ensures { IfOk result (λ r. option_copied r ≡ broken_in (group.of_instances (basis_of project.now) (told_of run.now))) }
{
    let instances = run.instances.as_slice();
    let originals = are_there(alloc, targets(project) as usize, instances)?;
    let numbers = have_numbers(alloc, project, run.next.instance, instances)?;
    let rules = [
        ("instances", stage_is_first(project, instances)),
        ("instances", originals),
        ("instances", numbers),
        ("instances", are_few(instances)),
    ];
    Ok(first_broken(&rules))
}

// The rules on how instances stand and what they have, where no two have one number.
pub(crate) fn of_standing(project: &Project, run: &ToldRun) -> Option<&'static str>
    requires { differ (map (λ i. i.number) run.now.instances) ≡ true }
    ensures { option_copied result ≡ broken_in (group.of_standing (basis_of project.now) (told_of run.now)) }
{
    let instances = run.instances.as_slice();
    let rules = [
        ("instances", have_costumes(project, instances)),
        ("instances", are_sized(instances)),
        ("instances", are_directed(instances)),
        ("instances", have_effects(instances)),
        ("instances", are_in_place(project, instances)),
        ("instances", have_values(project, instances)),
        ("instances", have_short_lists(instances)),
    ];
    first_broken(&rules)
}

// The rules on texts, usages and edge hats.
pub(crate) fn of_texts(project: &Project, run: &ToldRun) -> Option<&'static str>
    ensures { option_copied result ≡ broken_in (group.of_texts (basis_of project.now) (told_of run.now)) }
{
    let instances = run.instances.as_slice();
    let rules = [
        ("answer", is_value_text(&run.answer)),
        ("instances", have_little_to_say(instances)),
        ("questions", ask_briefly(run.questions.as_slice())),
        ("threads", have_short_params(run.threads.as_slice())),
        ("instances", were_updated(instances, run.next.usage)),
        (
            "timers",
            timers_were_updated(run.timers.as_slice(), run.next.usage),
        ),
        ("instances", have_edges(project, instances)),
    ];
    first_broken(&rules)
}

// The rules on questions, timers and threads.
pub(crate) fn of_threads(
    alloc: Global,
    project: &Project,
    run: &ToldRun,
) -> Result<Option<&'static str>, AllocError>
    ensures { IfOk result (λ r. option_copied r ≡ broken_in (group.of_threads (basis_of project.now) (told_of run.now))) }
{
    let next = run.next.thread;
    let threads = run.threads.as_slice();
    let live = LiveTargets::of(alloc, run.instances.as_slice())?;
    let questions = are_questions(alloc, &live, next, run.questions.as_slice())?;
    let timers = are_timers(alloc, &live, next, run.timers.as_slice())?;
    let hats = have_hats(alloc, project, &live, next, threads)?;
    let rules = [
        ("questions", questions),
        ("timers", timers),
        ("timers", are_due(run.timers.as_slice())),
        ("threads", hats),
        ("threads", have_blocks(project, &live, threads)),
        ("threads", have_given(threads, next)),
        ("threads", have_few_levels(threads)),
    ];
    Ok(first_broken(&rules))
}
