//! Records of what the file has, where nothing of it is too long.

ghost use Rattle.std.specs.Prelude.{◌≡◌, ◌<◌, ◌^◌, ◌≤◌, map, length, flat_map, IfOk, IsFalse, codes, ◌∷◌, []};
ghost use Rattle.std.specs.List.{All, enumerate_from};
ghost use Rattle.project_spec.specs.FileValues.{value_in};
ghost use Rattle.scratch_values.specs.Longest.{longest};
ghost use Rattle.project_spec.specs.Limits as limits;
ghost use Rattle.json_shapes.specs.Places.{path};
ghost use Rattle.target_records.specs.Bounds.{Bounds, lengths_in};
ghost use Rattle.target_records.specs.Held.{HasShortLists, IsShort, IsSmall};

use crate::file_targets::{
    FileList, FileLists, FileTarget, FileTargets, FileVariable, FileVariables,
};
use crate::held_targets::HeldTargets;
use crate::refusal::RecordRefusal;
use json_shapes::Place;
use lists::ListOf;
use machine_spec::{
    CostumeNames, ListRecord, ListRecords, MOST_ITEMS, TargetRecord, VariableRecord,
    VariableRecords,
};
use project_json::{Text, Texts};
use project_spec::FileValue;
use scratch_values::{BoundText, LONGEST, Value, Values, VarName};
use std::alloc::Global;

// A value at its place.
fn bounded_value(alloc: Global, place: &Place, value: &FileValue) -> Result<Value, RecordRefusal>
    ensures { Bounds (λ v. v) result (value_in value.now) (limits.value_measures place.now (value_in value.now)) }
{
    let bounded = value.bounded(alloc)?;
    match bounded {
        Some(value) => Ok(value),
        None => Err(RecordRefusal::too_many(alloc, place)),
    }
}

// A variable of the target whose variables stand at the place.
fn bounded_variable(
    alloc: Global,
    place: &Place,
    variable: FileVariable,
) -> Result<VariableRecord, RecordRefusal>
    ensures { Bounds (λ v. v) result variable (limits.variable_measures place.now (limits.id_or_none variable.name.id, variable)) }
{
    let FileVariable { id, name, value } = variable;
    let value = bounded_value(alloc, &place.member(id.as_str()).item(1), &value)?;
    let name = VarName { name, id: Some(id) };
    Ok(VariableRecord { name, value })
}

fn bounded_variables(
    alloc: Global,
    place: &Place,
    variables: FileVariables,
) -> Result<VariableRecords, RecordRefusal>
    ensures { Bounds (λ vs. vs) result variables (flat_map (λ v. limits.variable_measures place.now (limits.id_or_none v.name.id, v)) variables) }
{
    let mut bounded = ListOf::new(alloc);
    for variable in variables.into_vec() {
        let variable = bounded_variable(alloc, place, variable)?;
        bounded.push(variable)?;
    }
    Ok(bounded)
}

// The items of the list that stands at the place.
fn bounded_items(alloc: Global, place: &Place, items: &[FileValue]) -> Result<Values, RecordRefusal>
    ensures { Bounds (λ vs. vs) result (map value_in items.now) (flat_map (limits.item_measures place.now) (enumerate_from 0 (map value_in items.now))) }
{
    let mut bounded = ListOf::new(alloc);
    for (i, item) in items.iter().enumerate() {
        let item = bounded_value(alloc, &place.item(i), item)?;
        bounded.push(item)?;
    }
    Ok(bounded)
}

// A list of the target whose lists stand at the place.
fn bounded_list(alloc: Global, place: &Place, list: FileList) -> Result<ListRecord, RecordRefusal>
    ensures bounds { Bounds (λ l. l) result list (limits.list_measures place.now (limits.id_or_none list.name.id, list)) }
    ensures short { IfOk result IsShort }
{
    let FileList { id, name, items } = list;
    let list = place.member(id.as_str());
    let place = list.item(1);
    if items.len() > MOST_ITEMS {
        return Err(RecordRefusal::too_many(alloc, &place));
    }
    let items = bounded_items(alloc, &place, items.as_slice())?;
    let name = VarName { name, id: Some(id) };
    Ok(ListRecord { name, items })
}

fn bounded_lists(
    alloc: Global,
    place: &Place,
    lists: FileLists,
) -> Result<ListRecords, RecordRefusal>
    ensures bounds { Bounds (λ ls. ls) result lists (flat_map (λ l. limits.list_measures place.now (limits.id_or_none l.name.id, l)) lists) }
    ensures short { IfOk result (All IsShort) }
{
    let mut bounded = ListOf::new(alloc);
    for list in lists.into_vec() {
        let list = bounded_list(alloc, place, list)?;
        bounded.push(list)?;
    }
    Ok(bounded)
}

// The name of a costume that stands at the place.
fn bounded_costume(alloc: Global, place: &Place, name: Text) -> Result<BoundText, RecordRefusal>
    ensures { Bounds (λ n. n) result name (limits.measure (codes "name" ∷ place.now) (length name) longest ∷ []) }
{
    if name.as_str().len() > LONGEST {
        return Err(RecordRefusal::too_many(alloc, &place.member("name")));
    }
    let bounded = BoundText::from_short(alloc, name)?;
    Ok(bounded)
}

// The names of the costumes that stand at the place.
fn bounded_costumes(
    alloc: Global,
    place: &Place,
    costumes: Texts,
) -> Result<CostumeNames, RecordRefusal>
    ensures { Bounds (λ ns. ns) result costumes (flat_map (limits.costume_measures place.now) (enumerate_from 0 costumes)) }
{
    let mut bounded = ListOf::new(alloc);
    for name in costumes.into_vec() {
        let name = bounded_costume(alloc, &place.item(bounded.len()), name)?;
        bounded.push(name)?;
    }
    Ok(bounded)
}

// The target that stands at the place.
fn bounded_target(
    alloc: Global,
    place: &Place,
    target: FileTarget,
) -> Result<TargetRecord, RecordRefusal>
    ensures bounds { Bounds (λ t. t) result target (limits.target_measures place.now target) }
    ensures small { IfOk result IsSmall }
    ensures short { IfOk result HasShortLists }
{
    let FileTarget {
        is_stage,
        name,
        variables,
        lists,
        costumes,
        costume,
        layer_order,
        volume,
        visible,
        x,
        y,
        size,
        direction,
        style,
    } = target;
    let variables = bounded_variables(alloc, &place.member("variables"), variables)?;
    let lists = bounded_lists(alloc, &place.member("lists"), lists)?;
    let costumes = bounded_costumes(alloc, &place.member("costumes"), costumes)?;
    Ok(TargetRecord {
        is_stage,
        name,
        variables,
        lists,
        costumes,
        costume,
        layer_order,
        volume,
        visible,
        x,
        y,
        size,
        direction,
        style,
    })
}

// The targets of a file.
pub(crate) fn bounded_targets(
    alloc: Global,
    targets: FileTargets,
) -> Result<HeldTargets, RecordRefusal>
    ensures { Bounds (λ ts. ts) result targets (lengths_in targets) }
{
    let root = Place::root();
    let place = root.member("targets");
    let mut bounded = Vec::new(alloc);
    for target in targets.into_vec() {
        let target = bounded_target(alloc, &place.item(bounded.len()), target)?;
        bounded.push(target)?;
    }
    Ok(HeldTargets::new(bounded))
}
