//! Where the variables or the lists of a target stand, by id and by name.

ghost use Rattle.std.specs.Prelude.{◌≡◌, ◌<◌, ◌^◌, List, [], ◌∷◌, ◌++◌, length, map, OnOk, IfOk};
ghost use Rattle.scratch_values.specs.declared.names.VarName.{VarName as Name};
ghost use Rattle.name_resolving.specs.Index.{IsIndex, NotesId, id_place, name_place};

use crate::first_places::FirstPlaces;
use machine_spec::{ListRecord, VariableRecord};
use scratch_values::VarName;
use std::alloc::{AllocError, Global};

// Notes the id of a name, where it has one.
fn note_id(
    ids: &mut FirstPlaces,
    alloc: Global,
    name: &VarName,
    place: u32,
) -> Result<(), AllocError>
    ensures { OnOk result (NotesId ids.old ids.new name.now.id place) }
{
    match &name.id {
        Some(id) => ids.note(alloc, id.as_str(), place),
        None => Ok(()),
    }
}

/// The first place of each id and of each name, among the names that were added.
#[derive(Debug, Drop)]
pub(crate) struct Index {
    pub(crate) ids: FirstPlaces,
    pub(crate) names: FirstPlaces,
}

impl Index {
    /// No names. It takes no memory.
    pub(crate) fn new(alloc: Global) -> Index
        ensures { IsIndex result [] }
    {
        Index {
            ids: FirstPlaces::new(alloc),
            names: FirstPlaces::new(alloc),
        }
    }

    /// The first place with the id of a name. `None` where the name has no id, too.
    pub(crate) fn id_place(&self, wanted: &VarName) -> Option<u32>
        ensures { result ≡ id_place self.now wanted.now }
    {
        match &wanted.id {
            Some(id) => self.ids.get(id.as_str()),
            None => None,
        }
    }

    /// The first place with the name.
    pub(crate) fn name_place(&self, wanted: &VarName) -> Option<u32>
        ensures { result ≡ name_place self.now wanted.now }
    {
        self.names.get(wanted.name.as_str())
    }

    /// Adds a name at the end. After want of memory it is only dropped.
    pub(crate) fn add(
        &mut self,
        alloc: Global,
        name: &VarName,
        place: u32,
    ) -> Result<(), AllocError>
        ensures { OnOk result ((names : List Name) → IsIndex self.old names → place ≡ length names
            → IsIndex self.new (names ++ name.now ∷ [])) }
    {
        note_id(&mut self.ids, alloc, name, place)?;
        self.names.note(alloc, name.name.as_str(), place)
    }

    /// The names of variables.
    pub(crate) fn of_variables(
        alloc: Global,
        variables: &[VariableRecord],
    ) -> Result<Index, AllocError>
        requires { length variables.now < 2 ^ 32 }
        ensures { IfOk result (λ index. IsIndex index (map (λ v. v.name) variables.now)) }
    {
        let mut index = Index::new(alloc);
        for i in 0..variables.len() {
            index.add(alloc, &variables[i].name, i as u32)?;
        }
        Ok(index)
    }

    /// The names of lists.
    pub(crate) fn of_lists(alloc: Global, lists: &[ListRecord]) -> Result<Index, AllocError>
        requires { length lists.now < 2 ^ 32 }
        ensures { IfOk result (λ index. IsIndex index (map (λ l. l.name) lists.now)) }
    {
        let mut index = Index::new(alloc);
        for i in 0..lists.len() {
            index.add(alloc, &lists[i].name, i as u32)?;
        }
        Ok(index)
    }
}
