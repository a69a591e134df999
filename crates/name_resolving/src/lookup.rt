//! Finding a variable or a list by id and by name.

ghost use Rattle.std.specs.Prelude.{◌≡◌, List};
ghost use Rattle.scratch_values.specs.declared.names.VarName.{VarName as Name};
ghost use Rattle.project_spec.specs.Resolving.{found_in};
ghost use Rattle.name_resolving.specs.Finding.{found_by};

use crate::index::Index;
use scratch_values::{VarName, VarRef};

/// What has the id of a name, or else the name: the target's own before the stage's.
pub(crate) fn found(own: &Index, stage: &Index, wanted: &VarName) -> Option<VarRef>
    ensures { result ≡ found_by own.now stage.now wanted.now }
{
    if let Some(place) = own.id_place(wanted) {
        return Some(VarRef::Own(place));
    }
    if let Some(place) = stage.id_place(wanted) {
        return Some(VarRef::Stage(place));
    }
    if let Some(place) = own.name_place(wanted) {
        return Some(VarRef::Own(place));
    }
    match stage.name_place(wanted) {
        Some(place) => Some(VarRef::Stage(place)),
        None => None,
    }
}
