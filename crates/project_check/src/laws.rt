//! Laws of projects, each the contract of a function that does nothing.

ghost use Rattle.project_check.specs.Links.{EachIsLinked};
ghost use Rattle.project_check.specs.Loaded.{EachIsLoaded};

/// Every project is that of a project file that is accepted: of some bytes `load` would answer it.
pub fn every_project_is_of_an_accepted_file()
    ensures { EachIsLoaded }
{}

/// In every target of a project each link that names a block leads to one of the target's, and a rank falls along each link.
pub fn every_project_is_linked()
    ensures { EachIsLinked }
{}
