//! Where the variables and the lists of a target stand.

ghost use Rattle.std.specs.Prelude.{◌≡◌, length, OnOk, IfOk};
ghost use Rattle.machine_spec.specs.declared.records.TargetRecord.{TargetRecord as Target};
ghost use Rattle.project_spec.specs.Resolving.{names_of, with_added};
ghost use Rattle.target_records.specs.Held.{IsSmall};
ghost use Rattle.name_resolving.specs.Directory.{Adds, IsDirectory, index_of, sort_in};

use crate::index::Index;
use crate::sort::Sort;
use machine_spec::TargetRecord;
use scratch_values::VarName;
use std::alloc::{AllocError, Global};

/// The index of the variables of a target, and that of its lists.
#[derive(Debug, Drop)]
pub(crate) struct Directory {
    pub(crate) variables: Index,
    pub(crate) lists: Index,
}

impl Directory {
    /// The directory of a target.
    pub(crate) fn of(alloc: Global, target: &TargetRecord) -> Result<Directory, AllocError>
        requires { IsSmall target.now }
        ensures { IfOk result (λ directory. IsDirectory directory target.now) }
    {
        Ok(Directory {
            variables: Index::of_variables(alloc, target.variables.as_slice())?,
            lists: Index::of_lists(alloc, target.lists.as_slice())?,
        })
    }

    /// The index of the variables, or of the lists.
    pub(crate) fn index(&self, sort: Sort) -> &Index
        ensures { result.now ≡ index_of (sort_in sort) self.now }
    {
        match sort {
            Sort::Variable => &self.variables,
            Sort::List => &self.lists,
        }
    }

    /// Adds a name at the end. After want of memory the directory is only dropped.
    pub(crate) fn add(
        &mut self,
        alloc: Global,
        sort: Sort,
        name: &VarName,
        number: u32,
    ) -> Result<(), AllocError>
        ensures { OnOk result (Adds self.old self.new (sort_in sort) name.now number) }
    {
        match sort {
            Sort::Variable => self.variables.add(alloc, name, number),
            Sort::List => self.lists.add(alloc, name, number),
        }
    }
}
