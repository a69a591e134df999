//! Targets as the file has them: the texts of their values and the names of their costumes may be of any length.

ghost use Rattle.std.specs.Prelude.{◌≡◌, ◌<◌, ◌≤◌, ◌^◌, length};
ghost use Rattle.std.specs.List.{count_by};

use lists::ListOf;
use machine_spec::Style;
use project_json::{Text, Texts};
use project_spec::FileValue;
use scratch_number::Num;
use std::marker::Model;

// A variable of the file. Contracts see its record.
#[derive(Debug, Drop)]
pub(crate) struct FileVariable {
    pub(crate) id: Text,
    pub(crate) name: Text,
    pub(crate) value: FileValue,
}

impl Model for FileVariable {
    ghost use Rattle.std.specs.Prelude.{Some};
    ghost use Rattle.project_spec.specs.FileValues.{value_in};
    ghost use Rattle.machine_spec.specs.declared.records.VariableRecord.{VariableRecord};

    ghost Value = { VariableRecord };

    ghost view = { λ v. record { name = record { name = v.name; id = Some v.id }; value = value_in v.value } };
}

// A list of the file. Contracts see its record.
#[derive(Debug, Drop)]
pub(crate) struct FileList {
    pub(crate) id: Text,
    pub(crate) name: Text,
    pub(crate) items: ListOf<FileValue>,
}

impl Model for FileList {
    ghost use Rattle.std.specs.Prelude.{Some, map};
    ghost use Rattle.project_spec.specs.FileValues.{value_in};
    ghost use Rattle.machine_spec.specs.declared.records.ListRecord.{ListRecord};

    ghost Value = { ListRecord };

    ghost view = { λ l. record { name = record { name = l.name; id = Some l.id }; items = map value_in l.items } };
}

pub(crate) type FileVariables = ListOf<FileVariable>;

pub(crate) type FileLists = ListOf<FileList>;

// A target of the file, with fewer than 2^32 variables and lists. Contracts see its record.
#[derive(Debug, Drop)]
pub(crate) struct FileTarget {
    pub(crate) is_stage: bool,
    pub(crate) name: Text,
    pub(crate) variables: FileVariables,
    pub(crate) lists: FileLists,
    pub(crate) costumes: Texts,
    pub(crate) costume: u32,
    pub(crate) layer_order: Num,
    pub(crate) volume: Num,
    pub(crate) visible: bool,
    pub(crate) x: Num,
    pub(crate) y: Num,
    pub(crate) size: Num,
    pub(crate) direction: Num,
    pub(crate) style: Style,
}

impl Model for FileTarget {
    ghost use Rattle.std.specs.Prelude.{◌<◌, ◌^◌, length};
    ghost use Rattle.machine_spec.specs.declared.records.TargetRecord.{TargetRecord};

    ghost Value = { TargetRecord };

    ghost view = { λ t. record {
      is_stage = t.is_stage;
      name = t.name;
      variables = t.variables;
      lists = t.lists;
      costumes = t.costumes;
      costume = t.costume;
      layer_order = t.layer_order;
      volume = t.volume;
      visible = t.visible;
      x = t.x;
      y = t.y;
      size = t.size;
      direction = t.direction;
      style = t.style;
    } };

    ghost invariant = { λ t. (length t.variables < 2 ^ 32) × (length t.lists < 2 ^ 32) };
}

/// The targets of a file, fewer than 2^32. Contracts see the list of their records.
#[derive(Debug, Drop)]
pub struct FileTargets {
    targets: Vec<FileTarget>,
}

impl Model for FileTargets {
    ghost use Rattle.std.specs.Prelude.{List, ◌<◌, ◌^◌, length};
    ghost use Rattle.machine_spec.specs.declared.records.TargetRecord.{TargetRecord};

    ghost Value = { List TargetRecord };

    ghost view = { λ t. t.targets.items };

    ghost invariant = { λ t. length t.targets.items < 2 ^ 32 };
}

impl FileTarget {
    fn is_stage(&self) -> bool
        ensures { result ≡ self.now.is_stage }
    {
        self.is_stage
    }
}

// How many of the targets are the stage.
fn count_stages(targets: &[FileTarget]) -> usize
    ensures value { result ≡ count_by (λ t. t.is_stage) targets.now }
    ensures within { result ≤ length targets.now }
{
    let mut count = 0;
    for target in targets {
        if target.is_stage() {
            count += 1;
        }
    }
    count
}

impl FileTargets {
    // These targets.
    pub(crate) fn new(targets: Vec<FileTarget>) -> FileTargets
        requires { length targets.items < 2 ^ 32 }
        ensures { result ≡ targets.items }
    {
        FileTargets { targets }
    }

    // The targets, in file order.
    pub(crate) fn into_vec(self) -> Vec<FileTarget>
        ensures items { result.items ≡ self }
        ensures few { length self < 2 ^ 32 }
    {
        let FileTargets { targets } = self;
        targets
    }

    // How many targets there are.
    pub(crate) fn len(&self) -> usize
        ensures { result ≡ length self.now }
    {
        self.targets.len()
    }

    // How many targets are the stage.
    pub(crate) fn stages(&self) -> u32
        ensures { result ≡ count_by (λ t. t.is_stage) self.now }
    {
        count_stages(&self.targets) as u32
    }
}
