//! What blocks, instances and kinds of hats are for a start.

ghost use Rattle.std.specs.Prelude.{◌≡◌, nat_lt, length};
ghost use Rattle.opcode_table.specs.Kinds.{hat_kind as kind_by};
ghost use Rattle.project_check.specs.Loaded.{tables_of};
ghost use Rattle.project_spec.specs.Trees.{op_by, target_of_link};
ghost use Rattle.machine_spec.specs.Starting as machine;
ghost use Rattle.hats.specs.Fitting.{is_meant as is_meant_by};

use machine_spec::{BlockId, Filter, Instance};
use opcode_table::{HatKind, hat_kind};
use project_check::Project;
use project_spec::{Block, Code, Link};

// The kind of the hat that a block is.
pub(crate) fn kind_of(block: &Block) -> HatKind
    ensures { result ≡ kind_by (op_by block.now.code) }
{
    match &block.code {
        Code::Known(op) => hat_kind(*op),
        Code::Other(_) => HatKind::NoHat,
    }
}

// The block below a block.
pub(crate) fn next_of(block: &Block) -> Option<BlockId>
    ensures { result ≡ target_of_link block.now.next }
{
    match &block.next {
        Some(Link::To(next)) => Some(*next),
        Some(Link::Unknown(_)) => None,
        None => None,
    }
}

// Whether the filter speaks of an instance.
pub(crate) fn is_meant(filter: &Filter, instance: &Instance) -> bool
    ensures { result ≡ is_meant_by filter.now instance.now }
{
    match filter {
        Filter::CloneStart(clone) => instance.number == *clone,
        Filter::Clicked(clicked) => instance.number == *clicked,
        Filter::Broadcast(_) => true,
        Filter::Backdrop(_) => true,
        Filter::Key(_) => true,
        Filter::Flag => true,
    }
}

// Whether the target of an instance is there.
pub(crate) fn is_there(project: &Project, instance: &Instance) -> bool
    ensures { result ≡ nat_lt instance.now.of (length (tables_of project.now)) }
{
    instance.of.0 < project.target_count()
}

// Whether a hat of this kind restarts its thread.
pub(crate) fn restarts(kind: HatKind) -> bool
    ensures { result ≡ machine.restarts kind }
{
    match kind {
        HatKind::FlagHat => true,
        HatKind::SpriteHat => true,
        HatKind::StageHat => true,
        HatKind::MessageHat => true,
        HatKind::BackdropHat => true,
        HatKind::KeyHat => false,
        HatKind::CloneHat => false,
        HatKind::EdgeHat => false,
        HatKind::NoHat => false,
    }
}
