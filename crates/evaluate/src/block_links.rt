//! Blocks whose inputs are linked.

ghost use Rattle.std.specs.Prelude.{◌≡◌, ◌<◌, length, slice_get, Some};
ghost use Rattle.cached_blocks.specs.Cached.{cached_blocks};
ghost use Rattle.cached_blocks.specs.Told.{IsReporter};
ghost use Rattle.project_check.specs.Loaded.{tables_of, blocks_at};
ghost use Rattle.machine_spec.specs.Words.{Words};
ghost use Rattle.evaluate.specs.Plugged.{ArePluggedIn};
ghost use Rattle.evaluate.specs.Seen.{sheet_of, reporter_value};
ghost use Rattle.evaluate.specs.Short.{IsWayPlugged, by_way};
ghost use Rattle.evaluate.specs.Ways.{HasOrder};

use crate::view::View;
use crate::ways::{Way, way_of};
use cached_blocks::{CachedBlock, an_expression_is_told, links_fall};
use machine_spec::BlockId;

// A block of the target. Reporters in its inputs have smaller ranks.
#[inline(always)]
pub(crate) fn linked<'p>(view: &View<'p, '_>, id: BlockId) -> &'p CachedBlock
    requires held { view.now.target < length (tables_of view.now.project.now) }
    requires member { id < length (blocks_at view.now.target view.now.project.now) }
    ensures block { slice_get (cached_blocks (sheet_of view.now)) id ≡ Some result.now }
    ensures plugged { ArePluggedIn view.now id result.now.inputs }
    ensures order { HasOrder result.now }
{
    links_fall();
    view.project.cached(view.target, id)
}

// The way to the value of a reporter of the target.
#[inline(always)]
pub(crate) fn way_at<'p>(view: &View<'p, '_>, id: BlockId) -> Way<'p>
    requires held { view.now.target < length (tables_of view.now.project.now) }
    requires member { id < length (blocks_at view.now.target view.now.project.now) }
    requires is { IsReporter (blocks_at view.now.target view.now.project.now) id }
    ensures means { (w : Words) → reporter_value view.now id w ≡ by_way view.now id result w }
    ensures plugged { IsWayPlugged view.now id result }
{
    let block = linked(view, id);
    an_expression_is_told();
    way_of(block)
}
