//! Layers: places of the executable order. The stage has the first.

ghost use Rattle.std.specs.Prelude.{◌≡◌, ◌+ℤ◌, pos, min};
ghost use Rattle.machine_spec.specs.Looks.{layer_kept};
ghost use Rattle.targets.specs.Layers.{layer_to};

/// Where an instance is to stand: before all, directly behind the stage, or so many places further to the front.
#[derive(Clone, Copy, PartialEq, Eq, Debug)]
pub enum Place {
    Front,
    Back,
    By(i64),
}

// The place for an instance at a place, where there are so many others.
pub(crate) fn layer(to: Place, place: usize, others: usize) -> usize
    ensures { result ≡ min (layer_to to place others) others }
{
    match to {
        Place::Front => others,
        Place::Back => others.min(1),
        Place::By(steps) => moved(steps, place, others),
    }
}

// The place so many places further to the front, kept from 1 to the last.
fn moved(steps: i64, place: usize, others: usize) -> usize
    ensures { result ≡ min (layer_kept (pos place +ℤ steps) others) others }
{
    let wanted = place as i128 + i128::from(steps);
    if wanted < 1 {
        return others.min(1);
    }
    if wanted > others as i128 {
        return others;
    }
    wanted as usize
}
