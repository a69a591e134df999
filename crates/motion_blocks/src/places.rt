//! Places that a menu names.

ghost use Rattle.std.specs.Prelude.{◌≡◌, ◌<◌, Some, option_map, IfOk, IfErr};
ghost use Rattle.machine_spec.specs.Numbers.{whole};
ghost use Rattle.machine_spec.specs.Motion as machine;
ghost use Rattle.machine_spec.specs.Outcome.{Goes, StopIs};
ghost use Rattle.machine_spec.specs.Random.{scattered};
ghost use Rattle.machine_spec.specs.Sensing.{sprite};
ghost use Rattle.machine_spec.specs.Words.{seen_words};
ghost use Rattle.target_records.specs.Records.{records_in};
ghost use Rattle.motion_blocks.specs.Blocks.{parts_of};
ghost use Rattle.motion_blocks.specs.Points.{point};
ghost use Rattle.block_arguments.specs.Stops.{IsOfWordsOrMemory};

use crate::instance::Point;
use devices::Devices;
use operators::next_word;
use scratch_number::{Num, of_whole};
use script_words::{Counted, Rng, Stop};
use target_records::Records;
use targets::Targets;

// The whole number from −n/2 to n/2 that a word picks.
pub(crate) fn scattered(n: u32, word: u32) -> Num
    requires { n < 1000 }
    ensures { result ≡ scattered n word }
{
    let steps = (u64::from(n) * u64::from(word) + 2_147_483_648) / 4_294_967_296;
    of_whole(steps as i64 - i64::from(n / 2))
}

// A random place on the stage, which takes two words.
#[tactic(auto, using(crate::proofs::Stopping::draw_stops))]
fn random_point<R: Rng + Drop>(words: &mut Counted<R>) -> Result<Point, Stop>
    ensures ok { IfOk result (λ q. machine.random_point (seen_words R.stream words.old) ≡ Goes (record { value = Some (point q); words = seen_words R.stream words.new })) }
    ensures stop { StopIs result (machine.random_point (seen_words R.stream words.old)) }
    ensures kind { IfErr result IsOfWordsOrMemory }
{
    let x = next_word(words)?;
    let y = next_word(words)?;
    Ok(Point {
        x: scattered(480, x),
        y: scattered(360, y),
    })
}

// The place of the mouse.
fn mouse_point(devices: &Devices) -> Point
    ensures { point result ≡ record { x = whole devices.now.mouse_x; y = whole devices.now.mouse_y } }
{
    Point {
        x: of_whole(i64::from(devices.mouse_x())),
        y: of_whole(i64::from(devices.mouse_y())),
    }
}

// The place of the original of the first sprite with a name.
fn sprite_point(name: &str, records: &Records, targets: &Targets) -> Option<Point>
    ensures { option_map point result ≡ option_map (λ i. record { x = i.x; y = i.y }) (sprite name.now (records_in records.now) targets.now) }
{
    let number = targets.sprite_named(records, name)?;
    let sprite = targets.get(number)?;
    Some(Point {
        x: sprite.x,
        y: sprite.y,
    })
}

// The place of a name: the mouse's, a random one, or else that of the sprite of that name.
pub(crate) fn point_named<R: Rng + Drop>(
    name: &str,
    records: &Records,
    targets: &Targets,
    devices: &Devices,
    words: &mut Counted<R>,
) -> Result<Option<Point>, Stop>
    ensures ok { IfOk result (λ q. machine.point_named name.now (records_in records.now) devices.now (parts_of R.stream targets.now words.old) ≡ Goes (record { value = option_map point q; words = seen_words R.stream words.new })) }
    ensures stop { StopIs result (machine.point_named name.now (records_in records.now) devices.now (parts_of R.stream targets.now words.old)) }
    ensures kind { IfErr result IsOfWordsOrMemory }
{
    match name {
        "_mouse_" => Ok(Some(mouse_point(devices))),
        "_random_" => match random_point(words) {
            Ok(point) => Ok(Some(point)),
            Err(stop) => Err(stop),
        },
        _ => Ok(sprite_point(name, records, targets)),
    }
}
