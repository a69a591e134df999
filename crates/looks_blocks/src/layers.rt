//! The layer of a sprite. On the stage these blocks do nothing. Each tells whether a redraw is requested.

ghost use Rattle.std.specs.Prelude.{◌≡◌, ◌≢◌, ℕ, codes};
ghost use Rattle.scratch_number.specs.Number.{negated};
ghost use Rattle.scratch_number.specs.declared.number.Num.TheVariants as nums;
ghost use Rattle.machine_spec.specs.Looks as machine;
ghost use Rattle.machine_spec.specs.Looks.{forward_by, goes_on, last_layer, layer, layer_after, layered, on_sprite};
ghost use Rattle.machine_spec.specs.Numbers.{without_fraction};
ghost use Rattle.machine_spec.specs.Stores.{Devices};
ghost use Rattle.machine_spec.specs.View.{field_at, number_at};
ghost use Rattle.machine_spec.specs.Words.{Words};
ghost use Rattle.target_records.specs.Records.{records_in};
ghost use Rattle.targets.specs.Layers.{layer_to};
ghost use Rattle.targets.specs.Live.{IsLive, target_of, HasOneEach};
ghost use Rattle.looks_blocks.specs.Blocks.{parts};

use block_arguments::{field, number};
use machine_spec::InstanceId;
use scratch_number::{Num, Raw};
use scratch_values::Args;
use target_records::Records;
use targets::{Place, Targets};

// Where `front` is, or another name.
fn front_or_back(name: &str) -> Place
    ensures { (place last : ℕ) → layer_to result place last ≡ machine.front_or_back name.now last }
{
    match name {
        "front" => Place::Front,
        _ => Place::Back,
    }
}

// `go to FRONT_BACK layer`: the last place for `front`, else the first behind the stage.
pub(crate) fn go_to_front_or_back(
    args: &Args<'_>,
    here: InstanceId,
    records: &Records,
    targets: &mut Targets,
) -> bool
    requires live { IsLive here targets.old }
    requires one_each { HasOneEach targets.old }
    ensures row { (d : Devices) (w : Words) → on_sprite (records_in records.now) here (parts targets.old d w) (layered here (machine.front_or_back (field_at (codes "FRONT_BACK") args.entry.now) (last_layer (parts targets.old d w))) (parts targets.old d w)) ≡ goes_on result (parts targets.new d w) }
    ensures targets { (n : ℕ) → target_of n targets.new ≡ target_of n targets.old }
    ensures one_each { HasOneEach targets.new }
{
    if targets.is_on_stage(records, here) {
        return false;
    }
    targets.move_layer(here, front_or_back(field(args, "FRONT_BACK")));
    true
}

// The whole part of a number.
fn whole_part(raw: Raw) -> i64
    ensures { result ≡ without_fraction raw }
{
    raw.get() / 1_000_000
}

// So many layers to the front, without the fraction; an infinite number is that end.
fn forward(number: Num) -> Place
    requires { number ≢ nums.Nan }
    ensures { (place last : ℕ) → layer_to result place last ≡ layer_after number place last }
{
    match number {
        Num::Fixed(raw) => Place::By(whole_part(raw)),
        Num::Inf => Place::Front,
        Num::NegInf => Place::Back,
        Num::Nan => unreachable!(),
    }
}

// So many layers to the back.
fn backward(number: Num) -> Place
    requires { number ≢ nums.Nan }
    ensures { (place last : ℕ) → layer_to result place last ≡ layer_after (negated number) place last }
{
    match number {
        Num::Fixed(raw) => Place::By(-whole_part(raw)),
        Num::Inf => Place::Back,
        Num::NegInf => Place::Front,
        Num::Nan => unreachable!(),
    }
}

// How many layers, which is a number.
fn layers(args: &Args<'_>) -> Num
    ensures value { result ≡ number_at (codes "NUM") args.entry.now }
    ensures known { result ≢ nums.Nan }
{
    number(args, "NUM")
}

// Where the block leads.
fn layers_away(args: &Args<'_>) -> Place
    ensures { (place last : ℕ) → layer_to result place last ≡ layer_after (forward_by (number_at (codes "NUM") args.entry.now) (field_at (codes "FORWARD_BACKWARD") args.entry.now)) place last }
{
    match field(args, "FORWARD_BACKWARD") {
        "forward" => forward(layers(args)),
        _ => backward(layers(args)),
    }
}

// `go FORWARD_BACKWARD NUM layers`.
pub(crate) fn go_layers(
    args: &Args<'_>,
    here: InstanceId,
    records: &Records,
    targets: &mut Targets,
) -> bool
    requires live { IsLive here targets.old }
    requires one_each { HasOneEach targets.old }
    ensures row { (d : Devices) (w : Words) → on_sprite (records_in records.now) here (parts targets.old d w) (layered here (layer_after (forward_by (number_at (codes "NUM") args.entry.now) (field_at (codes "FORWARD_BACKWARD") args.entry.now)) (layer here targets.old) (last_layer (parts targets.old d w))) (parts targets.old d w)) ≡ goes_on result (parts targets.new d w) }
    ensures targets { (n : ℕ) → target_of n targets.new ≡ target_of n targets.old }
    ensures one_each { HasOneEach targets.new }
{
    if targets.is_on_stage(records, here) {
        return false;
    }
    targets.move_layer(here, layers_away(args));
    true
}
