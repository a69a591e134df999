//! Each public function once, on a stage and two sprites.

use machine_spec::{BlockId, BubbleText, InstanceId};
use project_json::read as read_json;
use scratch_number::{Num, of_whole};
use std::process::Abort;
use target_records::{Records, read};
use targets::{Bubble, Edges, Effect, Effects, Instance, Place, Say, Style, TargetId, Targets};

static PROJECT: &str =
    r#"{"targets":[{"isStage":true,"name":"Stage","costumes":[{"name":"b"}]},{"isStage":false,"name":"Ann","costumes":[{"name":"c"}],"layerOrder":2},{"isStage":false,"name":"Ben","costumes":[{"name":"c"}],"layerOrder":1}]}"#;

const STAGE: InstanceId = InstanceId(0);

const ANN: InstanceId = InstanceId(1);

const BEN: InstanceId = InstanceId(2);

const CLONE: InstanceId = InstanceId(3);

fn records(rt: &(impl Abort + AllocGlobal)) -> Records {
    assert!(rt; PROJECT.len() < 4_000_000_000);
    let document = read_json(rt.alloc(), PROJECT.as_bytes()).expect(rt, "a document");
    read(rt.alloc(), &document).expect(rt, "records")
}

fn opened(rt: &(impl Abort + AllocGlobal)) -> Targets {
    Targets::open(rt.alloc(), &records(rt)).expect(rt, "memory")
}

// An instance of Ann that stands `x` units to the right.
fn ann_at(rt: &(impl Abort + AllocGlobal), number: InstanceId, x: i64) -> Instance {
    let bubble = Bubble {
        kind: Say::Think,
        text: BubbleText::new(rt.alloc()),
        usage: 2,
    };
    Instance {
        number,
        of: TargetId(1),
        x: of_whole(x),
        y: of_whole(0),
        direction: of_whole(90),
        size: of_whole(100),
        visible: true,
        costume: 0,
        style: Style::AllAround,
        effects: Effects::none(),
        bubble,
        edges: Edges::new(rt.alloc()),
    }
}

fn is_order(targets: &Targets, order: &[InstanceId]) -> bool {
    targets.order().as_slice() == order && targets.instances().len() == order.len()
}

fn size_of(rt: &impl Abort, targets: &Targets, id: InstanceId) -> Num {
    targets.get(id).expect(rt, "a live instance").size
}

fn ghost_of(rt: &impl Abort, targets: &Targets, id: InstanceId) -> Num {
    let instance = targets.get(id).expect(rt, "a live instance");
    instance.effects.get(Effect::Ghost)
}

#[test]
fn the_stage_is_first_and_sprites_follow_by_layer(rt: HostRuntime) {
    let records = records(&rt);
    let targets = Targets::open(rt.alloc(), &records).expect(&rt, "memory");
    assert!(rt; is_order(&targets, &[STAGE, BEN, ANN]));
    assert_eq!(rt; targets.sprite_named(&records, "Ben"), Some(BEN));
    assert_eq!(rt; targets.sprite_named(&records, "Stage"), None);
    drop(targets);
    drop(records);
}

#[test]
fn instances_are_put_in_their_order_again(rt: HostRuntime) {
    let mut instances = Vec::new(rt.alloc());
    instances.push(ann_at(&rt, CLONE, 7)).expect(&rt, "memory");
    instances.push(ann_at(&rt, ANN, 5)).expect(&rt, "memory");
    let targets = Targets::rebuild(rt.alloc(), instances).expect(&rt, "memory");
    assert!(rt; is_order(&targets, &[CLONE, ANN]));
    assert!(rt; !targets.is_live(STAGE));
    let clone = targets.get(CLONE).expect(&rt, "a live instance");
    assert_eq!(rt; clone.of, TargetId(1));
    assert_eq!(rt; clone.x, of_whole(7));
}

#[test]
fn an_instance_is_changed(rt: HostRuntime) {
    let mut targets = opened(&rt);
    assert!(rt; targets.set_xy(ANN, of_whole(3), of_whole(4)));
    assert!(rt; targets.set_size(ANN, of_whole(20000)));
    assert_eq!(rt; size_of(&rt, &targets, ANN), of_whole(10000));
    assert!(rt; targets.set_visible(ANN, false));
    assert!(rt; !targets.set_direction(ANN, of_whole(450)));
    assert!(rt; !targets.set_style(ANN, Style::LeftRight));
    drop(targets);
}

#[test]
fn an_instance_is_dressed(rt: HostRuntime) {
    let mut targets = opened(&rt);
    assert!(rt; targets.set_effect(ANN, Effect::Ghost, of_whole(150)));
    assert_eq!(rt; ghost_of(&rt, &targets, ANN), of_whole(100));
    assert!(rt; targets.clear_effects(ANN));
    assert_eq!(rt; ghost_of(&rt, &targets, ANN), of_whole(0));
    assert!(rt; targets.set_costume(ANN, of_whole(7), 2));
    assert!(rt; targets.set_bubble(ANN, Say::Think, BubbleText::new(rt.alloc()), 5));
    drop(targets);
}

#[test]
fn a_clone_is_made_and_disposed_of(rt: HostRuntime) {
    let records = records(&rt);
    let mut targets = Targets::open(rt.alloc(), &records).expect(&rt, "memory");
    assert!(rt; !targets.has_room(&records, STAGE));
    assert!(rt; targets.is_live(STAGE));
    assert!(rt;
        targets
            .make_clone(STAGE, CLONE)
            .expect(&rt, "memory")
            .is_none()
    );
    assert!(rt; targets.has_room(&records, BEN));
    assert!(rt; targets.is_live(BEN));
    assert!(rt;
        targets
            .make_clone(BEN, CLONE)
            .expect(&rt, "memory")
            .is_some()
    );
    assert!(rt; targets.is_live(CLONE));
    targets.place_behind(CLONE, BEN);
    assert!(rt; is_order(&targets, &[STAGE, CLONE, BEN, ANN]));
    targets.dispose(CLONE);
    assert!(rt; is_order(&targets, &[STAGE, BEN, ANN]));
    drop(targets);
    drop(records);
}

#[test]
fn clones_end_with_everything(rt: HostRuntime) {
    let mut targets = opened(&rt);
    assert!(rt; targets.is_live(BEN));
    targets.add_clone(BEN, CLONE).expect(&rt, "memory");
    assert!(rt; targets.is_live(ANN));
    targets.move_layer(ANN, Place::Back);
    assert!(rt; is_order(&targets, &[STAGE, ANN, BEN, CLONE]));
    targets.stop_all(3);
    assert!(rt; is_order(&targets, &[STAGE, ANN, BEN]));
    drop(targets);
}

#[test]
fn an_edge_value_is_recorded(rt: HostRuntime) {
    let mut targets = opened(&rt);
    let first = targets
        .set_edge(ANN, BlockId(4), true)
        .expect(&rt, "memory");
    assert_eq!(rt; first, None);
    let second = targets
        .set_edge(ANN, BlockId(4), false)
        .expect(&rt, "memory");
    assert_eq!(rt; second, Some(true));
    targets.clear_edges();
    drop(targets);
}

#[test]
fn the_stage_alone_is_the_stage(rt: HostRuntime) {
    let records = records(&rt);
    let targets = Targets::open(rt.alloc(), &records).expect(&rt, "memory");
    assert!(rt; targets.is_on_stage(&records, STAGE));
    assert!(rt; !targets.is_on_stage(&records, BEN));
    drop(targets);
    drop(records);
}

#[test]
fn an_instance_that_is_not_live_is_not_changed(rt: HostRuntime) {
    let mut targets = opened(&rt);
    assert!(rt; !targets.is_live(CLONE));
    assert!(rt; !targets.set_xy(CLONE, of_whole(3), of_whole(4)));
    assert!(rt; !targets.set_bubble(CLONE, Say::Say, BubbleText::new(rt.alloc()), 1));
    assert!(rt; targets.set_visible(CLONE, true));
    let was = targets.set_edge(CLONE, BlockId(4), true);
    assert_eq!(rt; was.expect(&rt, "memory"), None);
    targets.dispose(CLONE);
    assert!(rt; is_order(&targets, &[STAGE, BEN, ANN]));
    assert_eq!(rt; size_of(&rt, &targets, BEN), of_whole(100));
    drop(targets);
}

#[test]
fn instances_are_found_whatever_their_layer(rt: HostRuntime) {
    let mut targets = opened(&rt);
    for number in 3..40 {
        assert!(rt; targets.is_live(BEN));
        let clone = InstanceId(number * 100);
        targets.add_clone(BEN, clone).expect(&rt, "memory");
        assert!(rt; targets.is_live(clone));
        targets.move_layer(clone, Place::Back);
        assert!(rt; targets.set_xy(clone, of_whole(number as i64), of_whole(0)));
    }
    for number in 3..40 {
        let clone = targets.get(InstanceId(number * 100)).expect(&rt, "live");
        assert_eq!(rt; clone.x, of_whole(number as i64));
    }
    drop(targets);
}
