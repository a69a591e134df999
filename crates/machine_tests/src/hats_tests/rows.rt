//! Hats, and the threads that they start: each as its number, its instance and its hat. The first number is 7.

/// The hats that are started.
#[derive(Clone, Copy)]
pub enum Hats {
    Message(&'static str),
    Backdrop(&'static str),
    Key(&'static str),
    Flag,
    CloneStart(u64),
    Clicked(u64),
}

/// A stage with two clicked hats and a message, a cat with a hat of each other kind, and a dog. The hat `c9` is no head.
pub const PROJECT: &str = r#"{"targets":[
{"isStage":true,"name":"Stage","costumes":[{"name":"Blue"}],"layerOrder":0,"blocks":{
"s0":{"opcode":"event_whenstageclicked","topLevel":true},
"s1":{"opcode":"event_whenthisspriteclicked","topLevel":true},
"s2":{"opcode":"event_whenbroadcastreceived","topLevel":true,"fields":{"BROADCAST_OPTION":["Go"]}}}},
{"isStage":false,"name":"Cat","costumes":[{"name":"c"}],"layerOrder":1,"blocks":{
"c0":{"opcode":"event_whenflagclicked","topLevel":true,"next":"c1"},
"c1":{"opcode":"looks_hide"},
"c2":{"opcode":"event_whenbroadcastreceived","topLevel":true,"fields":{"BROADCAST_OPTION":["STRASSE"]}},
"c3":{"opcode":"event_whenbroadcastreceived","topLevel":true,"fields":{"BROADCAST_OPTION":["go"]}},
"c4":{"opcode":"event_whenkeypressed","topLevel":true,"fields":{"KEY_OPTION":["space"]}},
"c5":{"opcode":"control_start_as_clone","topLevel":true},
"c6":{"opcode":"event_whenthisspriteclicked","topLevel":true},
"c7":{"opcode":"event_whengreaterthan","topLevel":true,"fields":{"WHENGREATERTHANMENU":["TIMER"]},"inputs":{"VALUE":[1,[4,"1"]]}},
"c8":{"opcode":"event_whenbackdropswitchesto","topLevel":true,"fields":{"BACKDROP":["Blue"]}},
"c9":{"opcode":"event_whenflagclicked"}}},
{"isStage":false,"name":"Dog","costumes":[{"name":"d"}],"layerOrder":2,"blocks":{
"d0":{"opcode":"event_whenflagclicked","topLevel":true},
"d1":{"opcode":"control_start_as_clone","topLevel":true},
"d2":{"opcode":"event_whengreaterthan","topLevel":true,"fields":{"WHENGREATERTHANMENU":["LOUDNESS"]},"inputs":{"VALUE":[1,[4,"1"]]}},
"d3":{"opcode":"event_whenflagclicked","topLevel":true}}}]}"#;

/// Hats that are started where there is no thread.
pub static ONCE: [(Hats, &str); 12] = [
    (Hats::Flag, " 7:2/0 8:2/3 9:1/0"),
    (Hats::Message("GO"), " 7:1/3 8:0/2"),
    (Hats::Message("straße"), " 7:1/2"),
    (Hats::Message("goo"), ""),
    (Hats::Key("Space"), " 7:1/4"),
    (Hats::Backdrop("blue"), " 7:1/8"),
    (Hats::CloneStart(1), " 7:1/5"),
    (Hats::CloneStart(2), " 7:2/1"),
    (Hats::CloneStart(9), ""),
    (Hats::Clicked(0), " 7:0/1 8:0/0"),
    (Hats::Clicked(1), " 7:1/6"),
    (Hats::Clicked(2), ""),
];

/// Hats that are started one after another.
pub static TWICE: [(Hats, Hats, &str); 7] = [
    (Hats::Flag, Hats::Flag, " 10:2/0 11:2/3 12:1/0"),
    (Hats::Message("go"), Hats::Message("go"), " 9:1/3 10:0/2"),
    (Hats::Key("space"), Hats::Key("space"), " 7:1/4"),
    (Hats::CloneStart(1), Hats::CloneStart(1), " 7:1/5"),
    (Hats::Clicked(0), Hats::Clicked(0), " 9:0/1 10:0/0"),
    (
        Hats::Message("go"),
        Hats::Flag,
        " 7:1/3 8:0/2 9:2/0 10:2/3 11:1/0",
    ),
    (Hats::Backdrop("BLUE"), Hats::Key("space"), " 7:1/8 8:1/4"),
];
