//! Projects, and what the loader says of each: the number of the refusal and what it carries, or the numbers of
//! targets and blocks.

// P1: bytes that are no JSON text.
pub static NO_TEXT: [(&str, &str); 9] = [
    (r#""#, r#"P1 Syntax 0"#),
    (r#"{"#, r#"P1 Syntax 1"#),
    (r#""\"#, r#"P1 Syntax 2"#),
    (r#"[1,]"#, r#"P1 Syntax 3"#),
    (r#"{"a":"\x"}"#, r#"P1 Syntax 7"#),
    (r#"{"targets":[]}x"#, r#"P1 Syntax 14"#),
    (
        r#"[[[[[[[[[[[[[[[[[[[[[[[[[[[[[[[[[[[[[[[[[[[[[[[[[[[[[[[[[[[[[[[[[[[[[[[[[[[[[[[[[[[[[[[[[[[[[[[[[[[[[[[[[[[[[[[[[[[[[[[[[[[[[[[[[[[[[[[[[[[[[[[[[[[[[[[[[[[[[[[[[[[[[[[[[[[[[[[[[[[[[[[[[[[[[[[[[[[[[[[[[[[[[[[[[[[[[[[[[[[[[[[[[[[[[[[[[[[[[[[[[[[[[[[[[[[[[[[[["#,
        r#"P1 TooDeep 256"#,
    ),
    (
        r#"{"targets":[{"isStage":true,"name":"Stage","variables":{"v":["n",0]},"lists":{"k":["l",[]]},"broadcasts":{},"blocks":{},"comments":{},"currentCostume":0,"costumes":[{"name":"b1","dataFormat":"svg","assetId":"0","md5ext":"0.svg","rotationCenterX":240,"rotationCenterY":180}],"sounds":[{"name":"pop","assetId":"1","dataFormat":"wav","md5ext":"1.wav"}],"volume":100,"layerOrder":0,"tempo":60},{"isS"#,
        r#"P1 Syntax 395"#,
    ),
    (
        r#"{"a":{"a":{"a":{"a":{"a":{"a":{"a":{"a":{"a":{"a":{"a":{"a":{"a":{"a":{"a":{"a":{"a":{"a":{"a":{"a":{"a":{"a":{"a":{"a":{"a":{"a":{"a":{"a":{"a":{"a":{"a":{"a":{"a":{"a":{"a":{"a":{"a":{"a":{"a":{"a":{"a":{"a":{"a":{"a":{"a":{"a":{"a":{"a":{"a":{"a":{"a":{"a":{"a":{"a":{"a":{"a":{"a":{"a":{"a":{"a":{"a":{"a":{"a":{"a":{"a":{"a":{"a":{"a":{"a":{"a":{"a":{"a":{"a":{"a":{"a":{"a":{"a":{"a":{"a":{"a":{"a":{"a":{"a":{"a":{"a":{"a":{"a":{"a":{"a":{"a":{"a":{"a":{"a":{"a":{"a":{"a":{"a":{"a":{"a":{"a":{"a":{"a":{"a":{"a":{"a":{"a":{"a":{"a":{"a":{"a":{"a":{"a":{"a":{"a":{"a":{"a":{"a":{"a":{"a":{"a":{"a":{"a":{"a":{"a":{"a":{"a":{"a":{"a":{"a":{"a":{"a":{"a":{"a":{"a":{"a":{"a":{"a":{"a":{"a":{"a":{"a":{"a":{"a":{"a":{"a":{"a":{"a":{"a":{"a":{"a":{"a":{"a":{"a":{"a":{"a":{"a":{"a":{"a":{"a":{"a":{"a":{"a":{"a":{"a":{"a":{"a":{"a":{"a":{"a":{"a":{"a":{"a":{"a":{"a":{"a":{"a":{"a":{"a":{"a":{"a":{"a":{"a":{"a":{"a":{"a":{"a":{"a":{"a":{"a":{"a":{"a":{"a":{"a":{"a":{"a":{"a":{"a":{"a":{"a":{"a":{"a":{"a":{"a":{"a":{"a":{"a":{"a":{"a":{"a":{"a":{"a":{"a":{"a":{"a":{"a":{"a":{"a":{"a":{"a":{"a":{"a":{"a":{"a":{"a":{"a":{"a":{"a":{"a":{"a":{"a":{"a":{"a":{"a":{"a":{"a":{"a":{"a":{"a":{"a":{"a":{"a":{"a":{"a":{"a":{"a":{"a":{"a":{"a":{"a":{"a":{"a":{"a":{"a":{"a":{"a":{"a":"#,
        r#"P1 Syntax 1280"#,
    ),
];

// P2: shapes.
pub static SHAPES: [(&str, &str); 30] = [
    (r#"5"#, r#"P2 "#),
    (r#"[]"#, r#"P2 "#),
    (r#"{}"#, r#"P2 targets"#),
    (r#""x""#, r#"P2 "#),
    (r#"null"#, r#"P2 "#),
    (r#"{"targets":{}}"#, r#"P2 targets"#),
    (r#"{"targets":[5]}"#, r#"P2 targets/0"#),
    (
        r#"{"targets":[{"isStage":true,"name":"S","blocks":{}}]}"#,
        r#"P2 targets/0/costumes"#,
    ),
    (
        r#"{"targets":[{"name":"S","costumes":[{"name":"b"}],"blocks":{}}]}"#,
        r#"P2 targets/0/isStage"#,
    ),
    (
        r#"{"targets":[{"isStage":true,"name":"S","costumes":[{"name":"b"}]}]}"#,
        r#"P2 targets/0/blocks"#,
    ),
    (
        r#"{"targets":[{"isStage":true,"name":"S","costumes":{},"blocks":{}}]}"#,
        r#"P2 targets/0/costumes"#,
    ),
    (
        r#"{"targets":[{"isStage":true,"costumes":[{"name":"b"}],"blocks":{}}]}"#,
        r#"P2 targets/0/name"#,
    ),
    (
        r#"{"targets":[{"isStage":true,"name":"S","costumes":[{"name":1}],"blocks":{}}]}"#,
        r#"P2 targets/0/costumes/0/name"#,
    ),
    (
        r#"{"targets":[{"isStage":true,"name":"S","costumes":[{"name":"a"},{"name":null}],"blocks":{}}]}"#,
        r#"P2 targets/0/costumes/1/name"#,
    ),
    (
        r#"{"targets":[{"isStage":true,"name":"S","costumes":[{"name":"b"}],"blocks":{"z":{"opcode":"q"},"a/b":[]}}]}"#,
        r#"P2 targets/0/blocks/a/b/0"#,
    ),
    (
        r#"{"targets":[{"isStage":true,"name":"S","costumes":[{"name":"b"}],"blocks":{"z":{"opcode":"q"},"a/b":{}}}]}"#,
        r#"P2 targets/0/blocks/a/b/opcode"#,
    ),
    (
        r#"{"targets":[{"isStage":true,"name":"S","costumes":[{"name":"b"}],"blocks":{"z":{"opcode":"q"},"a/b":"x"}}]}"#,
        r#"P2 targets/0/blocks/a/b"#,
    ),
    (
        r#"{"targets":[{"isStage":true,"name":"S","costumes":[{"name":"b"}],"blocks":{"z":{"opcode":"q"},"a/b":[12]}}]}"#,
        r#"P2 targets/0/blocks/a/b/1"#,
    ),
    (
        r#"{"targets":[{"isStage":true,"name":"S","costumes":[{"name":"b"}],"blocks":{"z":{"opcode":"q"},"a/b":null}}]}"#,
        r#"P2 targets/0/blocks/a/b"#,
    ),
    (
        r#"{"targets":[{"isStage":true,"name":"S","costumes":[{"name":"b"}],"blocks":{"z":{"opcode":"q"},"a/b":[12,"n"]}}]}"#,
        r#"P2 targets/0/blocks/a/b/2"#,
    ),
    (
        r#"{"targets":[{"isStage":true,"name":"S","costumes":[{"name":"b"}],"blocks":{},"variables":{"v":["n",0],"w":[]}}]}"#,
        r#"P2 targets/0/variables/w/0"#,
    ),
    (
        r#"{"targets":[{"isStage":true,"name":"S","costumes":[{"name":"b"}],"blocks":{"z":{"opcode":"q"},"a/b":[13,1,"k"]}}]}"#,
        r#"P2 targets/0/blocks/a/b/1"#,
    ),
    (
        r#"{"targets":[{"isStage":true,"name":"S","costumes":[{"name":"b"}],"blocks":{},"lists":{"k":["l",[1,"x"]],"m":[]}}]}"#,
        r#"P2 targets/0/lists/m/0"#,
    ),
    (
        r#"{"targets":[{"isStage":true,"name":"S","costumes":[{"name":"b"}],"blocks":{},"variables":{"v":["n",0],"w":["n"]}}]}"#,
        r#"P2 targets/0/variables/w/1"#,
    ),
    (
        r#"{"targets":[{"isStage":true,"name":"S","costumes":[{"name":"b"}],"blocks":{"z":{"opcode":"q"},"a/b":[11,"n","v"]}}]}"#,
        r#"P2 targets/0/blocks/a/b/0"#,
    ),
    (
        r#"{"targets":[{"isStage":true,"name":"S","costumes":[{"name":"b"}],"blocks":{"z":{"opcode":"q"},"a/b":{"opcode":1}}}]}"#,
        r#"P2 targets/0/blocks/a/b/opcode"#,
    ),
    (
        r#"{"targets":[{"isStage":true,"name":"S","costumes":[{"name":"b"}],"blocks":{"z":{"opcode":"q"},"a/b":[12,"n",null]}}]}"#,
        r#"P2 targets/0/blocks/a/b/2"#,
    ),
    (
        r#"{"targets":[{"isStage":true,"name":"S","costumes":[{"name":"b"}],"blocks":{},"lists":{"k":["l",[1,"x"]],"m":["l"]}}]}"#,
        r#"P2 targets/0/lists/m/1"#,
    ),
    (
        r#"{"targets":[{"isStage":true,"name":"S","costumes":[{"name":"b"}],"blocks":{"z":{"opcode":"q"},"a/b":["12","n","v"]}}]}"#,
        r#"P2 targets/0/blocks/a/b/0"#,
    ),
    (
        r#"{"targets":[{"isStage":true,"name":"S","costumes":[{"name":"b"}],"blocks":{},"variables":{"v":["n",0],"w":["n",[]]}}]}"#,
        r#"P2 targets/0/variables/w/1"#,
    ),
];

// P2: more shapes.
pub static SHAPES_BELOW: [(&str, &str); 30] = [
    (
        r#"{"targets":[{"isStage":true,"name":"S","costumes":{},"blocks":{"z":{"opcode":"q"},"a/b":{"opcode":1}}}],"monitors":[]}"#,
        r#"P2 targets/0/costumes"#,
    ),
    (
        r#"{"targets":[{"isStage":true,"name":"S","costumes":{},"blocks":{"z":{"opcode":"q"},"a/b":{"opcode":1}}}],"monitors":{}}"#,
        r#"P2 targets/0/costumes"#,
    ),
    (
        r#"{"targets":[{"isStage":true,"name":"S","costumes":[{"name":"b"}],"blocks":{}}],"monitors":[{"id":"v","opcode":"x"},{"id":"v"}]}"#,
        r#"P2 monitors/1/opcode"#,
    ),
    (
        r#"{"targets":[{"isStage":true,"name":"S","costumes":[{"name":"b"}],"blocks":{"z":{"opcode":"q"},"a/b":{"opcode":"q","inputs":0}}}]}"#,
        r#"P2 targets/0/blocks/a/b/inputs"#,
    ),
    (
        r#"{"targets":[{"isStage":true,"name":"S","costumes":[{"name":"b"}],"blocks":{"z":{"opcode":"q"},"a/b":{"opcode":"q","shadow":0}}}]}"#,
        r#"P2 targets/0/blocks/a/b/shadow"#,
    ),
    (
        r#"{"targets":[{"isStage":true,"name":"S","costumes":[{"name":"b"}],"blocks":{"z":{"opcode":"q"},"a/b":{"opcode":"q","fields":null}}}]}"#,
        r#"P2 targets/0/blocks/a/b/fields"#,
    ),
    (
        r#"{"targets":[{"isStage":true,"name":"S","costumes":[{"name":"b"}],"blocks":{"z":{"opcode":"q"},"a/b":{"opcode":"q","inputs":null}}}]}"#,
        r#"P2 targets/0/blocks/a/b/inputs"#,
    ),
    (
        r#"{"targets":[{"isStage":true,"name":"S","costumes":[{"name":"b"}],"blocks":{"z":{"opcode":"q"},"a/b":{"opcode":"q","shadow":null}}}]}"#,
        r#"P2 targets/0/blocks/a/b/shadow"#,
    ),
    (
        r#"{"targets":[{"isStage":true,"name":"S","costumes":[{"name":"b"}],"blocks":{"z":{"opcode":"q"},"a/b":{"opcode":"q","topLevel":{}}}}]}"#,
        r#"P2 targets/0/blocks/a/b/topLevel"#,
    ),
    (
        r#"{"targets":[{"isStage":true,"name":"S","costumes":[{"name":"b"}],"blocks":{"z":{"opcode":"q"},"a/b":{"opcode":"q","fields":[null]}}}]}"#,
        r#"P2 targets/0/blocks/a/b/fields"#,
    ),
    (
        r#"{"targets":[{"isStage":true,"name":"S","costumes":[{"name":"b"}],"blocks":{"z":{"opcode":"q"},"a/b":{"opcode":"q","mutation":true}}}]}"#,
        r#"P2 targets/0/blocks/a/b/mutation"#,
    ),
    (
        r#"{"targets":[{"isStage":true,"name":"S","costumes":[{"name":"b"}],"blocks":{"z":{"opcode":"q"},"a/b":{"opcode":"q","topLevel":null}}}]}"#,
        r#"P2 targets/0/blocks/a/b/topLevel"#,
    ),
    (
        r#"{"targets":[{"isStage":true,"name":"S","costumes":[{"name":"b"}],"blocks":{}},{"isStage":false,"name":"C","costumes":{},"blocks":{}}]}"#,
        r#"P2 targets/1/costumes"#,
    ),
    (
        r#"{"targets":[{"isStage":true,"name":"S","costumes":[{"name":"b"}],"blocks":{"z":{"opcode":"q"},"a/b":{"opcode":1}},"x":{}}],"monitors":[]}"#,
        r#"P2 targets/0/x"#,
    ),
    (
        r#"{"targets":[{"isStage":true,"name":"S","costumes":[{"name":"b"}],"blocks":{"z":{"opcode":"q"},"a/b":{"opcode":"q","fields":1,"next":1}}}]}"#,
        r#"P2 targets/0/blocks/a/b/next"#,
    ),
    (
        r#"{"targets":[{"isStage":true,"name":"S","costumes":[{"name":"b"}],"blocks":{"z":{"opcode":"q"},"a/b":{"opcode":"q","fields":1,"inputs":1}}}]}"#,
        r#"P2 targets/0/blocks/a/b/inputs"#,
    ),
    (
        r#"{"targets":[{"isStage":true,"name":"S","costumes":[{"name":"b"}],"blocks":{}}],"monitors":[{"id":"v","opcode":"x"},{"id":"v","opcode":null}]}"#,
        r#"P2 monitors/1/opcode"#,
    ),
    (
        r#"{"targets":[{"isStage":true,"name":"S","costumes":[{"name":"b"}],"blocks":{"z":{"opcode":"q"},"a/b":{"opcode":"q","fields":1,"mutation":1}}}]}"#,
        r#"P2 targets/0/blocks/a/b/fields"#,
    ),
    (
        r#"{"targets":[{"isStage":true,"name":"S","costumes":[{"name":"b"}],"blocks":{"z":{"opcode":"q"},"a/b":{"opcode":"q","topLevel":1,"fields":1}}}]}"#,
        r#"P2 targets/0/blocks/a/b/fields"#,
    ),
    (
        r#"{"targets":[{"isStage":true,"name":"S","costumes":[{"name":"b"}],"blocks":{"z":{"opcode":"q"},"a/b":{"opcode":1}},"volume":{}}],"monitors":{}}"#,
        r#"P2 targets/0/volume"#,
    ),
    (
        r#"{"targets":[{"isStage":true,"name":"S","costumes":[{"name":"b"}],"blocks":{"z":{"opcode":"q"},"a/b":{"opcode":"q","mutation":1,"topLevel":1}}}]}"#,
        r#"P2 targets/0/blocks/a/b/topLevel"#,
    ),
    (
        r#"{"targets":[{"isStage":true,"name":"S","costumes":[{"name":"b"}],"blocks":{}},{"isStage":"x","name":"C","costumes":[{"name":"c"}],"blocks":{}}]}"#,
        r#"P2 targets/1/isStage"#,
    ),
    (
        r#"{"targets":[{"isStage":true,"name":"S","costumes":[{"name":"b"}],"blocks":{"z":{"opcode":"q"},"a/b":{"opcode":"q","fields":{"A":["x"],"F":5}}}}]}"#,
        r#"P2 targets/0/blocks/a/b/fields/F"#,
    ),
    (
        r#"{"targets":[{"isStage":true,"name":"S","costumes":[{"name":"b"}],"blocks":{}},{"isStage":false,"name":{},"costumes":[{"name":"c"}],"blocks":{}}]}"#,
        r#"P2 targets/1/name"#,
    ),
    (
        r#"{"targets":[{"isStage":true,"name":"S","costumes":[{"name":"b"}],"blocks":{"z":{"opcode":"q"},"a/b":{"opcode":"q","fields":{"A":["x"],"F":[]}}}}]}"#,
        r#"P2 targets/0/blocks/a/b/fields/F"#,
    ),
    (
        r#"{"targets":[{"isStage":true,"name":"S","costumes":[{"name":"b"}],"blocks":{"z":{"opcode":"q"},"a/b":{"opcode":"q","fields":{"A":["x"],"F":[[]]}}}}]}"#,
        r#"P2 targets/0/blocks/a/b/fields/F/0"#,
    ),
    (
        r#"{"targets":[{"isStage":true,"name":"S","costumes":[{"name":"b"}],"blocks":{"z":{"opcode":"q"},"a/b":{"opcode":"q","fields":{"A":["x"],"F":[{}]}}}}]}"#,
        r#"P2 targets/0/blocks/a/b/fields/F/0"#,
    ),
    (
        r#"{"targets":[{"isStage":true,"name":"S","costumes":[{"name":"b"}],"blocks":{"z":{"opcode":"q"},"a/b":{"opcode":"q","fields":{"A":["x"],"F":null}}}}]}"#,
        r#"P2 targets/0/blocks/a/b/fields/F"#,
    ),
    (
        r#"{"targets":[{"isStage":true,"name":"S","costumes":[{"name":"b"}],"blocks":{"z":{"opcode":"q"},"a/b":{"opcode":"q","fields":{"A":["x"],"F":["x",5]}}}}]}"#,
        r#"P2 targets/0/blocks/a/b/fields/F/1"#,
    ),
    (
        r#"{"targets":[{"isStage":true,"name":"S","costumes":[{"name":"b"}],"blocks":{}},{"isStage":false,"name":"C","costumes":[{"name":"c"}],"blocks":{},"y":[]}]}"#,
        r#"P2 targets/1/y"#,
    ),
];

// P3: stages.
pub static STAGES: [(&str, &str); 5] = [
    (r#"{"targets":[]}"#, r#"P3 0"#),
    (
        r#"{"targets":[{"isStage":true,"name":"S","costumes":[{"name":"b"}],"blocks":{}},{"isStage":true,"name":"S","costumes":[{"name":"b"}],"blocks":{}},{"isStage":true,"name":"S","costumes":[{"name":"b"}],"blocks":{}}]}"#,
        r#"P3 3"#,
    ),
    (
        r#"{"targets":[{"isStage":true,"name":"S","costumes":[{"name":"b"}],"blocks":{}},{"isStage":true,"name":"S","costumes":[{"name":"b"}],"blocks":{}},{"isStage":false,"name":"S","costumes":[{"name":"b"}],"blocks":{}}]}"#,
        r#"P3 2"#,
    ),
    (
        r#"{"targets":[{"isStage":false,"name":"S","costumes":[{"name":"b"}],"blocks":{}},{"isStage":false,"name":"S","costumes":[{"name":"b"}],"blocks":{}},{"isStage":false,"name":"S","costumes":[{"name":"b"}],"blocks":{}}]}"#,
        r#"P3 0"#,
    ),
    (
        r#"{"targets":[{"isStage":false,"name":"Cat","variables":{},"lists":{},"broadcasts":{},"blocks":{"a1":{"opcode":"event_whenflagclicked","next":"a2","topLevel":true},"a2":{"opcode":"data_addtolist","next":"a3","inputs":{"ITEM":[2,"a4"]},"fields":{"LIST":["l","k"]}},"a4":{"opcode":"operator_join","inputs":{"STRING1":[2,[12,"n","v"]],"STRING2":[2,[13,"l","k"]]}},"a3":{"opcode":"data_changevariableby","inputs":{"VALUE":[1,[4,"2"]]},"fields":{"VARIABLE":["n","v"]}},"a5":{"opcode":"procedures_definition","next":"a6","inputs":{"custom_block":[1,"a7"]},"topLevel":true},"a7":{"opcode":"procedures_prototype","shadow":true,"mutation":{"proccode":"p %s","argumentids":"[\"x\"]","argumentnames":"[\"x\"]","argumentdefaults":"[\"\"]","warp":"false"}},"a6":{"opcode":"data_addtolist","inputs":{"ITEM":[2,"a8"]},"fields":{"LIST":["l","k"]}},"a8":{"opcode":"argument_reporter_string_number","fields":{"VALUE":["x"]}}},"comments":{},"currentCostume":0,"costumes":[{"name":"c1","dataFormat":"svg","assetId":"2","md5ext":"2.svg"}],"sounds":[],"volume":100,"layerOrder":1,"visible":true,"x":0,"y":0,"size":100,"direction":90,"draggable":false,"rotationStyle":"all around"}],"monitors":[{"id":"v","mode":"default","opcode":"data_variable","params":{"VARIABLE":"n"},"spriteName":null,"value":0,"visible":true}],"extensions":[],"meta":{"semver":"3.0.0"}}"#,
        r#"P3 0"#,
    ),
];

// P11: mutations of prototypes and calls.
pub static MUTATIONS: [(&str, &str); 22] = [
    (
        r#"{"targets":[{"isStage":true,"name":"S","costumes":[{"name":"b"}],"blocks":{"z":{"opcode":"q"},"y":{"opcode":"q"},"p":{"opcode":"procedures_call"}}}]}"#,
        r#"P11 0 2 Missing"#,
    ),
    (
        r#"{"targets":[{"isStage":true,"name":"S","costumes":[{"name":"b"}],"blocks":{"z":{"opcode":"q"},"y":{"opcode":"q"},"p":{"opcode":"procedures_prototype","mutation":{}}}}]}"#,
        r#"P11 0 2 Missing"#,
    ),
    (
        r#"{"targets":[{"isStage":true,"name":"S","costumes":[{"name":"b"}],"blocks":{"z":{"opcode":"q"},"y":{"opcode":"q"},"p":{"opcode":"procedures_prototype","mutation":{"proccode":1}}}}]}"#,
        r#"P11 0 2 Missing"#,
    ),
    (
        r#"{"targets":[{"isStage":true,"name":"S","costumes":[{"name":"b"}],"blocks":{"z":{"opcode":"q"},"y":{"opcode":"q"},"p":{"opcode":"procedures_prototype","mutation":{"proccode":"p"}}}}]}"#,
        r#"P11 0 2 Missing"#,
    ),
    (
        r#"{"targets":[{"isStage":true,"name":"S","costumes":[{"name":"b"}],"blocks":{"z":{"opcode":"q"},"y":{"opcode":"q"},"p":{"opcode":"procedures_prototype","mutation":{"proccode":"p","argumentids":"[]"}}}}]}"#,
        r#"P11 0 2 Missing"#,
    ),
    (
        r#"{"targets":[{"isStage":true,"name":"S","costumes":[{"name":"b"}],"blocks":{"z":{"opcode":"q"},"y":{"opcode":"q"},"p":{"opcode":"procedures_prototype","mutation":{"proccode":"p","argumentids":"[","argumentnames":"[]"}}}}]}"#,
        r#"P11 0 2 BadText"#,
    ),
    (
        r#"{"targets":[{"isStage":true,"name":"S","costumes":[{"name":"b"}],"blocks":{"z":{"opcode":"q"},"y":{"opcode":"q"},"p":{"opcode":"procedures_prototype","mutation":{"proccode":"p","argumentids":"[\"a\"]","argumentnames":"[]"}}}}]}"#,
        r#"P11 0 2 LengthsDiffer"#,
    ),
    (
        r#"{"targets":[{"isStage":true,"name":"S","costumes":[{"name":"b"}],"blocks":{"z":{"opcode":"q"},"y":{"opcode":"q"},"p":{"opcode":"procedures_prototype","mutation":{"proccode":"p","argumentids":"[]","argumentnames":"[]","warp":1}}}}]}"#,
        r#"P11 0 2 BadText"#,
    ),
    (
        r#"{"targets":[{"isStage":true,"name":"S","costumes":[{"name":"b"}],"blocks":{"z":{"opcode":"q"},"y":{"opcode":"q"},"p":{"opcode":"procedures_prototype","mutation":{"proccode":"p","argumentids":"[]","argumentnames":"[]","warp":"yes"}}}}]}"#,
        r#"P11 0 2 BadText"#,
    ),
    (
        r#"{"targets":[{"isStage":true,"name":"S","costumes":[{"name":"b"}],"blocks":{"z":{"opcode":"q"},"y":{"opcode":"q"},"p":{"opcode":"procedures_prototype","mutation":{"proccode":"p","argumentids":"[]","argumentnames":"[]","argumentdefaults":"[null]"}}}}]}"#,
        r#"P11 0 2 BadText"#,
    ),
    (
        r#"{"targets":[{"isStage":true,"name":"S","costumes":[{"name":"b"}],"blocks":{"z":{"opcode":"q"},"y":{"opcode":"q"},"p":{"opcode":"procedures_prototype","mutation":{"proccode":"p","argumentids":"[]","argumentnames":"[]","argumentdefaults":"[\"x\"]"}}}}]}"#,
        r#"P11 0 2 LengthsDiffer"#,
    ),
    (
        r#"{"targets":[{"isStage":true,"name":"Stage","variables":{"v":["n",0]},"lists":{"k":["l",[]]},"broadcasts":{},"blocks":{},"comments":{},"currentCostume":0,"costumes":[{"name":"b1","dataFormat":"svg","assetId":"0","md5ext":"0.svg","rotationCenterX":240,"rotationCenterY":180}],"sounds":[{"name":"pop","assetId":"1","dataFormat":"wav","md5ext":"1.wav"}],"volume":100,"layerOrder":0,"tempo":60},{"isStage":false,"name":"Cat","variables":{},"lists":{},"broadcasts":{},"blocks":{"a":{"opcode":"procedures_call"}},"comments":{},"currentCostume":0,"costumes":[{"name":"c1","dataFormat":"svg","assetId":"2","md5ext":"2.svg"}],"sounds":[],"volume":100,"layerOrder":1,"visible":true,"x":0,"y":0,"size":100,"direction":90,"draggable":false,"rotationStyle":"all around"}],"monitors":[{"id":"v","mode":"default","opcode":"data_variable","params":{"VARIABLE":"n"},"spriteName":null,"value":0,"visible":true}],"extensions":[],"meta":{"semver":"3.0.0"}}"#,
        r#"P11 1 0 Missing"#,
    ),
    (
        r#"{"targets":[{"isStage":true,"name":"Stage","variables":{"v":["n",0]},"lists":{"k":["l",[]]},"broadcasts":{},"blocks":{},"comments":{},"currentCostume":0,"costumes":[{"name":"b1","dataFormat":"svg","assetId":"0","md5ext":"0.svg","rotationCenterX":240,"rotationCenterY":180}],"sounds":[{"name":"pop","assetId":"1","dataFormat":"wav","md5ext":"1.wav"}],"volume":100,"layerOrder":0,"tempo":60},{"isStage":false,"name":"Cat","variables":{},"lists":{},"broadcasts":{},"blocks":{"a":{"opcode":"q","next":"gone"},"b":{"opcode":"procedures_call"}},"comments":{},"currentCostume":0,"costumes":[{"name":"c1","dataFormat":"svg","assetId":"2","md5ext":"2.svg"}],"sounds":[],"volume":100,"layerOrder":1,"visible":true,"x":0,"y":0,"size":100,"direction":90,"draggable":false,"rotationStyle":"all around"}],"monitors":[{"id":"v","mode":"default","opcode":"data_variable","params":{"VARIABLE":"n"},"spriteName":null,"value":0,"visible":true}],"extensions":[],"meta":{"semver":"3.0.0"}}"#,
        r#"P11 1 1 Missing"#,
    ),
    (
        r#"{"targets":[{"isStage":true,"name":"Stage","variables":{"v":["n",0]},"lists":{"k":["l",[]]},"broadcasts":{},"blocks":{},"comments":{},"currentCostume":0,"costumes":[{"name":"b1","dataFormat":"svg","assetId":"0","md5ext":"0.svg","rotationCenterX":240,"rotationCenterY":180}],"sounds":[{"name":"pop","assetId":"1","dataFormat":"wav","md5ext":"1.wav"}],"volume":100,"layerOrder":0,"tempo":60},{"isStage":false,"name":"Cat","variables":{},"lists":{},"broadcasts":{},"blocks":{"a1":{"opcode":"procedures_prototype","mutation":{"argumentids":"[]","argumentnames":"[]"}}},"comments":{},"currentCostume":0,"costumes":[{"name":"c1","dataFormat":"svg","assetId":"2","md5ext":"2.svg"}],"sounds":[],"volume":100,"layerOrder":1,"visible":true,"x":0,"y":0,"size":100,"direction":90,"draggable":false,"rotationStyle":"all around"}],"monitors":[{"id":"v","mode":"default","opcode":"data_variable","params":{"VARIABLE":"n"},"spriteName":null,"value":0,"visible":true}],"extensions":[],"meta":{"semver":"3.0.0"}}"#,
        r#"P11 1 0 Missing"#,
    ),
    (
        r#"{"targets":[{"isStage":true,"name":"Stage","variables":{"v":["n",0]},"lists":{"k":["l",[]]},"broadcasts":{},"blocks":{},"comments":{},"currentCostume":0,"costumes":[{"name":"b1","dataFormat":"svg","assetId":"0","md5ext":"0.svg","rotationCenterX":240,"rotationCenterY":180}],"sounds":[{"name":"pop","assetId":"1","dataFormat":"wav","md5ext":"1.wav"}],"volume":100,"layerOrder":0,"tempo":60},{"isStage":false,"name":"Cat","variables":{},"lists":{},"broadcasts":{},"blocks":{"a1":{"opcode":"procedures_prototype","mutation":{"proccode":null,"argumentids":"[]","argumentnames":"[]"}}},"comments":{},"currentCostume":0,"costumes":[{"name":"c1","dataFormat":"svg","assetId":"2","md5ext":"2.svg"}],"sounds":[],"volume":100,"layerOrder":1,"visible":true,"x":0,"y":0,"size":100,"direction":90,"draggable":false,"rotationStyle":"all around"}],"monitors":[{"id":"v","mode":"default","opcode":"data_variable","params":{"VARIABLE":"n"},"spriteName":null,"value":0,"visible":true}],"extensions":[],"meta":{"semver":"3.0.0"}}"#,
        r#"P11 1 0 Missing"#,
    ),
    (
        r#"{"targets":[{"isStage":true,"name":"Stage","variables":{"v":["n",0]},"lists":{"k":["l",[]]},"broadcasts":{},"blocks":{},"comments":{},"currentCostume":0,"costumes":[{"name":"b1","dataFormat":"svg","assetId":"0","md5ext":"0.svg","rotationCenterX":240,"rotationCenterY":180}],"sounds":[{"name":"pop","assetId":"1","dataFormat":"wav","md5ext":"1.wav"}],"volume":100,"layerOrder":0,"tempo":60},{"isStage":false,"name":"Cat","variables":{},"lists":{},"broadcasts":{},"blocks":{"a1":{"opcode":"procedures_prototype","mutation":{"proccode":"p","argumentids":"[]","argumentnames":"true"}}},"comments":{},"currentCostume":0,"costumes":[{"name":"c1","dataFormat":"svg","assetId":"2","md5ext":"2.svg"}],"sounds":[],"volume":100,"layerOrder":1,"visible":true,"x":0,"y":0,"size":100,"direction":90,"draggable":false,"rotationStyle":"all around"}],"monitors":[{"id":"v","mode":"default","opcode":"data_variable","params":{"VARIABLE":"n"},"spriteName":null,"value":0,"visible":true}],"extensions":[],"meta":{"semver":"3.0.0"}}"#,
        r#"P11 1 0 BadText"#,
    ),
    (
        r#"{"targets":[{"isStage":true,"name":"Stage","variables":{"v":["n",0]},"lists":{"k":["l",[]]},"broadcasts":{},"blocks":{},"comments":{},"currentCostume":0,"costumes":[{"name":"b1","dataFormat":"svg","assetId":"0","md5ext":"0.svg","rotationCenterX":240,"rotationCenterY":180}],"sounds":[{"name":"pop","assetId":"1","dataFormat":"wav","md5ext":"1.wav"}],"volume":100,"layerOrder":0,"tempo":60},{"isStage":false,"name":"Cat","variables":{},"lists":{},"broadcasts":{},"blocks":{"a1":{"opcode":"procedures_prototype","mutation":{"proccode":"p","argumentids":"null","argumentnames":"[]"}}},"comments":{},"currentCostume":0,"costumes":[{"name":"c1","dataFormat":"svg","assetId":"2","md5ext":"2.svg"}],"sounds":[],"volume":100,"layerOrder":1,"visible":true,"x":0,"y":0,"size":100,"direction":90,"draggable":false,"rotationStyle":"all around"}],"monitors":[{"id":"v","mode":"default","opcode":"data_variable","params":{"VARIABLE":"n"},"spriteName":null,"value":0,"visible":true}],"extensions":[],"meta":{"semver":"3.0.0"}}"#,
        r#"P11 1 0 BadText"#,
    ),
    (
        r#"{"targets":[{"isStage":true,"name":"Stage","variables":{"v":["n",0]},"lists":{"k":["l",[]]},"broadcasts":{},"blocks":{},"comments":{},"currentCostume":0,"costumes":[{"name":"b1","dataFormat":"svg","assetId":"0","md5ext":"0.svg","rotationCenterX":240,"rotationCenterY":180}],"sounds":[{"name":"pop","assetId":"1","dataFormat":"wav","md5ext":"1.wav"}],"volume":100,"layerOrder":0,"tempo":60},{"isStage":false,"name":"Cat","variables":{},"lists":{},"broadcasts":{},"blocks":{"a1":{"opcode":"procedures_prototype","mutation":{"proccode":"p","argumentids":"true","argumentnames":"[]"}}},"comments":{},"currentCostume":0,"costumes":[{"name":"c1","dataFormat":"svg","assetId":"2","md5ext":"2.svg"}],"sounds":[],"volume":100,"layerOrder":1,"visible":true,"x":0,"y":0,"size":100,"direction":90,"draggable":false,"rotationStyle":"all around"}],"monitors":[{"id":"v","mode":"default","opcode":"data_variable","params":{"VARIABLE":"n"},"spriteName":null,"value":0,"visible":true}],"extensions":[],"meta":{"semver":"3.0.0"}}"#,
        r#"P11 1 0 BadText"#,
    ),
    (
        r#"{"targets":[{"isStage":true,"name":"Stage","variables":{"v":["n",0]},"lists":{"k":["l",[]]},"broadcasts":{},"blocks":{},"comments":{},"currentCostume":0,"costumes":[{"name":"b1","dataFormat":"svg","assetId":"0","md5ext":"0.svg","rotationCenterX":240,"rotationCenterY":180}],"sounds":[{"name":"pop","assetId":"1","dataFormat":"wav","md5ext":"1.wav"}],"volume":100,"layerOrder":0,"tempo":60},{"isStage":false,"name":"Cat","variables":{},"lists":{},"broadcasts":{},"blocks":{"a1":{"opcode":"procedures_prototype","mutation":{"proccode":"p","argumentids":"[]","argumentnames":"[]","warp":1}}},"comments":{},"currentCostume":0,"costumes":[{"name":"c1","dataFormat":"svg","assetId":"2","md5ext":"2.svg"}],"sounds":[],"volume":100,"layerOrder":1,"visible":true,"x":0,"y":0,"size":100,"direction":90,"draggable":false,"rotationStyle":"all around"}],"monitors":[{"id":"v","mode":"default","opcode":"data_variable","params":{"VARIABLE":"n"},"spriteName":null,"value":0,"visible":true}],"extensions":[],"meta":{"semver":"3.0.0"}}"#,
        r#"P11 1 0 BadText"#,
    ),
    (
        r#"{"targets":[{"isStage":true,"name":"Stage","variables":{"v":["n",0]},"lists":{"k":["l",[]]},"broadcasts":{},"blocks":{},"comments":{},"currentCostume":0,"costumes":[{"name":"b1","dataFormat":"svg","assetId":"0","md5ext":"0.svg","rotationCenterX":240,"rotationCenterY":180}],"sounds":[{"name":"pop","assetId":"1","dataFormat":"wav","md5ext":"1.wav"}],"volume":100,"layerOrder":0,"tempo":60},{"isStage":false,"name":"Cat","variables":{},"lists":{},"broadcasts":{},"blocks":{"a1":{"opcode":"procedures_prototype","mutation":{"proccode":"p","argumentids":"[]","argumentnames":"[]","argumentdefaults":[]}}},"comments":{},"currentCostume":0,"costumes":[{"name":"c1","dataFormat":"svg","assetId":"2","md5ext":"2.svg"}],"sounds":[],"volume":100,"layerOrder":1,"visible":true,"x":0,"y":0,"size":100,"direction":90,"draggable":false,"rotationStyle":"all around"}],"monitors":[{"id":"v","mode":"default","opcode":"data_variable","params":{"VARIABLE":"n"},"spriteName":null,"value":0,"visible":true}],"extensions":[],"meta":{"semver":"3.0.0"}}"#,
        r#"P11 1 0 BadText"#,
    ),
    (
        r#"{"targets":[{"isStage":true,"name":"Stage","variables":{"v":["n",0]},"lists":{"k":["l",[]]},"broadcasts":{},"blocks":{},"comments":{},"currentCostume":0,"costumes":[{"name":"b1","dataFormat":"svg","assetId":"0","md5ext":"0.svg","rotationCenterX":240,"rotationCenterY":180}],"sounds":[{"name":"pop","assetId":"1","dataFormat":"wav","md5ext":"1.wav"}],"volume":100,"layerOrder":0,"tempo":60},{"isStage":false,"name":"Cat","variables":{},"lists":{},"broadcasts":{},"blocks":{"a1":{"opcode":"procedures_prototype","mutation":{"proccode":"p","argumentids":"[]","argumentnames":"[]","argumentdefaults":true}}},"comments":{},"currentCostume":0,"costumes":[{"name":"c1","dataFormat":"svg","assetId":"2","md5ext":"2.svg"}],"sounds":[],"volume":100,"layerOrder":1,"visible":true,"x":0,"y":0,"size":100,"direction":90,"draggable":false,"rotationStyle":"all around"}],"monitors":[{"id":"v","mode":"default","opcode":"data_variable","params":{"VARIABLE":"n"},"spriteName":null,"value":0,"visible":true}],"extensions":[],"meta":{"semver":"3.0.0"}}"#,
        r#"P11 1 0 BadText"#,
    ),
    (
        r#"{"targets":[{"isStage":true,"name":"Stage","variables":{"v":["n",0]},"lists":{"k":["l",[]]},"broadcasts":{},"blocks":{},"comments":{},"currentCostume":0,"costumes":[{"name":"b1","dataFormat":"svg","assetId":"0","md5ext":"0.svg","rotationCenterX":240,"rotationCenterY":180}],"sounds":[{"name":"pop","assetId":"1","dataFormat":"wav","md5ext":"1.wav"}],"volume":100,"layerOrder":0,"tempo":60},{"isStage":false,"name":"Cat","variables":{},"lists":{},"broadcasts":{},"blocks":{"a1":{"opcode":"procedures_prototype","mutation":{"proccode":"p","argumentids":"[]","argumentnames":"[]","argumentdefaults":"null"}}},"comments":{},"currentCostume":0,"costumes":[{"name":"c1","dataFormat":"svg","assetId":"2","md5ext":"2.svg"}],"sounds":[],"volume":100,"layerOrder":1,"visible":true,"x":0,"y":0,"size":100,"direction":90,"draggable":false,"rotationStyle":"all around"}],"monitors":[{"id":"v","mode":"default","opcode":"data_variable","params":{"VARIABLE":"n"},"spriteName":null,"value":0,"visible":true}],"extensions":[],"meta":{"semver":"3.0.0"}}"#,
        r#"P11 1 0 BadText"#,
    ),
];

// P6: links that name no block.
pub static LINKS: [(&str, &str); 9] = [
    (
        r#"{"targets":[{"isStage":true,"name":"S","costumes":[{"name":"b"}],"blocks":{"b0":{"opcode":"q"},"b1":{"opcode":"q","next":"gone"}}}]}"#,
        r#"P6 0 1 gone"#,
    ),
    (
        r#"{"targets":[{"isStage":true,"name":"S","costumes":[{"name":"b"}],"blocks":{"b0":{"opcode":"q","inputs":{"A":[2,"gone 2"]}},"b1":{"opcode":"q"},"b2":{"opcode":"q"}}}]}"#,
        r#"P6 0 0 gone 2"#,
    ),
    (
        r#"{"targets":[{"isStage":true,"name":"S","costumes":[{"name":"b"}],"blocks":{"b0":{"opcode":"q"},"b1":{"opcode":"q","inputs":{"A":[2,"gone 2"]}},"b2":{"opcode":"q"}}}]}"#,
        r#"P6 0 1 gone 2"#,
    ),
    (
        r#"{"targets":[{"isStage":true,"name":"S","costumes":[{"name":"b"}],"blocks":{"b0":{"opcode":"q"},"b1":{"opcode":"q"},"b2":{"opcode":"q","inputs":{"A":[2,"gone 2"]}},"b3":{"opcode":"q"},"b4":{"opcode":"q"}}}]}"#,
        r#"P6 0 2 gone 2"#,
    ),
    (
        r#"{"targets":[{"isStage":true,"name":"Stage","variables":{"v":["n",0]},"lists":{"k":["l",[]]},"broadcasts":{},"blocks":{},"comments":{},"currentCostume":0,"costumes":[{"name":"b1","dataFormat":"svg","assetId":"0","md5ext":"0.svg","rotationCenterX":240,"rotationCenterY":180}],"sounds":[{"name":"pop","assetId":"1","dataFormat":"wav","md5ext":"1.wav"}],"volume":100,"layerOrder":0,"tempo":60},{"isStage":false,"name":"Cat","variables":{},"lists":{},"broadcasts":{},"blocks":{"a":{"opcode":"q","inputs":{"custom_block":[2,"gone"]}}},"comments":{},"currentCostume":0,"costumes":[{"name":"c1","dataFormat":"svg","assetId":"2","md5ext":"2.svg"}],"sounds":[],"volume":100,"layerOrder":1,"visible":true,"x":0,"y":0,"size":100,"direction":90,"draggable":false,"rotationStyle":"all around"}],"monitors":[{"id":"v","mode":"default","opcode":"data_variable","params":{"VARIABLE":"n"},"spriteName":null,"value":0,"visible":true}],"extensions":[],"meta":{"semver":"3.0.0"}}"#,
        r#"P6 1 0 gone"#,
    ),
    (
        r#"{"targets":[{"isStage":true,"name":"Stage","variables":{"v":["n",0]},"lists":{"k":["l",[]]},"broadcasts":{},"blocks":{"a":{"opcode":"q","next":"a"}},"comments":{},"currentCostume":0,"costumes":[{"name":"b1","dataFormat":"svg","assetId":"0","md5ext":"0.svg","rotationCenterX":240,"rotationCenterY":180}],"sounds":[{"name":"pop","assetId":"1","dataFormat":"wav","md5ext":"1.wav"}],"volume":100,"layerOrder":0,"tempo":60},{"isStage":false,"name":"Cat","variables":{},"lists":{},"broadcasts":{},"blocks":{"a":{"opcode":"q","next":"gone"}},"comments":{},"currentCostume":0,"costumes":[{"name":"c1","dataFormat":"svg","assetId":"2","md5ext":"2.svg"}],"sounds":[],"volume":100,"layerOrder":1,"visible":false,"x":0,"y":0,"size":100,"direction":90,"draggable":false,"rotationStyle":"all around"}],"monitors":[{"id":"v","mode":"default","opcode":"data_variable","params":{"VARIABLE":"n"},"spriteName":null,"value":0,"visible":true}],"extensions":[],"meta":{"semver":"3.0.0"}}"#,
        r#"P6 1 0 gone"#,
    ),
    (
        r#"{"targets":[{"isStage":true,"name":"Stage","variables":{"v":["n",0]},"lists":{"k":["l",[]]},"broadcasts":{},"blocks":{},"comments":{},"currentCostume":0,"costumes":[{"name":"b1","dataFormat":"svg","assetId":"0","md5ext":"0.svg","rotationCenterX":240,"rotationCenterY":180}],"sounds":[{"name":"pop","assetId":"1","dataFormat":"wav","md5ext":"1.wav"}],"volume":100,"layerOrder":0,"tempo":60},{"isStage":false,"name":"Cat","variables":{},"lists":{},"broadcasts":{},"blocks":{"a1":{"opcode":"event_whenflagclicked","next":"a2","topLevel":true},"a2":{"opcode":"looks_show","next":"zz"}},"comments":{},"currentCostume":0,"costumes":[{"name":"c1","dataFormat":"svg","assetId":"2","md5ext":"2.svg"}],"sounds":[],"volume":100,"layerOrder":1,"visible":true,"x":0,"y":0,"size":100,"direction":90,"draggable":false,"rotationStyle":"all around"}],"monitors":[{"id":"v","mode":"default","opcode":"data_variable","params":{"VARIABLE":"n"},"spriteName":null,"value":0,"visible":true}],"extensions":[],"meta":{"semver":"3.0.0"}}"#,
        r#"P6 1 1 zz"#,
    ),
    (
        r#"{"targets":[{"isStage":true,"name":"Stage","variables":{"v":["n",0]},"lists":{"k":["l",[]]},"broadcasts":{},"blocks":{},"comments":{},"currentCostume":0,"costumes":[{"name":"b1","dataFormat":"svg","assetId":"0","md5ext":"0.svg","rotationCenterX":240,"rotationCenterY":180}],"sounds":[{"name":"pop","assetId":"1","dataFormat":"wav","md5ext":"1.wav"}],"volume":100,"layerOrder":0,"tempo":60},{"isStage":false,"name":"Cat","variables":{},"lists":{},"broadcasts":{},"blocks":{"a1":{"opcode":"event_whenflagclicked","next":"a2","topLevel":true},"a2":{"opcode":"control_if","inputs":{"CONDITION":[2,"a3"]}},"a3":{"opcode":"sensing_touchingobject"},"a9":{"opcode":"x","next":"no"}},"comments":{},"currentCostume":0,"costumes":[{"name":"c1","dataFormat":"svg","assetId":"2","md5ext":"2.svg"}],"sounds":[],"volume":100,"layerOrder":1,"visible":true,"x":0,"y":0,"size":100,"direction":90,"draggable":false,"rotationStyle":"all around"}],"monitors":[{"id":"v","mode":"default","opcode":"data_variable","params":{"VARIABLE":"n"},"spriteName":null,"value":0,"visible":true}],"extensions":[],"meta":{"semver":"3.0.0"}}"#,
        r#"P6 1 3 no"#,
    ),
    (
        r#"{"targets":[{"isStage":true,"name":"Stage","variables":{"v":["n",0]},"lists":{"k":["l",[]]},"broadcasts":{},"blocks":{},"comments":{},"currentCostume":0,"costumes":[{"name":"b1","dataFormat":"svg","assetId":"0","md5ext":"0.svg","rotationCenterX":240,"rotationCenterY":180}],"sounds":[{"name":"pop","assetId":"1","dataFormat":"wav","md5ext":"1.wav"}],"volume":100,"layerOrder":0,"tempo":60},{"isStage":false,"name":"Cat","variables":{},"lists":{},"broadcasts":{},"blocks":{"a1":{"opcode":"event_whenflagclicked","next":"a2","topLevel":true},"a2":{"opcode":"data_setvariableto","next":"nowhere","inputs":{"VALUE":[1,[10,"x"]]},"fields":{"VARIABLE":["n","v"]}},"a3":{"opcode":"control_stop","fields":{"STOP_OPTION":["all"]}}},"comments":{},"currentCostume":0,"costumes":[{"name":"c1","dataFormat":"svg","assetId":"2","md5ext":"2.svg"}],"sounds":[],"volume":100,"layerOrder":1,"visible":true,"x":0,"y":0,"size":100,"direction":90,"draggable":false,"rotationStyle":"all around"}],"monitors":[{"id":"v","mode":"default","opcode":"data_variable","params":{"VARIABLE":"n"},"spriteName":null,"value":0,"visible":true}],"extensions":[],"meta":{"semver":"3.0.0"}}"#,
        r#"P6 1 1 nowhere"#,
    ),
];

// P7: cycles.
pub static CYCLES: [(&str, &str); 8] = [
    (
        r#"{"targets":[{"isStage":true,"name":"S","costumes":[{"name":"b"}],"blocks":{"b0":{"opcode":"q","inputs":{"A":[2,"b0"]}},"b1":{"opcode":"q","next":"b0"}}}]}"#,
        r#"P7 0 0"#,
    ),
    (
        r#"{"targets":[{"isStage":true,"name":"S","costumes":[{"name":"b"}],"blocks":{"b0":{"opcode":"q","next":"b0"},"b1":{"opcode":"q","inputs":{"A":[2,"b1"]}}}}]}"#,
        r#"P7 0 0"#,
    ),
    (
        r#"{"targets":[{"isStage":true,"name":"S","costumes":[{"name":"b"}],"blocks":{"b0":{"opcode":"q","next":"b0","inputs":{"A":[2,"b1"]}},"b1":{"opcode":"q","next":"b0"},"b2":{"opcode":"q"}}}]}"#,
        r#"P7 0 0"#,
    ),
    (
        r#"{"targets":[{"isStage":true,"name":"S","costumes":[{"name":"b"}],"blocks":{"b0":{"opcode":"q","next":"b2","inputs":{"A":[2,"b3"]}},"b1":{"opcode":"q","next":"b1","inputs":{"A":[2,"b2"]}},"b2":{"opcode":"q","inputs":{"A":[2,"b3"]}},"b3":{"opcode":"q","next":"b3"}}}]}"#,
        r#"P7 0 1"#,
    ),
    (
        r#"{"targets":[{"isStage":true,"name":"Stage","variables":{"v":["n",0]},"lists":{"k":["l",[]]},"broadcasts":{},"blocks":{},"comments":{},"currentCostume":0,"costumes":[{"name":"b1","dataFormat":"svg","assetId":"0","md5ext":"0.svg","rotationCenterX":240,"rotationCenterY":180}],"sounds":[{"name":"pop","assetId":"1","dataFormat":"wav","md5ext":"1.wav"}],"volume":100,"layerOrder":0,"tempo":60},{"isStage":false,"name":"Cat","variables":{},"lists":{},"broadcasts":{},"blocks":{"a1":{"opcode":"looks_show","next":"a2"},"a2":{"opcode":"looks_show","next":"a1"}},"comments":{},"currentCostume":0,"costumes":[{"name":"c1","dataFormat":"svg","assetId":"2","md5ext":"2.svg"}],"sounds":[],"volume":100,"layerOrder":1,"visible":true,"x":0,"y":0,"size":100,"direction":90,"draggable":false,"rotationStyle":"all around"}],"monitors":[{"id":"v","mode":"default","opcode":"data_variable","params":{"VARIABLE":"n"},"spriteName":null,"value":0,"visible":true}],"extensions":[],"meta":{"semver":"3.0.0"}}"#,
        r#"P7 1 0"#,
    ),
    (
        r#"{"targets":[{"isStage":true,"name":"Stage","variables":{"v":["n",0]},"lists":{"k":["l",[]]},"broadcasts":{},"blocks":{},"comments":{},"currentCostume":0,"costumes":[{"name":"b1","dataFormat":"svg","assetId":"0","md5ext":"0.svg","rotationCenterX":240,"rotationCenterY":180}],"sounds":[{"name":"pop","assetId":"1","dataFormat":"wav","md5ext":"1.wav"}],"volume":100,"layerOrder":0,"tempo":60},{"isStage":false,"name":"Cat","variables":{},"lists":{},"broadcasts":{},"blocks":{"a1":{"opcode":"event_whenflagclicked","next":"a2","topLevel":true},"a2":{"opcode":"looks_show","next":"a2"}},"comments":{},"currentCostume":0,"costumes":[{"name":"c1","dataFormat":"svg","assetId":"2","md5ext":"2.svg"}],"sounds":[],"volume":100,"layerOrder":1,"visible":true,"x":0,"y":0,"size":100,"direction":90,"draggable":false,"rotationStyle":"all around"}],"monitors":[{"id":"v","mode":"default","opcode":"data_variable","params":{"VARIABLE":"n"},"spriteName":null,"value":0,"visible":true}],"extensions":[],"meta":{"semver":"3.0.0"}}"#,
        r#"P7 1 1"#,
    ),
    (
        r#"{"targets":[{"isStage":true,"name":"Stage","variables":{"v":["n",0]},"lists":{"k":["l",[]]},"broadcasts":{},"blocks":{},"comments":{},"currentCostume":0,"costumes":[{"name":"b1","dataFormat":"svg","assetId":"0","md5ext":"0.svg","rotationCenterX":240,"rotationCenterY":180}],"sounds":[{"name":"pop","assetId":"1","dataFormat":"wav","md5ext":"1.wav"}],"volume":100,"layerOrder":0,"tempo":60},{"isStage":false,"name":"Cat","variables":{},"lists":{},"broadcasts":{},"blocks":{"a1":{"opcode":"event_whenflagclicked","next":"a2","topLevel":true},"a2":{"opcode":"data_changevariableby","next":"a3","inputs":{"VALUE":[1,[4,"1"]],"LOOP":[2,"a2"]},"fields":{"VARIABLE":["n","v"]},"shadow":true},"a3":{"opcode":"control_wait","inputs":{"DURATION":[1,[5,"1"]]}}},"comments":{},"currentCostume":0,"costumes":[{"name":"c1","dataFormat":"svg","assetId":"2","md5ext":"2.svg"}],"sounds":[],"volume":100,"layerOrder":1,"visible":false,"x":0,"y":0,"size":100,"direction":90,"draggable":false,"rotationStyle":"all around"}],"monitors":[{"id":"v","mode":"default","opcode":"data_variable","params":{"VARIABLE":"n"},"spriteName":null,"value":0,"visible":true},{"id":"k","opcode":"data_listcontents","params":{},"spriteName":null,"visible":true}],"extensions":[],"meta":{"semver":"3.0.0"}}"#,
        r#"P7 1 1"#,
    ),
    (
        r#"{"targets":[{"isStage":true,"name":"Stage","variables":{"v":["n",0]},"lists":{"k":["l",[]]},"broadcasts":{},"blocks":{},"comments":{},"currentCostume":0,"costumes":[{"name":"b1","dataFormat":"svg","assetId":"0","md5ext":"0.svg","rotationCenterX":240,"rotationCenterY":180}],"sounds":[{"name":"pop","assetId":"1","dataFormat":"wav","md5ext":"1.wav"}],"volume":100,"layerOrder":0,"tempo":60},{"isStage":false,"name":"Cat","variables":{},"lists":{},"broadcasts":{},"blocks":{"a1":{"opcode":"event_whenflagclicked","next":"a2","topLevel":true},"a2":{"opcode":"motion_goto","next":"a3","inputs":{"TO":[1,"a4"]}},"a4":{"opcode":"motion_goto_menu","fields":{"TO":["_random_"]},"shadow":true},"a3":{"opcode":"data_changevariableby","inputs":{"VALUE":[1,[4,"2"]]},"fields":{"VARIABLE":["n","v"]}},"cy1":{"opcode":"looks_show","next":"cy2"},"cy2":{"opcode":"looks_hide","next":"cy3"},"cy3":{"opcode":"looks_hide","next":"cy2"}},"comments":{},"currentCostume":0,"costumes":[{"name":"c1","dataFormat":"svg","assetId":"2","md5ext":"2.svg"}],"sounds":[],"volume":100,"layerOrder":1,"visible":false,"x":0,"y":0,"size":100,"direction":90,"draggable":false,"rotationStyle":"all around"}],"monitors":[{"id":"v","mode":"default","opcode":"data_variable","params":{"VARIABLE":"n"},"spriteName":null,"value":0,"visible":true}],"extensions":[],"meta":{"semver":"3.0.0"}}"#,
        r#"P7 1 5"#,
    ),
];

// P5: opcodes in their places.
pub static PLACES: [(&str, &str); 40] = [
    (
        r#"{"targets":[{"isStage":true,"name":"S","costumes":[{"name":"b"}],"blocks":{"h":{"opcode":"event_whenflagclicked","topLevel":true,"next":"a"},"a":{"opcode":"sensing_of"}}}]}"#,
        r#"P5 0 1 sensing_of"#,
    ),
    (
        r#"{"targets":[{"isStage":true,"name":"S","costumes":[{"name":"b"}],"blocks":{"h":{"opcode":"event_whenflagclicked","topLevel":true,"next":"a"},"a":{"opcode":"motion_ifonedgebounce"}}}]}"#,
        r#"P5 0 1 motion_ifonedgebounce"#,
    ),
    (
        r#"{"targets":[{"isStage":true,"name":"S","costumes":[{"name":"b"}],"blocks":{"h":{"opcode":"event_whenflagclicked","topLevel":true,"next":"a"},"a":{"opcode":"sensing_touchingobject"}}}]}"#,
        r#"P5 0 1 sensing_touchingobject"#,
    ),
    (
        r#"{"targets":[{"isStage":true,"name":"S","costumes":[{"name":"b"}],"blocks":{"z":{"opcode":"looks_show"},"h":{"opcode":"event_whenflagclicked","topLevel":true,"next":"a"},"a":{"opcode":"procedures_definition"}}}]}"#,
        r#"P5 0 2 procedures_definition"#,
    ),
    (
        r#"{"targets":[{"isStage":true,"name":"S","variables":{"v":["n",0]},"lists":{"k":["l",[]]},"costumes":[{"name":"b"}],"blocks":{"h":{"opcode":"event_whenflagclicked","topLevel":true,"next":"a"},"a":{"opcode":"operator_and"}}}]}"#,
        r#"P5 0 1 operator_and"#,
    ),
    (
        r#"{"targets":[{"isStage":true,"name":"S","variables":{"v":["n",0]},"lists":{"k":["l",[]]},"costumes":[{"name":"b"}],"blocks":{"h":{"opcode":"event_whenflagclicked","topLevel":true,"next":"a"},"a":{"opcode":"operator_not"}}}]}"#,
        r#"P5 0 1 operator_not"#,
    ),
    (
        r#"{"targets":[{"isStage":true,"name":"S","variables":{"v":["n",0]},"lists":{"k":["l",[]]},"costumes":[{"name":"b"}],"blocks":{"h":{"opcode":"event_whenflagclicked","topLevel":true,"next":"a"},"a":{"opcode":"sensing_timer"}}}]}"#,
        r#"P5 0 1 sensing_timer"#,
    ),
    (
        r#"{"targets":[{"isStage":true,"name":"S","variables":{"v":["n",0]},"lists":{"k":["l",[]]},"costumes":[{"name":"b"}],"blocks":{"h":{"opcode":"event_whenflagclicked","topLevel":true,"next":"a"},"a":{"opcode":"motion_yposition"}}}]}"#,
        r#"P5 0 1 motion_yposition"#,
    ),
    (
        r#"{"targets":[{"isStage":true,"name":"S","variables":{"v":["n",0]},"lists":{"k":["l",[]]},"costumes":[{"name":"b"}],"blocks":{"h":{"opcode":"event_whenflagclicked","topLevel":true,"next":"a"},"a":{"opcode":"sensing_mousedown"}}}]}"#,
        r#"P5 0 1 sensing_mousedown"#,
    ),
    (
        r#"{"targets":[{"isStage":true,"name":"S","variables":{"v":["n",0]},"lists":{"k":["l",[]]},"costumes":[{"name":"b"}],"blocks":{"h":{"opcode":"event_whenflagclicked","topLevel":true,"next":"a"},"a":{"opcode":"control_start_as_clone","topLevel":true}}}]}"#,
        r#"P5 0 1 control_start_as_clone"#,
    ),
    (
        r#"{"targets":[{"isStage":true,"name":"S","variables":{"v":["n",0]},"lists":{"k":["l",[]]},"costumes":[{"name":"b"}],"blocks":{"h":{"opcode":"event_whenflagclicked","topLevel":true,"next":"a"},"a":{"opcode":"event_whenthisspriteclicked","topLevel":true}}}]}"#,
        r#"P5 0 1 event_whenthisspriteclicked"#,
    ),
    (
        r#"{"targets":[{"isStage":true,"name":"S","variables":{"v":["n",0]},"lists":{"k":["l",[]]},"costumes":[{"name":"b"}],"blocks":{"h":{"opcode":"event_whenflagclicked","topLevel":true,"next":"a"},"a":{"opcode":"data_lengthoflist","fields":{"LIST":["l","k"]}}}}]}"#,
        r#"P5 0 1 data_lengthoflist"#,
    ),
    (
        r#"{"targets":[{"isStage":true,"name":"S","variables":{"v":["n",0]},"lists":{"k":["l",[]]},"costumes":[{"name":"b"}],"blocks":{"h":{"opcode":"event_whenflagclicked","topLevel":true,"next":"a"},"a":{"opcode":"data_listcontents","fields":{"LIST":["l","k"]}}}}]}"#,
        r#"P5 0 1 data_listcontents"#,
    ),
    (
        r#"{"targets":[{"isStage":true,"name":"S","variables":{"v":["n",0]},"lists":{"k":["l",[]]},"costumes":[{"name":"b"}],"blocks":{"h":{"opcode":"event_whenflagclicked","topLevel":true,"next":"a"},"a":{"opcode":"data_variable","fields":{"VARIABLE":["n","v"]}}}}]}"#,
        r#"P5 0 1 data_variable"#,
    ),
    (
        r#"{"targets":[{"isStage":true,"name":"S","variables":{"v":["n",0]},"lists":{"k":["l",[]]},"costumes":[{"name":"b"}],"blocks":{"h":{"opcode":"event_whenflagclicked","topLevel":true,"next":"a"},"a":{"opcode":"sensing_keypressed","inputs":{"KEY_OPTION":[1,[10,"x"]]}}}}]}"#,
        r#"P5 0 1 sensing_keypressed"#,
    ),
    (
        r#"{"targets":[{"isStage":false,"name":"C","costumes":[{"name":"c"}],"blocks":{"q":{"opcode":"looks_hide"}}},{"isStage":true,"name":"S","costumes":[{"name":"b"}],"blocks":{"h":{"opcode":"event_whenflagclicked","topLevel":true,"next":"a"},"a":{"opcode":"operator_not"}}}]}"#,
        r#"P5 1 1 operator_not"#,
    ),
    (
        r#"{"targets":[{"isStage":false,"name":"C","costumes":[{"name":"c"}],"blocks":{"q":{"opcode":"looks_hide"}}},{"isStage":true,"name":"S","costumes":[{"name":"b"}],"blocks":{"h":{"opcode":"event_whenflagclicked","topLevel":true,"next":"a"},"a":{"opcode":"data_variable"}}}]}"#,
        r#"P5 1 1 data_variable"#,
    ),
    (
        r#"{"targets":[{"isStage":true,"name":"S","variables":{"v":["n",0]},"lists":{"k":["l",[]]},"costumes":[{"name":"b"}],"blocks":{"h":{"opcode":"event_whenflagclicked","topLevel":true,"next":"a"},"a":{"opcode":"looks_costumenumbername","fields":{"NUMBER_NAME":["abs",null]}}}}]}"#,
        r#"P5 0 1 looks_costumenumbername"#,
    ),
    (
        r#"{"targets":[{"isStage":true,"name":"S","variables":{"v":["n",0]},"lists":{"k":["l",[]]},"costumes":[{"name":"b"}],"blocks":{"h":{"opcode":"event_whenflagclicked","topLevel":true,"next":"a"},"a":{"opcode":"argument_reporter_string_number","fields":{"VALUE":["abs",null]}}}}]}"#,
        r#"P5 0 1 argument_reporter_string_number"#,
    ),
    (
        r#"{"targets":[{"isStage":true,"name":"S","variables":{"v":["n",0]},"lists":{"k":["l",[]]},"costumes":[{"name":"b"}],"blocks":{"h":{"opcode":"event_whenflagclicked","topLevel":true,"next":"a"},"a":{"opcode":"looks_say","inputs":{"MESSAGE":[2,"r"]}},"r":{"opcode":"looks_show"}}}]}"#,
        r#"P5 0 2 looks_show"#,
    ),
    (
        r#"{"targets":[{"isStage":true,"name":"S","variables":{"v":["n",0]},"lists":{"k":["l",[]]},"costumes":[{"name":"b"}],"blocks":{"h":{"opcode":"event_whenflagclicked","topLevel":true,"next":"a"},"a":{"opcode":"operator_multiply","inputs":{"NUM1":[1,[10,"x"]],"NUM2":[1,[10,"x"]]}}}}]}"#,
        r#"P5 0 1 operator_multiply"#,
    ),
    (
        r#"{"targets":[{"isStage":true,"name":"S","variables":{"v":["n",0]},"lists":{"k":["l",[]]},"costumes":[{"name":"b"}],"blocks":{"h":{"opcode":"event_whenflagclicked","topLevel":true,"next":"a"},"a":{"opcode":"operator_subtract","inputs":{"NUM1":[1,[10,"x"]],"NUM2":[1,[10,"x"]]}}}}]}"#,
        r#"P5 0 1 operator_subtract"#,
    ),
    (
        r#"{"targets":[{"isStage":true,"name":"S","variables":{"v":["n",0]},"lists":{"k":["l",[]]},"costumes":[{"name":"b"}],"blocks":{"h":{"opcode":"event_whenflagclicked","topLevel":true,"next":"a"},"a":{"opcode":"operator_gt","inputs":{"OPERAND1":[1,[10,"x"]],"OPERAND2":[1,[10,"x"]]}}}}]}"#,
        r#"P5 0 1 operator_gt"#,
    ),
    (
        r#"{"targets":[{"isStage":true,"name":"S","variables":{"v":["n",0]},"lists":{"k":["l",[]]},"costumes":[{"name":"b"}],"blocks":{"h":{"opcode":"event_whenflagclicked","topLevel":true,"next":"a"},"a":{"opcode":"operator_join","inputs":{"STRING1":[1,[10,"x"]],"STRING2":[1,[10,"x"]]}}}}]}"#,
        r#"P5 0 1 operator_join"#,
    ),
    (
        r#"{"targets":[{"isStage":true,"name":"S","variables":{"v":["n",0]},"lists":{"k":["l",[]]},"costumes":[{"name":"b"}],"blocks":{"h":{"opcode":"event_whenflagclicked","topLevel":true,"next":"a"},"a":{"opcode":"operator_lt","inputs":{"OPERAND1":[1,[10,"x"]],"OPERAND2":[1,[10,"x"]]}}}}]}"#,
        r#"P5 0 1 operator_lt"#,
    ),
    (
        r#"{"targets":[{"isStage":true,"name":"S","variables":{"v":["n",0]},"lists":{"k":["l",[]]},"costumes":[{"name":"b"}],"blocks":{"h":{"opcode":"event_whenflagclicked","topLevel":true,"next":"a"},"a":{"opcode":"looks_say","inputs":{"MESSAGE":[2,"r"]}},"r":{"opcode":"control_forever"}}}]}"#,
        r#"P5 0 2 control_forever"#,
    ),
    (
        r#"{"targets":[{"isStage":true,"name":"S","variables":{"v":["n",0]},"lists":{"k":["l",[]]},"costumes":[{"name":"b"}],"blocks":{"h":{"opcode":"event_whenflagclicked","topLevel":true,"next":"a"},"a":{"opcode":"control_forever","inputs":{"SUBSTACK":[2,"r"]}},"r":{"opcode":"looks_size"}}}]}"#,
        r#"P5 0 2 looks_size"#,
    ),
    (
        r#"{"targets":[{"isStage":true,"name":"S","variables":{"v":["n",0]},"lists":{"k":["l",[]]},"costumes":[{"name":"b"}],"blocks":{"h":{"opcode":"event_whenflagclicked","topLevel":true,"next":"a"},"a":{"opcode":"operator_letter_of","inputs":{"LETTER":[1,[10,"x"]],"STRING":[1,[10,"x"]]}}}}]}"#,
        r#"P5 0 1 operator_letter_of"#,
    ),
    (
        r#"{"targets":[{"isStage":true,"name":"S","variables":{"v":["n",0]},"lists":{"k":["l",[]]},"costumes":[{"name":"b"}],"blocks":{"h":{"opcode":"event_whenflagclicked","topLevel":true,"next":"a"},"a":{"opcode":"looks_say","inputs":{"MESSAGE":[2,"r"]}},"r":{"opcode":"looks_nextbackdrop"}}}]}"#,
        r#"P5 0 2 looks_nextbackdrop"#,
    ),
    (
        r#"{"targets":[{"isStage":true,"name":"S","variables":{"v":["n",0]},"lists":{"k":["l",[]]},"costumes":[{"name":"b"}],"blocks":{"h":{"opcode":"event_whenflagclicked","topLevel":true,"next":"a"},"a":{"opcode":"looks_say","inputs":{"MESSAGE":[2,"r"]}},"r":{"opcode":"sensing_resettimer"}}}]}"#,
        r#"P5 0 2 sensing_resettimer"#,
    ),
    (
        r#"{"targets":[{"isStage":true,"name":"S","variables":{"v":["n",0]},"lists":{"k":["l",[]]},"costumes":[{"name":"b"}],"blocks":{"h":{"opcode":"event_whenflagclicked","topLevel":true,"next":"a"},"a":{"opcode":"looks_say","inputs":{"MESSAGE":[2,"r"]}},"r":{"opcode":"sound_cleareffects"}}}]}"#,
        r#"P5 0 2 sound_cleareffects"#,
    ),
    (
        r#"{"targets":[{"isStage":true,"name":"S","variables":{"v":["n",0]},"lists":{"k":["l",[]]},"costumes":[{"name":"b"}],"blocks":{"h":{"opcode":"event_whenflagclicked","topLevel":true,"next":"a"},"a":{"opcode":"control_forever","inputs":{"SUBSTACK":[2,"r"]}},"r":{"opcode":"operator_and"}}}]}"#,
        r#"P5 0 2 operator_and"#,
    ),
    (
        r#"{"targets":[{"isStage":true,"name":"S","variables":{"v":["n",0]},"lists":{"k":["l",[]]},"costumes":[{"name":"b"}],"blocks":{"h":{"opcode":"event_whenflagclicked","topLevel":true,"next":"a"},"a":{"opcode":"data_itemoflist","inputs":{"INDEX":[1,[10,"x"]]},"fields":{"LIST":["l","k"]}}}}]}"#,
        r#"P5 0 1 data_itemoflist"#,
    ),
    (
        r#"{"targets":[{"isStage":true,"name":"S","variables":{"v":["n",0]},"lists":{"k":["l",[]]},"costumes":[{"name":"b"}],"blocks":{"h":{"opcode":"event_whenflagclicked","topLevel":true,"next":"a"},"a":{"opcode":"control_forever","inputs":{"SUBSTACK":[2,"r"]}},"r":{"opcode":"sensing_timer"}}}]}"#,
        r#"P5 0 2 sensing_timer"#,
    ),
    (
        r#"{"targets":[{"isStage":true,"name":"S","variables":{"v":["n",0]},"lists":{"k":["l",[]]},"costumes":[{"name":"b"}],"blocks":{"h":{"opcode":"event_whenflagclicked","topLevel":true,"next":"a"},"a":{"opcode":"looks_say","inputs":{"MESSAGE":[2,"r"]}},"r":{"opcode":"control_repeat_until"}}}]}"#,
        r#"P5 0 2 control_repeat_until"#,
    ),
    (
        r#"{"targets":[{"isStage":true,"name":"S","variables":{"v":["n",0]},"lists":{"k":["l",[]]},"costumes":[{"name":"b"}],"blocks":{"h":{"opcode":"event_whenflagclicked","topLevel":true,"next":"a"},"a":{"opcode":"control_forever","inputs":{"SUBSTACK":[2,"r"]}},"r":{"opcode":"motion_yposition"}}}]}"#,
        r#"P5 0 2 motion_yposition"#,
    ),
    (
        r#"{"targets":[{"isStage":true,"name":"S","variables":{"v":["n",0]},"lists":{"k":["l",[]]},"costumes":[{"name":"b"}],"blocks":{"h":{"opcode":"event_whenflagclicked","topLevel":true,"next":"a"},"a":{"opcode":"event_whenbackdropswitchesto","fields":{"BACKDROP":["abs",null]},"topLevel":true}}}]}"#,
        r#"P5 0 1 event_whenbackdropswitchesto"#,
    ),
    (
        r#"{"targets":[{"isStage":true,"name":"S","costumes":[{"name":"b"}],"blocks":{"z":{"opcode":"looks_show"},"h":{"opcode":"event_whenflagclicked","topLevel":true,"next":"a"},"a":{"opcode":"data_setvariableto","inputs":{"Y":[2,"c"]}},"c":{"opcode":"menu","shadow":true,"fields":{},"inputs":{}}}}]}"#,
        r#"P5 0 3 menu"#,
    ),
    (
        r#"{"targets":[{"isStage":true,"name":"S","variables":{"v":["n",0]},"lists":{"k":["l",[]]},"costumes":[{"name":"b"}],"blocks":{"h":{"opcode":"event_whenflagclicked","topLevel":true,"next":"a"},"a":{"opcode":"control_forever","inputs":{"SUBSTACK":[2,"r"]}},"r":{"opcode":"sensing_mousedown"}}}]}"#,
        r#"P5 0 2 sensing_mousedown"#,
    ),
    (
        r#"{"targets":[{"isStage":true,"name":"S","variables":{"v":["n",0]},"lists":{"k":["l",[]]},"costumes":[{"name":"b"}],"blocks":{"h":{"opcode":"event_whenflagclicked","topLevel":true,"next":"a"},"a":{"opcode":"data_listcontainsitem","inputs":{"ITEM":[1,[10,"x"]]},"fields":{"LIST":["l","k"]}}}}]}"#,
        r#"P5 0 1 data_listcontainsitem"#,
    ),
];

// P8: required inputs.
pub static INPUTS: [(&str, &str); 26] = [
    (
        r#"{"targets":[{"isStage":true,"name":"S","costumes":[{"name":"b"}],"blocks":{"h":{"opcode":"event_whengreaterthan","topLevel":true,"next":"a"},"a":{"opcode":"control_if"}}}]}"#,
        r#"P8 0 0 VALUE"#,
    ),
    (
        r#"{"targets":[{"isStage":true,"name":"S","costumes":[{"name":"b"}],"blocks":{"h":{"opcode":"event_whengreaterthan","topLevel":true,"next":"a"},"a":{"opcode":"looks_show"}}}]}"#,
        r#"P8 0 0 VALUE"#,
    ),
    (
        r#"{"targets":[{"isStage":true,"name":"S","costumes":[{"name":"b"}],"blocks":{"z":{"opcode":"looks_show"},"h":{"opcode":"event_whenkeypressed","topLevel":true,"next":"a"},"a":{"opcode":"motion_gotoxy"}}}]}"#,
        r#"P8 0 2 X"#,
    ),
    (
        r#"{"targets":[{"isStage":true,"name":"S","costumes":[{"name":"b"}],"blocks":{"z":{"opcode":"looks_show"},"h":{"opcode":"event_whenflagclicked","topLevel":true,"next":"a"},"a":{"opcode":"data_setvariableto"}}}]}"#,
        r#"P8 0 2 VALUE"#,
    ),
    (
        r#"{"targets":[{"isStage":true,"name":"S","variables":{"v":["n",0]},"lists":{"k":["l",[]]},"costumes":[{"name":"b"}],"blocks":{"h":{"opcode":"event_whenflagclicked","topLevel":true,"next":"a"},"a":{"opcode":"looks_say","inputs":{}}}}]}"#,
        r#"P8 0 1 MESSAGE"#,
    ),
    (
        r#"{"targets":[{"isStage":true,"name":"S","variables":{"v":["n",0]},"lists":{"k":["l",[]]},"costumes":[{"name":"b"}],"blocks":{"h":{"opcode":"event_whenflagclicked","topLevel":true,"next":"a"},"a":{"opcode":"looks_think","inputs":{}}}}]}"#,
        r#"P8 0 1 MESSAGE"#,
    ),
    (
        r#"{"targets":[{"isStage":true,"name":"S","variables":{"v":["n",0]},"lists":{"k":["l",[]]},"costumes":[{"name":"b"}],"blocks":{"h":{"opcode":"event_whenflagclicked","topLevel":true,"next":"a"},"a":{"opcode":"motion_setx","inputs":{}}}}]}"#,
        r#"P8 0 1 X"#,
    ),
    (
        r#"{"targets":[{"isStage":true,"name":"S","variables":{"v":["n",0]},"lists":{"k":["l",[]]},"costumes":[{"name":"b"}],"blocks":{"h":{"opcode":"event_whenflagclicked","topLevel":true,"next":"a"},"a":{"opcode":"control_wait","inputs":{}}}}]}"#,
        r#"P8 0 1 DURATION"#,
    ),
    (
        r#"{"targets":[{"isStage":true,"name":"S","variables":{"v":["n",0]},"lists":{"k":["l",[]]},"costumes":[{"name":"b"}],"blocks":{"h":{"opcode":"event_whenflagclicked","topLevel":true,"next":"a"},"a":{"opcode":"control_repeat","inputs":{}}}}]}"#,
        r#"P8 0 1 TIMES"#,
    ),
    (
        r#"{"targets":[{"isStage":true,"name":"S","variables":{"v":["n",0]},"lists":{"k":["l",[]]},"costumes":[{"name":"b"}],"blocks":{"h":{"opcode":"event_whenflagclicked","topLevel":true,"next":"a"},"a":{"opcode":"looks_setsizeto","inputs":{}}}}]}"#,
        r#"P8 0 1 SIZE"#,
    ),
    (
        r#"{"targets":[{"isStage":true,"name":"S","variables":{"v":["n",0]},"lists":{"k":["l",[]]},"costumes":[{"name":"b"}],"blocks":{"h":{"opcode":"event_whenflagclicked","topLevel":true,"next":"a"},"a":{"opcode":"motion_turnleft","inputs":{}}}}]}"#,
        r#"P8 0 1 DEGREES"#,
    ),
    (
        r#"{"targets":[{"isStage":true,"name":"S","variables":{"v":["n",0]},"lists":{"k":["l",[]]},"costumes":[{"name":"b"}],"blocks":{"h":{"opcode":"event_whenflagclicked","topLevel":true,"next":"a"},"a":{"opcode":"motion_changexby","inputs":{}}}}]}"#,
        r#"P8 0 1 DX"#,
    ),
    (
        r#"{"targets":[{"isStage":true,"name":"S","variables":{"v":["n",0]},"lists":{"k":["l",[]]},"costumes":[{"name":"b"}],"blocks":{"h":{"opcode":"event_whenflagclicked","topLevel":true,"next":"a"},"a":{"opcode":"sensing_askandwait","inputs":{}}}}]}"#,
        r#"P8 0 1 QUESTION"#,
    ),
    (
        r#"{"targets":[{"isStage":true,"name":"S","variables":{"v":["n",0]},"lists":{"k":["l",[]]},"costumes":[{"name":"b"}],"blocks":{"h":{"opcode":"event_whenflagclicked","topLevel":true,"next":"a"},"a":{"opcode":"sound_playuntildone","inputs":{}}}}]}"#,
        r#"P8 0 1 SOUND_MENU"#,
    ),
    (
        r#"{"targets":[{"isStage":true,"name":"S","variables":{"v":["n",0]},"lists":{"k":["l",[]]},"costumes":[{"name":"b"}],"blocks":{"h":{"opcode":"event_whenflagclicked","topLevel":true,"next":"a"},"a":{"opcode":"event_broadcastandwait","inputs":{}}}}]}"#,
        r#"P8 0 1 BROADCAST_INPUT"#,
    ),
    (
        r#"{"targets":[{"isStage":true,"name":"S","variables":{"v":["n",0]},"lists":{"k":["l",[]]},"costumes":[{"name":"b"}],"blocks":{"h":{"opcode":"event_whenflagclicked","topLevel":true,"next":"a"},"a":{"opcode":"control_create_clone_of","inputs":{}}}}]}"#,
        r#"P8 0 1 CLONE_OPTION"#,
    ),
    (
        r#"{"targets":[{"isStage":true,"name":"S","variables":{"v":["n",0]},"lists":{"k":["l",[]]},"costumes":[{"name":"b"}],"blocks":{"h":{"opcode":"event_whenflagclicked","topLevel":true,"next":"a"},"a":{"opcode":"motion_pointindirection","inputs":{}}}}]}"#,
        r#"P8 0 1 DIRECTION"#,
    ),
    (
        r#"{"targets":[{"isStage":true,"name":"S","variables":{"v":["n",0]},"lists":{"k":["l",[]]},"costumes":[{"name":"b"}],"blocks":{"h":{"opcode":"event_whenflagclicked","topLevel":true,"next":"a"},"a":{"opcode":"looks_switchbackdroptoandwait","inputs":{}}}}]}"#,
        r#"P8 0 1 BACKDROP"#,
    ),
    (
        r#"{"targets":[{"isStage":true,"name":"S","variables":{"v":["n",0]},"lists":{"k":["l",[]]},"costumes":[{"name":"b"}],"blocks":{"h":{"opcode":"event_whenflagclicked","topLevel":true,"next":"a"},"a":{"opcode":"motion_gotoxy","inputs":{"Y":[1,[10,"x"]]}}}}]}"#,
        r#"P8 0 1 X"#,
    ),
    (
        r#"{"targets":[{"isStage":true,"name":"S","variables":{"v":["n",0]},"lists":{"k":["l",[]]},"costumes":[{"name":"b"}],"blocks":{"h":{"opcode":"event_whenflagclicked","topLevel":true,"next":"a"},"a":{"opcode":"looks_thinkforsecs","inputs":{"SECS":[1,[10,"x"]]}}}}]}"#,
        r#"P8 0 1 MESSAGE"#,
    ),
    (
        r#"{"targets":[{"isStage":true,"name":"S","variables":{"v":["n",0]},"lists":{"k":["l",[]]},"costumes":[{"name":"b"}],"blocks":{"h":{"opcode":"event_whenflagclicked","topLevel":true,"next":"a"},"a":{"opcode":"looks_thinkforsecs","inputs":{"MESSAGE":[1,[10,"x"]]}}}}]}"#,
        r#"P8 0 1 SECS"#,
    ),
    (
        r#"{"targets":[{"isStage":true,"name":"S","variables":{"v":["n",0]},"lists":{"k":["l",[]]},"costumes":[{"name":"b"}],"blocks":{"h":{"opcode":"event_whenflagclicked","topLevel":true,"next":"a"},"a":{"opcode":"data_addtolist","inputs":{},"fields":{"LIST":["l","k"]}}}}]}"#,
        r#"P8 0 1 ITEM"#,
    ),
    (
        r#"{"targets":[{"isStage":false,"name":"C","costumes":[{"name":"c"}],"blocks":{"q":{"opcode":"looks_hide"}}},{"isStage":true,"name":"S","costumes":[{"name":"b"}],"blocks":{"h":{"opcode":"event_whenflagclicked","topLevel":true,"next":"a"},"a":{"opcode":"control_repeat"}}}]}"#,
        r#"P8 1 1 TIMES"#,
    ),
    (
        r#"{"targets":[{"isStage":true,"name":"S","variables":{"v":["n",0]},"lists":{"k":["l",[]]},"costumes":[{"name":"b"}],"blocks":{"h":{"opcode":"event_whenflagclicked","topLevel":true,"next":"a"},"a":{"opcode":"data_setvariableto","inputs":{},"fields":{"VARIABLE":["n","v"]}}}}]}"#,
        r#"P8 0 1 VALUE"#,
    ),
    (
        r#"{"targets":[{"isStage":true,"name":"S","variables":{"v":["n",0]},"lists":{"k":["l",[]]},"costumes":[{"name":"b"}],"blocks":{"h":{"opcode":"event_whenflagclicked","topLevel":true,"next":"a"},"a":{"opcode":"looks_seteffectto","inputs":{},"fields":{"EFFECT":["abs",null]}}}}]}"#,
        r#"P8 0 1 VALUE"#,
    ),
    (
        r#"{"targets":[{"isStage":true,"name":"S","variables":{"v":["n",0]},"lists":{"k":["l",[]]},"costumes":[{"name":"b"}],"blocks":{"h":{"opcode":"event_whenflagclicked","topLevel":true,"next":"a"},"a":{"opcode":"data_changevariableby","inputs":{},"fields":{"VARIABLE":["n","v"]}}}}]}"#,
        r#"P8 0 1 VALUE"#,
    ),
];

// P9: fields.
pub static FIELDS: [(&str, &str); 20] = [
    (
        r#"{"targets":[{"isStage":true,"name":"S","variables":{"v":["n",0]},"lists":{"k":["l",[]]},"costumes":[{"name":"b"}],"blocks":{"a":{"opcode":"event_whenkeypressed","fields":{},"topLevel":true}}}]}"#,
        r#"P9 0 0 KEY_OPTION"#,
    ),
    (
        r#"{"targets":[{"isStage":true,"name":"S","variables":{"v":["n",0]},"lists":{"k":["l",[]]},"costumes":[{"name":"b"}],"blocks":{"a":{"opcode":"event_whenbroadcastreceived","fields":{},"topLevel":true}}}]}"#,
        r#"P9 0 0 BROADCAST_OPTION"#,
    ),
    (
        r#"{"targets":[{"isStage":true,"name":"S","variables":{"v":["n",0]},"lists":{"k":["l",[]]},"costumes":[{"name":"b"}],"blocks":{"h":{"opcode":"event_whenflagclicked","topLevel":true,"next":"a"},"a":{"opcode":"control_stop","fields":{}}}}]}"#,
        r#"P9 0 1 STOP_OPTION"#,
    ),
    (
        r#"{"targets":[{"isStage":true,"name":"S","variables":{"v":["n",0]},"lists":{"k":["l",[]]},"costumes":[{"name":"b"}],"blocks":{"h":{"opcode":"event_whenflagclicked","topLevel":true,"next":"a"},"a":{"opcode":"data_hidelist","fields":{}}}}]}"#,
        r#"P9 0 1 LIST"#,
    ),
    (
        r#"{"targets":[{"isStage":true,"name":"S","variables":{"v":["n",0]},"lists":{"k":["l",[]]},"costumes":[{"name":"b"}],"blocks":{"h":{"opcode":"event_whenflagclicked","topLevel":true,"next":"a"},"a":{"opcode":"data_showlist","fields":{}}}}]}"#,
        r#"P9 0 1 LIST"#,
    ),
    (
        r#"{"targets":[{"isStage":true,"name":"S","variables":{"v":["n",0]},"lists":{"k":["l",[]]},"costumes":[{"name":"b"}],"blocks":{"h":{"opcode":"event_whenflagclicked","topLevel":true,"next":"a"},"a":{"opcode":"data_deletealloflist","fields":{}}}}]}"#,
        r#"P9 0 1 LIST"#,
    ),
    (
        r#"{"targets":[{"isStage":true,"name":"S","variables":{"v":["n",0]},"lists":{"k":["l",[]]},"costumes":[{"name":"b"}],"blocks":{"h":{"opcode":"event_whenflagclicked","topLevel":true,"next":"a"},"a":{"opcode":"motion_setrotationstyle","fields":{}}}}]}"#,
        r#"P9 0 1 STYLE"#,
    ),
    (
        r#"{"targets":[{"isStage":false,"name":"C","costumes":[{"name":"c"}],"blocks":{"q":{"opcode":"looks_hide"}}},{"isStage":true,"name":"S","costumes":[{"name":"b"}],"blocks":{"h":{"opcode":"event_whenflagclicked","topLevel":true,"next":"a"},"a":{"opcode":"control_stop"}}}]}"#,
        r#"P9 1 1 STOP_OPTION"#,
    ),
    (
        r#"{"targets":[{"isStage":true,"name":"S","variables":{"v":["n",0]},"lists":{"k":["l",[]]},"costumes":[{"name":"b"}],"blocks":{"h":{"opcode":"event_whenflagclicked","topLevel":true,"next":"a"},"a":{"opcode":"data_addtolist","inputs":{"ITEM":[1,[10,"x"]]},"fields":{}}}}]}"#,
        r#"P9 0 1 LIST"#,
    ),
    (
        r#"{"targets":[{"isStage":true,"name":"S","variables":{"v":["n",0]},"lists":{"k":["l",[]]},"costumes":[{"name":"b"}],"blocks":{"h":{"opcode":"event_whenflagclicked","topLevel":true,"next":"a"},"a":{"opcode":"sound_seteffectto","inputs":{"VALUE":[1,[10,"x"]]},"fields":{}}}}]}"#,
        r#"P9 0 1 EFFECT"#,
    ),
    (
        r#"{"targets":[{"isStage":true,"name":"S","variables":{"v":["n",0]},"lists":{"k":["l",[]]},"costumes":[{"name":"b"}],"blocks":{"h":{"opcode":"event_whenflagclicked","topLevel":true,"next":"a"},"a":{"opcode":"sound_changeeffectby","inputs":{"VALUE":[1,[10,"x"]]},"fields":{}}}}]}"#,
        r#"P9 0 1 EFFECT"#,
    ),
    (
        r#"{"targets":[{"isStage":true,"name":"S","variables":{"v":["n",0]},"lists":{"k":["l",[]]},"costumes":[{"name":"b"}],"blocks":{"h":{"opcode":"event_whenflagclicked","topLevel":true,"next":"a"},"a":{"opcode":"looks_changeeffectby","inputs":{"CHANGE":[1,[10,"x"]]},"fields":{}}}}]}"#,
        r#"P9 0 1 EFFECT"#,
    ),
    (
        r#"{"targets":[{"isStage":true,"name":"S","variables":{"v":["n",0]},"lists":{"k":["l",[]]},"costumes":[{"name":"b"}],"blocks":{"h":{"opcode":"event_whenflagclicked","topLevel":true,"next":"a"},"a":{"opcode":"data_insertatlist","inputs":{"INDEX":[1,[10,"x"]],"ITEM":[1,[10,"x"]]},"fields":{}}}}]}"#,
        r#"P9 0 1 LIST"#,
    ),
    (
        r#"{"targets":[{"isStage":true,"name":"S","variables":{"v":["n",0]},"lists":{"k":["l",[]]},"costumes":[{"name":"b"}],"blocks":{"h":{"opcode":"event_whenflagclicked","topLevel":true,"next":"a"},"a":{"opcode":"looks_say","inputs":{"MESSAGE":[2,"r"]}},"r":{"opcode":"data_variable","fields":{}}}}]}"#,
        r#"P9 0 2 VARIABLE"#,
    ),
    (
        r#"{"targets":[{"isStage":true,"name":"S","variables":{"v":["n",0]},"lists":{"k":["l",[]]},"costumes":[{"name":"b"}],"blocks":{"h":{"opcode":"event_whenflagclicked","topLevel":true,"next":"a"},"a":{"opcode":"looks_say","inputs":{"MESSAGE":[2,"r"]}},"r":{"opcode":"data_lengthoflist","fields":{}}}}]}"#,
        r#"P9 0 2 LIST"#,
    ),
    (
        r#"{"targets":[{"isStage":true,"name":"S","variables":{"v":["n",0]},"lists":{"k":["l",[]]},"costumes":[{"name":"b"}],"blocks":{"h":{"opcode":"event_whenflagclicked","topLevel":true,"next":"a"},"a":{"opcode":"looks_say","inputs":{"MESSAGE":[2,"r"]}},"r":{"opcode":"data_listcontents","fields":{}}}}]}"#,
        r#"P9 0 2 LIST"#,
    ),
    (
        r#"{"targets":[{"isStage":true,"name":"S","variables":{"v":["n",0]},"lists":{"k":["l",[]]},"costumes":[{"name":"b"}],"blocks":{"h":{"opcode":"event_whenflagclicked","topLevel":true,"next":"a"},"a":{"opcode":"data_replaceitemoflist","inputs":{"INDEX":[1,[10,"x"]],"ITEM":[1,[10,"x"]]},"fields":{}}}}]}"#,
        r#"P9 0 1 LIST"#,
    ),
    (
        r#"{"targets":[{"isStage":true,"name":"S","variables":{"v":["n",0]},"lists":{"k":["l",[]]},"costumes":[{"name":"b"}],"blocks":{"h":{"opcode":"event_whenflagclicked","topLevel":true,"next":"a"},"a":{"opcode":"looks_say","inputs":{"MESSAGE":[2,"r"]}},"r":{"opcode":"looks_costumenumbername","fields":{}}}}]}"#,
        r#"P9 0 2 NUMBER_NAME"#,
    ),
    (
        r#"{"targets":[{"isStage":true,"name":"S","variables":{"v":["n",0]},"lists":{"k":["l",[]]},"costumes":[{"name":"b"}],"blocks":{"h":{"opcode":"event_whenflagclicked","topLevel":true,"next":"a"},"a":{"opcode":"looks_say","inputs":{"MESSAGE":[2,"r"]}},"r":{"opcode":"argument_reporter_boolean","fields":{}}}}]}"#,
        r#"P9 0 2 VALUE"#,
    ),
    (
        r#"{"targets":[{"isStage":true,"name":"S","variables":{"v":["n",0]},"lists":{"k":["l",[]]},"costumes":[{"name":"b"}],"blocks":{"h":{"opcode":"event_whenflagclicked","topLevel":true,"next":"a"},"a":{"opcode":"looks_say","inputs":{"MESSAGE":[2,"r"]}},"r":{"opcode":"operator_mathop","inputs":{"NUM":[1,[10,"x"]]},"fields":{}}}}]}"#,
        r#"P9 0 2 OPERATOR"#,
    ),
];

// Accepted projects.
pub static ACCEPTED: [(&str, &str); 30] = [
    (
        r#"{"targets":[{"isStage":true,"name":"S","costumes":[{"name":"b"}],"blocks":{"z":{"opcode":"q"},"a/b":[12,"n","v"]}}]}"#,
        r#"accepted 1 2"#,
    ),
    (
        r#"{"targets":[{"isStage":true,"name":"S","costumes":[{"name":"b"}],"blocks":{"z":{"opcode":"q"},"a/b":[12.0,"n","v"]}}]}"#,
        r#"accepted 1 2"#,
    ),
    (
        r#"{"targets":[{"isStage":true,"name":"S","costumes":[{"name":"b"}],"blocks":{"z":{"opcode":"q"},"a/b":[12.0000001,"n","v"]}}]}"#,
        r#"accepted 1 2"#,
    ),
    (
        r#"{"targets":[{"isStage":true,"name":"S","costumes":[{"name":"b"}],"blocks":{"b0":{"opcode":"q"},"b1":{"opcode":"q","next":"b0"}}}]}"#,
        r#"accepted 1 2"#,
    ),
    (
        r#"{"targets":[{"isStage":true,"name":"S","costumes":[{"name":"b"}],"blocks":{"z":{"opcode":"q"},"a/b":{"opcode":"q","next":null}}}]}"#,
        r#"accepted 1 2"#,
    ),
    (
        r#"{"targets":[{"isStage":true,"name":"S","costumes":[{"name":"b"}],"blocks":{"z":{"opcode":"q"},"a/b":{"opcode":"q","mutation":null}}}]}"#,
        r#"accepted 1 2"#,
    ),
    (
        r#"{"targets":[{"isStage":true,"name":"S","costumes":[{"name":"b"}],"blocks":{}},{"isStage":false,"name":"C","costumes":[{"name":"c"}],"blocks":{}}]}"#,
        r#"accepted 2 0"#,
    ),
    (
        r#"{"targets":[{"isStage":true,"name":"S","costumes":[{"name":"b"}],"blocks":{"z":{"opcode":"q"},"a/b":{"opcode":"q","fields":{"A":["x"],"F":[1.50]}}}}]}"#,
        r#"accepted 1 2"#,
    ),
    (
        r#"{"targets":[{"isStage":true,"name":"S","costumes":[{"name":"b"}],"blocks":{"z":{"opcode":"q"},"a/b":{"opcode":"q","fields":{"A":["x"],"F":["x",null]}}}}]}"#,
        r#"accepted 1 2"#,
    ),
    (
        r#"{"targets":[{"isStage":true,"name":"S","costumes":[{"name":"b"}],"blocks":{},"size":0},{"isStage":false,"name":"C","costumes":[{"name":"c"}],"blocks":{}}]}"#,
        r#"accepted 2 0"#,
    ),
    (
        r#"{"targets":[{"isStage":true,"name":"S","variables":{"v":["n",0]},"lists":{"k":["l",[]]},"costumes":[{"name":"b"}],"blocks":{"a":{"opcode":"looks_show"}}}]}"#,
        r#"accepted 1 1"#,
    ),
    (
        r#"{"targets":[{"isStage":true,"name":"S","variables":{"v":["n",0]},"lists":{"k":["l",[]]},"costumes":[{"name":"b"}],"blocks":{"a":{"opcode":"looks_size"}}}]}"#,
        r#"accepted 1 1"#,
    ),
    (
        r#"{"targets":[{"isStage":true,"name":"S","variables":{"v":["n",0]},"lists":{"k":["l",[]]},"costumes":[{"name":"b"}],"blocks":{"a":{"opcode":"operator_or"}}}]}"#,
        r#"accepted 1 1"#,
    ),
    (
        r#"{"targets":[{"isStage":true,"name":"S","variables":{"v":["n",0]},"lists":{"k":["l",[]]},"costumes":[{"name":"b"}],"blocks":{"a":{"opcode":"sound_volume"}}}]}"#,
        r#"accepted 1 1"#,
    ),
    (
        r#"{"targets":[{"isStage":true,"name":"S","variables":{"v":["n",0]},"lists":{"k":["l",[]]},"costumes":[{"name":"b"}],"blocks":{"a":{"opcode":"sensing_answer"}}}]}"#,
        r#"accepted 1 1"#,
    ),
    (
        r#"{"targets":[{"isStage":true,"name":"S","variables":{"v":["n",0]},"lists":{"k":["l",[]]},"costumes":[{"name":"b"}],"blocks":{"a":{"opcode":"sensing_mousex"}}}]}"#,
        r#"accepted 1 1"#,
    ),
    (
        r#"{"targets":[{"isStage":true,"name":"S","variables":{"v":["n",0]},"lists":{"k":["l",[]]},"costumes":[{"name":"b"}],"blocks":{"a":{"opcode":"control_if_else"}}}]}"#,
        r#"accepted 1 1"#,
    ),
    (
        r#"{"targets":[{"isStage":true,"name":"S","costumes":[{"name":"b"}],"blocks":{}},{"isStage":false,"name":"C","costumes":[{"name":"c"}],"blocks":{},"visible":true}]}"#,
        r#"accepted 2 0"#,
    ),
    (
        r#"{"targets":[{"isStage":true,"name":"S","variables":{"v":["n",0]},"lists":{"k":["l",[]]},"costumes":[{"name":"b"}],"blocks":{"a":{"opcode":"motion_xposition"}}}]}"#,
        r#"accepted 1 1"#,
    ),
    (
        r#"{"targets":[{"isStage":true,"name":"S","variables":{"v":["n",0]},"lists":{"k":["l",[]]},"costumes":[{"name":"b"}],"blocks":{"a":{"opcode":"sensing_mousedown"}}}]}"#,
        r#"accepted 1 1"#,
    ),
    (
        r#"{"targets":[{"isStage":true,"name":"S","costumes":[{"name":"b"}],"blocks":{"z":{"opcode":"q"},"a/b":{"opcode":"q","inputs":{"A":[1,[10,"x"]],"B c":[1e0,null]}}}}]}"#,
        r#"accepted 1 2"#,
    ),
    (
        r#"{"targets":[{"isStage":true,"name":"S","variables":{"v":["n",0]},"lists":{"k":["l",[]]},"costumes":[{"name":"b"}],"blocks":{"a":{"opcode":"control_wait_until"}}}]}"#,
        r#"accepted 1 1"#,
    ),
    (
        r#"{"targets":[{"isStage":true,"name":"S","variables":{"v":["n",0]},"lists":{"k":["l",[]]},"costumes":[{"name":"b"}],"blocks":{"a":{"opcode":"sensing_resettimer"}}}]}"#,
        r#"accepted 1 1"#,
    ),
    (
        r#"{"targets":[{"isStage":true,"name":"S","variables":{"v":["n",0]},"lists":{"k":["l",[]]},"costumes":[{"name":"b"}],"blocks":{"a":{"opcode":"sound_cleareffects"}}}]}"#,
        r#"accepted 1 1"#,
    ),
    (
        r#"{"targets":[{"isStage":true,"name":"S","costumes":[{"name":"b"}],"blocks":{}},{"isStage":false,"name":"C","costumes":[{"name":"c"}],"blocks":{},"rotationStyle":"x"}]}"#,
        r#"accepted 2 0"#,
    ),
    (
        r#"{"targets":[{"isStage":true,"name":"S","costumes":[{"name":"b"}],"blocks":{"z":{"opcode":"q"},"a/b":{"opcode":"q","inputs":{"A":[1,[10,"x"]],"B c":[1.0,[10,"x"]]}}}}]}"#,
        r#"accepted 1 2"#,
    ),
    (
        r#"{"targets":[{"isStage":true,"name":"S","costumes":[{"name":"b"}],"blocks":{}}],"monitors":[{"id":"v","opcode":"x"},{"id":"v","opcode":"x","visible":null,"params":null}]}"#,
        r#"accepted 1 0"#,
    ),
    (
        r#"{"targets":[{"isStage":true,"name":"S","variables":{"v":["n",0]},"lists":{"k":["l",[]]},"costumes":[{"name":"b"}],"blocks":{"a":{"opcode":"looks_cleargraphiceffects"}}}]}"#,
        r#"accepted 1 1"#,
    ),
    (
        r#"{"targets":[{"isStage":true,"name":"S","costumes":[{"name":"b"}],"blocks":{"z":{"opcode":"q"},"a/b":{"opcode":"q","inputs":{"A":[1,[10,"x"]],"B c":[1,[10.0000004,"x"]]}}}}]}"#,
        r#"accepted 1 2"#,
    ),
    (
        r#"{"targets":[{"isStage":true,"name":"S","variables":{"v":["n",0]},"lists":{"k":["l",[]]},"costumes":[{"name":"b"}],"blocks":{"a":{"opcode":"motion_sety","inputs":{"Y":[1,[10,"x"]]}}}}]}"#,
        r#"accepted 1 1"#,
    ),
];
