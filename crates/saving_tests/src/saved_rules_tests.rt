//! What each refusal says in words.

use project_json::Text;
use saved_spec::SaveRefusal;
use std::alloc::{AllocError, AllocFailed, Global};

fn digits(alloc: Global, digit: char) -> Result<Text, AllocError> {
    let mut text = String::new(alloc);
    for _ in 0..64 {
        text.push(digit)?;
    }
    Ok(Text::from_string(text))
}

#[test]
fn tells_a_refusal_of_the_text(rt: HostRuntime) {
    let alloc = rt.alloc();
    let path = Text::from_str(alloc, "instances/1/x").expect(&rt, "memory");
    let told = format!(in alloc; "{}", SaveRefusal::Shape { path }).expect(&rt, "memory");
    assert_eq!(rt;
        told.as_str(),
        "the saved run has another shape at `instances/1/x`"
    );
    let told = format!(in alloc; "{}", SaveRefusal::Version { n: 9 }).expect(&rt, "memory");
    assert_eq!(rt; told.as_str(), "the saved run has version 9");
    let told = format!(in alloc; "{}", SaveRefusal::Json).expect(&rt, "memory");
    assert_eq!(rt; told.as_str(), "the saved run is no JSON text");
    let told = format!(in alloc; "{}", SaveRefusal::Spelling { at: 783 }).expect(&rt, "memory");
    assert_eq!(rt;
        told.as_str(),
        "the saved run is written in another way from byte 783 on"
    );
}

#[test]
fn tells_a_refusal_of_the_run(rt: HostRuntime) {
    let alloc = rt.alloc();
    let path = Text::from_str(alloc, "keys").expect(&rt, "memory");
    let told = format!(in alloc; "{}", SaveRefusal::BadReference { path }).expect(&rt, "memory");
    assert_eq!(rt; told.as_str(), "the saved run breaks a rule in `keys`");
    let told = format!(in alloc; "{}", SaveRefusal::BadThread { serial: 1 }).expect(&rt, "memory");
    assert_eq!(rt;
        told.as_str(),
        "the thread 1 of the saved run cannot stand so"
    );
    let other = SaveRefusal::OtherProject {
        kept: digits(alloc, '0').expect(&rt, "memory"),
        given: digits(alloc, 'f').expect(&rt, "memory"),
    };
    let told = format!(in alloc; "{}", other).expect(&rt, "memory");
    assert_eq!(rt; told.len(), 169);
}

#[test]
fn want_of_memory_is_told_as_such(rt: HostRuntime) {
    let alloc = rt.alloc();
    let told = format!(in alloc; "{}", SaveRefusal::from(AllocError)).expect(&rt, "memory");
    assert_eq!(rt; told.as_str(), "out of memory");
    let failed = AllocFailed { value: 0u8 };
    assert!(rt; matches!(SaveRefusal::from(failed), SaveRefusal::NoMemory));
}
