//! What documents tell: shapes, counts, the values that are kept, and what is added.

use std::alloc::{AllocError, Global};
use std::process::Abort;
use target_records::{RecordRefusal, Records, read};

mod added;
mod counts;
mod documents;
mod looks;

// What is read of a document.
fn told(rt: &(impl Abort + AllocGlobal), text: &str) -> Result<Records, RecordRefusal> {
    assert!(rt; text.len() < 4_000_000_000);
    match project_json::read(rt.alloc(), text.as_bytes()) {
        Ok(document) => read(rt.alloc(), &document),
        Err(_) => panic!(rt; "no JSON text"),
    }
}

fn records(rt: &(impl Abort + AllocGlobal), text: &str) -> Records {
    told(rt, text).ok().expect(rt, "records")
}

// A path, or the number of stages.
fn said(alloc: Global, refusal: &RecordRefusal) -> Result<String, AllocError> {
    match refusal {
        RecordRefusal::Shape { path } => format!(in alloc; "at {}", path.as_str()),
        RecordRefusal::StageCount { n } => format!(in alloc; "stages {n}"),
        RecordRefusal::TooMany { path } => format!(in alloc; "many {}", path.as_str()),
        RecordRefusal::NoMemory => Err(AllocError),
    }
}

// The refusal of a document, and the empty text where there is none.
fn refused(rt: &(impl Abort + AllocGlobal), text: &str) -> String {
    match told(rt, text) {
        Ok(_) => String::new(rt.alloc()),
        Err(refusal) => said(rt.alloc(), &refusal).expect(rt, "memory"),
    }
}
