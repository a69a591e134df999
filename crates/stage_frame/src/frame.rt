//! The lines of a frame.

ghost use Rattle.std.specs.Prelude.{◌≡◌, ◌++◌, [], if◌then◌else◌, OnOk};
ghost use Rattle.machine_spec.specs.FrameText as machine;
ghost use Rattle.target_records.specs.Records.{records_in};
ghost use Rattle.stage_frame.specs.Found.{are_found};
ghost use Rattle.stage_frame.specs.Lines.{first_line, frame_lines};

use crate::instances::push_instances;
use crate::monitors::{push_all_made, push_file_monitors};
use crate::watches::Watch;
use crate::words::{push_natural, push_quoted, push_word};
use devices::{Devices, Question};
use std::alloc::AllocError;
use target_records::Records;
use targets::Targets;
use variables::Variables;

/// What the text of a frame tells: the number of the frame, from 1, how many random words were drawn, and the stores of the
/// run.
#[derive(Clone, Copy, Drop)]
pub struct View<'a> {
    pub frame: u64,
    pub words: u64,
    pub targets: &'a Targets,
    pub variables: &'a Variables,
    pub devices: &'a Devices,
}

// Appends the first line: the number of the frame, the clock in milliseconds, and how many random words were drawn.
fn push_first(out: &mut Vec<u8>, view: &View<'_>) -> Result<(), AllocError>
    ensures { OnOk result (out.new.items ≡ out.old.items ++ first_line view.now) }
{
    out.extend_from_slice(b"frame")?;
    push_natural(out, view.frame)?;
    push_word(out, "clock")?;
    push_natural(out, view.devices.clock())?;
    push_word(out, "words")?;
    push_natural(out, view.words)?;
    out.push(b'\n')?;
    Ok(())
}

// The text of a question; one that is shown as a bubble has the empty text.
fn question_text(question: &Question) -> &str
    ensures { result.now ≡ (if question.now.bubble then [] else question.now.text) }
{
    if question.bubble {
        ""
    } else {
        question.text.as_str()
    }
}

// Appends the line of the first question, where there is one.
fn push_question(out: &mut Vec<u8>, questions: &[Question]) -> Result<(), AllocError>
    ensures { OnOk result (out.new.items ≡ out.old.items ++ machine.question_line questions.now) }
{
    match questions {
        [] => Ok(()),
        [first, ..] => {
            out.extend_from_slice(b"ask")?;
            push_quoted(out, question_text(first))?;
            out.push(b'\n')?;
            Ok(())
        }
    }
}

// Appends all lines of a frame, by what each monitor of the file shows.
pub(crate) fn push_lines(
    out: &mut Vec<u8>,
    records: &Records,
    view: &View<'_>,
    watches: &[Watch],
) -> Result<(), AllocError>
    requires { watches.now ≡ are_found (records_in records.now) }
    ensures { OnOk result (out.new.items ≡ out.old.items ++ frame_lines (records_in records.now) view.now) }
{
    push_first(out, view)?;
    push_instances(out, records, view.targets.instances())?;
    push_question(out, view.devices.questions().as_slice())?;
    push_file_monitors(out, records, view, watches)?;
    push_all_made(out, records, view.variables)?;
    out.extend_from_slice(b"end\n")?;
    Ok(())
}
