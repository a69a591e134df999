//! The made project, played by the made script.

ghost use Rattle.std.specs.Prelude.{◌≡◌, ◌++◌, ◌∷◌, ◌<◌, ◌-◌, ◌^◌, [], None, IfOk, OnOk};
ghost use Rattle.scratch_values.specs.Value.{text_of};
ghost use Rattle.call_outcomes.specs.Seen.{ShelfNow, sink_now};
ghost use Rattle.call_outcomes.specs.Stages.{Writes};
ghost use Rattle.machine_spec.specs.Stores.{value_in};
ghost use Rattle.project_check.specs.Counts.{block_count};
ghost use Rattle.project_check.specs.Loaded.{program_of, tables_of};
ghost use Rattle.script_play.specs.Lines.{IsWriteEnd};
ghost use Rattle.script_play.specs.Stops.{course};
ghost use Rattle.play_command.specs.Command.{made as made_of};
ghost use Rattle.play_command.specs.Made.{frames_line, made_ending, made_line, made_seed};
ghost use Rattle.play_command.specs.Outcome.{output_of, words_of};
ghost use Rattle.play_command.specs.Making.{IsTelling, MadeEnds};
ghost use Rattle.play_command.specs.Saving.{EndsAs};
ghost use Rattle.play_command.specs.Stages.{Completes};

use crate::counts::push_natural;
use crate::endings::{played, refused};
use digest_sink::DigestSink;
use itoa::Buffer;
use machine_spec::InstanceId;
use made_texts::{project_text, script_text};
use project_check::{Project, load};
use run_save::Status;
use scratch_values::{BoundText, to_text};
use script_play::{PlayStop, play_lines, write};
use script_words::pcg;
use sequencer::Run;
use std::alloc::{AllocError, Global};
use sv_channels::Sink;
use variables::Variables;

// The seed of the random words.
const SEED: u64 = 1;

// What came of a run: the text of the stage's variable n, and of the bytes of all frame texts their number and their digest.
#[derive(Drop)]
struct Telling {
    value: BoundText,
    length: u128,
    digest: [u8; 32],
}

// What came of a run with these variables. The only error is want of memory.
fn telling_of(
    alloc: Global,
    variables: &Variables,
    frames: DigestSink,
) -> Result<Telling, AllocError>
    requires { frames.calls < 2 ^ 64 - 1 }
    ensures { IfOk result (λ telling. IsTelling (text_of (value_in 0 0 variables.now)) frames.written telling) }
{
    let value = to_text(alloc, variables.value(InstanceId(0), 0))?;
    let length = frames.length();
    let digest = frames.digest();
    Ok(Telling {
        value,
        length,
        digest,
    })
}

// Plays a script from the first world of a project on, and tells what came of it.
fn play_made(alloc: Global, project: &Project, script: &[u8]) -> Result<Telling, PlayStop>
    ensures { MadeEnds (output_of (program_of project.now) (words_of made_seed) script.now) result }
{
    let Ok(mut run) = Run::open(alloc, project, pcg(SEED, 0)) else {
        return Err(PlayStop::NoMemory);
    };
    let mut frames = DigestSink::new();
    match play_lines(alloc, project, &mut run, script, &mut frames) {
        Ok(()) => {}
        Err(stop) => return Err(stop),
    }
    match telling_of(alloc, run.variables(), frames) {
        Ok(telling) => Ok(telling),
        Err(_) => Err(PlayStop::NoMemory),
    }
}

// The line of the made project: `made N FRAMES blocks B n V`. The only error is want of memory.
fn made_line(
    alloc: Global,
    copies: u16,
    frames: u16,
    blocks: u32,
    value: &str,
) -> Result<Vec<u8>, AllocError>
    ensures { IfOk result (λ text. text.items ≡ made_line (record { copies = copies; frames = frames }) blocks value.now) }
{
    let mut text = Vec::from_slice(alloc, b"made ")?;
    push_natural(&mut text, u32::from(copies))?;
    text.push(b' ')?;
    push_natural(&mut text, u32::from(frames))?;
    text.extend_from_slice(b" blocks ")?;
    push_natural(&mut text, blocks)?;
    text.extend_from_slice(b" n ")?;
    text.extend_from_slice(value.as_bytes())?;
    text.push(b'\n')?;
    Ok(text)
}

// Appends the line of the frames: `frames L DIGEST`. The only error is want of memory.
fn push_frames_line(
    alloc: Global,
    out: &mut Vec<u8>,
    length: u128,
    digest: &[u8; 32],
) -> Result<(), AllocError>
    ensures { OnOk result (out.new.items ≡ out.old.items ++ frames_line length digest.now) }
{
    let digits = hex::encode(alloc, digest)?;
    let mut buffer = Buffer::new();
    out.extend_from_slice(b"frames ")?;
    out.extend_from_slice(buffer.format(length).as_bytes())?;
    out.push(b' ')?;
    out.extend_from_slice(digits.as_bytes())?;
    out.push(b'\n')?;
    Ok(())
}

// Both lines. The only error is want of memory.
fn made_text(
    alloc: Global,
    copies: u16,
    frames: u16,
    blocks: u32,
    telling: &Telling,
) -> Result<Vec<u8>, AllocError>
    ensures { IfOk result (λ text. text.items ≡ made_line (record { copies = copies; frames = frames }) blocks telling.now.value ++ frames_line telling.now.length telling.now.digest) }
{
    let mut text = made_line(alloc, copies, frames, blocks, telling.value.as_str())?;
    push_frames_line(alloc, &mut text, telling.length, &telling.digest)?;
    Ok(text)
}

// Writes what came of a run of the made project, by one write.
fn tell_made<K: Sink>(
    alloc: Global,
    copies: u16,
    frames: u16,
    blocks: u32,
    telling: &Telling,
    out: &mut K,
) -> Result<(), PlayStop>
    ensures ends { IsWriteEnd result }
    ensures writes { Writes (sink_now K.written K.faults K.calls out.old) (sink_now K.written K.faults K.calls out.new) ⊥
        ((made_line (record { copies = copies; frames = frames }) blocks telling.now.value ++ frames_line telling.now.length telling.now.digest) ∷ []) (course result) }
{
    let Ok(text) = made_text(alloc, copies, frames, blocks, telling) else {
        return Err(PlayStop::NoMemory);
    };
    write(alloc, &text, out)
}

// Plays the made script on a project, and writes what came of it.
fn play_and_tell<K: Sink>(
    alloc: Global,
    copies: u16,
    frames: u16,
    project: &Project,
    script: &[u8],
    out: &mut K,
) -> Result<(), PlayStop>
    ensures { (s : ShelfNow) → EndsAs None (made_ending (record { copies = copies; frames = frames }) (block_count (tables_of project.now)) (output_of (program_of project.now) (words_of made_seed) script.now))
        s s (sink_now K.written K.faults K.calls out.old) (sink_now K.written K.faults K.calls out.new) result }
{
    match play_made(alloc, project, script) {
        Ok(telling) => tell_made(alloc, copies, frames, project.block_count(), &telling, out),
        Err(stop) => Err(stop),
    }
}

// Makes the project and the script, loads the one and plays the other on it, and writes what came of it.
pub(crate) fn make<K: Sink>(alloc: Global, copies: u16, frames: u16, out: &mut K) -> Status
    ensures { (s : ShelfNow) → Completes (made_of (record { copies = copies; frames = frames })) s s
        (sink_now K.written K.faults K.calls out.old) (sink_now K.written K.faults K.calls out.new) result }
{
    let Ok(file) = project_text(alloc, u32::from(copies)) else {
        return Status::NoMemory;
    };
    let project = match load(alloc, &file) {
        Ok(project) => project,
        Err(refusal) => return refused(refusal),
    };
    let Ok(script) = script_text(alloc, u32::from(frames)) else {
        return Status::NoMemory;
    };
    played(play_and_tell(alloc, copies, frames, &project, &script, out))
}
