//! The top call.

ghost use Rattle.std.specs.Prelude.{◌≡◌, ◌↔◌, ◌∷◌, [], length, map, string_bytes, None};
ghost use Rattle.std.specs.Option.{option_map};
ghost use Rattle.sha2.specs.Sha256.{sha256};
ghost use Rattle.call_outcomes.specs.Seen.{shelf_now, sink_now};
ghost use Rattle.call_outcomes.specs.Stages.{Writes};
ghost use Rattle.project_check.specs.Counts.{block_count};
ghost use Rattle.project_check.specs.Loaded.{tables_of};
ghost use Rattle.script_play.specs.Lines.{IsWriteEnd};
ghost use Rattle.script_play.specs.Stops.{course};
ghost use Rattle.play_command.specs.Command.{play as play_of, resume as resume_of, check as check_of, command_of};
ghost use Rattle.play_command.specs.Laws.{CallsAgree};
ghost use Rattle.play_command.specs.Outcome.{accepted_line};
ghost use Rattle.play_command.specs.Promise.{Asked, Plays};
ghost use Rattle.play_command.specs.Resuming.{Resumable};
ghost use Rattle.play_command.specs.Saving.{IsSavedAs};
ghost use Rattle.play_command.specs.Stages.{Completes};

use crate::command::{Command, command_of};
use crate::counts::{Counts, accepted_line};
use crate::endings::{played, refused, rejected, unfetched};
use crate::laws::two_parts_of_a_script_are_the_whole;
use crate::made::make;
use crate::playback::{Saving, play_first, play_on, runs_are_told_again, saving_of};
use call_outcomes::fetch;
use machine_spec::SCRIPT_LIMIT;
use project_check::{Project, load};
use project_spec::PROJECT_LIMIT;
use run_save::{Status, Which, load as load_run};
use saved_spec::one_answer_at_most;
use saved_text::SAVED_LIMIT;
use script_play::{PlayStop, write};
use sha2::{Digest, Sha256};
use std::alloc::Global;
use sv_channels::{Shelf, Sink};

// How a run of a project file is saved, where there is a name to save it under: only then is the file's digest worked out.
fn first_saving<'a>(save: Option<&'a str>, file: &[u8], seed: u64) -> Option<Saving<'a>>
    ensures { IsSavedAs (option_map (λ name. name.now) save.entry) (sha256 file.now) seed result }
{
    match save {
        None => None,
        Some(_) => saving_of(save, Sha256::digest(file), seed),
    }
}

// Fetches the two files, loads the project, plays the script and saves the run.
fn run<H: Shelf, K: Sink>(
    alloc: Global,
    project: &str,
    script: &str,
    seed: u64,
    save: Option<&str>,
    shelf: &mut H,
    out: &mut K,
) -> Status
    ensures { Completes (play_of (record { project = project.now; script = script.now; seed = seed; save = option_map (λ name. name.now) save.entry }))
        (shelf_now H.held H.fetch_faults H.put_faults H.calls H.wants shelf.old)
        (shelf_now H.held H.fetch_faults H.put_faults H.calls H.wants shelf.new)
        (sink_now K.written K.faults K.calls out.old) (sink_now K.written K.faults K.calls out.new) result }
{
    runs_are_told_again();
    let file = match fetch(alloc, shelf, project, PROJECT_LIMIT) {
        Ok(bytes) => bytes,
        Err(error) => return unfetched(Which::Project, error),
    };
    let project = match load(alloc, &file) {
        Ok(project) => project,
        Err(refusal) => return refused(refusal),
    };
    let script = match fetch(alloc, shelf, script, SCRIPT_LIMIT) {
        Ok(bytes) => bytes,
        Err(error) => return unfetched(Which::Script, error),
    };
    let saving = first_saving(save, &file, seed);
    played(play_first(alloc, &project, seed, saving, &script, shelf, out))
}

// Fetches the three files, loads the project and the saved run, plays the script on it and saves the run.
fn resume<H: Shelf, K: Sink>(
    alloc: Global,
    project: &str,
    saved: &str,
    script: &str,
    save: Option<&str>,
    shelf: &mut H,
    out: &mut K,
) -> Status
    ensures { Completes (resume_of (record { project = project.now; saved = saved.now; script = script.now; save = option_map (λ name. name.now) save.entry }))
        (shelf_now H.held H.fetch_faults H.put_faults H.calls H.wants shelf.old)
        (shelf_now H.held H.fetch_faults H.put_faults H.calls H.wants shelf.new)
        (sink_now K.written K.faults K.calls out.old) (sink_now K.written K.faults K.calls out.new) result }
{
    one_answer_at_most();
    runs_are_told_again();
    let file = match fetch(alloc, shelf, project, PROJECT_LIMIT) {
        Ok(bytes) => bytes,
        Err(error) => return unfetched(Which::Project, error),
    };
    let project = match load(alloc, &file) {
        Ok(project) => project,
        Err(refusal) => return refused(refusal),
    };
    let saved = match fetch(alloc, shelf, saved, SAVED_LIMIT) {
        Ok(bytes) => bytes,
        Err(error) => return unfetched(Which::Saved, error),
    };
    let digest = Sha256::digest(&file);
    let (mut run, seed) = match load_run(alloc, &project, &digest, &saved) {
        Ok(told) => told,
        Err(refusal) => return rejected(refusal),
    };
    let script = match fetch(alloc, shelf, script, SCRIPT_LIMIT) {
        Ok(bytes) => bytes,
        Err(error) => return unfetched(Which::Script, error),
    };
    let saving = saving_of(save, digest, seed);
    played(play_on(alloc, &project, &mut run, saving, &script, shelf, out))
}

// What a project has.
fn counts_of(project: &Project) -> Counts
    ensures { result ≡ record { targets = length (tables_of project.now); blocks = block_count (tables_of project.now) } }
{
    Counts {
        targets: project.target_count(),
        blocks: project.block_count(),
    }
}

// Writes the line of an accepted project.
fn tell_counts<K: Sink>(alloc: Global, counts: Counts, out: &mut K) -> Result<(), PlayStop>
    ensures ends { IsWriteEnd result }
    ensures writes { Writes (sink_now K.written K.faults K.calls out.old)
        (sink_now K.written K.faults K.calls out.new) ⊥ (accepted_line counts ∷ []) (course result) }
{
    let Ok(line) = accepted_line(alloc, counts) else {
        return Err(PlayStop::NoMemory);
    };
    write(alloc, &line, out)
}

// Fetches the project, checks it, and writes what it has.
fn check<H: Shelf, K: Sink>(alloc: Global, project: &str, shelf: &mut H, out: &mut K) -> Status
    ensures { Completes (check_of project.now)
        (shelf_now H.held H.fetch_faults H.put_faults H.calls H.wants shelf.old)
        (shelf_now H.held H.fetch_faults H.put_faults H.calls H.wants shelf.new)
        (sink_now K.written K.faults K.calls out.old) (sink_now K.written K.faults K.calls out.new) result }
{
    let file = match fetch(alloc, shelf, project, PROJECT_LIMIT) {
        Ok(bytes) => bytes,
        Err(error) => return unfetched(Which::Project, error),
    };
    let project = match load(alloc, &file) {
        Ok(project) => project,
        Err(refusal) => return refused(refusal),
    };
    played(tell_counts(alloc, counts_of(&project), out))
}

/// Plays a project, `play PROJECT SCRIPT SEED SAVE`, goes on with a saved run of one, `resume PROJECT SAVED SCRIPT SAVE`,
/// checks one, `check PROJECT`, or plays one that it makes itself, `made N FRAMES`: the command's words without the program's
/// name.
///
/// To play, the project and the script are fetched from the shelf, and each frame line of the script writes one frame
/// text by one write; a limit that a line reaches writes its own line and ends the run. A run that was played to the end of
/// its script is saved: the text of the saved run (docs/formats.md, section 5) is put under SAVE, unless that is `-`; one
/// that is longer than 128 MiB writes the line of this limit instead. To check, the project is fetched, and where it is
/// accepted, the line `accepted T B` with its numbers of targets and blocks is written by one write. With `made` nothing is
/// fetched: the made project and script (the crate `made_texts`) are played, and in place of the frame texts two lines, by one
/// write, tell the number and the SHA-256 digest of their bytes. specs/Promise.antt says what the clauses mean. After a fault no
/// further call is made on the shelf or the sink.
pub fn play<H: Shelf, K: Sink>(
    alloc: Global,
    words: &[String],
    shelf: &mut H,
    out: &mut K,
) -> Status
    // Usage exactly where the words have no form.
    ensures usage { (result ≡ Status.Usage) ↔ (command_of (map string_bytes words.now) ≡ None) }

    // What is owed by the words, between what is seen before and after.
    ensures owes { Plays (command_of (map string_bytes words.now))
        (shelf_now H.held H.fetch_faults H.put_faults H.calls H.wants shelf.old)
        (shelf_now H.held H.fetch_faults H.put_faults H.calls H.wants shelf.new)
        (sink_now K.written K.faults K.calls out.old) (sink_now K.written K.faults K.calls out.new) result }

    // What was saved is accepted again, and tells the last world of the run.
    ensures resumable { Asked (map string_bytes words.now) (λ command. Resumable (H.held shelf.old) command result) }

    // Two calls that play a script in parts, with the saved run between them, and one that plays it whole agree.
    ensures parts { CallsAgree }
{
    two_parts_of_a_script_are_the_whole();
    match command_of(words) {
        None => Status::Usage,
        Some(
            Command::Play {
                project,
                script,
                seed,
                save,
            },
        ) => run(alloc, project, script, seed, save, shelf, out),
        Some(
            Command::Resume {
                project,
                saved,
                script,
                save,
            },
        ) => resume(alloc, project, saved, script, save, shelf, out),
        Some(Command::Check { project }) => check(alloc, project, shelf, out),
        Some(Command::Made { copies, frames }) => make(alloc, copies, frames, out),
    }
}
