//! Playing a run to the end of its script, and saving it.

ghost use Rattle.std.specs.Prelude.{◌≡◌, [], IfOk, Some};
ghost use Rattle.std.specs.Option.{option_map};
ghost use Rattle.call_outcomes.specs.Seen.{shelf_now, sink_now};
ghost use Rattle.machine_spec.specs.Output.{Whole, ends, played};
ghost use Rattle.machine_spec.specs.ScriptText.{lines_of};
ghost use Rattle.project_check.specs.Loaded.{program_of};
ghost use Rattle.saved_spec.specs.Ranges.{IsRun, IsTask};
ghost use Rattle.saved_spec.specs.Saved.{snapshot, saved_limit};
ghost use Rattle.saved_text.specs.Saving.{IsSaved};
ghost use Rattle.sequencer.specs.Runs.{world_of, IsRunOf};
ghost use Rattle.play_command.specs.Outcome.{all_of, output_of, put_or_told, text_from, words_of};
ghost use Rattle.play_command.specs.Saving.{name_in, text_in, put_stop, EndsAs, IsSavedAs, RunLaws, SavesInRange};

use call_outcomes::put_text;
use laws_of_loading::an_accepted_saved_run_tells_a_legal_world;
use laws_of_saving::{
    a_digest_has_its_bytes, every_accepted_file_is_playable, the_text_of_a_run_is_accepted,
    the_world_of_a_run_is_told,
};
use laws_of_worlds::{the_first_world_is_legal, the_last_world_is_legal};
use project_check::Project;
use run_save::{Limit, SaveStop, save};
use script_play::{PlayStop, play_lines, tell_limit};
use script_words::{Rng, pcg};
use sequencer::Run;
use std::alloc::Global;
use sv_channels::{PutError, Shelf, Sink};

// Under which name a run is saved, and of what it is one: the SHA-256 of the project file, and the seed of its random words.
#[derive(Clone, Copy)]
pub(crate) struct Saving<'a> {
    pub(crate) name: &'a str,
    pub(crate) digest: [u8; 32],
    pub(crate) seed: u64,
}

// How a run is saved, where there is a name to save it under.
pub(crate) fn saving_of(save: Option<&str>, digest: [u8; 32], seed: u64) -> Option<Saving<'_>>
    ensures { IsSavedAs (option_map (λ name. name.now) save.entry) digest seed result }
{
    match save {
        None => None,
        Some(name) => {
            a_digest_has_its_bytes(digest);
            Some(Saving { name, digest, seed })
        }
    }
}

// The laws of runs that are cited where one is saved.
pub(crate) fn runs_are_told_again()
    ensures { RunLaws }
{
    every_accepted_file_is_playable();
    the_first_world_is_legal();
    the_last_world_is_legal();
    the_text_of_a_run_is_accepted();
    the_world_of_a_run_is_told();
    an_accepted_saved_run_tells_a_legal_world();
}

// The text of a saved run.
fn text_of<R: Rng + Drop>(
    alloc: Global,
    project: &Project,
    run: &Run<R>,
    saving: Saving<'_>,
) -> Result<Vec<u8>, SaveStop>
    requires { IsRunOf project.now run.now }
    ensures text { IsSaved saved_limit (text_from saving.entry.digest saving.entry.seed (world_of R.stream project.now run.now)) result }
    ensures ranges { IfOk result (λ _. IsRun IsTask (snapshot saving.entry.digest saving.entry.seed (world_of R.stream project.now run.now))) }
{
    save(alloc, project, run, saving.seed, &saving.digest)
}

// Why a play stops where its run could not be put.
fn put_stop(error: PutError) -> PlayStop
    ensures { result ≡ put_stop error }
{
    match error {
        PutError::Failed => PlayStop::WriteFault,
        PutError::NoMemory => PlayStop::NoMemory,
    }
}

// Puts the text of a saved run under its name, or tells that it is too long.
fn save_run<R: Rng + Drop, H: Shelf, K: Sink>(
    alloc: Global,
    project: &Project,
    run: &Run<R>,
    saving: Saving<'_>,
    shelf: &mut H,
    out: &mut K,
) -> Result<(), PlayStop>
    requires { IsRunOf project.now run.now }
    ensures ends { EndsAs (Some saving.entry.name.now) (put_or_told (text_from saving.entry.digest saving.entry.seed (world_of R.stream project.now run.now)) [] (Whole (world_of R.stream project.now run.now)))
        (shelf_now H.held H.fetch_faults H.put_faults H.calls H.wants shelf.old)
        (shelf_now H.held H.fetch_faults H.put_faults H.calls H.wants shelf.new)
        (sink_now K.written K.faults K.calls out.old) (sink_now K.written K.faults K.calls out.new) result }
    ensures ranges { SavesInRange (Some saving.entry) (Whole (world_of R.stream project.now run.now)) result }
{
    match text_of(alloc, project, run, saving) {
        Ok(text) => match put_text(alloc, shelf, saving.name, &text) {
            Ok(()) => Ok(()),
            Err(error) => Err(put_stop(error)),
        },
        Err(SaveStop::TooLarge { length }) => {
            Err(tell_limit(alloc, Limit::Save { length }, out))
        }
        Err(SaveStop::NoMemory) => Err(PlayStop::NoMemory),
    }
}

// Saves a run at the end of its script, where it is to be saved.
fn end<R: Rng + Drop, H: Shelf, K: Sink>(
    alloc: Global,
    project: &Project,
    run: &Run<R>,
    saving: Option<Saving<'_>>,
    shelf: &mut H,
    out: &mut K,
) -> Result<(), PlayStop>
    requires { IsRunOf project.now run.now }
    ensures ends { EndsAs (name_in saving.entry) (all_of (name_in saving.entry) (text_in saving.entry) (ends [] (Whole (world_of R.stream project.now run.now))))
        (shelf_now H.held H.fetch_faults H.put_faults H.calls H.wants shelf.old)
        (shelf_now H.held H.fetch_faults H.put_faults H.calls H.wants shelf.new)
        (sink_now K.written K.faults K.calls out.old) (sink_now K.written K.faults K.calls out.new) result }
    ensures ranges { SavesInRange saving.entry (Whole (world_of R.stream project.now run.now)) result }
{
    match saving {
        None => Ok(()),
        Some(saving) => save_run(alloc, project, run, saving, shelf, out),
    }
}

// Plays the lines of a script on a run, the first of which has the number 1, and saves it.
pub(crate) fn play_on<R: Rng + Drop, H: Shelf, K: Sink>(
    alloc: Global,
    project: &Project,
    run: &mut Run<R>,
    saving: Option<Saving<'_>>,
    script: &[u8],
    shelf: &mut H,
    out: &mut K,
) -> Result<(), PlayStop>
    requires { IsRunOf project.now run.old }
    ensures ends { EndsAs (name_in saving.entry) (all_of (name_in saving.entry) (text_in saving.entry) (played (program_of project.now) 1 run.old.state.devices.clock (world_of R.stream project.now run.old) (lines_of script.now)))
        (shelf_now H.held H.fetch_faults H.put_faults H.calls H.wants shelf.old)
        (shelf_now H.held H.fetch_faults H.put_faults H.calls H.wants shelf.new)
        (sink_now K.written K.faults K.calls out.old) (sink_now K.written K.faults K.calls out.new) result }
    ensures ranges { SavesInRange saving.entry (played (program_of project.now) 1 run.old.state.devices.clock (world_of R.stream project.now run.old) (lines_of script.now)).ending result }
{
    match play_lines(alloc, project, run, script, out) {
        Ok(()) => end(alloc, project, run, saving, shelf, out),
        Err(stop) => Err(stop),
    }
}

// Plays a script from the first world of a project on, with the random words of a seed, and saves the run.
pub(crate) fn play_first<H: Shelf, K: Sink>(
    alloc: Global,
    project: &Project,
    seed: u64,
    saving: Option<Saving<'_>>,
    script: &[u8],
    shelf: &mut H,
    out: &mut K,
) -> Result<(), PlayStop>
    ensures ends { EndsAs (name_in saving.entry) (all_of (name_in saving.entry) (text_in saving.entry) (output_of (program_of project.now) (words_of seed) script.now))
        (shelf_now H.held H.fetch_faults H.put_faults H.calls H.wants shelf.old)
        (shelf_now H.held H.fetch_faults H.put_faults H.calls H.wants shelf.new)
        (sink_now K.written K.faults K.calls out.old) (sink_now K.written K.faults K.calls out.new) result }
    ensures ranges { SavesInRange saving.entry (output_of (program_of project.now) (words_of seed) script.now).ending result }
{
    let Ok(mut run) = Run::open(alloc, project, pcg(seed, 0)) else {
        return Err(PlayStop::NoMemory);
    };
    play_on(alloc, project, &mut run, saving, script, shelf, out)
}
