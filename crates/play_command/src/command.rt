//! What the command's words ask for.

ghost use Rattle.std.specs.Prelude.{◌≡◌, ◌^◌, ◌-◌, map, string_bytes, option_map};
ghost use Rattle.play_command.specs.Command.{check_by, made_by, play_by, run_by, command_of, command_view, most_copies, most_frames, name_to_save};
ghost use Rattle.play_command.specs.WholeNumbers.{whole_up_to};

use crate::whole_numbers::whole_up_to;

// The largest numbers of `made N FRAMES`.
const MOST_COPIES: u64 = 500;

const MOST_FRAMES: u64 = 1000;

/// What the command's words ask for, with the names of the files that they give.
#[derive(Clone, Copy, Debug)]
pub enum Command<'a> {
    /// `play PROJECT SCRIPT SEED SAVE`; with `-` nothing is saved.
    Play {
        project: &'a str,
        script: &'a str,
        seed: u64,
        save: Option<&'a str>,
    },
    /// `resume PROJECT SAVED SCRIPT SAVE`; with `-` nothing is saved.
    Resume {
        project: &'a str,
        saved: &'a str,
        script: &'a str,
        save: Option<&'a str>,
    },
    /// `check PROJECT`
    Check {
        project: &'a str,
    },
    /// `made N FRAMES`: N copies, from 1 to 500, and from 1 to 1,000 frames.
    Made {
        copies: u16,
        frames: u16,
    },
}

/// The command of the words, or `None` where they have no form.
pub fn command_of(words: &[String]) -> Option<Command<'_>>
    ensures { option_map command_view result ≡ command_of (map string_bytes words.now) }
{
    match words {
        [command, project] => checking(command.as_str(), project.as_str()),
        [command, copies, frames] => { making(command.as_str(), copies.as_str(), frames.as_str()) }
        [command, project, second, third, save] => {
            running(
                command.as_str(),
                project.as_str(),
                second.as_str(),
                third.as_str(),
                save.as_str(),
            )
        }
        _ => None,
    }
}

// The name under which a run is saved, unless the word is `-`.
fn name_to_save(save: &str) -> Option<&str>
    ensures { option_map (λ name. name.now) result ≡ name_to_save save.now }
{
    if save == "-" { None } else { Some(save) }
}

#[tactic(auto, unfolding(crate::specs::Command::run_by))]
fn running<'a>(
    command: &str,
    project: &'a str,
    second: &'a str,
    third: &'a str,
    save: &'a str,
) -> Option<Command<'a>>
    ensures { option_map command_view result ≡ run_by command.now project.now second.now third.now save.now }
{
    if command == "resume" {
        Some(Command::Resume {
            project,
            saved: second,
            script: third,
            save: name_to_save(save),
        })
    } else {
        playing(command, project, second, third, save)
    }
}

fn playing<'a>(
    command: &str,
    project: &'a str,
    script: &'a str,
    seed: &str,
    save: &'a str,
) -> Option<Command<'a>>
    ensures { option_map command_view result ≡ play_by command.now project.now script.now seed.now (whole_up_to (2 ^ 64 - 1) seed.now) save.now }
{
    let seed = whole_up_to(seed, u64::MAX)?;
    if command == "play" {
        Some(Command::Play {
            project,
            script,
            seed,
            save: name_to_save(save),
        })
    } else {
        None
    }
}

fn checking<'a>(command: &str, project: &'a str) -> Option<Command<'a>>
    ensures { option_map command_view result ≡ check_by command.now project.now }
{
    if command == "check" {
        Some(Command::Check { project })
    } else {
        None
    }
}

fn making<'a>(command: &str, copies: &str, frames: &str) -> Option<Command<'a>>
    ensures { option_map command_view result ≡ made_by command.now (whole_up_to most_copies copies.now) (whole_up_to most_frames frames.now) }
{
    let copies = whole_up_to(copies, MOST_COPIES)?;
    let frames = whole_up_to(frames, MOST_FRAMES)?;
    if copies == 0 || frames == 0 {
        return None;
    }
    if command == "made" {
        Some(Command::Made {
            copies: copies as u16,
            frames: frames as u16,
        })
    } else {
        None
    }
}
