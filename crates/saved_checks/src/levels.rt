//! What the levels of threads keep.

ghost use Rattle.std.specs.Prelude.{◌≡◌, nat_lt, true};
ghost use Rattle.std.specs.List.{list_all};
ghost use Rattle.std.specs.Option.{option_map_or};
ghost use Rattle.saved_parts.specs.Telling.{value_of};
ghost use Rattle.saved_spec.specs.Rules as rules;
ghost use Rattle.saved_checks.specs.Levels.{has_short_values, names_given};

use crate::lengths::is_short;
use saved_parts::{ToldKept, ToldLevel, ToldParam, ToldThread};

// Whether no value of the parameters is a text that is too long.
fn are_short(params: &[ToldParam]) -> bool
    ensures { result ≡ list_all (λ p. rules.is_short (value_of p.value)) params.now }
{
    params.iter().all(|param| is_short(&param.value))
}

// The same of what a level keeps.
fn keeps_short(kept: &ToldKept) -> bool
    ensures { result ≡ has_short_values kept.now }
{
    match kept {
        ToldKept::Nothing => true,
        ToldKept::Loop => true,
        ToldKept::Repeat(_) => true,
        ToldKept::Wait(_) => true,
        ToldKept::Glide(_) => true,
        ToldKept::Started(_) => true,
        ToldKept::Asked => true,
        ToldKept::Spoken => true,
        ToldKept::Call(params) => are_short(params.as_slice()),
    }
}

// The same of all levels of a thread.
fn has_short_params(thread: &ToldThread) -> bool
    ensures { result ≡ list_all (λ l. has_short_values l.kept) thread.now.levels }
{
    thread.levels.iter().all(|level| keeps_short(&level.kept))
}

// The same of all threads.
pub(crate) fn have_short_params(threads: &[ToldThread]) -> bool
    ensures { result ≡ list_all (λ x. list_all (λ l. has_short_values l.kept) x.levels) threads.now }
{
    threads.iter().all(|thread| has_short_params(thread))
}

// Whether all these numbers were given before the next.
fn were_given(serials: &[u64], next: u64) -> bool
    ensures { result ≡ list_all (λ n. nat_lt n next) serials.now }
{
    serials.iter().all(|serial| *serial < next)
}

// The same of the threads that a level started.
fn keeps_given(kept: &ToldKept, next: u64) -> bool
    ensures { result ≡ names_given next kept.now }
{
    match kept {
        ToldKept::Nothing => true,
        ToldKept::Loop => true,
        ToldKept::Repeat(_) => true,
        ToldKept::Wait(_) => true,
        ToldKept::Glide(_) => true,
        ToldKept::Started(serials) => were_given(serials.as_slice(), next),
        ToldKept::Asked => true,
        ToldKept::Spoken => true,
        ToldKept::Call(_) => true,
    }
}

// The same of all levels of a thread.
fn has_given(thread: &ToldThread, next: u64) -> bool
    ensures { result ≡ list_all (λ l. names_given next l.kept) thread.now.levels }
{
    thread
        .levels
        .iter()
        .all(|level| keeps_given(&level.kept, next))
}

// The same of all threads.
pub(crate) fn have_given(threads: &[ToldThread], next: u64) -> bool
    ensures { result ≡ list_all (λ x. list_all (λ l. names_given next l.kept) x.levels) threads.now }
{
    threads.iter().all(|thread| has_given(thread, next))
}

// Whether a level has one of so many blocks, or none.
fn is_in(blocks: u64, level: &ToldLevel) -> bool
    ensures { result ≡ option_map_or (λ k. nat_lt k blocks) level.now.block true }
{
    match level.block {
        Some(block) => block < blocks,
        None => true,
    }
}

// The same of all levels of a thread.
pub(crate) fn are_in(blocks: u64, levels: &[ToldLevel]) -> bool
    ensures { result ≡ list_all (λ l. option_map_or (λ k. nat_lt k blocks) l.block true) levels.now }
{
    levels.iter().all(|level| is_in(blocks, level))
}
