//! The words of a command.

ghost use Rattle.std.specs.Prelude.{◌≡◌, drop, IfOk};
ghost use Rattle.std.specs.Vec.Iter.{into_iter_items};
ghost use Rattle.sv_channels.specs.Words.{WordsOf, words_error};
ghost use Rattle.sv_channels.specs.declared.words.WordsError.TheVariants as error;

use std::alloc::{AllocError, Global};
use std::env::Args;
use std::io;
use std::io::ErrorKind;
use thiserror::Error;

/// Why the words of a command are not known.
#[derive(Clone, Copy, Debug, PartialEq, Eq, Error)]
pub enum WordsError {
    /// A word is not UTF-8, or the system gave no words.
    #[error("the words are not text")]
    NotText,
    /// Memory ran out.
    #[error("out of memory")]
    NoMemory,
}

impl From<AllocError> for WordsError {
    ghost from_gives = { λ _ e. e ≡ error.NoMemory };

    fn from(_error: AllocError) -> WordsError {
        WordsError::NoMemory
    }
}

// Want of memory is told as such, and every other error as words that are no text.
fn told(kind: ErrorKind) -> WordsError
    ensures { result ≡ words_error kind }
{
    match kind {
        ErrorKind::OutOfMemory => WordsError::NoMemory,
        _ => WordsError::NotText,
    }
}

// The words behind the first, in order.
fn behind_name(alloc: Global, mut arguments: Args) -> Result<Vec<String>, AllocError>
    ensures { IfOk result (λ words. words.items ≡ drop 1 (into_iter_items arguments)) }
{
    let _ = arguments.next();
    let mut words = Vec::new(alloc);
    for word in arguments {
        words.push(word)?;
    }
    Ok(words)
}

/// The words of a command behind the program's name, in order, from what `env::args` answered. `NotText`: a word is not UTF-8,
/// or the system gave no words. `NoMemory`: memory ran out, then or now.
pub fn words_of(alloc: Global, answer: io::Result<Args>) -> Result<Vec<String>, WordsError>
    ensures { WordsOf answer result }
{
    match answer {
        Ok(arguments) => Ok(behind_name(alloc, arguments)?),
        Err(error) => Err(told(error.kind())),
    }
}
