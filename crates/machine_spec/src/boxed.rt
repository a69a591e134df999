//! A value behind a pointer.

use std::alloc::{AllocFailed, Global};
use std::marker::Model;

/// A value behind a pointer, so that what contains it stays small. Contracts see the value.
#[derive(Debug, Drop)]
pub struct Boxed<T> {
    value: Box<T>,
}

impl<T> Model for Boxed<T> {
    ghost Value = { T };

    ghost view = { λ a. a.value.value };
}

impl<T> Boxed<T> {
    ghost use Rattle.std.specs.Prelude.{◌≡◌, IfOk};

    /// A value put behind a pointer. The only error is want of memory; it gives the value back.
    pub fn new(alloc: Global, value: T) -> Result<Boxed<T>, AllocFailed<T>>
        ensures { IfOk result (λ b. b ≡ value) }
    {
        Ok(Boxed {
            value: Box::new(alloc, value)?,
        })
    }

    /// The value.
    pub fn get(&self) -> &T
        ensures { result.now ≡ self.now }
    {
        &self.value
    }

    /// The value, taken from behind the pointer.
    pub fn into_inner(self) -> T
        ensures { result ≡ self }
    {
        Box::into_inner(self.value)
    }
}
