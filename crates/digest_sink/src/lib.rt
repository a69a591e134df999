//! A sink that keeps none of the bytes: their SHA-256 digest and their count, in the same memory however many there are.
#![tactic(auto)]

mod digest_sink;
mod given;

pub use digest_sink::DigestSink;
