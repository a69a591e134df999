//! A reader written with the shapes, and the paths of its faults.

mod kinds;
mod sprite;
