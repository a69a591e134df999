//! The groups of commands.

/// The parts of the player that carry commands out.
#[derive(Clone, Copy, PartialEq, Eq, Debug)]
pub enum Group {
    /// Moving and turning.
    Motion,
    /// Bubbles, costumes, sizes, effects and layers, and the commands of sound.
    Looks,
    /// Variables and lists.
    Data,
    /// Everything else.
    Control,
}
