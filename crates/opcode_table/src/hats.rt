//! The kinds of hats.

/// What starts the script under a hat.
#[derive(Clone, Copy, PartialEq, Eq, Debug)]
pub enum HatKind {
    /// The green flag.
    FlagHat,
    /// A click on the sprite.
    SpriteHat,
    /// A click on the stage.
    StageHat,
    /// A message that is broadcast.
    MessageHat,
    /// A switch of the backdrop.
    BackdropHat,
    /// A key that goes down.
    KeyHat,
    /// The making of the clone that it stands on.
    CloneHat,
    /// A value that becomes greater than a limit.
    EdgeHat,
    /// The opcode is no hat.
    NoHat,
}
