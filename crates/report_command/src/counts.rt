//! What an accepted project has.

/// How many targets, scripts and blocks a project has, and how many of the blocks are in no script.
#[derive(Clone, Copy, Debug)]
pub struct Counts {
    pub targets: u32,
    pub scripts: u32,
    pub blocks: u32,
    pub loose: u32,
}
