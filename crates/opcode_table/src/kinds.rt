//! The kinds of commands.

/// What a command does with its thread.
#[derive(Clone, Copy, PartialEq, Eq, Debug)]
pub enum Kind {
    /// It goes into one of its branches, or into none.
    Choice,
    /// It goes into its branch each time, as long as no condition ends it.
    Endless,
    /// It goes into its branch a number of times.
    Counted,
    /// It calls a procedure.
    Calls,
    /// It waits for a time.
    Waits,
    /// It moves to a place, for a time.
    Glides,
    /// It starts scripts and waits for them.
    Starts,
    /// It asks a question and waits for the answer.
    Asks,
    /// It shows a bubble and waits for a time.
    Speaks,
    /// It keeps nothing between two executions.
    Plain,
}
