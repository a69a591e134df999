//! Laws of the reference machine, each the contract of a function with an empty body.

ghost use Rattle.machine_spec.specs.Laws.{SettleKeeps, PassLeaves, RowsTouchNoThread, OwnControlsMoveOne, SliceIsExecutions, ExecutionsJoin};

/// Settling drops and turns markers, and keeps what is left to do.
pub fn settling_keeps_what_is_left()
    ensures { SettleKeeps }
{}

/// At the end of a pass no listed thread is done.
pub fn a_pass_leaves_no_thread_that_is_done()
    ensures { PassLeaves }
{}

/// A row leaves all threads as they are: what an execution does with threads, it does by its control.
pub fn rows_touch_no_thread()
    ensures { RowsTouchNoThread }
{}

/// A control of its own thread moves that thread, and changes nothing else.
pub fn own_controls_move_one_thread()
    ensures { OwnControlsMoveOne }
{}

/// A slice is its executions, one after another; n and more of them are n, and then the others.
pub fn slices_are_executions()
    ensures executions { SliceIsExecutions }
    ensures join { ExecutionsJoin }
{}
