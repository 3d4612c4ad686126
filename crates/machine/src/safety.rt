// The laws of the machine. Each function carries one, for others to cite, and does nothing.
ghost use Rattle.machine.specs.Refused.{RefusedChangesNothing};
ghost use Rattle.machine.specs.Statement.{Statement};

// The safety statement, whole: values, fail-safe until a press, frames.
pub fn statement_holds()
    ensures { Statement }
{}

// A refused call leaves both ends, the button, the lines and the caller's buffer alone.
pub fn refused_changes_nothing()
    ensures { RefusedChangesNothing }
{}
