//! Laws of the definitions of actions.

ghost use Rattle.sql_action.specs.Reads.{TailsAreRead};

/// No action is refused for what it says: what has no listed form is some other action.
pub fn tails_are_read()
    ensures { TailsAreRead }
{}
