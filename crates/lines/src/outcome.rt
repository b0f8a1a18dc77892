// That what the lines say of their calls leaves nothing open.
ghost use Rattle.lines.specs.Outcome.{LinesDetermined};

// Carries a theorem: from one state and one string, one answer and one state, for both lines and for a fade box over
// either.
pub fn lines_determined()
    ensures { LinesDetermined }
{}
