// The law of a link of two ends, over any two paths: definitions and lemmas alone. Each function carries a theorem in its contract, and does nothing.
// They stay functions of their own: what differs is the theorem, which no parameter can be.
#![tactic(auto)]

ghost use Rattle.runs.specs.Rounds.{Progress};
ghost use Rattle.runs.specs.Strings.{CutsComeBack, SpoiledSaysNothing};
ghost use Rattle.runs.specs.Truth.{RefusalsBetween, TruthAndOrder, WaitingComeOut};

/// A spoiled string is refused by 3, 4 or 5, and changes no end that hears it.
pub fn spoiled_says_nothing()
    ensures { SpoiledSaysNothing }
{}

/// The blocks of a text make it up again, and a text that a submit takes has 1 to 16 of them.
pub fn cuts_come_back()
    ensures { CutsComeBack }
{}

/// Truth and order: on every run of two ends, both ways, outcomes tell the truth and completed messages keep their order.
pub fn truth_stands()
    ensures { TruthAndOrder }
{}

/// The messages counted as completed while they wait are those that collects hand out, if called until one answers 2.
pub fn waiting_come_out()
    ensures { WaitingComeOut }
{}

/// Exact progress: r clean rounds on end acknowledge min(r, u) of the sender's blocks, u being unacknowledged before.
pub fn progress_stands()
    ensures { Progress }
{}

/// Between two ends a tick is refused for its time alone, and a hear only where nothing waits, a string came spoiled, or no cell is free.
pub fn refusals_between()
    ensures { RefusalsBetween }
{}
