// The law of a block link, over any two directions: truth of outcomes, order of messages, exact progress.
// Definitions and lemmas alone: each function carries a theorem in its contract, and does nothing.
// They stay functions of their own: what differs is the theorem, which no parameter can be.
#![tactic(auto)]

ghost use Rattle.law.specs.DeliveryWitness.{DeliveriesHappen};
ghost use Rattle.law.specs.Real.{RealDirections};
ghost use Rattle.law.specs.RoundWitness.{RoundsHappen};
ghost use Rattle.law.specs.Rounds.{Progress};
ghost use Rattle.law.specs.Truth.{RefusalsNever, TruthAndOrder, WaitingComeOut};

/// Truth and order: on every run, both ways, outcomes tell the truth and completed messages keep their order.
pub fn truth_stands()
    ensures { TruthAndOrder }
{}

/// The messages counted as completed while they wait are those that collects would hand out, if called until one finds nothing.
pub fn waiting_come_out()
    ensures { WaitingComeOut }
{}

/// No block is ever refused as one that neither opens nor continues a message, or as a seventeenth.
pub fn refusals_never_arise()
    ensures { RefusalsNever }
{}

/// Exact progress: r clean rounds on end acknowledge min(r, u) of the sender's blocks, u being unacknowledged before.
pub fn progress_stands()
    ensures { Progress }
{}

/// There are clean rounds: over any two directions, and for either side, some three of them acknowledge two blocks.
pub fn rounds_happen()
    ensures { RoundsHappen }
{}

/// There are deliveries: over any two directions, and from either side, a message of two blocks over paths that repeat and spoil.
pub fn deliveries_happen()
    ensures { DeliveriesHappen }
{}

/// Downlinks and uplinks keep the laws of a direction.
pub fn directions_stand()
    ensures { RealDirections }
{}
