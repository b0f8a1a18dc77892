// How far a message is.
ghost use Rattle.std.specs.Prelude.{◌≡◌};
ghost use Rattle.ends.specs.Sending.{advanced, begun, is_out, last_out, unsettled, withdrawn_as};

use crate::types::Stage;
use calls::Outcome;

impl Stage {
    // Whether the message is unsettled.
    pub(crate) fn is_unsettled(self) -> bool
        ensures { result ≡ unsettled self }
    {
        matches!(self, Stage::Unsettled { .. })
    }

    // Whether the current block has gone out.
    pub(crate) fn is_out(self) -> bool
        ensures { result ≡ is_out self }
    {
        matches!(self, Stage::Unsettled { out: true, .. })
    }

    // Whether a block of the message has gone out.
    pub(crate) fn is_begun(self) -> bool
        ensures { result ≡ begun self }
    {
        matches!(self, Stage::Unsettled { acknowledged, out } if 0 < acknowledged || out)
    }

    // Whether the last of so many blocks has gone out.
    fn is_last_out(self, blocks: usize) -> bool
        ensures { result ≡ last_out blocks self }
    {
        matches!(self, Stage::Unsettled { acknowledged, out } if out && usize::from(acknowledged) + 1 == blocks)
    }

    // What a message of so many blocks comes to that is withdrawn: in doubt if its last block has gone out, else not delivered.
    pub(crate) fn withdrawn(self, blocks: usize) -> Stage
        ensures { result ≡ withdrawn_as blocks self }
    {
        if self.is_last_out(blocks) {
            Stage::Settled(Outcome::InDoubt)
        } else {
            Stage::Settled(Outcome::NotDelivered)
        }
    }

    // The stage of a message of so many blocks after its current block is acknowledged.
    pub(crate) fn advanced(self, blocks: usize) -> Stage
        ensures { result ≡ advanced blocks self }
    {
        match self {
            Stage::Unsettled { acknowledged, .. } if usize::from(acknowledged) + 1 == blocks => {
                Stage::Settled(Outcome::Delivered)
            }
            Stage::Unsettled { acknowledged, .. } => Stage::Unsettled {
                acknowledged: acknowledged.saturating_add(1),
                out: false,
            },
            Stage::Settled(_) => self,
        }
    }
}
