// Reading the head of a block, places 1 to 12.
ghost use Rattle.std.specs.Prelude.{◌≡◌, take, drop};
ghost use Rattle.blocks.specs.Fields.{named};
ghost use Rattle.blocks.specs.Legal.{Way, way};
ghost use Rattle.blocks.specs.Places.{ch, PartRead, LabelIs, HeadIs, acknowledgment_of};

use crate::characters::{MODE, NAK, RESPONSE_LABEL, address_allows, is_label};
use crate::fault::BlockFault;
use crate::frame::Frame;
use crate::parsed::HeadRead;
use crate::scan::first_fault;
use directions::{Direction, Identifier, Ring};
use octets::character_of;

impl<'a> Frame<'a> {
    // The address, at places 2 to 8.
    fn address(self) -> Result<&'a [u8; 7], BlockFault>
        ensures { (w : Way) → PartRead w self.entry.string.now 2 9 (λ a. a.now ≡ take 7 (drop 2 self.entry.string.now)) result }
    {
        let address = self.part::<7>(2);
        let fault = first_fault(self.string[1], address, |index, before, octet| {
            address_allows(index, character_of(before), character_of(octet))
        });
        match fault {
            Some(index) => Err(BlockFault::Head { place: 2 + index }),
            None => Ok(address),
        }
    }

    // The acknowledgment, at place 9: none for NAK, else an identifier of the other direction.
    fn acknowledgment<D: Direction>(self) -> Result<Option<Identifier>, BlockFault>
        ensures { PartRead (way D.Direction D.Other.Ring.ring) self.entry.string.now 9 10 (λ a. named a ≡ acknowledgment_of (ch self.entry.string.now 9)) result }
    {
        let identifier = Identifier(self.character(9));
        if identifier.0 == NAK {
            Ok(None)
        } else if D::Other::holds(identifier) {
            Ok(Some(identifier))
        } else {
            Err(BlockFault::Head { place: 9 })
        }
    }

    // The label of a message, at places 10 and 11; none for a response's.
    fn label(self) -> Result<Option<&'a [u8; 2]>, BlockFault>
        ensures { (w : Way) → PartRead w self.entry.string.now 10 12 (LabelIs self.entry.string.now) result }
    {
        let first = self.character(10);
        let second = self.character(11);
        if !is_label(first) {
            Err(BlockFault::Head { place: 10 })
        } else if is_label(second) {
            Ok(Some(self.part::<2>(10)))
        } else if [first, second] == RESPONSE_LABEL {
            Ok(None)
        } else {
            Err(BlockFault::Head { place: 11 })
        }
    }

    // The block's own identifier, at place 12.
    fn identifier<D: Direction>(self) -> Result<Identifier, BlockFault>
        ensures { PartRead (way D.Direction D.Other.Ring.ring) self.entry.string.now 12 13 (λ i. i.0 ≡ ch self.entry.string.now 12) result }
    {
        let identifier = Identifier(self.character(12));
        if D::holds(identifier) {
            Ok(identifier)
        } else {
            Err(BlockFault::Head { place: 12 })
        }
    }

    // The head. The first field that fails ends the reading.
    pub(crate) fn head<D: Direction>(self) -> Result<HeadRead<'a>, BlockFault>
        ensures { PartRead (way D.Direction D.Other.Ring.ring) self.entry.string.now 1 13 (HeadIs self.entry.string.now) result }
    {
        if self.character(1) != MODE {
            return Err(BlockFault::Head { place: 1 });
        }
        let address = self.address()?;
        let acknowledgment = self.acknowledgment::<D>()?;
        let label = self.label()?;
        let identifier = self.identifier::<D>()?;
        Ok(HeadRead {
            address,
            acknowledgment,
            label,
            identifier,
        })
    }
}
