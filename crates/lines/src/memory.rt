// Memory for a line, reserved before the line is made.
ghost use Rattle.std.specs.Prelude.{◌≡◌, replicate, IfOk};

use std::alloc::{AllocError, Global};

#[derive(Drop)]
pub struct Memory {
    octets: Vec<u8>,
}

impl Memory {
    // Reserves so many octets, all 0. No other function of this crate can fail for want of memory.
    pub fn reserve(heap: Global, octets: usize) -> Result<Memory, AllocError>
        ensures { IfOk result (λ m. m.octets.items ≡ replicate octets 0) }
    {
        let octets = vec![in heap; 0u8; octets]?;
        Ok(Memory { octets })
    }

    // Hands the octets on.
    pub(crate) fn into_octets(self) -> Vec<u8>
        ensures { result ≡ self.octets }
    {
        let Memory { octets } = self;
        octets
    }
}
