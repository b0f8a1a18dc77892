// Octets in use from the start of a memory, and how many strings they make up.
ghost use Rattle.std.specs.Prelude.{◌≡◌, ◌+◌, ◌<◌, ◌≤◌, length, vec_len};

use crate::memory::Memory;

// The octets that are not in use stay in the vector, since the memory is read as a whole and keeps its length.
#[derive(Drop)]
pub(crate) struct Store {
    octets: Vec<u8>,
    used: usize,
    count: usize,
    ghost within: { used ≤ vec_len octets },
}

impl Store {
    ghost use Rattle.lines.specs.Stored.{memory_of, Offered, CutOff};

    // A store of no strings.
    pub(crate) fn empty(memory: Memory) -> Store
        ensures octets { result.octets ≡ memory.octets }
        ensures used { result.used ≡ 0 }
        ensures count { result.count ≡ 0 }
    {
        Store {
            octets: memory.into_octets(),
            used: 0,
            count: 0,
        }
    }

    // The whole memory.
    pub(crate) fn octets(&self) -> &[u8]
        ensures { result.now ≡ memory_of self.now }
    {
        self.octets.as_slice()
    }

    // How many strings there are.
    pub(crate) fn count(&self) -> usize
        ensures { result ≡ self.now.count }
    {
        self.count
    }

    // Lays a head and a string down behind the octets in use, if they fit.
    pub(crate) fn offer(&mut self, head: &[u8], s: &[u8])
        requires { self.old.count < self.old.used + (length head.now + length s.now) }
        ensures { Offered head.now s.now self.old self.new }
    {
        let more = head.len() + s.len();
        if more <= self.octets.len() - self.used {
            let place = &mut self.octets[self.used..self.used + more];
            place[..head.len()].copy_from_slice(head);
            place[head.len()..].copy_from_slice(s);
            self.used += more;
            self.count += 1;
        }
    }

    // Cuts off the first string, which takes up so many octets; the octets in use move to the start.
    pub(crate) fn cut_off(&mut self, places: usize)
        requires within { places ≤ self.old.used }
        requires some { 1 ≤ self.old.count }
        ensures { CutOff places self.old self.new }
    {
        self.octets[0..self.used].rotate_left(places);
        self.used -= places;
        self.count -= 1;
    }
}
