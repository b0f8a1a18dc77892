// A line: an air path over fixed memory.
ghost use Rattle.std.specs.Prelude.{◌≡◌, ◌↔◌, ◌+◌, ◌≤◌, [], length, IsNone, IfSome};
ghost use Rattle.lines.specs.Layout.{Lies};
ghost use Rattle.lines.specs.Line.{LineSight, LinePuts, LineTakes};
ghost use Rattle.lines.specs.Stored.{seen_in, memory_of, oldest_in, KeptIn};
ghost use Rattle.lines.specs.Serving.{waiting_sized};

use crate::memory::Memory;
use crate::shape::Shape;
use crate::store::Store;
use paths::{AirPath, PathFault, carries};
use std::convert::AsSlice;
use std::marker::PhantomData;

// Strings of one shape, in a memory.
#[derive(Drop)]
pub struct Line<L: Shape> {
    store: Store,
    shape: PhantomData<L>,
    // The octets in use are the strings that wait, each behind its head, and each of them can be told apart again.
    ghost kept: { KeptIn L.layout store },
}

impl<L: Shape> Line<L> {
    // A line on a memory, with nothing waiting.
    pub fn new(memory: Memory) -> Line<L>
        ensures { seen_in L.layout result.store ≡ record { room = length memory.octets.items; waiting = [] } }
    {
        Line {
            store: Store::empty(memory),
            shape: PhantomData,
        }
    }

    // The memory, in which the strings that wait lie from the start; what lies behind them is free.
    pub fn memory(&self) -> &[u8]
        ensures octets { result.now ≡ memory_of self.now.store }
        ensures lies { Lies L.layout (seen_in L.layout self.now.store).waiting result.now }
    {
        self.store.octets()
    }

    // The oldest string that waits.
    fn oldest(&self) -> Option<&[u8]>
        ensures none { IsNone result ↔ (self.now.store.count ≡ 0) }
        ensures some { IfSome result (λ s. s.now ≡ oldest_in L.layout self.now.store) }
        ensures sized { IfSome result (λ s. length s.now ≤ 256) }
        ensures within { IfSome result (λ s. L.layout.size + length s.now ≤ self.now.store.used) }
    {
        if self.store.count() == 0 {
            return None;
        }
        let run = self.store.octets();
        let start = L::head_size();
        Some(&run[start..start + L::first(run)])
    }
}

impl<L: Shape> AirPath for Line<L> {
    ghost Sight = { LineSight };

    ghost sees = { λ l. seen_in L.layout l.store };

    ghost strings = { λ v. v.waiting };

    ghost puts = { LinePuts L.layout };

    ghost takes = { LineTakes };

    ghost sized = { λ p. waiting_sized L.layout p.store p.kept };

    // Keeps a string, or loses it.
    fn put(&mut self, s: &[u8]) -> Result<(), PathFault> {
        if !carries(s) {
            return Err(PathFault::BadLength);
        }
        if L::plain(s) {
            self.store.offer(L::head(s).as_slice(), s);
        }
        Ok(())
    }

    fn waiting(&self) -> usize {
        self.store.count()
    }

    // Hands out the oldest string.
    fn take(&mut self, buffer: &mut [u8]) -> Result<usize, PathFault> {
        if buffer.len() < 256 {
            return Err(PathFault::BadLength);
        }
        let s = self.oldest().ok_or(PathFault::NothingWaits)?;
        let n = s.len();
        buffer[..n].copy_from_slice(s);
        self.store.cut_off(L::head_size() + n);
        Ok(n)
    }
}
