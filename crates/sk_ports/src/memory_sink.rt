ghost use Rattle.std.specs.Prelude.{◌≡◌, ◌↔◌, ◌⊎◌, ◌+◌, ◌≤◌, ◌<◌, [], length, vec_len, vec_capacity, Contains, IsErr, IfOk};
ghost use Rattle.sk_ports.specs.Causes.{HasCause, Rose};
ghost use Rattle.sk_ports.specs.Memory.{accepted, counted, most_of};
ghost use Rattle.sk_ports.specs.Pieces.{appended, taken};

use crate::fault::Failed;
use crate::sink::Sink;
use sk_types::NoMemory;
use std::alloc::Global;

/// A sink in memory, whose calls can be made to fail.
#[derive(Debug, Drop)]
pub struct MemorySink {
    pub written: Vec<u8>,
    /// The bytes that it still takes; their memory is there.
    pub room: u64,
    /// The most bytes that one write takes.
    pub step: u64,
    /// The numbers, from 1, of the writes that fail.
    pub fail: Vec<u64>,
    pub calls: u64,
    pub faults: u64,
    ghost reserved: { vec_len written + room ≤ vec_capacity written },
}

impl MemorySink {
    /// A sink with memory for `room` bytes.
    pub fn new(alloc: Global, room: u64, step: u64, fail: Vec<u64>) -> Result<MemorySink, NoMemory>
        ensures written { IfOk result (λ sink. sink.written.items ≡ []) }
        ensures given { IfOk result (λ sink. (sink.room ≡ room) × (sink.step ≡ step) × (sink.fail ≡ fail)) }
        ensures counts { IfOk result (λ sink. (sink.calls ≡ 0) × (sink.faults ≡ 0)) }
    {
        let written = Vec::with_capacity(alloc, room as usize)?;
        Ok(MemorySink {
            written,
            room,
            step,
            fail,
            calls: 0,
            faults: 0,
        })
    }

    /// Counts a fault.
    fn failed(&mut self) -> Failed
        ensures rose { Rose self.old.faults self.new.faults }
        ensures later { self.old.faults ≤ self.new.faults }
        ensures kept { self.new ≡ record self.old { faults = self.new.faults } }
    {
        self.faults = self.faults.saturating_add(1);
        Failed
    }
}

impl Sink for MemorySink {
    ghost use Rattle.std.specs.Prelude.{Some};

    ghost written = { λ s. Some s.written.items };

    ghost faults = { λ s. s.faults };

    fn write(&mut self, piece: &[u8]) -> Result<usize, Failed>
        ensures some { IfOk result (λ n. (0 < n) × (n ≤ length piece.now)) }
        ensures bytes { Some self.new.written.items ≡ appended (Some self.old.written.items) (taken result piece.now) }
        ensures cause { HasCause self.old.faults self.new.faults result }

        // Only a call that is to fail, and a sink that can take nothing, fails.
        ensures calls { self.new.calls ≡ counted self.old.calls }
        ensures fails { IsErr result ↔ (Contains self.old.fail.items self.new.calls ⊎ (most_of self.old.room self.old.step (length piece.now) ≡ 0)) }
        ensures takes { IfOk result (λ n. n ≡ most_of self.old.room self.old.step (length piece.now)) }
        ensures room { self.new.room + accepted result ≡ self.old.room }
        ensures kept { (self.new.step ≡ self.old.step) × (self.new.fail ≡ self.old.fail) }
    {
        self.calls = self.calls.saturating_add(1);
        if self.fail.contains(&self.calls) {
            return Err(self.failed());
        }
        let most = self.room.min(self.step).min(piece.len() as u64);
        if most == 0 {
            return Err(self.failed());
        }
        self.room -= most;
        let Ok(()) = self.written.extend_from_slice(&piece[..most as usize]) else {
            unreachable!()
        };
        Ok(most as usize)
    }
}
