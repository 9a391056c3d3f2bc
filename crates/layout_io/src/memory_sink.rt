//! A sink in memory, for tests.
ghost use Rattle.std.specs.Prelude.{◌≡◌, ◌++◌, ◌∷◌, [], length, IfOk, OnErr, if◌then◌else◌, is_ok};

use crate::calls::is_due;
use crate::{IoFault, Sink};
use std::alloc::{AllocError, Global};

/// A sink in memory, whose writes fail where a test asks for it.
#[derive(Drop)]
pub struct MemSink {
    bytes: Vec<u8>,
    failing: Vec<u64>,
    calls: u64,
    faults: u64,
    shortages: u64,
}

impl MemSink {
    ghost use Rattle.layout_io.specs.Memory.{sink_bytes, sink_failing, sink_writes, KeepsSink};

    /// A sink without bytes, none of whose writes is to fail. It takes no memory.
    pub fn new(alloc: Global) -> Self
        ensures bytes { sink_bytes result ≡ [] }
        ensures failing { sink_failing result ≡ [] }
        ensures writes { sink_writes result ≡ 0 }
        ensures faults { result.faults ≡ 0 }
        ensures shortages { result.shortages ≡ 0 }
    {
        MemSink {
            bytes: Vec::new(alloc),
            failing: Vec::new(alloc),
            calls: 0,
            faults: 0,
            shortages: 0,
        }
    }

    /// Adds a write to the list of those that are to fail, counted from 1. An `Err`, for want of
    /// memory, leaves the sink as it was.
    pub fn fail_write(&mut self, call: u32) -> Result<(), AllocError>
        ensures listed { sink_failing self.new ≡ (if is_ok result then sink_failing self.old ++ call ∷ [] else sink_failing self.old) }
        ensures rest { KeepsSink self.old self.new }
    {
        self.failing.push(u64::from(call))?;
        Ok(())
    }

    /// The bytes written.
    pub fn written(&self) -> &[u8]
        ensures { result.now ≡ sink_bytes self.now }
    {
        &self.bytes
    }
}

impl Sink for MemSink {
    ghost use Rattle.std.specs.Prelude.{Some};
    ghost use Rattle.std.specs.Io.KnownBytes.{Keeps};
    ghost use Rattle.layout_io.specs.Calls.{CountsOne, FailsUnlessMemory, IsListed, next_number};
    ghost use Rattle.layout_io.specs.Causes.{HasCause, HasShortage};
    ghost use Rattle.layout_io.specs.Memory.{sink_bytes, sink_failing, sink_writes};
    ghost use Rattle.layout_io.specs.Told.{Wrote};

    ghost told = { λ s. record { written = Some s.bytes.items; faults = s.faults; shortages = s.shortages } };

    /// Takes the whole piece, but where the write is listed to fail or memory runs out.
    fn write(&mut self, piece: &[u8]) -> Result<usize, IoFault>
        ensures ok { IfOk result (Wrote piece.now (Some (sink_bytes self.old)) (Some (sink_bytes self.new))) }
        ensures err { OnErr result (Keeps (Some (sink_bytes self.old)) (Some (sink_bytes self.new))) }
        ensures cause { HasCause self.old.faults self.new.faults result }
        ensures memory { HasShortage self.old.shortages self.new.shortages result }
        ensures whole { IfOk result (λ k. k ≡ length piece.now) }
        ensures exact { FailsUnlessMemory (IsListed (sink_failing self.old) (sink_writes self.old)) result }
        ensures counted { CountsOne self.old.faults self.new.faults result }
        ensures number { sink_writes self.new ≡ next_number (sink_writes self.old) }
        ensures listed { sink_failing self.new ≡ sink_failing self.old }
    {
        if is_due(&mut self.calls, &self.failing) {
            self.faults = self.faults.saturating_add(1);
            return Err(IoFault::Failed);
        }
        match self.bytes.extend_from_slice(piece) {
            Ok(()) => Ok(piece.len()),
            Err(_) => {
                self.shortages = self.shortages.saturating_add(1);
                Err(IoFault::Memory)
            }
        }
    }
}
