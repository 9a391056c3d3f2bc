//! A connection in memory, for tests.
ghost use Rattle.std.specs.Prelude.{◌≡◌, ◌<◌, ◌≤◌, ◌++◌, ◌∷◌, [], Some, false, IfOk, OnErr, length, min, take, is_ok, if◌then◌else◌};

use crate::calls::is_due;
use crate::links::is_late;
use crate::reader::{Reader, read_up_to};
use crate::{Bytes, IoFault, Link};
use std::alloc::{AllocError, Global};

/// A connection in memory, whose calls fail where a test asks for it.
#[derive(Drop)]
pub struct MemLink {
    input: Reader,
    written: Vec<u8>,
    failing_reads: Vec<u64>,
    failing_writes: Vec<u64>,
    read_calls: u64,
    write_calls: u64,
    read_faults: u64,
    write_faults: u64,
    shortages: u64,
    late: bool,
    most: usize,
    ghost some: { 0 < most },
}

impl MemLink {
    ghost use Rattle.layout_io.specs.Links.{LinkTold};
    ghost use Rattle.layout_io.specs.MemoryLinks.{LinkPlan, wire_of, link_told, link_plan, list_read, list_write};

    /// A connection over which these bytes come. No call is to fail, and each takes as much as there
    /// is. It takes no memory.
    pub fn new(alloc: Global, input: Bytes) -> Self
        ensures told { link_told result ≡ record { wire = Some (record { left = input; written = [] }); read_faults = 0; write_faults = 0; shortages = 0; late = false } }
        ensures plan { link_plan result ≡ record { failing_reads = []; reads = 0; failing_writes = []; writes = 0; most = usize.MAX } }
    {
        MemLink {
            input: Reader::new(input),
            written: Vec::new(alloc),
            failing_reads: Vec::new(alloc),
            failing_writes: Vec::new(alloc),
            read_calls: 0,
            write_calls: 0,
            read_faults: 0,
            write_faults: 0,
            shortages: 0,
            late: false,
            most: usize::MAX,
        }
    }

    /// Adds a read to the list of those that are to fail, counted from 1. An `Err`, for want of
    /// memory, leaves the link as it was.
    pub fn fail_read(&mut self, call: u32) -> Result<(), AllocError>
        ensures plan { link_plan self.new ≡ (if is_ok result then list_read call (link_plan self.old) else link_plan self.old) }
        ensures told { link_told self.new ≡ link_told self.old }
    {
        self.failing_reads.push(u64::from(call))?;
        Ok(())
    }

    /// Adds a write to the list of those that are to fail, counted from 1. An `Err`, for want of
    /// memory, leaves the link as it was.
    pub fn fail_write(&mut self, call: u32) -> Result<(), AllocError>
        ensures plan { link_plan self.new ≡ (if is_ok result then list_write call (link_plan self.old) else link_plan self.old) }
        ensures told { link_told self.new ≡ link_told self.old }
    {
        self.failing_writes.push(u64::from(call))?;
        Ok(())
    }

    /// From now on a read or a write takes at most so many bytes.
    pub fn set_piece(&mut self, most: usize)
        requires { 0 < most }
        ensures plan { link_plan self.new ≡ record (link_plan self.old) { most = most } }
        ensures told { link_told self.new ≡ link_told self.old }
    {
        self.most = most;
    }

    /// The bytes written.
    pub fn written(&self) -> &[u8]
        ensures { result.now ≡ (wire_of self.now).written }
    {
        &self.written
    }
}

impl Link for MemLink {
    ghost use Rattle.layout_io.specs.Calls.{CountsOne, FailsExactly, FailsUnlessMemory};
    ghost use Rattle.layout_io.specs.Causes.{HasCause, HasShortage};
    ghost use Rattle.layout_io.specs.Links.{IsReceived, IsSent, MarksLate};
    ghost use Rattle.layout_io.specs.MemoryLinks.{wire_of, link_told, link_plan, IsLinkReadDue, IsLinkWriteDue, after_link_read, after_link_write};

    ghost told = { λ l. link_told l };

    /// Reads as much as there is room for and left, or as much as `set_piece` said, but where the
    /// read is listed to fail. It takes no memory.
    fn read(&mut self, into: &mut [u8]) -> Result<usize, IoFault>
        ensures bound { IfOk result (λ k. k ≤ length into.new) }
        ensures ok { IfOk result (λ k. IsReceived (take k into.new) (wire_of self.old) (wire_of self.new)) }
        ensures end { IfOk result (λ k. k ≡ 0 → 0 < length into.new → (wire_of self.old).left ≡ []) }
        ensures err { OnErr result (wire_of self.new ≡ wire_of self.old) }
        ensures cause { HasCause self.old.read_faults self.new.read_faults result }
        ensures other_count { self.new.write_faults ≡ self.old.write_faults }
        ensures memory { self.new.shortages ≡ self.old.shortages }
        ensures late { MarksLate (link_told self.old) (link_told self.new) }
        ensures count { IfOk result (λ k. k ≡ min (min (length into.new) (link_plan self.old).most) (length (wire_of self.old).left)) }
        ensures exact { FailsExactly (IsLinkReadDue (link_plan self.old)) result }
        ensures counted { CountsOne self.old.read_faults self.new.read_faults result }
        ensures plan { link_plan self.new ≡ after_link_read (link_plan self.old) }
    {
        self.late = is_late(self.late, self.read_faults, self.write_faults);
        if is_due(&mut self.read_calls, &self.failing_reads) {
            self.read_faults = self.read_faults.saturating_add(1);
            return Err(IoFault::Failed);
        }
        Ok(read_up_to(&mut self.input, into, self.most))
    }

    /// Takes the whole piece or as much as `set_piece` said, but where the write is listed to fail
    /// or memory runs out.
    fn write(&mut self, piece: &[u8]) -> Result<usize, IoFault>
        ensures bound { IfOk result (λ k. k ≤ length piece.now) }
        ensures some { IfOk result (λ k. 0 < length piece.now → 0 < k) }
        ensures ok { IfOk result (λ k. IsSent (take k piece.now) (wire_of self.old) (wire_of self.new)) }
        ensures err { OnErr result (wire_of self.new ≡ wire_of self.old) }
        ensures cause { HasCause self.old.write_faults self.new.write_faults result }
        ensures other_count { self.new.read_faults ≡ self.old.read_faults }
        ensures memory { HasShortage self.old.shortages self.new.shortages result }
        ensures late { MarksLate (link_told self.old) (link_told self.new) }
        ensures count { IfOk result (λ k. k ≡ min (length piece.now) (link_plan self.old).most) }
        ensures exact { FailsUnlessMemory (IsLinkWriteDue (link_plan self.old)) result }
        ensures counted { CountsOne self.old.write_faults self.new.write_faults result }
        ensures plan { link_plan self.new ≡ after_link_write (link_plan self.old) }
    {
        self.late = is_late(self.late, self.read_faults, self.write_faults);
        if is_due(&mut self.write_calls, &self.failing_writes) {
            self.write_faults = self.write_faults.saturating_add(1);
            return Err(IoFault::Failed);
        }
        let count = piece.len().min(self.most);
        match self.written.extend_from_slice(&piece[..count]) {
            Ok(()) => Ok(count),
            Err(_) => {
                self.shortages = self.shortages.saturating_add(1);
                Err(IoFault::Memory)
            }
        }
    }
}
