//! Files in memory, for tests.
ghost use Rattle.std.specs.Prelude.{◌≡◌, ◌<◌, ◌≤◌, ◌++◌, ◌∷◌, ◌⊎◌, [], Some, None, OnErr, OnOk, IfOk, IfSome, IfNone, MatchOption, ℕ, length, min, take, is_ok, if◌then◌else◌};

use crate::calls::is_due;
use crate::numbers::{add_reader, add_target, note};
use crate::reader::{Reader, read_on, reader_for};
use crate::stored::{grow, place_of, replace};
use crate::{Files, IoFault, Name, Row, Stored};
use std::alloc::{AllocError, Global};

/// Files in memory, whose calls fail where a test asks for it.
#[derive(Drop)]
pub struct MemFiles {
    alloc: Global,
    files: Vec<Stored>,
    readers: Vec<Reader>,
    targets: Vec<Name>,
    asked: Vec<Name>,
    failing_reads: Vec<u64>,
    failing_writes: Vec<u64>,
    read_calls: u64,
    write_calls: u64,
    read_faults: u64,
    write_faults: u64,
    most: usize,
    ghost some: { 0 < most },
}

impl MemFiles {
    ghost use Rattle.layout_io.specs.MemoryFiles.{Plan, stored_files, plan_of, asked_of, add_failing_read, add_failing_write, KeepsTold};
    ghost use Rattle.layout_io.specs.Told.{IsPut, bytes_of};

    /// No files, and no call that is to fail. A write takes the whole piece. It takes no memory.
    pub fn new(alloc: Global) -> Self
        ensures files { stored_files result ≡ [] }
        ensures plan { plan_of result ≡ record { failing_reads = []; reads = 0; failing_writes = []; writes = 0; most = usize.MAX } }
        ensures asked { asked_of result ≡ [] }
        ensures read_faults { result.read_faults ≡ 0 }
        ensures write_faults { result.write_faults ≡ 0 }
    {
        MemFiles {
            alloc,
            files: Vec::new(alloc),
            readers: Vec::new(alloc),
            targets: Vec::new(alloc),
            asked: Vec::new(alloc),
            failing_reads: Vec::new(alloc),
            failing_writes: Vec::new(alloc),
            read_calls: 0,
            write_calls: 0,
            read_faults: 0,
            write_faults: 0,
            most: usize::MAX,
        }
    }

    /// Puts these bytes under the name, in place of those that are there. An `Err`, for want of
    /// memory, leaves the files as they were.
    pub fn put(&mut self, name: &str, bytes: &[u8]) -> Result<(), AllocError>
        ensures ok { OnOk result (IsPut name.now bytes.now (stored_files self.old) (stored_files self.new)) }
        ensures err { OnErr result (stored_files self.new ≡ stored_files self.old) }
        ensures plan { plan_of self.new ≡ plan_of self.old }
        ensures rest { KeepsTold self.old self.new }
    {
        let bytes = Row::from_slice(self.alloc, bytes)?;
        replace(self.alloc, &mut self.files, name.as_bytes(), bytes)
    }

    /// Adds a call to the list of those that are to fail, where each `open_read`, `read` and `create`
    /// is counted, from 1. An `Err`, for want of memory, leaves the list as it was.
    pub fn fail_read(&mut self, call: u32) -> Result<(), AllocError>
        ensures plan { plan_of self.new ≡ (if is_ok result then add_failing_read call (plan_of self.old) else plan_of self.old) }
        ensures files { stored_files self.new ≡ stored_files self.old }
        ensures rest { KeepsTold self.old self.new }
    {
        self.failing_reads.push(u64::from(call))?;
        Ok(())
    }

    /// Adds a call to the list of those that are to fail, where each `write` is counted, from 1. An
    /// `Err`, for want of memory, leaves the list as it was.
    pub fn fail_write(&mut self, call: u32) -> Result<(), AllocError>
        ensures plan { plan_of self.new ≡ (if is_ok result then add_failing_write call (plan_of self.old) else plan_of self.old) }
        ensures files { stored_files self.new ≡ stored_files self.old }
        ensures rest { KeepsTold self.old self.new }
    {
        self.failing_writes.push(u64::from(call))?;
        Ok(())
    }

    /// From now on a write takes at most so many bytes.
    pub fn set_piece(&mut self, most: usize)
        requires { 0 < most }
        ensures plan { plan_of self.new ≡ record (plan_of self.old) { most = most } }
        ensures files { stored_files self.new ≡ stored_files self.old }
        ensures rest { KeepsTold self.old self.new }
    {
        self.most = most;
    }

    /// The bytes under the name, or `None` where no file has it.
    pub fn bytes_of(&self, name: &str) -> Option<&[u8]>
        ensures some { IfSome result (λ b. bytes_of (stored_files self.now) name.now ≡ Some b.now) }
        ensures none { IfNone result (bytes_of (stored_files self.now) name.now ≡ None) }
    {
        match place_of(&self.files, name.as_bytes()) {
            None => None,
            Some(i) => {
                let file = &self.files[i];
                Some(file.bytes.as_slice())
            }
        }
    }
}

impl Files for MemFiles {
    ghost use Rattle.layout_io.specs.Calls.{CountsOne, FailsExactly, FailsUnlessMemory};
    ghost use Rattle.layout_io.specs.Causes.{HasCause};
    ghost use Rattle.layout_io.specs.MemoryFiles.{disk_of, plan_of, asked_of, stored_files, IsReader, IsWriter, IsReadDue, IsWriteDue, after_read, after_write};
    ghost use Rattle.layout_io.specs.Told.{AsksFor, Gave, IsOpened, IsRead, IsCreated, IsWritten, bytes_of};

    ghost told = { λ m. record { disk = Some (disk_of m); asked = asked_of m; read_faults = m.read_faults; write_faults = m.write_faults } };

    ghost reads = { λ m n. IsReader m n };

    ghost writes = { λ m n. IsWriter m n };

    /// Opens the file for reading, but where the call is listed to fail, no file has the name or
    /// memory runs out.
    fn open_read(&mut self, name: &str) -> Result<u32, IoFault>
        ensures ok { IfOk result (λ n. IsOpened name.now n (disk_of self.old) (disk_of self.new)) }
        ensures err { OnErr result (disk_of self.new ≡ disk_of self.old) }
        ensures asked { AsksFor name.now (asked_of self.old) (asked_of self.new) result }
        ensures reads { Gave (IsReader self.old) (IsReader self.new) result }
        ensures writes { (k : ℕ) → IsWriter self.old k → IsWriter self.new k }
        ensures cause { HasCause self.old.read_faults self.new.read_faults result }
        ensures other_count { self.new.write_faults ≡ self.old.write_faults }
        ensures exact { FailsUnlessMemory (IsReadDue (plan_of self.old) ⊎ (bytes_of (stored_files self.old) name.now ≡ None)) result }
        ensures counted { CountsOne self.old.read_faults self.new.read_faults result }
        ensures plan { plan_of self.new ≡ after_read (plan_of self.old) }
    {
        match reader_for(
            &mut self.read_calls,
            &self.failing_reads,
            &self.files,
            name.as_bytes(),
        )? {
            None => {
                note(self.alloc, &mut self.asked, name)?;
                self.read_faults = self.read_faults.saturating_add(1);
                Err(IoFault::Failed)
            }
            Some(reader) => Ok(add_reader(
                self.alloc,
                &mut self.readers,
                &mut self.asked,
                reader,
                name,
            )?),
        }
    }

    /// Reads as much as there is room for and left, but where the call is listed to fail. It takes
    /// no memory.
    fn read(&mut self, file: u32, into: &mut [u8]) -> Result<usize, IoFault>
        requires { IsReader self.old file }
        ensures bound { IfOk result (λ k. k ≤ length into.new) }
        ensures ok { IfOk result (λ k. IsRead file (take k into.new) (disk_of self.old) (disk_of self.new)) }
        ensures end { IfOk result (λ k. k ≡ 0 → 0 < length into.new → (disk_of self.old).left file ≡ []) }
        ensures err { OnErr result (disk_of self.new ≡ disk_of self.old) }
        ensures asked { asked_of self.new ≡ asked_of self.old }
        ensures reads { (k : ℕ) → IsReader self.old k → IsReader self.new k }
        ensures writes { (k : ℕ) → IsWriter self.old k → IsWriter self.new k }
        ensures cause { HasCause self.old.read_faults self.new.read_faults result }
        ensures other_count { self.new.write_faults ≡ self.old.write_faults }
        ensures count { IfOk result (λ k. k ≡ min (length into.new) (length ((disk_of self.old).left file))) }
        ensures exact { FailsExactly (IsReadDue (plan_of self.old)) result }
        ensures counted { CountsOne self.old.read_faults self.new.read_faults result }
        ensures plan { plan_of self.new ≡ after_read (plan_of self.old) }
    {
        if is_due(&mut self.read_calls, &self.failing_reads) {
            self.read_faults = self.read_faults.saturating_add(1);
            return Err(IoFault::Failed);
        }
        let reader = &mut self.readers[file as usize];
        Ok(read_on(reader, into))
    }

    /// Makes or empties the file, but where the call is listed to fail or memory runs out.
    fn create(&mut self, name: &str) -> Result<u32, IoFault>
        ensures ok { IfOk result (λ n. IsCreated name.now n (disk_of self.old) (disk_of self.new)) }
        ensures err { OnErr result (disk_of self.new ≡ disk_of self.old) }
        ensures asked { AsksFor name.now (asked_of self.old) (asked_of self.new) result }
        ensures reads { (k : ℕ) → IsReader self.old k → IsReader self.new k }
        ensures writes { Gave (IsWriter self.old) (IsWriter self.new) result }
        ensures cause { HasCause self.old.write_faults self.new.write_faults result }
        ensures other_count { self.new.read_faults ≡ self.old.read_faults }
        ensures exact { FailsUnlessMemory (IsReadDue (plan_of self.old)) result }
        ensures counted { CountsOne self.old.write_faults self.new.write_faults result }
        ensures plan { plan_of self.new ≡ after_read (plan_of self.old) }
    {
        if is_due(&mut self.read_calls, &self.failing_reads) {
            note(self.alloc, &mut self.asked, name)?;
            self.write_faults = self.write_faults.saturating_add(1);
            return Err(IoFault::Failed);
        }
        Ok(add_target(
            self.alloc,
            &mut self.files,
            &mut self.targets,
            &mut self.asked,
            name,
        )?)
    }

    /// Takes the whole piece or as much as `set_piece` said, but where the write is listed to fail
    /// or memory runs out.
    fn write(&mut self, file: u32, piece: &[u8]) -> Result<usize, IoFault>
        requires { IsWriter self.old file }
        ensures bound { IfOk result (λ k. k ≤ length piece.now) }
        ensures some { IfOk result (λ k. 0 < length piece.now → 0 < k) }
        ensures ok { IfOk result (λ k. IsWritten file (take k piece.now) (disk_of self.old) (disk_of self.new)) }
        ensures err { OnErr result (disk_of self.new ≡ disk_of self.old) }
        ensures asked { asked_of self.new ≡ asked_of self.old }
        ensures reads { (k : ℕ) → IsReader self.old k → IsReader self.new k }
        ensures writes { (k : ℕ) → IsWriter self.old k → IsWriter self.new k }
        ensures cause { HasCause self.old.write_faults self.new.write_faults result }
        ensures other_count { self.new.read_faults ≡ self.old.read_faults }
        ensures count { IfOk result (λ k. k ≡ min (length piece.now) (plan_of self.old).most) }
        ensures exact { FailsUnlessMemory (IsWriteDue (plan_of self.old)) result }
        ensures counted { CountsOne self.old.write_faults self.new.write_faults result }
        ensures plan { plan_of self.new ≡ after_write (plan_of self.old) }
    {
        if is_due(&mut self.write_calls, &self.failing_writes) {
            self.write_faults = self.write_faults.saturating_add(1);
            return Err(IoFault::Failed);
        }
        let count = piece.len().min(self.most);
        let name = &self.targets[file as usize];
        match grow(&mut self.files, name.as_slice(), &piece[..count]) {
            Ok(()) => Ok(count),
            Err(_) => Err(IoFault::Memory),
        }
    }
}
