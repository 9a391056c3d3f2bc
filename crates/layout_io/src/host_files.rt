//! The files of the machine. They tell nothing of bytes: this is the trusted edge.
ghost use Rattle.std.specs.Prelude.{◌≡◌, ◌<◌, ◌^◌, ◌++◌, ◌∷◌, [], length, vec_len, vec_capacity, IfOk, OnOk, OnErr, is_ok, if◌then◌else◌};

use crate::{Files, IoFault, Name, Row};
use std::alloc::{AllocError, Global};
use std::fs;
use std::fs::File;
use std::io::{Read, Write};
use std::rt::HostRuntime;

/// The files of the machine. It counts its faults, and tells nothing of bytes.
#[derive(Drop)]
pub struct HostFiles {
    rt: HostRuntime,
    readers: Vec<File>,
    writers: Vec<File>,
    asked: Vec<Name>,
    read_faults: u64,
    write_faults: u64,
}

impl HostFiles {
    /// The files of the machine: no call was made, and no count has risen. It takes no memory.
    pub fn new(rt: &HostRuntime) -> HostFiles
        ensures readers { result.readers.items ≡ [] }
        ensures writers { result.writers.items ≡ [] }
        ensures asked { result.asked.items ≡ [] }
        ensures read_faults { result.read_faults ≡ 0 }
        ensures write_faults { result.write_faults ≡ 0 }
    {
        let alloc = rt.alloc();
        HostFiles {
            rt: *rt,
            readers: Vec::new(alloc),
            writers: Vec::new(alloc),
            asked: Vec::new(alloc),
            read_faults: 0,
            write_faults: 0,
        }
    }
}

// Room for one more file and one more name, and the name's copy.
fn room(
    alloc: Global,
    files: &mut Vec<File>,
    asked: &mut Vec<Name>,
    name: &str,
) -> Result<Name, AllocError>
    ensures copy { IfOk result (λ n. n ≡ name.now) }
    ensures files { files.new.items ≡ files.old.items }
    ensures asked { asked.new.items ≡ asked.old.items }
    ensures files_room { OnOk result (vec_len files.new < vec_capacity files.new) }
    ensures asked_room { OnOk result (vec_len asked.new < vec_capacity asked.new) }
    ensures number { OnOk result (length files.new.items < 2 ^ 32) }
{
    if files.len() > u32::MAX as usize {
        return Err(AllocError);
    }
    let copy = Row::from_slice(alloc, name.as_bytes())?;
    files.reserve(1)?;
    asked.reserve(1)?;
    Ok(copy)
}

impl Files for HostFiles {
    ghost use Rattle.std.specs.Prelude.{◌<◌, ℕ, length, None};

    ghost told = { λ h. record { disk = None; asked = h.asked.items; read_faults = h.read_faults; write_faults = h.write_faults } };

    ghost reads = { λ h n. n < length h.readers.items };

    ghost writes = { λ h n. n < length h.writers.items };

    fn open_read(&mut self, name: &str) -> Result<u32, IoFault> {
        let copy = room(self.rt.alloc(), &mut self.readers, &mut self.asked, name)?;
        self.asked.push(copy).unwrap();
        match fs::open(&self.rt, name) {
            Ok(file) => {
                let number = self.readers.len() as u32;
                self.readers.push(file).unwrap();
                Ok(number)
            }
            Err(_) => {
                self.read_faults = self.read_faults.saturating_add(1);
                Err(IoFault::Failed)
            }
        }
    }

    fn read(&mut self, file: u32, into: &mut [u8]) -> Result<usize, IoFault> {
        let reader = &mut self.readers[file as usize];
        match reader.read(into) {
            Ok(count) => Ok(count),
            Err(_) => {
                self.read_faults = self.read_faults.saturating_add(1);
                Err(IoFault::Failed)
            }
        }
    }

    fn create(&mut self, name: &str) -> Result<u32, IoFault> {
        let copy = room(self.rt.alloc(), &mut self.writers, &mut self.asked, name)?;
        self.asked.push(copy).unwrap();
        match fs::create(&self.rt, name) {
            Ok(file) => {
                let number = self.writers.len() as u32;
                self.writers.push(file).unwrap();
                Ok(number)
            }
            Err(_) => {
                self.write_faults = self.write_faults.saturating_add(1);
                Err(IoFault::Failed)
            }
        }
    }

    fn write(&mut self, file: u32, piece: &[u8]) -> Result<usize, IoFault> {
        let writer = &mut self.writers[file as usize];
        match writer.write(piece) {
            Ok(0) if !piece.is_empty() => {
                self.write_faults = self.write_faults.saturating_add(1);
                Err(IoFault::Failed)
            }
            Ok(count) => Ok(count),
            Err(_) => {
                self.write_faults = self.write_faults.saturating_add(1);
                Err(IoFault::Failed)
            }
        }
    }
}
