//! The standard output. It tells nothing of bytes: this is the trusted edge.
ghost use Rattle.std.specs.Prelude.{◌≡◌, IfOk, OnOk, OnErr, is_ok, if◌then◌else◌};

use crate::{IoFault, Sink};
use std::io;
use std::io::Write;
use std::rt::HostRuntime;

/// The standard output. It counts its faults, and tells nothing of bytes.
#[derive(Drop)]
pub struct HostSink {
    rt: HostRuntime,
    faults: u64,
}

impl HostSink {
    /// The standard output: no write was made. It takes no memory.
    pub fn new(rt: &HostRuntime) -> HostSink
        ensures faults { result.faults ≡ 0 }
    {
        HostSink { rt: *rt, faults: 0 }
    }
}

impl Sink for HostSink {
    ghost use Rattle.std.specs.Prelude.{None};

    ghost told = { λ s. record { written = None; faults = s.faults; shortages = 0 } };

    fn write(&mut self, piece: &[u8]) -> Result<usize, IoFault> {
        match io::writer(&self.rt).write(piece) {
            Ok(0) if !piece.is_empty() => {
                self.faults = self.faults.saturating_add(1);
                Err(IoFault::Failed)
            }
            Ok(count) => Ok(count),
            Err(_) => {
                self.faults = self.faults.saturating_add(1);
                Err(IoFault::Failed)
            }
        }
    }
}
