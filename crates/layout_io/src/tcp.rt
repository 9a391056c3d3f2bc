//! The machine's sockets. They tell nothing of bytes: this is the trusted edge.
ghost use Rattle.std.specs.Prelude.{◌≡◌, None, false, IfSome};

use crate::links::is_late;
use crate::{Dial, Door, IoFault, Link, Name, Row};
use std::io::{Read, Write};
use std::net::{TcpListener, TcpStream};
use std::rt::HostRuntime;

/// A connection of the machine. It counts its faults, and tells nothing of bytes.
#[derive(Drop)]
pub struct TcpLink {
    stream: TcpStream,
    read_faults: u64,
    write_faults: u64,
    late: bool,
}

// A link over the stream, which sends each piece at once, or `None` where the stream refuses that.
fn link_over(stream: TcpStream) -> Option<TcpLink>
    ensures reads { IfSome result (λ l. l.read_faults ≡ 0) }
    ensures writes { IfSome result (λ l. l.write_faults ≡ 0) }
    ensures late { IfSome result (λ l. l.late ≡ false) }
{
    stream.set_nodelay(true).ok()?;
    Some(TcpLink {
        stream,
        read_faults: 0,
        write_faults: 0,
        late: false,
    })
}

impl Link for TcpLink {
    ghost use Rattle.std.specs.Prelude.{None};

    ghost told = { λ l. record { wire = None; read_faults = l.read_faults; write_faults = l.write_faults; shortages = 0; late = l.late } };

    fn read(&mut self, into: &mut [u8]) -> Result<usize, IoFault> {
        self.late = is_late(self.late, self.read_faults, self.write_faults);
        match self.stream.read(into) {
            Ok(count) => Ok(count),
            Err(_) => {
                self.read_faults = self.read_faults.saturating_add(1);
                Err(IoFault::Failed)
            }
        }
    }

    fn write(&mut self, piece: &[u8]) -> Result<usize, IoFault> {
        self.late = is_late(self.late, self.read_faults, self.write_faults);
        match self.stream.write(piece) {
            Ok(0) if !piece.is_empty() => {
                self.write_faults = self.write_faults.saturating_add(1);
                Err(IoFault::Failed)
            }
            Ok(count) => Ok(count),
            Err(_) => {
                self.write_faults = self.write_faults.saturating_add(1);
                Err(IoFault::Failed)
            }
        }
    }
}

/// The way out of the machine. It counts its faults, and tells nothing of bytes.
#[derive(Drop)]
pub struct TcpDial {
    rt: HostRuntime,
    asked: Option<Name>,
    faults: u64,
}

impl TcpDial {
    /// A way out that wasn't taken. It takes no memory.
    pub fn new(rt: &HostRuntime) -> TcpDial
        ensures asked { result.asked ≡ None }
        ensures faults { result.faults ≡ 0 }
    {
        TcpDial {
            rt: *rt,
            asked: None,
            faults: 0,
        }
    }
}

impl Dial for TcpDial {
    ghost use Rattle.std.specs.Prelude.{None};

    type L = TcpLink;

    ghost told = { λ d. record { asked = d.asked; coming = None; faults = d.faults } };

    fn connect(&mut self, address: &str) -> Result<TcpLink, IoFault> {
        self.asked = Some(Row::from_slice(self.rt.alloc(), address.as_bytes())?);
        if let Ok(stream) = TcpStream::connect(&self.rt, address) {
            if let Some(link) = link_over(stream) {
                return Ok(link);
            }
        }
        self.faults = self.faults.saturating_add(1);
        Err(IoFault::Failed)
    }
}

/// A door of the machine. It counts its faults, and tells nothing of bytes.
#[derive(Drop)]
pub struct TcpDoor {
    rt: HostRuntime,
    asked: Option<Name>,
    listener: Option<TcpListener>,
    faults: u64,
}

impl TcpDoor {
    ghost use Rattle.std.specs.Option.{is_some};

    /// A door that isn't bound. It takes no memory.
    pub fn new(rt: &HostRuntime) -> TcpDoor
        ensures asked { result.asked ≡ None }
        ensures bound { is_some result.listener ≡ false }
        ensures faults { result.faults ≡ 0 }
    {
        TcpDoor {
            rt: *rt,
            asked: None,
            listener: None,
            faults: 0,
        }
    }
}

impl Door for TcpDoor {
    ghost use Rattle.std.specs.Prelude.{None};
    ghost use Rattle.std.specs.Option.{is_some};

    type L = TcpLink;

    ghost told = { λ d. record { asked = d.asked; bound = is_some d.listener; coming = None; faults = d.faults } };

    fn bind(&mut self, address: &str) -> Result<(), IoFault> {
        self.asked = Some(Row::from_slice(self.rt.alloc(), address.as_bytes())?);
        match TcpListener::bind(&self.rt, address) {
            Ok(listener) => {
                self.listener = Some(listener);
                Ok(())
            }
            Err(_) => {
                self.faults = self.faults.saturating_add(1);
                Err(IoFault::Failed)
            }
        }
    }

    fn accept(&mut self) -> Result<TcpLink, IoFault> {
        if let Some(listener) = &self.listener {
            if let Ok((stream, _)) = listener.accept() {
                if let Some(link) = link_over(stream) {
                    return Ok(link);
                }
            }
        }
        self.faults = self.faults.saturating_add(1);
        Err(IoFault::Failed)
    }
}
