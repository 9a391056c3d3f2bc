//! What a program asks of the outside.
ghost use Rattle.std.specs.Prelude.{◌≡◌, ◌+◌, ◌<◌, ◌≤◌, ◌++◌, [], ◌∷◌, Bool, List, ℕ, Option, length, take, IfOk, OnOk, OnErr, IfErr};
ghost use Rattle.std.specs.Io.KnownBytes.{Keeps};
ghost use Rattle.layout_io.specs.Causes.{HasCause, HasShortage};
ghost use Rattle.layout_io.specs.Told.{Wrote, SinkTold, FilesTold, Told, Stays, IsOpened, IsRead, IsCreated, IsWritten, AsksFor, Gave};

use crate::IoFault;

/// Where bytes go.
pub trait Sink {
    /// The bytes written, where the object tells, and how often a write answered `Failed` and how
    /// often `Memory`.
    ghost told: { Self → SinkTold };

    /// Takes some bytes from the front of the piece, at least one where there is one. An `Err` takes none.
    fn write(&mut self, piece: &[u8]) -> Result<usize, IoFault>
        ensures ok { IfOk result (Wrote piece.now (told self.old).written (told self.new).written) }
        ensures err { OnErr result (Keeps (told self.old).written (told self.new).written) }
        ensures cause { HasCause (told self.old).faults (told self.new).faults result }
        ensures memory { HasShortage (told self.old).shortages (told self.new).shortages result };
}

/// Named files, each read from its front or written from its front.
pub trait Files {
    /// The files and the places in them, where the object tells, the names asked for by `open_read`
    /// and `create`, in order, and how often an open or a read, and a create or a write, answered
    /// `Failed`.
    ghost told: { Self → FilesTold };

    /// `open_read` gave this number.
    ghost reads: { Self → ℕ → Type 0 };

    /// `create` gave this number.
    ghost writes: { Self → ℕ → Type 0 };

    /// Opens the file for reading from its front, and gives its number. An `Err` opens nothing.
    fn open_read(&mut self, name: &str) -> Result<u32, IoFault>
        ensures ok { IfOk result (λ n. Told (told self.old).disk (told self.new).disk (IsOpened name.now n)) }
        ensures err { OnErr result (Stays (told self.old).disk (told self.new).disk) }
        ensures asked { AsksFor name.now (told self.old).asked (told self.new).asked result }
        ensures reads { Gave (reads self.old) (reads self.new) result }
        ensures writes { (k : ℕ) → writes self.old k → writes self.new k }
        ensures cause { HasCause (told self.old).read_faults (told self.new).read_faults result }
        ensures other_count { (told self.new).write_faults ≡ (told self.old).write_faults };

    /// Reads some of the bytes that are left into the front of the room, at least one where there is
    /// room and one is left. 0 for room that isn't empty is the file's end. An `Err` takes nothing.
    fn read(&mut self, file: u32, into: &mut [u8]) -> Result<usize, IoFault>
        requires { reads self.old file }
        ensures bound { IfOk result (λ k. k ≤ length into.new) }
        ensures ok { IfOk result (λ k. Told (told self.old).disk (told self.new).disk (IsRead file (take k into.new))) }
        ensures end { IfOk result (λ k. k ≡ 0 → 0 < length into.new → Told (told self.old).disk (told self.new).disk (λ d e. d.left file ≡ [])) }
        ensures err { OnErr result (Stays (told self.old).disk (told self.new).disk) }
        ensures asked { (told self.new).asked ≡ (told self.old).asked }
        ensures reads { (k : ℕ) → reads self.old k → reads self.new k }
        ensures writes { (k : ℕ) → writes self.old k → writes self.new k }
        ensures cause { HasCause (told self.old).read_faults (told self.new).read_faults result }
        ensures other_count { (told self.new).write_faults ≡ (told self.old).write_faults };

    /// Makes the file, or empties it, and gives its number. An `Err` changes no file.
    fn create(&mut self, name: &str) -> Result<u32, IoFault>
        ensures ok { IfOk result (λ n. Told (told self.old).disk (told self.new).disk (IsCreated name.now n)) }
        ensures err { OnErr result (Stays (told self.old).disk (told self.new).disk) }
        ensures asked { AsksFor name.now (told self.old).asked (told self.new).asked result }
        ensures reads { (k : ℕ) → reads self.old k → reads self.new k }
        ensures writes { Gave (writes self.old) (writes self.new) result }
        ensures cause { HasCause (told self.old).write_faults (told self.new).write_faults result }
        ensures other_count { (told self.new).read_faults ≡ (told self.old).read_faults };

    /// Takes some bytes from the front of the piece to the end of the file, at least one where there
    /// is one. An `Err` takes none.
    fn write(&mut self, file: u32, piece: &[u8]) -> Result<usize, IoFault>
        requires { writes self.old file }
        ensures bound { IfOk result (λ k. k ≤ length piece.now) }
        ensures some { IfOk result (λ k. 0 < length piece.now → 0 < k) }
        ensures ok { IfOk result (λ k. Told (told self.old).disk (told self.new).disk (IsWritten file (take k piece.now))) }
        ensures err { OnErr result (Stays (told self.old).disk (told self.new).disk) }
        ensures asked { (told self.new).asked ≡ (told self.old).asked }
        ensures reads { (k : ℕ) → reads self.old k → reads self.new k }
        ensures writes { (k : ℕ) → writes self.old k → writes self.new k }
        ensures cause { HasCause (told self.old).write_faults (told self.new).write_faults result }
        ensures other_count { (told self.new).read_faults ≡ (told self.old).read_faults };
}
