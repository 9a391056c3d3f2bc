//! What a session asks of a connection.
ghost use Rattle.std.specs.Prelude.{◌≡◌, ◌<◌, ◌≤◌, ◌+◌, [], true, length, take, IfOk, OnErr};
ghost use Rattle.layout_io.specs.Causes.{HasCause, HasShortage};
ghost use Rattle.layout_io.specs.Links.{LinkTold, Across, IsReceived, IsSent, MarksLate};

use crate::IoFault;

/// A connection: bytes come from the other side, and bytes go to it.
pub trait Link {
    /// The bytes left to read and the bytes written, where the object tells, how often a read and how
    /// often a write answered `Failed`, how often a write answered `Memory`, and whether a call was
    /// made after one that answered `Failed`.
    ghost told: { Self → LinkTold };

    /// Reads some of the bytes that are left into the front of the room, at least one where there is
    /// room and one is left. 0 for room that isn't empty is the end. An `Err` takes nothing.
    fn read(&mut self, into: &mut [u8]) -> Result<usize, IoFault>
        ensures bound { IfOk result (λ k. k ≤ length into.new) }
        ensures ok { IfOk result (λ k. Across (told self.old).wire (told self.new).wire (IsReceived (take k into.new))) }
        ensures end { IfOk result (λ k. k ≡ 0 → 0 < length into.new → Across (told self.old).wire (told self.new).wire (λ w v. w.left ≡ [])) }
        ensures err { OnErr result (Across (told self.old).wire (told self.new).wire (λ w v. v ≡ w)) }
        ensures cause { HasCause (told self.old).read_faults (told self.new).read_faults result }
        ensures other_count { (told self.new).write_faults ≡ (told self.old).write_faults }
        ensures memory { (told self.new).shortages ≡ (told self.old).shortages }
        ensures late { MarksLate (told self.old) (told self.new) };

    /// Takes some bytes from the front of the piece, at least one where there is one. An `Err` takes
    /// none.
    fn write(&mut self, piece: &[u8]) -> Result<usize, IoFault>
        ensures bound { IfOk result (λ k. k ≤ length piece.now) }
        ensures some { IfOk result (λ k. 0 < length piece.now → 0 < k) }
        ensures ok { IfOk result (λ k. Across (told self.old).wire (told self.new).wire (IsSent (take k piece.now))) }
        ensures err { OnErr result (Across (told self.old).wire (told self.new).wire (λ w v. v ≡ w)) }
        ensures cause { HasCause (told self.old).write_faults (told self.new).write_faults result }
        ensures other_count { (told self.new).read_faults ≡ (told self.old).read_faults }
        ensures memory { HasShortage (told self.old).shortages (told self.new).shortages result }
        ensures late { MarksLate (told self.old) (told self.new) };
}

// Whether a call that is made now comes late, or one did before: a call had failed.
pub(crate) fn is_late(late: bool, read_faults: u64, write_faults: u64) -> bool
    ensures timely { read_faults ≡ 0 → write_faults ≡ 0 → result ≡ late }
    ensures behind { 1 ≤ read_faults + write_faults → result ≡ true }
{
    late || read_faults > 0 || write_faults > 0
}
