//! What comes before the session: the door is bound, the design is read and tested, and the session file is made.
ghost use Rattle.std.specs.Prelude.{◌≡◌, ◌<◌, ◌∷◌, [], List, ℕ, None, IfOk, OnOk, IfErr, vec_len, vec_capacity};
ghost use Rattle.layout_io.specs.Told.{Told, IsCreated};
ghost use Rattle.whole_files.specs.Words.{Asked};
ghost use Rattle.whole_files.specs.Outside.{OnlyRead};
ghost use Rattle.session_server.specs.Words.{names_of};
ghost use Rattle.session_server.specs.Lefts.{standing_of};
ghost use Rattle.session_server.specs.Rows.{FilesEnd, HasNotBegun};
ghost use Rattle.session_server.specs.Stages.{IsBound, BindEnd, IsLoaded, MakeEnd, IsReady};

use crate::ends::end_of;
use crate::{End, ServeWords};
use board_files::{load_clean, make_file};
use layout_io::{Door, Files, IoFault};
use row_lists::WEIGHT_LIMIT;
use serial_master::SerialMaster;
use session_loop::SessionEnd;
use std::alloc::{AllocError, Global};

/// The master of the design, and the number under which the session file is written.
#[derive(Drop)]
pub(crate) struct Ready {
    pub(crate) master: SerialMaster,
    pub(crate) file: u32,
}

/// The same, and lists with room for the one session's end and link.
pub(crate) struct Opened<L> {
    pub(crate) master: SerialMaster,
    pub(crate) file: u32,
    pub(crate) ends: Vec<SessionEnd>,
    pub(crate) links: Vec<L>,
}

/// Lists with room for the one session's end and link.
struct Rooms<L> {
    ends: Vec<SessionEnd>,
    links: Vec<L>,
}

// Binds the door at the address.
fn open_door<D: Door>(door: &mut D, address: &str) -> Result<(), End>
    requires { (D.told door.old).asked ≡ None }
    ensures ok { OnOk result (IsBound address.now (D.told door.old) (D.told door.new)) }
    ensures err { IfErr result (BindEnd address.now (D.told door.old) (D.told door.new)) }
{
    match door.bind(address) {
        Ok(()) => Ok(()),
        Err(IoFault::Failed) => Err(End::Door),
        Err(IoFault::Memory) => Err(End::Memory),
    }
}

// A master of the design of the file under the name.
#[tactic(auto, using(crate::proofs::Files::load_end, crate::proofs::Files::start_end))]
fn start_master<F: Files>(alloc: Global, files: &mut F, name: &str) -> Result<SerialMaster, End>
    ensures loaded { IfOk result (λ master. IsLoaded name.now master.parts (F.told files.old)) }
    ensures new { IfOk result (λ master. master ≡ standing_of master.parts []) }
    ensures only { OnOk result (OnlyRead (name.now ∷ []) (F.told files.old) (F.told files.new)) }
    ensures err { IfErr result (λ end. (session : List ℕ) → FilesEnd name.now session (F.told files.old) (F.told files.new) end) }
{
    match load_clean(alloc, files, name) {
        Ok(design) => Ok(SerialMaster::start(alloc, design, 1, WEIGHT_LIMIT)?),
        Err(stop) => Err(end_of(stop)),
    }
}

// Makes the session file, which is then empty.
fn make<F: Files>(files: &mut F, session: &str) -> Result<u32, End>
    ensures made { IfOk result (λ file. Told (F.told files.old).disk (F.told files.new).disk (IsCreated session.now file)) }
    ensures writes { IfOk result (F.writes files.new) }
    ensures ok_count { OnOk result ((F.told files.new).write_faults ≡ (F.told files.old).write_faults) }
    ensures asked { Asked (session.now ∷ []) (F.told files.old).asked (F.told files.new).asked }
    ensures reads { (F.told files.new).read_faults ≡ (F.told files.old).read_faults }
    ensures err { IfErr result (MakeEnd (F.told files.old) (F.told files.new)) }
{
    match make_file(files, session) {
        Ok(file) => Ok(file),
        Err(stop) => Err(end_of(stop)),
    }
}

// Reads and tests the design, starts its master, and makes the session file.

fn open_files<F: Files>(
    alloc: Global,
    files: &mut F,
    design: &str,
    session: &str,
) -> Result<Ready, End>
    ensures ready { IfOk result (λ r. IsReady design.now session.now r.master.parts r.file (F.told files.old) (F.told files.new)) }
    ensures new { IfOk result (λ r. r.master ≡ standing_of r.master.parts []) }
    ensures writes { IfOk result (λ r. F.writes files.new r.file) }
    ensures err { IfErr result (FilesEnd design.now session.now (F.told files.old) (F.told files.new)) }
{
    let master = start_master(alloc, files, design)?;
    let file = make(files, session)?;
    Ok(Ready { master, file })
}

// Room for the end and the link of one session.
fn make_rooms<L>(alloc: Global) -> Result<Rooms<L>, AllocError>
    ensures none { IfOk result (λ r. (r.ends.items ≡ []) × (r.links.items ≡ [])) }
    ensures room { IfOk result (λ r. (vec_len r.ends < vec_capacity r.ends) × (vec_len r.links < vec_capacity r.links)) }
{
    let ends = Vec::with_capacity(alloc, 1)?;
    let links = Vec::with_capacity(alloc, 1)?;
    Ok(Rooms { ends, links })
}

/// Binds the door, reads and tests the design, starts its master, makes the session file, and takes the room that the
/// session's end and link need.
#[tactic(auto, using(crate::proofs::Doors::files_end))]
pub(crate) fn open<F: Files, D: Door>(
    alloc: Global,
    files: &mut F,
    door: &mut D,
    words: &ServeWords,
) -> Result<Opened<D::L>, End>
    requires { (D.told door.old).asked ≡ None }
    ensures bound { OnOk result (IsBound words.now.address (D.told door.old) (D.told door.new)) }
    ensures ready { IfOk result (λ r. IsReady words.now.design words.now.session r.master.parts r.file (F.told files.old) (F.told files.new)) }
    ensures new { IfOk result (λ r. r.master ≡ standing_of r.master.parts []) }
    ensures writes { IfOk result (λ r. F.writes files.new r.file) }
    ensures none { IfOk result (λ r. (r.ends.items ≡ []) × (r.links.items ≡ [])) }
    ensures room { IfOk result (λ r. (vec_len r.ends < vec_capacity r.ends) × (vec_len r.links < vec_capacity r.links)) }
    ensures err { IfErr result (HasNotBegun (names_of words.now) (F.told files.old) (F.told files.new) (D.told door.old) (D.told door.new)) }
{
    open_door(door, words.address.as_str())?;
    let ready = open_files(alloc, files, words.design.as_str(), words.session.as_str())?;
    let Rooms { ends, links } = make_rooms(alloc)?;
    let Ready { master, file } = ready;
    Ok(Opened {
        master,
        file,
        ends,
        links,
    })
}
