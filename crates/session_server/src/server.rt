//! The server of one client, from its words to what it hands back.
ghost use Rattle.std.specs.Prelude.{◌≡◌, ◌<◌, ◌⊎◌, [], None, true, vec_len, vec_capacity};
ghost use Rattle.board_rules.specs.declared.design.Design.{Design};
ghost use Rattle.board_core.specs.Boards.{first_board, last_board};
ghost use Rattle.board_core.specs.Clean.{IsCleanBoard};
ghost use Rattle.whole_files.specs.Words.{texts};
ghost use Rattle.board_files.specs.Inputs.{HasToldClean};
ghost use Rattle.ses_writer.specs.Session.{session_of};
ghost use Rattle.session_server.specs.Words.{IsServe, names_in, names_of};
ghost use Rattle.session_server.specs.Ends.{TellsEnd, end_of_fault};
ghost use Rattle.session_server.specs.Lefts.{left_with, nothing, standing_of, HasLeft};
ghost use Rattle.session_server.specs.Rows.{IsUsage, IsEnded, HasCounts, NoFault};
ghost use Rattle.session_server.specs.Stages.{StoreEnd, RunEnd};
ghost use Rattle.session_server.specs.declared.ends.End.TheVariants as ends;

use crate::ends::tell_end;
use crate::opening::{Opened, open};
use crate::sit::{Sat, sit};
use crate::storing::store;
use crate::words::{ServeWords, WordsWhy, read_words};
use crate::{End, Served};
use board_items::{Calls, Entries};
use board_laws::{every_board_is_clean, every_journal_is_shielded};
use layout_io::{Door, Files, Gate, IoFault, Link, Sink};
use row_lists::Row;
use session_loop::Ends;
use std::alloc::Global;
use std::sync::Wait;

// What is handed back where no session began.
fn not_begun<L>(alloc: Global, end: End) -> Served<L>
    ensures { result ≡ record { end = end; history = []; journal = []; ends = []; links = [] } }
{
    Served {
        end,
        history: Calls::new(alloc),
        journal: Entries::new(alloc),
        ends: Ends::new(alloc),
        links: Row::new(alloc),
    }
}

// The session over a link, and then the text of its last board, as far as it is stored.
fn serve_client<R: Wait, F: Files, L: Link>(
    rt: &R,
    alloc: Global,
    files: &mut F,
    opened: Opened<L>,
    link: L,
) -> Served<L>
    requires new { opened.master ≡ standing_of opened.master.parts [] }
    requires writes { F.writes files.old opened.file }
    requires none { (opened.ends.items ≡ []) × (opened.links.items ≡ []) }
    requires room { (vec_len opened.ends < vec_capacity opened.ends) × (vec_len opened.links < vec_capacity opened.links) }
    ensures left { HasLeft opened.master.parts (L.told link) (left_with L.told result.history result.journal result.ends result.links) }
    ensures stored { StoreEnd opened.file (session_of opened.master.parts (last_board opened.master.parts result.journal).live) (F.told files.old) (F.told files.new) result.end }
{
    let Opened {
        master,
        file,
        mut ends,
        mut links,
    } = opened;
    let Sat { master, end, link } = sit(rt, alloc, master, link);
    ends.push_reserved(end);
    links.push_reserved(link);
    let end = store(alloc, files, file, &master);
    let (history, journal) = master.into_lists();
    Served {
        end,
        history,
        journal,
        ends: Row::from_vec(ends),
        links: Row::from_vec(links),
    }
}

// The end that a failed accept is.
fn end_of_accept(fault: IoFault) -> End
    ensures { result ≡ end_of_fault fault }
{
    match fault {
        IoFault::Failed => End::Door,
        IoFault::Memory => End::Memory,
    }
}

// What is handed back where no link was accepted.
fn give_back<L>(alloc: Global, opened: Opened<L>, end: End) -> Served<L>
    requires { (opened.ends.items ≡ []) × (opened.links.items ≡ []) }
    ensures { result ≡ record { end = end; history = []; journal = []; ends = []; links = [] } }
{
    let Opened {
        master: _master,
        file: _file,
        ends,
        links,
    } = opened;
    Served {
        end,
        history: Calls::new(alloc),
        journal: Entries::new(alloc),
        ends: Row::from_vec(ends),
        links: Row::from_vec(links),
    }
}

// Lets the one client in, and serves it.
fn serve_opened<R: Wait, F: Files, D: Door>(
    rt: &R,
    alloc: Global,
    files: &mut F,
    door: &mut D,
    opened: Opened<D::L>,
) -> Served<D::L>
    requires bound { (D.told door.old).bound ≡ true }
    requires clean { IsCleanBoard opened.master.parts (first_board opened.master.parts).rules (first_board opened.master.parts).live }
    requires new { opened.master ≡ standing_of opened.master.parts [] }
    requires writes { F.writes files.old opened.file }
    requires none { (opened.ends.items ≡ []) × (opened.links.items ≡ []) }
    requires room { (vec_len opened.ends < vec_capacity opened.ends) × (vec_len opened.links < vec_capacity opened.links) }
    ensures { RunEnd opened.master.parts opened.file (F.told files.old) (F.told files.new) (D.told door.old) (D.told door.new) (left_with D.L.told result.history result.journal result.ends result.links) result.end }
{
    every_journal_is_shielded();
    every_board_is_clean();
    match door.accept() {
        Ok(link) => serve_client(rt, alloc, files, opened, link),
        Err(fault) => give_back(alloc, opened, end_of_accept(fault)),
    }
}

// Serves the one client, as words that were read say.
fn serve_words<R: Wait, F: Files, D: Door>(
    rt: &R,
    alloc: Global,
    words: &ServeWords,
    files: &mut F,
    door: &mut D,
) -> Served<D::L>
    requires { (D.told door.old).asked ≡ None }
    ensures { IsEnded (names_of words.now) (F.told files.old) (F.told files.new) (D.told door.old) (D.told door.new) (left_with D.L.told result.history result.journal result.ends result.links) result.end }
{
    match open(alloc, files, door, words) {
        Ok(opened) => serve_opened(rt, alloc, files, door, opened),
        Err(end) => not_begun(alloc, end),
    }
}

// As `serve`, but that no line is written.
fn serve_quietly<R: Wait, F: Files, D: Door>(
    rt: &R,
    alloc: Global,
    words: &[String],
    files: &mut F,
    door: &mut D,
) -> Served<D::L>
    requires { (D.told door.old).asked ≡ None }
    ensures usage { IsUsage (texts words.now) (F.told files.old) (F.told files.new) (D.told door.old) (D.told door.new) (left_with D.L.told result.history result.journal result.ends result.links) result.end }
    ensures ended { IsServe (texts words.now) → IsEnded (names_in (texts words.now)) (F.told files.old) (F.told files.new) (D.told door.old) (D.told door.new) (left_with D.L.told result.history result.journal result.ends result.links) result.end }
{
    match read_words(alloc, words) {
        Ok(words) => serve_words(rt, alloc, &words, files, door),
        Err(WordsWhy::Usage) => not_begun(alloc, End::Usage),
        Err(WordsWhy::Memory) => not_begun(alloc, End::Memory),
    }
}

/// Serves the one client that the words name: binds the door, reads and tests the design, makes the session file, lets one
/// link in, answers its lines until its session ends, and writes the session text of the last board. A fault's line is
/// written to `out`, and nothing else. It may wait as long as the link does.
pub fn serve<R: Wait, F: Files, D: Door, G: Gate, O: Sink>(
    rt: &R,
    alloc: Global,
    words: &[String],
    files: &mut F,
    door: &mut D,
    _gate: &G,
    out: &mut O,
) -> Served<D::L>
    requires { (D.told door.old).asked ≡ None }
    // `Usage` exactly for the words; then no file and no address was asked for.
    ensures usage { IsUsage (texts words.now) (F.told files.old) (F.told files.new) (D.told door.old) (D.told door.new) (left_with D.L.told result.history result.journal result.ends result.links) result.end }
    // Any other end: why no session began, or what the one session left and how its text was stored.
    ensures ended { IsServe (texts words.now) → IsEnded (names_in (texts words.now)) (F.told files.old) (F.told files.new) (D.told door.old) (D.told door.new) (left_with D.L.told result.history result.journal result.ends result.links) result.end }
    // A fault only where its count rose, and none is passed over.
    ensures counts { HasCounts result.end (F.told files.old) (F.told files.new) (D.told door.old) (D.told door.new) }
    // A clean design, and no count that rose, give `Done`, or want of memory.
    ensures complete { (d : Design) → IsServe (texts words.now) → HasToldClean (names_in (texts words.now)).design d (F.told files.old).disk → NoFault (F.told files.old) (F.told files.new) (D.told door.old) (D.told door.new) → (result.end ≡ ends.Done) ⊎ (result.end ≡ ends.Memory) }
    // The line of the end, and nothing where all was done.
    ensures line { TellsEnd result.end (O.told out.old) (O.told out.new) }
{
    let served = serve_quietly(rt, alloc, words, files, door);
    tell_end(out, served.end);
    served
}
