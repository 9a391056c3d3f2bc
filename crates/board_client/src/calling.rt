//! The whole client: its words, the way to the server, its files and the talk.
ghost use Rattle.std.specs.Prelude.{◌≡◌, ◌≢◌, ◌⊎◌, None, IfSome, IfNone, length};
ghost use Rattle.whole_files.specs.Words.{texts};
ghost use Rattle.board_client.specs.Visits.{HasCalled, HasMissed};
ghost use Rattle.board_client.specs.Headline.{HasLink, HasNoLink, IsGiven};

use crate::stop::status_of;
use crate::visit::visit;
use client_words::{ClientWhy, ClientWords, read_client_words};
use layout_io::{Dial, Files, IoFault, Sink};
use std::alloc::Global;
use std::sync::Wait;
use whole_files::tell;

/// The status of a client's end, and its link, which is there exactly where the connect answered `Ok`.
#[derive(Drop)]
pub struct Talked<L> {
    pub status: u8,
    pub link: Option<L>,
}

// Connects to the server, and does the rest over the link.
fn call<R: Wait, F: Files, D: Dial, O: Sink>(
    rt: &R,
    alloc: Global,
    words: &ClientWords,
    files: &mut F,
    dial: &mut D,
    out: &mut O,
) -> Talked<D::L>
    requires { (D.told dial.old).asked ≡ None }
    ensures called { IfSome result.link (λ l. HasCalled words.now.address words.now.design words.now.lines (F.told files.old) (F.told files.new) (O.told out.old) (O.told out.new) (D.told dial.old) (D.told dial.new) (D.L.told l) result.status) }
    ensures missed { IfNone result.link (HasMissed words.now.address (F.told files.old) (F.told files.new) (O.told out.old) (O.told out.new) (D.told dial.old) (D.told dial.new) result.status) }
{
    let mut link = match dial.connect(words.address.as_str()) {
        Err(IoFault::Failed) => {
            return Talked {
                status: 9,
                link: None,
            };
        }
        Err(IoFault::Memory) => {
            return Talked {
                status: 7,
                link: None,
            };
        }
        Ok(link) => link,
    };
    let end = visit(
        rt,
        alloc,
        words.design.as_str(),
        words.lines.as_str(),
        files,
        &mut link,
        out,
    );
    Talked {
        status: status_of(end),
        link: Some(link),
    }
}

/// Reads the words, connects, reads the design and the file of lines, sends these and copies what comes to `out`, and
/// writes `board` with the count of entries and of live items last. The status is 0, or of the first fault: 1 the words,
/// with the line `usage`; 2 the design has no reading; 3 a file's open or read failed; 4 a write of `out` failed; 7 want
/// of memory; 9 the connect or a call on the link failed, or its input ended in the talk; 10 a line of the server is
/// refused.
pub fn client<R: Wait, F: Files, D: Dial, O: Sink>(
    rt: &R,
    alloc: Global,
    words: &[String],
    files: &mut F,
    dial: &mut D,
    out: &mut O,
) -> Talked<D::L>
    requires { (D.told dial.old).asked ≡ None }
    // Over a link that came: what was read, sent and written, by the status.
    ensures called { IfSome result.link (λ l. HasLink (texts words.now) (F.told files.old) (F.told files.new) (O.told out.old) (O.told out.new) (D.told dial.old) (D.told dial.new) (D.L.told l) result.status) }
    // No link came: the words are wrong, the connect failed, or memory ran out.
    ensures missed { IfNone result.link (HasNoLink (texts words.now) (F.told files.old) (F.told files.new) (O.told out.old) (O.told out.new) (D.told dial.old) (D.told dial.new) result.status) }
    // 1 exactly for the words, want of memory aside.
    ensures usage { result.status ≡ 1 → length (texts words.now) ≢ 3 }
    ensures form { length (texts words.now) ≢ 3 → (result.status ≡ 1) ⊎ (result.status ≡ 7) }
    ensures statuses { IsGiven result.status }
{
    match read_client_words(alloc, words) {
        Ok(words) => call(rt, alloc, &words, files, dial, out),
        Err(ClientWhy::Memory) => Talked {
            status: 7,
            link: None,
        },
        Err(ClientWhy::Usage) => {
            tell(out, b"usage\n");
            Talked {
                status: 1,
                link: None,
            }
        }
    }
}
