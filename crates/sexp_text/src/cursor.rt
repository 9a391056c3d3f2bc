//! A place in a tree: the words and lists that are left in the list that is being read.
ghost use Rattle.std.specs.Prelude.{◌≡◌, ◌-◌, take, drop, length};
ghost use Rattle.sexp_text.specs.Shows.{forest, IsPart, IsLess};

/// A word or a list of a tree, and whether it is the last one in its list.
#[derive(Clone, Copy, Debug)]
pub enum TreeEntry {
    /// A word: its byte, and where its text stands among the texts of all words.
    Word {
        last: bool,
        at: u32,
        start: u32,
        end: u32,
    },
    /// A list: its byte, and how many entries stand within it.
    List {
        last: bool,
        at: u32,
        inside: u32,
    },
}

/// The words and lists that are left of a list.
#[derive(Clone, Copy, Debug)]
pub struct Cursor<'a> {
    pub text: &'a [u8],
    pub entries: &'a [TreeEntry],
}

/// What stands at a place.
#[derive(Clone, Copy, Debug)]
pub enum Part<'a> {
    End,
    Word {
        at: u32,
        text: &'a [u8],
        rest: Cursor<'a>,
    },
    List {
        at: u32,
        inside: Cursor<'a>,
        rest: Cursor<'a>,
    },
}

pub fn piece(text: &[u8], start: u32, end: u32) -> &[u8]
    ensures { result.now ≡ take (end - start) (drop start text.now) }
{
    let start = (start as usize).min(text.len());
    let (_, rest) = text.split_at(start);
    let count = (end as usize).saturating_sub(start).min(rest.len());
    let (front, _) = rest.split_at(count);
    front
}

/// The next word or list, and what follows it.
pub fn front(list: Cursor<'_>) -> Part<'_>
    ensures is { IsPart (forest list.entry) result }
    ensures less { IsLess (length list.entry.entries.now) result }
{
    let (first, rest) = match list.entries.split_first() {
        None => return Part::End,
        Some(found) => found,
    };
    match *first {
        TreeEntry::Word { at, start, end, .. } => Part::Word {
            at,
            text: piece(list.text, start, end),
            rest: Cursor {
                text: list.text,
                entries: rest,
            },
        },
        TreeEntry::List { at, inside, .. } => {
            let (inside, after) = rest.split_at((inside as usize).min(rest.len()));
            Part::List {
                at,
                inside: Cursor {
                    text: list.text,
                    entries: inside,
                },
                rest: Cursor {
                    text: list.text,
                    entries: after,
                },
            }
        }
    }
}
