//! The words of `serve`.
ghost use Rattle.std.specs.Prelude.{◌≡◌, ◌<◌, ◌↔◌, IsTrue, IfOk, length};
ghost use Rattle.whole_files.specs.Words.{texts, text_at};
ghost use Rattle.session_server.specs.Words.{IsServe, AreRead, HasForm};
ghost use Rattle.session_server.specs.declared.words.WordsWhy.TheVariants.{Memory};

use layout_io::Text;
use std::alloc::{AllocError, Global};

/// The words of `serve`: the address at which the door is opened, how many clients there are, and the names of the
/// design's file and of the session file.
#[derive(Debug, Drop)]
pub struct ServeWords {
    pub address: Text,
    pub clients: u8,
    pub design: Text,
    pub session: Text,
}

/// Why words were not read.
#[derive(Clone, Copy, Debug, PartialEq, Eq)]
pub enum WordsWhy {
    /// They aren't those of `serve`.
    Usage,
    /// Memory ran out while their texts were copied.
    Memory,
}

impl From<AllocError> for WordsWhy {
    ghost from_gives = { λ _ e. e ≡ Memory };

    fn from(_e: AllocError) -> WordsWhy {
        WordsWhy::Memory
    }
}

// Whether the word at a place is this one.
fn is_word(words: &[String], place: usize, word: &str) -> bool
    requires { place < length words.now }
    ensures { IsTrue result ↔ (text_at (texts words.now) place ≡ word.now) }
{
    words[place].as_str() == word
}

fn is_serve(words: &[String]) -> bool
    ensures test { IsTrue result ↔ IsServe (texts words.now) }
    ensures five { IsTrue result → length words.now ≡ 5 }
{
    words.len() == 5 && is_word(words, 0, "serve") && is_word(words, 2, "1")
}

// A copy of the word at a place.
fn word_at(alloc: Global, words: &[String], place: usize) -> Result<Text, AllocError>
    requires { place < length words.now }
    ensures { IfOk result (λ text. text ≡ text_at (texts words.now) place) }
{
    Text::of(alloc, words[place].as_str())
}

/// Reads the words of `serve`, which are `serve`, an address, the number of clients, which is `1`, and the names of the
/// design and of the session file. `Usage` comes exactly where they aren't of this form.
pub fn read_words(alloc: Global, words: &[String]) -> Result<ServeWords, WordsWhy>
    ensures { HasForm (texts words.now) result }
{
    if !is_serve(words) {
        return Err(WordsWhy::Usage);
    }
    Ok(ServeWords {
        address: word_at(alloc, words, 1)?,
        clients: 1,
        design: word_at(alloc, words, 3)?,
        session: word_at(alloc, words, 4)?,
    })
}
