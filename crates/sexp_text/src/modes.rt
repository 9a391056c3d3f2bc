//! Where in a text a byte stands, and what it is.

/// What a byte is, outside quoted parts.
#[derive(Clone, Copy)]
pub enum Class {
    Blank,
    Break,
    Left,
    Right,
    Quote,
    Plain,
}

/// What stands before a token: a `(`, a `(` and the keyword, or something else.
#[derive(Clone, Copy)]
pub enum Before {
    Other,
    Bracket,
    Keyword,
}

/// Where in a text a byte stands.
#[derive(Clone, Copy)]
pub enum Mode {
    /// Between two tokens.
    Gap {
        before: Before,
    },
    /// In a word that begins at `start` and may be the keyword, of which it spells so much.
    Word {
        start: u32,
        spelt: Option<u8>,
    },
    /// In a quoted part of such a word.
    Quoted {
        start: u32,
        quote: u32,
        spelt: Option<u8>,
    },
    /// Behind a quote that is at fault.
    Broken {
        at: u32,
    },
}
