//! Whether a text is a reason, by the reasons' forms.
ghost use Rattle.std.specs.Prelude.{◌≡◌, ◌⊎◌, ◌↔◌, IsTrue};
ghost use Rattle.answer_lines.specs.Answers.{IsReason};
ghost use Rattle.answer_lines.specs.Forms.{IsBare, IsOfAdd, IsOfItem, IsOfFence, IsOfOther, IsOfTwo, IsPlain, IsOther};

use crate::numbers::{is_numbered, is_twice};

#[tactic(auto, unfolding(crate::specs::Forms::IsOfAdd))]
fn is_of_add(text: &[u8]) -> bool
    ensures { IsTrue result ↔ IsOfAdd text.now }
{
    is_numbered(text, b"net ", u32::MAX)
        || is_numbered(text, b"layer ", u32::MAX)
        || is_numbered(text, b"narrow ", u32::MAX)
        || is_numbered(text, b"padstack ", u32::MAX)
        || is_numbered(text, b"range ", u32::MAX)
        || is_numbered(text, b"outside ", u32::MAX)
}

#[tactic(auto, unfolding(crate::specs::Forms::IsOfItem))]
fn is_of_item(text: &[u8]) -> bool
    ensures { IsTrue result ↔ IsOfItem text.now }
{
    is_numbered(text, b"repeated ", u32::MAX)
        || is_numbered(text, b"missing ", u32::MAX)
        || is_numbered(text, b"fixed ", u32::MAX)
        || is_numbered(text, b"unheld ", u32::MAX)
        || is_numbered(text, b"covers ", u32::MAX)
}

#[tactic(auto, unfolding(crate::specs::Forms::IsOfFence))]
fn is_of_fence(text: &[u8]) -> bool
    ensures { IsTrue result ↔ IsOfFence text.now }
{
    is_numbered(text, b"protected ", u32::MAX)
        || is_numbered(text, b"overlap ", u32::MAX)
        || is_numbered(text, b"nofence ", u32::MAX)
        || is_numbered(text, b"notowner ", u32::MAX)
}

#[tactic(auto, unfolding(crate::specs::Forms::IsOfOther))]
fn is_of_other(text: &[u8]) -> bool
    ensures { IsTrue result ↔ IsOfOther text.now }
{
    is_numbered(text, b"fencelayer ", 255)
        || is_numbered(text, b"client ", 255)
        || is_numbered(text, b"noclass ", u32::MAX)
}

#[tactic(auto, unfolding(crate::specs::Forms::IsOfTwo))]
fn is_of_two(text: &[u8]) -> bool
    ensures { IsTrue result ↔ IsOfTwo text.now }
{
    is_twice(text, b"own ", u32::MAX)
        || is_twice(text, b"clash ", u32::MAX)
        || is_twice(text, b"unclean ", u32::MAX)
        || is_twice(text, b"reserved ", 255)
}

#[tactic(auto, unfolding(crate::specs::Forms::IsBare))]
fn is_bare(text: &[u8]) -> bool
    ensures { IsTrue result ↔ IsBare text.now }
{
    text == b"empty".as_slice() || text == b"area".as_slice()
}

#[tactic(auto, unfolding(crate::specs::Forms::IsPlain))]
fn is_plain(text: &[u8]) -> bool
    ensures { IsTrue result ↔ IsPlain text.now }
{
    is_bare(text) || is_of_add(text) || is_of_item(text)
}

#[tactic(auto, unfolding(crate::specs::Forms::IsOther))]
fn is_other(text: &[u8]) -> bool
    ensures { IsTrue result ↔ IsOther text.now }
{
    is_of_fence(text) || is_of_other(text) || is_of_two(text)
}

fn has_form(text: &[u8]) -> bool
    ensures { IsTrue result ↔ (IsPlain text.now ⊎ IsOther text.now) }
{
    is_plain(text) || is_other(text)
}

/// Whether the whole text is a reason.
pub(crate) fn is_reason(text: &[u8]) -> bool
    ensures { IsTrue result ↔ IsReason text.now }
{
    has_form(text)
}
