//! Names, bare or between quotes.
ghost use Rattle.std.specs.Prelude.{◌≡◌, ◌++◌, ◌∷◌, [], OnOk};
ghost use Rattle.std.specs.List.{list_all};
ghost use Rattle.quoted_names.specs.Names.{is_plain, is_bare, name_text};

use layout_io::Bytes;
use std::alloc::AllocError;

// Whether a byte may stand in a bare name.
#[tactic(auto, unfolding(crate::specs::Names::is_plain))]
fn is_plain_byte(byte: u8) -> bool
    ensures { result ≡ is_plain byte }
{
    matches!(byte, b'a'..=b'z' | b'A'..=b'Z' | b'0'..=b'9')
        || b"_./:+*@[]~".as_slice().contains(&byte)
}

fn is_plain_text(text: &[u8]) -> bool
    ensures { result ≡ list_all is_plain text.now }
{
    text.iter().all(|byte| is_plain_byte(*byte))
}

#[tactic(auto, unfolding(crate::specs::Names::is_bare))]
fn is_bare_name(name: &[u8]) -> bool
    ensures { result ≡ is_bare name.now }
{
    !name.is_empty() && is_plain_text(name)
}

/// Puts a name at the end, between quotes where it needs them.
#[tactic(auto, unfolding(crate::specs::Names::name_text))]
pub fn put_name(out: &mut Bytes, name: &[u8]) -> Result<(), AllocError>
    ensures { OnOk result (out.new ≡ out.old ++ name_text name.now) }
{
    if is_bare_name(name) {
        return out.append(name);
    }
    out.append(b"\"".as_slice())?;
    out.append(name)?;
    out.append(b"\"".as_slice())
}
