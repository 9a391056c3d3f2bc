//! The pins that references name.
ghost use Rattle.std.specs.Prelude.{◌≡◌, ◌<◌, length, IfOk};
ghost use Rattle.dsn_network.specs.References.{pin_at, split_at, pin_from, pin_of, HaveLengths};

use dsn_library::{Image, Library};
use dsn_lists::NameSet;
use dsn_placement::Placement;
use indexmap::IndexSet;
use std::alloc::{AllocError, Global};

/// A placement and a library, by which references name pins.
#[derive(Debug, Drop)]
pub struct PinNames<'a> {
    placement: &'a Placement,
    library: &'a Library,
    // The lengths that the names of components have, each once. A text of another length is no name.
    lengths: IndexSet<usize>,
    ghost known: { HaveLengths placement.now.components lengths.keys },
}

// The lengths that names have. Its one error is want of memory.
fn lengths_of(alloc: Global, names: &NameSet) -> Result<IndexSet<usize>, AllocError>
    ensures { IfOk result (λ s. HaveLengths names.now s.keys) }
{
    let mut lengths = IndexSet::new(alloc);
    'names: for place in 0..names.len() {
        lengths.insert(names.name(place).len())?;
    }
    Ok(lengths)
}

// The pin of this id, of the image of the component of this name.
#[tactic(auto, unfolding(crate::specs::References::pin_at))]
fn pin_at(
    components: &NameSet,
    images_of: &[usize],
    images: &[Image],
    component: &[u8],
    id: &[u8],
) -> Option<(usize, usize)>
    ensures { result ≡ pin_at components.now images_of.now images.now component.now id.now }
{
    let number = components.place(component)?;
    let image = images.get(*images_of.get(number)?)?;
    let pin = image.ids.place(id)?;
    Some((number, pin))
}

impl<'a> PinNames<'a> {
    /// The names of the pins of a placement whose images are the library's. Its one error is want of memory.
    pub fn new(
        alloc: Global,
        placement: &'a Placement,
        library: &'a Library,
    ) -> Result<Self, AllocError>
        ensures placement { IfOk result (λ names. names.placement.now ≡ placement.now) }
        ensures library { IfOk result (λ names. names.library.now ≡ library.now) }
    {
        let lengths = lengths_of(alloc, &placement.components)?;
        Ok(PinNames {
            placement,
            library,
            lengths,
        })
    }

    // The pin of a reference that is split at this byte, if a `-` stands there.
    #[tactic(auto, using(crate::proofs::NameLengths::no_split))]
    fn split_at(&self, text: &[u8], at: usize) -> Option<(usize, usize)>
        requires { at < length text.now }
        ensures { result ≡ split_at self.now.placement.now self.now.library.now text.now at }
    {
        if text[at] != b'-' {
            return None;
        }
        if !self.lengths.contains(&at) {
            return None;
        }
        pin_at(
            &self.placement.components,
            self.placement.images.as_slice(),
            self.library.images.as_slice(),
            &text[..at],
            &text[at + 1..],
        )
    }

    /// The pin that a reference names, by the numbers of its component and of its id: at the first `-` from the left at
    /// which the text before it names a component and the text behind it a pin of that component's image.
    #[tactic(auto, unfolding(crate::specs::References::pin_from))]
    pub fn pin(&self, text: &[u8]) -> Option<(usize, usize)>
        ensures { result ≡ pin_of self.now.placement.now self.now.library.now text.now }
    {
        let mut at = 0;
        'bytes: while at < text.len() {
            if let Some(pin) = self.split_at(text, at) {
                return Some(pin);
            }
            at += 1;
        }
        None
    }
}
