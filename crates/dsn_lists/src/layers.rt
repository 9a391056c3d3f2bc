//! Layers named by a word.
ghost use Rattle.std.specs.Prelude.{◌≡◌, ◌<◌, length, IfOk, IfSome};
ghost use Rattle.dsn_lists.specs.Results.{Tells};
ghost use Rattle.dsn_lists.specs.Words.{marked};
ghost use Rattle.dsn_lists.specs.Layers.{is_every, one_layer, some_layer};

use crate::faults::{DesignFault, DesignKind, fault};
use crate::names::NameSet;
use crate::words::{Found, is_word};

/// Whether a word stands for every layer.
#[tactic(auto, unfolding(crate::specs::Layers::is_every))]
pub fn stands_for_all(text: &[u8]) -> bool
    ensures { result ≡ is_every text.now }
{
    is_word(text, b"signal") || is_word(text, b"pcb")
}

/// The number of the one layer that a word names, or the fault `Layer` at it.
#[tactic(auto, unfolding(crate::specs::Layers::one_layer))]
pub fn layer_at(layers: &NameSet, word: Found<'_>) -> Result<usize, DesignFault>
    ensures told { Tells (λ x. x) result (one_layer layers.now (marked word.entry)) }
    ensures bound { IfOk result (λ n. n < length layers.now) }
{
    match layers.place(word.text) {
        Some(layer) => Ok(layer),
        None => Err(fault(DesignKind::Layer, word.at)),
    }
}

/// The number of the layer that a word names, or none where it stands for every layer. Else the fault `Layer` at it.
#[tactic(auto, unfolding(crate::specs::Layers::some_layer))]
pub fn layers_at(layers: &NameSet, word: Found<'_>) -> Result<Option<usize>, DesignFault>
    ensures told { Tells (λ x. x) result (some_layer layers.now (marked word.entry)) }
    ensures bound { IfOk result (λ x. IfSome x (λ n. n < length layers.now)) }
{
    match layers.place(word.text) {
        Some(layer) => Ok(Some(layer)),
        None => {
            if stands_for_all(word.text) {
                return Ok(None);
            }
            Err(fault(DesignKind::Layer, word.at))
        }
    }
}
