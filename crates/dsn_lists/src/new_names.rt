//! Names that no name before them has.
ghost use Rattle.std.specs.Prelude.{◌≡◌, ◌<◌, false, length, OnOk};
ghost use Rattle.dsn_lists.specs.Results.{Tells};
ghost use Rattle.dsn_lists.specs.Names.{is_among};
ghost use Rattle.dsn_lists.specs.Words.{marked};
ghost use Rattle.dsn_lists.specs.NewNames.{fresh_name, new_name};

use crate::faults::{DesignFault, DesignKind, fault};
use crate::names::NameSet;
use crate::words::Found;

/// Whether a word is none of the names. Else the fault `Twice` at it.
#[tactic(auto, unfolding(crate::specs::NewNames::fresh_name))]
pub fn check_fresh(names: &NameSet, word: Found<'_>) -> Result<(), DesignFault>
    ensures told { Tells (λ x. x) result (fresh_name names.now (marked word.entry)) }
    ensures fresh { OnOk result (is_among word.entry.text.now names.now ≡ false) }
{
    if names.contains(word.text) {
        return Err(fault(DesignKind::Twice, word.at));
    }
    Ok(())
}

/// Whether a word is none of the names and they are fewer than `most`. Else the fault `Twice` or `Large` at it.
#[tactic(auto, unfolding(crate::specs::NewNames::new_name))]
pub fn check_new(names: &NameSet, most: usize, word: Found<'_>) -> Result<(), DesignFault>
    ensures told { Tells (λ x. x) result (new_name most names.now (marked word.entry)) }
    ensures fresh { OnOk result (is_among word.entry.text.now names.now ≡ false) }
    ensures few { OnOk result (length names.now < most) }
{
    if names.contains(word.text) {
        return Err(fault(DesignKind::Twice, word.at));
    }
    if names.len() < most {
        return Ok(());
    }
    Err(fault(DesignKind::Large, word.at))
}
