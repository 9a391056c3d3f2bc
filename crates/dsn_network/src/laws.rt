//! Laws that hold of what is read.
ghost use Rattle.std.specs.Prelude.{◌≡◌, ◌↔◌, ℕ, Some};
ghost use Rattle.sexp_text.specs.Forest.{Forest};
ghost use Rattle.dsn_network.specs.References.{net_at};
ghost use Rattle.dsn_network.specs.NamedPins.{IsInNet};
ghost use Rattle.dsn_network.specs.NetworkParts.{references};
ghost use Rattle.dsn_network.specs.NetworkMeaning.{section, HasNetwork};

use crate::network::Network;
use dsn_library::Library;
use dsn_placement::Placement;

/// A pin has a net exactly where a reference of that net names the pin.
pub fn a_pin_has_the_net_that_names_it()
    ensures { (f : Forest) (p : Placement) (l : Library) (n : Network) (pin : ℕ × ℕ) (net : ℕ) → HasNetwork f p l n → (net_at n.pins pin ≡ Some net) ↔ IsInNet p l (references (section f).args) pin net }
{}
