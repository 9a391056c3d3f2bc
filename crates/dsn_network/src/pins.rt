//! The nets of pins.
ghost use Rattle.std.specs.Prelude.{◌≡◌, ◌==◌, [], ◌∷◌, ◌++◌, length, slice_get, None, is_ok, if◌then◌else◌};
ghost use Rattle.dsn_network.specs.References.{net_at};

use indexmap::IndexMap;
use std::alloc::{AllocError, Global};
use std::marker::Model;

/// The nets of pins, each pin once, in the order in which they came. A pin is the number of its component and that of
/// its id. Nets are numbered from 0.
#[derive(Debug, Drop)]
pub struct PinNets {
    nets: IndexMap<(usize, usize), u32>,
}

impl Model for PinNets {
    ghost use Rattle.std.specs.Prelude.{ℕ, List};

    ghost Value = { List ((ℕ × ℕ) × ℕ) };

    ghost view = { λ s. s.nets.entries };
}

impl PinNets {
    /// No pin has a net.
    pub fn new(alloc: Global) -> Self
        ensures { result ≡ [] }
    {
        PinNets {
            nets: IndexMap::new(alloc),
        }
    }

    /// How many pins have a net.
    pub fn len(&self) -> usize
        ensures { result ≡ length self.now }
    {
        self.nets.len()
    }

    /// Whether no pin has a net.
    pub fn is_empty(&self) -> bool
        ensures { result ≡ (length self.now == 0) }
    {
        self.nets.is_empty()
    }

    /// The pin that came at this place, from 0, and its net: the number of its component, that of its id, and the net.
    pub fn at(&self, place: usize) -> Option<((usize, usize), u32)>
        ensures { result ≡ slice_get self.now place }
    {
        let (pin, net) = self.nets.get_index(place)?;
        Some((*pin, *net))
    }

    /// The net of a pin, if it has one.
    pub fn get(&self, component: usize, pin: usize) -> Option<u32>
        ensures { result ≡ net_at self.now (component, pin) }
    {
        self.nets.get(&(component, pin)).copied()
    }

    /// Gives a net to a pin that has none. After an `Err`, for want of memory, the nets are as before.
    pub fn add(&mut self, component: usize, pin: usize, net: u32) -> Result<(), AllocError>
        requires { net_at self.old (component, pin) ≡ None }
        ensures { self.new ≡ (if is_ok result then self.old ++ ((component, pin), net) ∷ [] else self.old) }
    {
        self.nets.insert((component, pin), net)?;
        Ok(())
    }
}
