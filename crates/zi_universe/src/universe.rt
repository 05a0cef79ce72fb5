//! The universe of a program.
ghost use Rattle.std.specs.Prelude.{◌≡◌, Some, slice_get};
ghost use Rattle.zi_universe.specs.Whole.{IsWhole};

use crate::types::Interface;
use std::marker::Model;
use zi_text::List;

/// The interfaces that a program may need, the root first, in the order in which they are asked for. Contracts see the list
/// of them. It is made by `load` alone: the addresses are distinct, each interface that a candidate asks for is there, and
/// the candidates of each stand in rank order.
#[derive(Drop)]
pub struct Universe {
    interfaces: List<Interface>,
}

impl Model for Universe {
    ghost use Rattle.std.specs.Prelude.{List as Items};
    ghost use Rattle.zi_universe.specs.declared.types.Interface.{Interface as AnInterface};
    ghost use Rattle.zi_universe.specs.Whole.{IsWhole};

    ghost Value = { Items AnInterface };

    ghost view = { λ u. u.interfaces };

    ghost invariant = { λ u. IsWhole u.interfaces };
}

impl Universe {
    // Of interfaces that are whole.
    pub(crate) fn from_whole(interfaces: List<Interface>) -> Universe
        requires { IsWhole interfaces }
        ensures { result ≡ interfaces }
    {
        Universe { interfaces }
    }

    /// The interfaces, lent.
    pub fn interfaces(&self) -> &[Interface]
        ensures interfaces { result.now ≡ self.now }
        ensures whole { IsWhole self.now }
    {
        self.interfaces.as_slice()
    }

    /// The root: the first interface.
    pub fn root(&self) -> &Interface
        ensures { slice_get self.now 0 ≡ Some result.now }
    {
        &self.interfaces.as_slice()[0]
    }
}
