ghost use Rattle.std.specs.Prelude.{◌≡◌, ◌≤◌};
ghost use Rattle.zi_elements.specs.Forest.{depth, whole};

use crate::element::Element;
use std::marker::Model;

/// The tree of a document, which goes at most 64 elements deep: what recurses over it, a drop too, goes no deeper. Contracts see it
/// as its root.
#[derive(Debug, Drop)]
pub struct Document {
    root: Element,
}

impl Model for Document {
    ghost use Rattle.std.specs.Prelude.{◌≤◌};
    ghost use Rattle.zi_elements.specs.declared.element.Element.{Element as Tree};
    ghost use Rattle.zi_elements.specs.contracts.element.Element as element;
    ghost use Rattle.zi_elements.specs.Forest.{depth, whole};

    ghost Value = { Tree };

    ghost coded = { element.the_row.coded };

    ghost view = { λ d. d.root };

    ghost invariant = { λ d. depth (whole d.root) ≤ 64 };
}

impl Document {
    /// The document of a tree that goes no deeper than a document may.
    pub fn new(root: Element) -> Document
        requires { depth (whole root) ≤ 64 }
        ensures { result ≡ root }
    {
        Document { root }
    }

    /// Its root.
    pub fn root(&self) -> &Element
        ensures root { result.now ≡ self.now }
        ensures deep { depth (whole self.now) ≤ 64 }
    {
        &self.root
    }
}
