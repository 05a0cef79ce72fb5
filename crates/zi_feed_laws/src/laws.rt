//! What holds of every feed that a document says.
//! The law is a function without parameters and with no work to do, whose clauses are what it says.
ghost use Rattle.std.specs.Prelude.{◌≡◌, ℕ, List, None};
ghost use Rattle.zi_elements.specs.declared.element.Element.{Element};
ghost use Rattle.zi_elements.specs.Forest.{element_view};
ghost use Rattle.zi_elements.specs.Places.{AreRising};
ghost use Rattle.zi_doc.specs.Documents.{Spells};
ghost use Rattle.zi_feed.specs.Feeds.{feed_fault, feed_of};
ghost use Rattle.zi_feed.specs.Places.{impl_places, StandApart};

use zi_doc_laws::what_is_read_keeps;
use zi_feed::impls_are_in_order;

/// In every feed that a document says, the places of the implementations rise, and no two of them have one place.
pub fn impls_of_documents_rise()
    // Each stands behind those before it.
    ensures rise { (w : List ℕ) (t : Element) (uri : List ℕ) → Spells w t → feed_fault (element_view t) uri ≡ None → AreRising (impl_places (feed_of (element_view t) uri).impls) }
    // No two stand at one place.
    ensures apart { (w : List ℕ) (t : Element) (uri : List ℕ) → Spells w t → feed_fault (element_view t) uri ≡ None → StandApart (feed_of (element_view t) uri).impls }
{
    what_is_read_keeps();
    impls_are_in_order();
}
