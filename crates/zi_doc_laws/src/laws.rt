//! What holds of every tree that a document spells.
//! The law is a function without parameters and with no work to do, whose clauses are what it says.
ghost use Rattle.std.specs.Prelude.{ℕ, ◌≤◌, List};
ghost use Rattle.zi_elements.specs.declared.element.Element.{Element};
ghost use Rattle.zi_elements.specs.Forest.{whole, depth};
ghost use Rattle.zi_elements.specs.Places.{places, AreRising};
ghost use Rattle.zi_xml.specs.Documents.{Spells};
ghost use Rattle.zi_doc_laws.specs.Trees.{HasWholeTexts, HasTags, HasCarriedTexts};

/// What every tree keeps that bytes spell, and so every tree that is read.
pub fn what_is_read_keeps()
    // Elements nest at most 64 deep.
    ensures deep { (w : List ℕ) (t : Element) → Spells w t → depth (whole t) ≤ 64 }
    // No text is empty, and no two texts stand side by side.
    ensures texts { (w : List ℕ) (t : Element) → Spells w t → HasWholeTexts (whole t) }
    // Places rise in document order.
    ensures order { (w : List ℕ) (t : Element) → Spells w t → AreRising (places (whole t)) }
    // Each place is the number of bytes before the `<` of that element's tag.
    ensures tags { (w : List ℕ) (t : Element) → Spells w t → HasTags w (whole t) }
    // Every text and every attribute's value holds only characters that XML can carry.
    ensures chars { (w : List ℕ) (t : Element) → Spells w t → HasCarriedTexts (whole t) }
{}
