ghost use Rattle.std.specs.Prelude.{◌≡◌, None};
ghost use Rattle.zi_elements.specs.declared.element.Element.{Element as Tree};
ghost use Rattle.zi_elements.specs.Forest.{element_view};
ghost use Rattle.zi_docout.specs.Amiss.{first_amiss};
ghost use Rattle.zi_docout.specs.Same.{IsReadBack};

use zi_doc::one_answer;

/// Of every tree that can be written the canonical text spells a tree, and no other than the same tree, places and texts of
/// white space beside elements aside.
pub fn what_is_written_is_read()
    ensures { (e : Tree) → first_amiss (element_view e) ≡ None → IsReadBack e }
{
    one_answer();
}
