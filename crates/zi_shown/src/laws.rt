//! Laws of what is shown, over definitions alone.
ghost use Rattle.std.specs.Prelude.{◌≡◌, ℕ, List, true, IsUtf8};
ghost use Rattle.std.specs.List.{list_all};
ghost use Rattle.std.specs.Str.{chars};
ghost use Rattle.zi_shown.specs.Shown.{may_stand, shown};

/// Each character of a text that is shown may stand as it is.
pub fn nothing_raw_is_shown()
    ensures { (text : List ℕ) → IsUtf8 text → list_all may_stand (chars (shown text)) ≡ true }
{}

/// A text all of whose characters may stand is shown as it is.
pub fn what_may_stand_stays()
    ensures { (text : List ℕ) → IsUtf8 text → list_all may_stand (chars text) ≡ true → shown text ≡ text }
{}
