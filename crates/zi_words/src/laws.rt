//! What holds of the words alone: each function's clause is a law.

ghost use Rattle.std.specs.Prelude.{◌≡◌, List};
ghost use Rattle.zi_words.specs.declared.request.Request.{Request as ARequest};
ghost use Rattle.zi_words.specs.Forms.{Word};
ghost use Rattle.zi_words.specs.Words.{Right};

use zi_digest::laws::spelling_is_one_to_one;

/// No words ask for two things.
pub fn one_request()
    ensures { (words : List Word) (a b : ARequest) → Right words a → Right words b → a ≡ b }
{
    spelling_is_one_to_one();
}
