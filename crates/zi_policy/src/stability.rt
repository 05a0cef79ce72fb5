//! The words of stabilities.
ghost use Rattle.std.specs.Prelude.{◌≡◌};
ghost use Rattle.zi_policy.specs.Stabilities.{stability_of, stability_text};

use crate::types::Stability;

impl Stability {
    /// The stability whose word a text is; none for any other text.
    #[tactic(auto, unfolding(crate::specs::Stabilities::stability_of))]
    pub fn named(text: &str) -> Option<Stability>
        ensures { result ≡ stability_of text.now }
    {
        match text {
            "insecure" => Some(Stability::Insecure),
            "buggy" => Some(Stability::Buggy),
            "developer" => Some(Stability::Developer),
            "testing" => Some(Stability::Testing),
            "stable" => Some(Stability::Stable),
            "packaged" => Some(Stability::Packaged),
            "preferred" => Some(Stability::Preferred),
            _ => None,
        }
    }

    /// Its word.
    pub fn word(self) -> &'static str
        ensures { result.now ≡ stability_text self }
    {
        match self {
            Stability::Insecure => "insecure",
            Stability::Buggy => "buggy",
            Stability::Developer => "developer",
            Stability::Testing => "testing",
            Stability::Stable => "stable",
            Stability::Packaged => "packaged",
            Stability::Preferred => "preferred",
        }
    }
}
