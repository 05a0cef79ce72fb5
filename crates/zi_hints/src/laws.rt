//! What holds of the tables alone.
ghost use Rattle.std.specs.Prelude.{◌≡◌};
ghost use Rattle.zi_words.specs.declared.kind.Kind.{Kind};
ghost use Rattle.zi_words.specs.Options.{name_of, forms};
ghost use Rattle.zi_usage.specs.Places.{step_of};
ghost use Rattle.zi_hints.specs.Laws.{step_by};

/// Behind each option of the command line that place comes which its first argument has, where it has one.
pub fn each_option_has_its_place()
    ensures { (k : Kind) → step_of (name_of k) ≡ step_by (forms k) }
{}
