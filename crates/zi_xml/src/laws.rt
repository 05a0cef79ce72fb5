ghost use Rattle.zi_xml.specs.Right.{IsRight, IsOne};

/// The machine's answer to characters is right: what they say, the fault that they show first, or where they stop being a document.
pub fn answers_are_right()
    ensures { IsRight }
{}

/// No bytes say two things.
pub fn one_meaning()
    ensures { IsOne }
{}
