ghost use Rattle.std.specs.Prelude.{◌≡◌, [], ◌∷◌, IfOk, MatchOption};
ghost use Rattle.zi_text.specs.Pieces.{pieces};
ghost use Rattle.zi_policy.specs.Platform.{arch_of};

use crate::types::Arch;
use std::alloc::Global;
use zi_text::{Memory, Text};

// What stands before the first dash and what stands behind it, where there is one.
fn cut<'a>(text: &'a str) -> Option<(&'a str, &'a str)>
    ensures { MatchOption result (pieces 45 text.now ≡ (text.now, []))
        (λ parts. pieces 45 text.now ≡ (parts.0.now, (pieces 45 parts.1.now).0 ∷ (pieces 45 parts.1.now).1)) }
{
    text.split_once('-')
}

// The two parts of a platform's text.
#[tactic(auto, unfolding(crate::specs::Platform::arch_of))]
fn two_parts<'a>(text: &'a str) -> Option<(&'a str, &'a str)>
    ensures { MatchOption result (arch_of text.now ≡ None)
        (λ parts. arch_of text.now ≡ Some (record { os = parts.0.now; machine = parts.1.now })) }
{
    let Some((os, machine)) = cut(text) else {
        return None;
    };
    match cut(machine) {
        Some(_) => None,
        None => {
            if os.is_empty() || machine.is_empty() {
                None
            } else {
                Some((os, machine))
            }
        }
    }
}

impl Arch {
    /// The platform that a text spells: an operating system and a machine, neither of them empty, with exactly one `-`
    /// between them. None exactly where it spells none. Memory is the one refusal.
    pub fn parse(alloc: Global, text: &str) -> Result<Option<Arch>, Memory>
        ensures { IfOk result (λ arch. arch ≡ arch_of text.now) }
    {
        match two_parts(text) {
            None => Ok(None),
            Some((os, machine)) => {
                let os = Text::from_str(alloc, os)?;
                let machine = Text::from_str(alloc, machine)?;
                Ok(Some(Arch { os, machine }))
            }
        }
    }

    /// The same platform once more. Memory is the one refusal.
    pub fn copy(&self, alloc: Global) -> Result<Arch, Memory>
        ensures { IfOk result (λ arch. arch ≡ self.now) }
    {
        let os = self.os.copy(alloc)?;
        let machine = self.machine.copy(alloc)?;
        Ok(Arch { os, machine })
    }
}
