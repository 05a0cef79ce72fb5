//! The bytes of a file, which the web has.

ghost use Rattle.std.specs.Prelude.{◌≡◌, ◌≢◌, ◌≤◌, ◌∷◌, [], length, MatchResult};
ghost use Rattle.zi_outside.specs.Views.{holding};
ghost use Rattle.zi_tree.specs.Limits.{size_limit};
ghost use Rattle.zi_recipe.specs.Steps.{Gives, GetFails};
ghost use Rattle.zi_recipe.specs.Asking.{AreAsked, AsksAt};
ghost use Rattle.zi_recipe.specs.declared.fault.RecipeFault.TheVariants.{WrongSize};

use crate::fault::RecipeFault;
use std::alloc::Global;
use zi_outside::{Got, Web, WebFault};
use zi_text::{Bytes, Text};

/// The bytes of an address, as many as is said. What a fault says is made before the call, so that a failed call is never
/// told as want of memory.
pub(crate) fn fetch<W: Web>(
    alloc: Global,
    href: &Text,
    size: u64,
    web: &mut W,
) -> Result<Bytes, RecipeFault>
    requires { size ≤ size_limit }
    ensures fetched { MatchResult result
        (λ bytes. Gives (holding (W.seen web.old)) href.now size bytes)
        (GetFails (holding (W.seen web.old)) href.now size) }
    ensures asks { MatchResult result
        (λ _. AreAsked (href.now ∷ []) (W.seen web.old) (W.seen web.new))
        (λ e. AsksAt e [] (href.now ∷ []) (W.seen web.old) (W.seen web.new)) }
{
    let named = href.copy(alloc)?;
    let mut bytes = Vec::new(alloc);
    match web.get(href.as_str(), size, &mut bytes) {
        Ok(Got::Held) => whole(named, size, bytes),
        Ok(Got::Absent) => Err(RecipeFault::NoRemote { href: named }),
        Ok(Got::TooLong) => Err(RecipeFault::WrongSize {
            href: named,
            said: size,
            got: size + 1,
        }),
        Err(WebFault::Failed) => Err(RecipeFault::FetchRead { href: named }),
        Err(WebFault::Memory) => Err(RecipeFault::Memory),
    }
}

/// The bytes that were got, no more than were said to be, where they are as many.
fn whole(href: Text, size: u64, bytes: Vec<u8>) -> Result<Bytes, RecipeFault>
    ensures { MatchResult result (λ b. (b ≡ bytes.items) × (length bytes.items ≡ size)) (λ e. (e ≡ WrongSize href size (length bytes.items)) × (length bytes.items ≢ size)) }
{
    let got = bytes.len() as u64;
    if got != size {
        return Err(RecipeFault::WrongSize {
            href,
            said: size,
            got,
        });
    }
    Ok(Bytes::from_vec(bytes))
}
