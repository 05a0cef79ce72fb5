//! Hashing a message that comes in pieces.
//! The state is that of SHA-1 or SHA-256 of FIPS 180-4, as the toolchain's crates hold it.
//! None of the calls takes memory.
ghost use Rattle.std.specs.Prelude.{◌≡◌, ℕ, ◌++◌, List, []};
ghost use Rattle.zi_digest.specs.Name.{name_of};
ghost use Rattle.zi_digest.specs.Taken.{HasTaken, StateHasTaken};
ghost use Rattle.zi_digest.specs.declared.Algorithm.{Algorithm as Alg};

use crate::{Algorithm, DigestName};
use sha1::Sha1;
use sha2::{Digest, Sha256};

#[derive(Drop)]
enum State {
    Sha1new(Sha1),
    Sha256(Sha256),
    Sha256new(Sha256),
}

/// A message on its way, given in pieces cut anywhere.
#[derive(Drop)]
pub struct Hasher {
    state: State,
}

impl Hasher {
    /// A hasher that was given nothing yet.
    pub fn new(algorithm: Algorithm) -> Hasher
        ensures { HasTaken result algorithm [] }
    {
        let state = match algorithm {
            Algorithm::Sha1new => State::Sha1new(Sha1::new()),
            Algorithm::Sha256 => State::Sha256(Sha256::new()),
            Algorithm::Sha256new => State::Sha256new(Sha256::new()),
        };
        Hasher { state }
    }

    /// Takes in the next piece. Where the message is cut makes no difference.
    pub fn update(&mut self, bytes: &[u8])
        ensures { (a : Alg) (m : List ℕ) → HasTaken self.old a m → HasTaken self.new a (m ++ bytes.now) }
    {
        match &mut self.state {
            State::Sha1new(hasher) => hasher.update(bytes),
            State::Sha256(hasher) => hasher.update(bytes),
            State::Sha256new(hasher) => hasher.update(bytes),
        }
    }

    /// The name of all bytes that were given.
    pub fn finish(self) -> DigestName
        ensures { (a : Alg) (m : List ℕ) → HasTaken self a m → result ≡ name_of a m }
    {
        match self.state {
            State::Sha1new(hasher) => DigestName::Sha1new(hasher.finalize()),
            State::Sha256(hasher) => DigestName::Sha256(hasher.finalize()),
            State::Sha256new(hasher) => DigestName::Sha256new(hasher.finalize()),
        }
    }
}
