//! What is told of an implementation that is no candidate.

use zi_text::Text;
use zi_version::Version;

/// Why an implementation is no candidate. Of several reasons the first of these counts.
#[derive(Clone, Copy, Debug, PartialEq, Eq)]
pub enum Reason {
    /// It is buggy or insecure.
    Stability,
    /// It is source code: its machine is `src`.
    Source,
    /// The policy's platform doesn't run its operating system or its machine.
    Arch,
    /// It is neither local, stored nor of a package, and can't be fetched.
    Unreachable,
    /// It is neither local, stored nor an installed package, and the network is off.
    Offline,
    /// A limit of the requirement doesn't admit its version.
    Limit,
}

/// An implementation that is no candidate.
pub struct Refusal {
    /// Its id.
    pub id: Text,
    /// Its version.
    pub version: Version,
    /// Why it is none.
    pub reason: Reason,
}

// One call wherever one is dropped.
impl Drop for Refusal {
    fn drop(self) {
        let Refusal {
            id: _,
            version: _,
            reason: _,
        } = self;
    }
}
