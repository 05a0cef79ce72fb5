ghost use Rattle.std.specs.Prelude.{◌≡◌, []};

use std::alloc::Global;
use zi_text::{List, Text};
use zi_version::Version;

/// A package of the operating system.
#[derive(Drop)]
pub struct PackageRow {
    /// Its name.
    pub package: Text,
    /// Its version.
    pub version: Version,
    /// The machine that it is for; `*` is any.
    pub machine: Text,
    /// Whether it is installed; one that isn't may be.
    pub installed: bool,
}

/// Which packages the operating system has.
#[derive(Drop)]
pub struct Packages {
    /// The name of the distribution.
    pub distribution: Text,
    /// The packages, in the order of the table.
    pub rows: List<PackageRow>,
}

impl Packages {
    /// No packages, of no distribution.
    pub fn nothing(alloc: Global) -> Packages
        ensures { result ≡ record { distribution = []; rows = [] } }
    {
        Packages {
            distribution: Text::new(alloc),
            rows: List::new(alloc),
        }
    }
}
