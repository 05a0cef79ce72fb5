use zi_text::{List, Text};

/// The call of a shim, the small program that a binding makes a command available as.
#[derive(Debug, Drop)]
pub struct ShimCall {
    /// The interface whose command it runs.
    pub interface: Text,
    /// The name of that command.
    pub command: Text,
    /// The name of the shim.
    pub name: Text,
    /// The words that the command means, before those with which the shim is called.
    pub words: List<Text>,
}
