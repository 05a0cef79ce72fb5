use zi_text::Text;

/// An attribute as a start tag has it (XML 1.0, 3.1): declarations of namespaces are among them.
#[derive(Debug, Drop)]
pub struct Raw {
    /// Its name as it is written, with its prefix.
    pub name: Text,
    /// Its value, references replaced and normalised (XML 1.0, 3.3.3).
    pub value: Text,
}

/// What a declaration says: a prefix is bound to an address (Namespaces in XML 1.0, 3).
#[derive(Debug, Drop)]
pub struct Binding {
    /// The prefix, empty for the default namespace.
    pub prefix: Text,
    /// The address, which is the name of the namespace. An empty one takes the default namespace away.
    pub address: Text,
}
