use zi_elements::Attr;
use zi_text::{List, Text};

/// A start tag with its names resolved (Namespaces in XML 1.0, 2.1 and 6).
#[derive(Debug, Drop)]
pub struct Started {
    /// The address of the element's namespace, empty where it has none.
    pub space: Text,
    /// The element's local name.
    pub name: Text,
    /// The attributes in the order of the tag, without the declarations.
    pub attrs: List<Attr>,
}

/// What comes of a start tag.
#[derive(Debug, Drop)]
pub enum Entered {
    /// It keeps the constraints on names.
    Started(Started),
    /// A name isn't qualified, has a prefix that isn't declared, or declares what may not be declared
    /// (Namespaces in XML 1.0, 3 to 5).
    BadPrefix,
    /// No name is bad, but two attributes have one name (XML 1.0, 3.1; Namespaces in XML 1.0, 6.3).
    Repeated,
}
