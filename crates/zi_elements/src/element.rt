use zi_text::{List, Text};

/// The namespace of feeds and of selections (the Zero Install feed format).
pub const NAMESPACE: &str = "http://zero-install.sourceforge.net/2004/injector/interface";

/// An attribute of an element (XML 1.0, 3.1). Declarations of namespaces aren't attributes of the tree.
#[derive(Debug, Drop, PartialEq, Eq)]
pub struct Attr {
    /// The address of its namespace, empty where its name has no prefix (Namespaces in XML 1.0, 6.2).
    pub space: Text,
    /// Its local name.
    pub name: Text,
    /// Its value, normalised (XML 1.0, 3.3.3).
    pub value: Text,
}

/// An element (XML 1.0, 3).
#[cycle(tree)]
#[derive(Debug, Drop, PartialEq, Eq)]
pub struct Element {
    /// The address of its namespace, empty where it has none (Namespaces in XML 1.0, 6.1).
    pub space: Text,
    /// Its local name.
    pub name: Text,
    /// Its attributes, in the order of the document.
    pub attrs: List<Attr>,
    /// What it holds, in the order of the document: no empty text, and no two texts side by side.
    pub children: List<Node>,
    /// The offset of its `<` in the document, in bytes from 0.
    pub place: u64,
}

/// What an element holds.
#[cycle(tree)]
#[derive(Debug, Drop, PartialEq, Eq)]
pub enum Node {
    /// An element.
    Child(Element),
    /// A text, its line ends being LF (XML 1.0, 2.11) and its references replaced.
    Words(Text),
}
