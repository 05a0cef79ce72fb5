use crate::letters::Letters;
use zi_elements::{Attr, Node};
use zi_names::{Raw, Scopes};
use zi_text::{List, Text};

// What is being read. The comment says what was read last.
#[derive(Clone, Copy, Debug, PartialEq, Eq)]
pub enum Mode {
    // nothing
    Begun,
    // something before the root, or a byte order mark
    Front,
    // `<`
    Opened,
    // `<!`
    Banged,
    // a comment, and a `-` in it
    Comment,
    CommentDash,
    // `<?`, a target, an instruction, and a `?` in it
    Asked,
    Target,
    Instruction,
    InstructionAsk,
    // a part of a fixed text
    Wording,
    // a section, and one or two `]` in it
    Section,
    SectionBracket,
    SectionBrackets,
    // `<?xml` and white space; white space and a setting in a declaration
    Declaring,
    Heading,
    Headed,
    // the values of settings
    Numbering,
    Numbered,
    Coding,
    Coded,
    Replying,
    // a name and white space behind it, and `=`
    Named,
    Equalled,
    // tags
    Naming,
    Spaced,
    AttrNaming,
    Valuing,
    Valued,
    // references
    Amped,
    Referring,
    Hashed,
    Counting,
    Hexed,
    Hexing,
    // content, or what stands behind the root
    Inside,
    // an end tag
    Closing,
}

// What a fixed text ends.
#[derive(Clone, Copy, Debug, PartialEq, Eq)]
pub enum Word {
    Doctype,
    Section,
    Comment,
    Over,
    Key,
    Version,
    Reply,
    Declared,
    Void,
}

// Whose value is to come, or came last.
#[derive(Clone, Copy, Debug, PartialEq, Eq)]
pub enum Owner {
    Attr,
    Version,
    Encoding,
    Standalone,
}

// An element whose end tag is still to come, and what was read before it in the element around it.
#[derive(Drop)]
pub struct Open {
    pub written: Vec<char>,
    pub space: Text,
    pub local: Text,
    pub attrs: List<Attr>,
    pub before: List<Node>,
    pub letters: Letters,
    pub returned: bool,
    pub place: u64,
}

// A document that is being read.
#[derive(Drop)]
pub struct Reader {
    pub mode: Mode,
    // the open elements, the outermost first, and their scopes
    pub opens: Vec<Open>,
    pub scopes: Scopes,
    // the children and the text so far, and whether a CR was last
    pub before: List<Node>,
    pub letters: Letters,
    pub returned: bool,
    // how many `]` stand just before, up to two
    pub brackets: u8,
    // whether the root has begun, and whether nothing but a mark stands before
    pub rooted: bool,
    pub first: bool,
    // the place of the last `<`, and whether a CR stood before it
    pub place: u64,
    pub outer_returned: bool,
    // the tag: its name, its attributes, and the attribute that is being read
    pub written: Vec<char>,
    pub raw: List<Raw>,
    pub attr: Letters,
    pub owner: Owner,
    pub quote: char,
    pub value: Letters,
    pub value_returned: bool,
    // the reference: where it stands, its place, its name, its number
    pub in_value: bool,
    pub refer_at: u64,
    pub refer: Text,
    pub number: u32,
    // the target of an instruction, or the name of an encoding, and its place
    pub target: Text,
    pub coding_at: u64,
    // the fixed text: what it ends, its next character, and those behind that; and how many of a text are matched
    pub word: Word,
    pub next: char,
    pub left: Vec<char>,
    pub matched: usize,
}
