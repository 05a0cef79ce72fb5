ghost use Rattle.std.specs.Prelude.{◌≡◌, ℕ, ◌+◌, ◌<◌, ◌^◌, ◌∷◌, [], chars, length, IfOk, IfErr, encode_utf8};
ghost use Rattle.zi_xml.specs.Machine.{answer, first_state, state, finish as finishes};
ghost use Rattle.zi_doc.specs.View.{IsSound, state_of, doing_in};
ghost use Rattle.zi_doc.specs.Moves.{Takes};
ghost use Rattle.zi_doc.specs.Answers.{Finished, EndsAsChild};
ghost use Rattle.zi_doc.specs.Documents.{Spells, HasFault, FaultMeans, GivesTree, GivesFault};
ghost use Rattle.zi_doc.specs.declared.fault.DocKind.{DocKind as Kind};
ghost use Rattle.zi_elements.specs.declared.element.Node.TheVariants.{Child};
ghost use Rattle.zi_elements.specs.declared.element.Element.{Element as Tree};

use crate::fault::{DocFault, DocKind};
use crate::laws::one_answer;
use crate::letters::Letters;
use crate::state::{Mode, Owner, Reader, Word};
use std::alloc::Global;
use std::{mem, str};
use zi_doc_laws::what_is_read_keeps;
use zi_elements::{Document, Element, Node};
use zi_names::Scopes;
use zi_text::{List, Memory, Text};
use zi_xml::answers_are_right;

impl Reader {
    fn new(alloc: Global) -> Result<Reader, Memory>
        ensures state { IfOk result (λ r. state_of r 0 ≡ first_state) }
        ensures sound { IfOk result (λ r. IsSound r) }
    {
        Ok(Reader {
            mode: Mode::Begun,
            opens: Vec::new(alloc),
            scopes: Scopes::new(alloc)?,
            before: List::new(alloc),
            letters: Letters::new(alloc),
            returned: false,
            brackets: 0,
            rooted: false,
            first: true,
            place: 0,
            outer_returned: false,
            written: Vec::new(alloc),
            raw: List::new(alloc),
            attr: Letters::new(alloc),
            owner: Owner::Attr,
            quote: '"',
            value: Letters::new(alloc),
            value_returned: false,
            in_value: false,
            refer_at: 0,
            refer: Text::new(alloc),
            number: 0,
            target: Text::new(alloc),
            coding_at: 0,
            word: Word::Over,
            next: '>',
            left: Vec::new(alloc),
            matched: 0,
        })
    }

    // Takes one more character, which stands behind `at` bytes.
    fn step(&mut self, alloc: Global, at: u64, c: char) -> Result<(), DocFault>
        requires sound { IsSound self.old }
        requires room { at < 2 ^ 63 }
        ensures { Takes (doing_in self.old.mode self.old) self.old at c result self.new }
    {
        match self.mode {
            Mode::Begun => self.begun(at, c),
            Mode::Front => self.front(at, c),
            Mode::Opened => self.opened(alloc, at, c),
            Mode::Banged => self.banged(alloc, at, c),
            Mode::Comment => self.comment(at, c),
            Mode::CommentDash => self.comment_dash(alloc, at, c),
            Mode::Asked => self.asked(alloc, at, c),
            Mode::Target => self.target(alloc, at, c),
            Mode::Instruction => self.instruction(at, c),
            Mode::InstructionAsk => self.instruction_ask(at, c),
            Mode::Wording => self.wording(alloc, at, c),
            Mode::Section => self.section(at, c),
            Mode::SectionBracket => self.section_bracket(at, c),
            Mode::SectionBrackets => self.section_brackets(at, c),
            Mode::Declaring => self.declaring(alloc, at, c),
            Mode::Heading => self.heading(alloc, at, c),
            Mode::Headed => self.headed(alloc, at, c),
            Mode::Numbering => self.numbering(at, c),
            Mode::Numbered => self.numbered(at, c),
            Mode::Coding => self.coding(alloc, at, c),
            Mode::Coded => self.coded(at, c),
            Mode::Replying => self.replying(alloc, at, c),
            Mode::Named => self.leave_name(None, at, c),
            Mode::Equalled => self.equalled(alloc, at, c),
            Mode::Naming => self.naming(alloc, at, c),
            Mode::Spaced => self.spaced(alloc, at, c),
            Mode::AttrNaming => self.attr_naming(at, c),
            Mode::Valuing => self.valuing(alloc, at, c),
            Mode::Valued => self.leave(alloc, None, at, c),
            Mode::Amped => self.amped(alloc, at, c),
            Mode::Referring => self.referring(at, c),
            Mode::Hashed => self.hashed(at, c),
            Mode::Counting => self.counting(at, c),
            Mode::Hexed => self.hexed(at, c),
            Mode::Hexing => self.hexing(at, c),
            Mode::Inside => self.inside(at, c),
            Mode::Closing => self.closing(alloc, at, c),
        }
    }
}

impl Reader {
    // The root, where the characters ended behind it.
    fn finish(&mut self, alloc: Global, at: u64) -> Result<Element, DocFault>
        requires { EndsAsChild (answer (state_of self.old at) []) }
        ensures { Finished (answer (state_of self.old at) []) result }
    {
        match self.mode {
            Mode::Inside => {
                if self.has_open() {
                    Err(DocFault::Bad {
                        kind: DocKind::Syntax,
                        place: at,
                    })
                } else if self.brackets == 0 {
                    Ok(self.root(alloc))
                } else {
                    Err(DocFault::Bad {
                        kind: DocKind::Syntax,
                        place: at,
                    })
                }
            }
            _ => Err(DocFault::Bad {
                kind: DocKind::Syntax,
                place: at,
            }),
        }
    }

    fn root(&mut self, alloc: Global) -> Element
        requires { (e : Tree) × (self.old.before ≡ Child e ∷ []) }
        ensures { self.old.before ≡ Child result ∷ [] }
    {
        let before = mem::replace(&mut self.before, List::new(alloc));
        let mut nodes = before.into_vec();
        match nodes.pop() {
            Some(node) => match node {
                Node::Child(root) => root,
                Node::Words(_) => unreachable!(),
            },
            None => unreachable!(),
        }
    }
}

// The tree of a text.
fn read_text(alloc: Global, text: &str) -> Result<Element, DocFault>
    requires { EndsAsChild (answer first_state (chars text.now)) }
    ensures { Finished (answer first_state (chars text.now)) result }
{
    let mut reader = Reader::new(alloc)?;
    let mut at = 0;
    let mut rest = text.chars();
    while let Some(c) = rest.next() {
        match reader.step(alloc, at, c) {
            Ok(()) => {}
            Err(e) => return Err(e),
        }
        at += c.len_utf8() as u64;
    }
    reader.finish(alloc, at)
}

fn read_checked(alloc: Global, bytes: &[u8]) -> Result<Element, DocFault>
    ensures found { IfOk result (λ e. Spells bytes.now e) }
    ensures fault { IfErr result (λ e. FaultMeans bytes.now e) }
{
    answers_are_right();
    match str::from_utf8(bytes) {
        Ok(text) => read_text(alloc, text),
        Err(e) => Err(DocFault::Bad {
            kind: DocKind::NotUtf8,
            place: e.valid_up_to() as u64,
        }),
    }
}

// The root as a document: bytes spell no tree that is too deep for one.
fn read_document(alloc: Global, bytes: &[u8]) -> Result<Document, DocFault>
    ensures found { IfOk result (λ e. Spells bytes.now e) }
    ensures fault { IfErr result (λ e. FaultMeans bytes.now e) }
{
    what_is_read_keeps();
    match read_checked(alloc, bytes) {
        Ok(root) => Ok(Document::new(root)),
        Err(fault) => Err(fault),
    }
}

/// The document whose tree the bytes spell (XML 1.0, Fifth Edition, without a document type declaration; Namespaces
/// in XML 1.0). The bytes are UTF-8, with or without a byte order mark, and places count all of them.
///
/// `Bad` is answered exactly where the bytes spell no tree, with the kind and the place of the first fault that is shown.
/// `Memory` is answered where memory was refused, and says nothing of the bytes. The tree is at most 64 elements deep, by
/// its type.
pub fn read(alloc: Global, bytes: &[u8]) -> Result<Document, DocFault>
    // What is read is the tree that the bytes spell.
    ensures found { IfOk result (λ e. Spells bytes.now e) }
    // What they spell is read, unless memory is refused.
    ensures only { (t : Tree) → Spells bytes.now t → GivesTree result t }
    // A fault is the one that the bytes have.
    ensures fault { IfErr result (λ e. FaultMeans bytes.now e) }
    // A fault that they have is answered, unless memory is refused.
    ensures faulty { (k : Kind) (p : ℕ) → HasFault bytes.now k p → GivesFault result k p }
{
    one_answer();
    read_document(alloc, bytes)
}
