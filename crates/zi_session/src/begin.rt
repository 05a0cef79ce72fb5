//! Which tree a session begins with, and the calls that fill then.

ghost use Rattle.std.specs.Prelude.{◌≡◌, ◌≢◌, ◌&&◌, [], List, ℕ, None, Some, Err, IfOk, option_copied};
ghost use Rattle.zi_digest.specs.Name.{name_of, algorithm_of, IsDigest};
ghost use Rattle.zi_digest.specs.declared.DigestName.{DigestName as Name};
ghost use Rattle.zi_manifest.specs.Manifest.{is_bad, leaf_bad, first_bad, manifest, digest_of};
ghost use Rattle.zi_session.specs.Works.{works_of};
ghost use Rattle.zi_session.specs.AtPlace.{calls, is_leaf};
ghost use Rattle.zi_session.specs.declared.begin.BeginFault.TheVariants.{BadName, Mismatch};

use crate::session::Session;
use crate::work::Work;
use crate::works::put_works;
use std::alloc::Global;
use thiserror::Error;
use zi_digest::{Algorithm, DigestName, Hasher};
use zi_manifest::{ManifestOutFault, write};
use zi_text::{Memory, Text};
use zi_tree::{Tree, TreeNode};

/// Why no session begins. The tree is dropped.
#[derive(Debug, Drop, Error)]
pub enum BeginFault {
    /// A name that no stored tree has: one with a newline, or `.manifest`, at the top too. The path is that of the first one
    /// in the order of the manifest's lines, its parts joined by `/`.
    #[error("a name that no stored tree has")]
    BadName { path: Text },
    /// The tree's digest, by the name's algorithm, is another one than the name.
    #[error("the tree has another digest")]
    Mismatch { found: DigestName },
    /// Memory was refused.
    #[error("out of memory")]
    Memory,
}

impl Session {
    ghost use Rattle.zi_session.specs.Begun.{IsBegun};

    /// Begins to add a tree under a digest name: the session is before its first call.
    ///
    /// BadName comes exactly where a name is bad, with the path of the first one; `.manifest` is bad at the top too. Mismatch
    /// comes exactly where no name is bad and the digest of the tree, by the name's algorithm, is another one.
    pub fn begin(alloc: Global, name: DigestName, tree: Tree) -> Result<Session, BeginFault>
        ensures begun { IfOk result (λ s. IsBegun name tree s) }
        ensures good { IfOk result (λ s. (first_bad tree ≡ None) × (digest_of (algorithm_of name) tree ≡ name)) }
        ensures bad { (p : List ℕ) → result ≡ Err (BadName p) → first_bad tree ≡ Some p }
        ensures mismatch { (d : Name) → result ≡ Err (Mismatch d) → (first_bad tree ≡ None) × (d ≡ digest_of (algorithm_of name) tree) × (d ≢ name) }
    {
        tree.is_whole();
        whole_digest(name);
        let works = match plan(alloc, &name, &tree) {
            Ok(works) => works,
            Err(fault) => return Err(fault),
        };
        let Ok(text) = name.text(alloc) else {
            return Err(BeginFault::Memory);
        };
        Ok(Session::of(alloc, text, works))
    }
}

/// What every digest keeps, for a proof: it has its algorithm's number of bytes.
fn whole_digest(name: DigestName)
    ensures { IsDigest name }
{
    match name {
        DigestName::Sha1new(bytes) => {
            let _bytes = bytes.as_slice();
        }
        DigestName::Sha256(bytes) => {
            let _bytes = bytes.as_slice();
        }
        DigestName::Sha256new(bytes) => {
            let _bytes = bytes.as_slice();
        }
    }
}

/// The calls that fill an entry with this tree and its manifest, if its digest is the name.
pub(crate) fn plan(alloc: Global, name: &DigestName, tree: &Tree) -> Result<Vec<Work>, BeginFault>
    ensures good { IfOk result (λ works. (first_bad tree.now ≡ None) × (digest_of (algorithm_of name.now) tree.now ≡ name.now)) }
    ensures calls { IfOk result (λ works. calls works.items ≡ works_of tree.now (manifest (algorithm_of name.now) tree.now)) }
    ensures bad { (p : List ℕ) → result ≡ Err (BadName p) → first_bad tree.now ≡ Some p }
    ensures mismatch { (d : Name) → result ≡ Err (Mismatch d) → (first_bad tree.now ≡ None) × (d ≡ digest_of (algorithm_of name.now) tree.now) × (d ≢ name.now) }
{
    let text = match manifest_of(alloc, tree, name.algorithm()) {
        Ok(text) => text,
        Err(fault) => return Err(fault),
    };
    let found = digest(name.algorithm(), text.as_slice());
    if found != *name {
        return Err(BeginFault::Mismatch { found });
    }
    match put_works(alloc, tree, text.as_slice()) {
        Ok(works) => Ok(works),
        Err(_) => Err(BeginFault::Memory),
    }
}

/// The manifest of a tree in which no name is bad, `.manifest` at the top included.
fn manifest_of(alloc: Global, tree: &Tree, a: Algorithm) -> Result<Vec<u8>, BeginFault>
    ensures text { IfOk result (λ text. (first_bad tree.now ≡ None) × (text.items ≡ manifest a tree.now)) }
    ensures bad { (p : List ℕ) → result ≡ Err (BadName p) → first_bad tree.now ≡ Some p }
    ensures mismatch { (d : Name) → result ≢ Err (Mismatch d) }
{
    if let Some(name) = bad_leaf(tree) {
        return Err(bad_name(alloc, name));
    }
    match write(alloc, tree, a) {
        Ok(text) => Ok(text),
        Err(ManifestOutFault::BadName { path }) => Err(BeginFault::BadName { path }),
        Err(ManifestOutFault::Memory) => Err(BeginFault::Memory),
    }
}

/// The first bad name among the files and links of the top folder.
fn bad_leaf(tree: &Tree) -> Option<&Text>
    ensures { option_copied result ≡ leaf_bad [] tree.now }
{
    for i in 0..tree.len() {
        let name = tree.name_at(i);
        if is_bad_leaf(name.as_str(), tree.node_at(i)) {
            return Some(name);
        }
    }
    None
}

/// Whether it is a file or a link under a bad name.
fn is_bad_leaf(name: &str, node: &TreeNode) -> bool
    ensures { result ≡ (is_leaf node.now && is_bad name.now) }
{
    is_leaf(node) && is_bad(name)
}

/// Whether a node is a file or a link.
fn is_leaf(node: &TreeNode) -> bool
    ensures { result ≡ is_leaf node.now }
{
    match node {
        TreeNode::Folder(_) => false,
        _ => true,
    }
}

/// Whether no stored tree has this name.
fn is_bad(name: &str) -> bool
    ensures { result ≡ is_bad name.now }
{
    name.as_bytes().contains(&b'\n') || name == ".manifest"
}

/// The fault of a bad name in the top folder.
fn bad_name(alloc: Global, name: &Text) -> BeginFault
    ensures bad { (p : List ℕ) → result ≡ BadName p → p ≡ name.now }
    ensures mismatch { (d : Name) → result ≢ Mismatch d }
{
    match name.copy(alloc) {
        Ok(path) => BeginFault::BadName { path },
        Err(_) => BeginFault::Memory,
    }
}

/// The digest of a manifest.
fn digest(a: Algorithm, text: &[u8]) -> DigestName
    ensures { result ≡ name_of a text.now }
{
    let mut hasher = Hasher::new(a);
    hasher.update(text);
    hasher.finish()
}
