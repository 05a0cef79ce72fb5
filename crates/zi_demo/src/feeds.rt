//! The feeds of the demonstration, each as its canonical text under its address.
ghost use Rattle.std.specs.Prelude.{List as Items, ◌≡◌, ◌≤◌, ◌-◌, ◌∷◌, ◌++◌, [], map, codes, None, IfOk, OnOk};
ghost use Rattle.zi_elements.specs.Forest.{nodes_view};
ghost use Rattle.zi_docout.specs.Canonical.{document};
ghost use Rattle.zi_docout.specs.Amiss.{first_amiss};
ghost use Rattle.zi_docout.specs.Elements.{Adds};
ghost use Rattle.zi_outside.specs.Memory.{PutsUnder, sure_told};
ghost use Rattle.zi_demo.specs.Feeds.{Feed, address, requires_elem, numbers, numbered, needs, two, three, root, later_ones, feeds, interface, text_of, Holds};
ghost use Rattle.zi_demo.specs.Plain.{ArePlain};

use crate::versions::{address, put_need, put_version, three_versions, two_versions};
use std::alloc::Global;
use zi_docout::{Node, WriteFault, element, write};
use zi_outside::SureFeeds;
use zi_text::{List, Memory, Text};

// The name of the interface a of a number.
fn numbered(alloc: Global, i: u64) -> Result<Text, Memory>
    ensures { IfOk result (λ t. t ≡ numbered i) }
{
    let name = format!(in alloc; "a{i}")?;
    Text::from_str(alloc, name.as_str())
}

// The canonical text of an interface with these versions, which can be written.
#[tactic(auto, unfolding(crate::specs::Feeds::interface))]
fn text_of(alloc: Global, versions: List<Node>) -> Result<Vec<u8>, Memory>
    requires { first_amiss (interface (nodes_view versions)) ≡ None }
    ensures { IfOk result (λ text. text.items ≡ document (interface (nodes_view versions))) }
{
    let root = element(alloc, "interface", List::new(alloc), versions)?;
    let mut text = Vec::new(alloc);
    match write(alloc, &root, &mut text) {
        Ok(()) => Ok(text),
        Err(WriteFault::Memory) => Err(Memory),
        Err(WriteFault::Unwritable { .. }) => unreachable!(),
    }
}

// Puts the feed of an interface with these versions, which can be written, under its address.
fn put_feed(
    alloc: Global,
    into: &mut SureFeeds,
    name: &str,
    versions: List<Node>,
) -> Result<(), Memory>
    requires { first_amiss (interface (nodes_view versions)) ≡ None }
    ensures held { OnOk result (PutsUnder (sure_told into.old).holds (address name.now) (document (interface (nodes_view versions))) (sure_told into.new).holds) }
    ensures asked { (sure_told into.new).asked ≡ (sure_told into.old).asked }
{
    let address = address(alloc, name)?;
    let text = text_of(alloc, versions)?;
    into.put(address.as_str(), text.as_slice())
}

// Puts the feed of an interface with the versions 2 and 1.
fn put_two(alloc: Global, into: &mut SureFeeds, name: &str, others: &[&str]) -> Result<(), Memory>
    requires { ArePlain (map (λ x. x.now) others.now) }
    ensures held { OnOk result (PutsUnder (sure_told into.old).holds (address name.now) (text_of (two name.now (map (λ x. x.now) others.now))) (sure_told into.new).holds) }
    ensures asked { (sure_told into.new).asked ≡ (sure_told into.old).asked }
{
    let versions = two_versions(alloc, others)?;
    put_feed(alloc, into, name, versions)
}

// Puts the feed of an interface with the versions 3, 2 and 1.
fn put_three(alloc: Global, into: &mut SureFeeds, name: &str, others: &[&str]) -> Result<(), Memory>
    requires { ArePlain (map (λ x. x.now) others.now) }
    ensures held { OnOk result (PutsUnder (sure_told into.old).holds (address name.now) (text_of (three name.now (map (λ x. x.now) others.now))) (sure_told into.new).holds) }
    ensures asked { (sure_told into.new).asked ≡ (sure_told into.old).asked }
{
    let versions = three_versions(alloc, others)?;
    put_feed(alloc, into, name, versions)
}

// Adds that a1 to an are needed.
fn put_numbered(alloc: Global, needs: &mut List<Node>, n: u64) -> Result<(), Memory>
    requires { n ≤ 1000 }
    ensures { OnOk result (Adds needs.old needs.new (map requires_elem (map numbered (numbers 1 n)))) }
{
    for k in 0..n {
        let name = numbered(alloc, k + 1)?;
        put_need(alloc, needs, name.as_str())?;
    }
    Ok(())
}

// What the root needs: a1 to an, then p, q and r.
#[tactic(auto, unfolding(crate::specs::Feeds::needs))]
fn needs(alloc: Global, n: u64) -> Result<List<Node>, Memory>
    requires { n ≤ 1000 }
    ensures { IfOk result (λ nodes. Adds [] nodes (needs n)) }
{
    let mut needs = List::new(alloc);
    put_numbered(alloc, &mut needs, n)?;
    put_need(alloc, &mut needs, "p")?;
    put_need(alloc, &mut needs, "q")?;
    put_need(alloc, &mut needs, "r")?;
    Ok(needs)
}

// The version of the root, with what it needs.
fn root_versions(alloc: Global, n: u64) -> Result<List<Node>, Memory>
    requires { n ≤ 1000 }
    ensures { IfOk result (λ versions. Adds [] versions (root n).versions) }
{
    let mut versions = List::new(alloc);
    put_version(alloc, &mut versions, 1, needs(alloc, n)?)?;
    Ok(versions)
}

// Puts the root's feed.
fn put_root(alloc: Global, into: &mut SureFeeds, n: u64) -> Result<(), Memory>
    requires { n ≤ 1000 }
    ensures held { OnOk result (PutsUnder (sure_told into.old).holds (address (codes "root")) (text_of (root n)) (sure_told into.new).holds) }
    ensures asked { (sure_told into.new).asked ≡ (sure_told into.old).asked }
{
    let versions = root_versions(alloc, n)?;
    put_feed(alloc, into, "root", versions)
}

// Puts the feeds of an to a2, the last one first.
fn put_later_ones(alloc: Global, into: &mut SureFeeds, n: u64) -> Result<(), Memory>
    requires low { 1 ≤ n }
    requires high { n ≤ 1000 }
    ensures held { OnOk result ((fs : Items Feed) → Holds fs (sure_told into.old).holds → Holds (later_ones 2 (n - 1) ++ fs) (sure_told into.new).holds) }
    ensures asked { (sure_told into.new).asked ≡ (sure_told into.old).asked }
{
    for k in 1..n {
        let name = numbered(alloc, n + 1 - k)?;
        put_two(alloc, into, name.as_str(), &[])?;
    }
    Ok(())
}

/// The feeds of the demonstration with the number n, which is from 1 to 1,000: those of `/demo/root.xml`, of `/demo/a1.xml` to
/// `/demo/aN.xml`, of `/demo/p.xml`, `/demo/q.xml` and `/demo/r.xml`, each the canonical text of its element `interface`, and
/// nothing else. Nobody has asked for any yet. Memory is its one refusal.
pub fn universe_of(alloc: Global, n: u64) -> Result<SureFeeds, Memory>
    requires low { 1 ≤ n }
    requires high { n ≤ 1000 }
    ensures held { IfOk result (λ f. Holds (feeds n) (sure_told f).holds) }
    ensures asked { IfOk result (λ f. (sure_told f).asked ≡ []) }
{
    let mut feeds = SureFeeds::new(alloc);
    put_three(alloc, &mut feeds, "r", &[])?;
    put_three(alloc, &mut feeds, "q", &["r"])?;
    put_three(alloc, &mut feeds, "p", &["q", "r"])?;
    put_later_ones(alloc, &mut feeds, n)?;
    put_two(alloc, &mut feeds, "a1", &["p", "q", "r"])?;
    put_root(alloc, &mut feeds, n)?;
    Ok(feeds)
}
