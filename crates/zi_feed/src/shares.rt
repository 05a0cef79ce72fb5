//! What the implementations and the packages of a feed share, by numbers: those of one number have one value, so what is made of it can be made once
//! for all of them. Two numbers may stand for equal values.
ghost use Rattle.std.specs.Prelude.{◌≡◌, ◌||◌, ◌∷◌, ◌++◌, [], codes, false, length, slice_get, take, IfOk, Some, None};
ghost use Rattle.zi_elements.specs.Forest.{element_view, has};
ghost use Rattle.zi_feed.specs.Shares.{Adds, Gathers, Grows, IsGathered, AreLevels, AreShared, HasNativeNumbers, HasNumbers, NativesAreShared, NumbersFit, deps_at};

use crate::along::Added;
use crate::around::Around;
use crate::feed::Feed;
use crate::made::{Made, copied_version};
use std::alloc::Global;
use zi_elements::Element;
use zi_faults::says_version;
use zi_inherited::{Inherited, Shared};
use zi_parts::{Dep, Impl, Native};
use zi_reading::has;
use zi_text::{List, Memory, Text};
use zi_version::Version;

/// A group or an implementation, by what it adds to the dependencies around it.
#[derive(Drop)]
pub struct Level {
    /// The number of the level around it, which is less than its own, where some of the dependencies stand around it.
    pub outer: usize,
    /// How many of the dependencies stand around it.
    pub around: usize,
    /// The dependencies around it, and then its own.
    pub deps: Inherited<Dep>,
}

/// The numbers of an implementation.
#[derive(Clone, Copy)]
pub struct Numbers {
    /// That of its version.
    pub version: usize,
    /// That of its languages.
    pub langs: usize,
    /// That of the level whose dependencies it has.
    pub level: usize,
}

/// The numbers of what a feed says of a package, which has no version.
#[derive(Clone, Copy)]
pub struct NativeNumbers {
    /// That of its languages.
    pub langs: usize,
    /// That of the level whose dependencies it has.
    pub level: usize,
}

/// What implementations and packages share.
pub struct Shares {
    /// The versions by their numbers; none where there is none, which no implementation has.
    pub versions: List<Option<Version>>,
    /// The languages by their numbers.
    pub langs: List<Shared<List<Text>>>,
    /// The levels by their numbers.
    pub levels: List<Level>,
    /// The numbers of each implementation, in their order.
    pub of: List<Numbers>,
    /// The same of what is said of packages.
    pub of_natives: List<NativeNumbers>,
}

// One call wherever one is dropped.
impl Drop for Shares {
    fn drop(self) {
        let Shares {
            versions: _,
            langs: _,
            levels: _,
            of: _,
            of_natives: _,
        } = self;
    }
}

/// The implementations that were found so far, and what was said of packages, with what they share.
#[derive(Drop)]
pub struct Gathered {
    pub impls: List<Impl>,
    pub natives: List<Native>,
    pub shares: Shares,
}

/// A feed, with what its implementations and packages share.
#[derive(Drop)]
pub struct ReadFeed {
    /// The feed.
    pub feed: Feed,
    /// What its implementations and packages share.
    pub shares: Shared<Shares>,
}

impl Numbers {
    /// The numbers where nothing is said.
    pub fn nothing() -> Numbers
        ensures { result ≡ record { version = 0; langs = 0; level = 0 } }
    {
        Numbers {
            version: 0,
            langs: 0,
            level: 0,
        }
    }
}

impl Shares {
    /// What no implementation and no package shares: each table has one entry alone, of number 0, for what is said nowhere. Memory is the
    /// one refusal.
    pub fn nothing(alloc: Global) -> Result<Shares, Memory>
        ensures none { IfOk result (λ s. AreShared s []) }
        ensures no_natives { IfOk result (λ s. NativesAreShared s []) }
        ensures fit { IfOk result (λ s. NumbersFit s (record { version = 0; langs = 0; level = 0 }) None [] []) }
    {
        let mut versions = List::new(alloc);
        versions.push(None)?;
        let empty = List::new(alloc);
        let none = Shared::new(alloc, empty)?;
        let mut langs = List::new(alloc);
        langs.push(none)?;
        let deps = Inherited::new();
        let outermost = Level {
            outer: 0,
            around: 0,
            deps,
        };
        let mut levels = List::new(alloc);
        levels.push(outermost)?;
        let room = Vec::with_capacity(alloc, 1)?;
        let of = List::from_vec(room);
        let of_natives = List::new(alloc);
        Ok(Shares {
            versions,
            langs,
            levels,
            of,
            of_natives,
        })
    }
}

impl Gathered {
    /// Adds an implementation that has these numbers. Memory is the one refusal.
    pub fn push(&mut self, imp: Impl, numbers: Numbers) -> Result<(), Memory>
        requires shared { IsGathered self.old }
        requires fit { HasNumbers self.old.shares numbers imp }
        ensures impls { IfOk result (λ _. self.new.impls ≡ self.old.impls ++ imp ∷ []) }
        ensures natives { IfOk result (λ _. self.new.natives ≡ self.old.natives) }
        ensures shares { IfOk result (λ _. Gathers self.old self.new) }
    {
        self.impls.push(imp)?;
        self.shares.of.push(numbers)?;
        Ok(())
    }

    /// Adds what is said of a package, which has these numbers. Memory is the one refusal.
    pub fn push_native(&mut self, native: Native, numbers: NativeNumbers) -> Result<(), Memory>
        requires shared { IsGathered self.old }
        requires fit { HasNativeNumbers self.old.shares numbers native }
        ensures impls { IfOk result (λ _. self.new.impls ≡ self.old.impls) }
        ensures natives { IfOk result (λ _. self.new.natives ≡ self.old.natives ++ native ∷ []) }
        ensures shares { IfOk result (λ _. Gathers self.old self.new) }
    {
        self.natives.push(native)?;
        self.shares.of_natives.push(numbers)?;
        Ok(())
    }
}

// The number of a version at an element: a new one where the element says it.
fn version_number(
    alloc: Global,
    says: bool,
    made: &Option<Version>,
    number: usize,
    versions: &mut List<Option<Version>>,
) -> Result<usize, Memory>
    requires { says ≡ false → slice_get versions.old number ≡ Some made.now }
    ensures grows { IfOk result (λ _. Grows versions.old versions.new) }
    ensures at { IfOk result (λ n. slice_get versions.new n ≡ Some made.now) }
{
    if !says {
        return Ok(number);
    }
    let new = versions.len();
    let version = copied_version(alloc, made)?;
    versions.push(version)?;
    Ok(new)
}

// The same of languages.
fn langs_number(
    says: bool,
    made: &Shared<List<Text>>,
    number: usize,
    langs: &mut List<Shared<List<Text>>>,
) -> Result<usize, Memory>
    requires { says ≡ false → slice_get langs.old number ≡ Some made.now }
    ensures grows { IfOk result (λ _. Grows langs.old langs.new) }
    ensures at { IfOk result (λ n. slice_get langs.new n ≡ Some made.now) }
{
    if !says {
        return Ok(number);
    }
    let new = langs.len();
    let shared = made.share()?;
    langs.push(shared)?;
    Ok(new)
}

// The number of the level of these dependencies, of which so many stand around the element, at the level of a number: a new
// one where the element adds some.
fn level_number(
    deps: &Inherited<Dep>,
    around: usize,
    outer: usize,
    levels: &mut List<Level>,
) -> Result<usize, Memory>
    requires levels { AreLevels levels.old }
    requires outer { deps_at levels.old outer ≡ Some (take around deps.now) }
    ensures grows { IfOk result (λ _. Grows levels.old levels.new) }
    ensures levels { IfOk result (λ _. AreLevels levels.new) }
    ensures at { IfOk result (λ n. deps_at levels.new n ≡ Some deps.now) }
{
    let count = deps.len();
    if count <= around {
        return Ok(outer);
    }
    let new = levels.len();
    let all = deps.share()?;
    levels.push(Level {
        outer,
        around,
        deps: all,
    })?;
    Ok(new)
}

/// The numbers at an element, where this stands around it, and this is made and added with it.
pub fn numbers_at(
    alloc: Global,
    outer: &Around,
    made: &Made,
    added: &Added,
    e: &Element,
    shares: &mut Shares,
) -> Result<Numbers, Memory>
    requires levels { AreLevels shares.old.levels }
    requires fit { NumbersFit shares.old outer.now.numbers outer.now.made.version outer.now.made.langs outer.now.added.deps }
    requires version { (has (codes "version") (element_view e.now) || has (codes "version-modifier") (element_view e.now)) ≡ false → made.now.version ≡ outer.now.made.version }
    requires langs { has (codes "langs") (element_view e.now) ≡ false → made.now.langs ≡ outer.now.made.langs }
    requires deps { outer.now.added.deps ≡ take (length outer.now.added.deps) added.now.deps }
    ensures adds { IfOk result (λ _. Adds shares.old shares.new) }
    ensures fit { IfOk result (λ n. NumbersFit shares.new n made.now.version made.now.langs added.now.deps) }
{
    let old = outer.numbers;
    let version = version_number(
        alloc,
        says_version(e),
        &made.version,
        old.version,
        &mut shares.versions,
    )?;
    let langs = langs_number(has(e, "langs"), &made.langs, old.langs, &mut shares.langs)?;
    let around = outer.added.deps.len();
    let level = level_number(&added.deps, around, old.level, &mut shares.levels)?;
    Ok(Numbers {
        version,
        langs,
        level,
    })
}
