//! What the decider keeps between its picks.
ghost use Rattle.std.specs.Prelude.{◌≡◌, ◌≤◌, ◌<◌, ◌↔◌, [], length, IsTrue, IfOk, IfSome, IfNone, OnOk, List as Items};
ghost use Rattle.zi_universe.specs.declared.types.Interface.{Interface as AnInterface};
ghost use Rattle.zi_universe.specs.declared.types.Requirement.{Requirement as ARequirement};
ghost use Rattle.zi_sat.specs.Trail.{known_from};
ghost use Rattle.zi_sat.specs.Behind.{Behind, Back};
ghost use Rattle.zi_sat.specs.Ends.{AreDecided};
ghost use Rattle.zi_sat.specs.Least.{least_open};
ghost use Rattle.zi_choice.specs.Vars.{var_count};
ghost use Rattle.zi_walk.specs.Kept.{stand_of, IsReady, Rise};
ghost use Rattle.zi_walk.specs.Firm.{OnWay, IsBlocked, IsDone, IsPicked, IsUndecided, AreWithin, GoesBack, KeptIs};

use crate::open::{first_open, least_open, so_far};
use crate::path::Path;
use crate::standing::{Blocked, Standing, look_at};
use std::alloc::Global;
use zi_choice::{Names, trace_picks};
use zi_formula::Lit;
use zi_numbering::Numbering;
use zi_sat::{Entry, Trail};
use zi_text::Memory;
use zi_universe::Requirement;

/// Over what a walk goes.
#[derive(Clone, Copy)]
pub(crate) struct Setting<'w, 'u> {
    pub names: &'w Names<'u>,
    pub numbering: &'w Numbering<'u>,
    pub requirement: &'u Requirement,
    pub alloc: Global,
}

/// What was taken in of the trail, up to which variable all are decided by that, and the walk as far as it is settled.
pub(crate) struct Kept<'u> {
    pub taken: Vec<Entry>,
    pub low: u32,
    pub path: Path<'u>,
}

// One call wherever one is dropped.
impl<'u> Drop for Kept<'u> {
    fn drop(self) {
        let Kept {
            taken: _,
            low: _,
            path: _,
        } = self;
    }
}

impl<'u> Kept<'u> {
    /// Nothing is taken in, and the walk has come nowhere.
    pub fn new(alloc: Global) -> Kept<'u>
        ensures is { (u : Items AnInterface) (req : ARequirement) → KeptIs u req result }
        ensures taken { result.taken.items ≡ [] }
    {
        Kept {
            taken: Vec::new(alloc),
            low: 0,
            path: Path::new(alloc),
        }
    }
}

// Takes in the entries of the trail that weren't yet.
fn take_in(t: &Trail, taken: &mut Vec<Entry>) -> Result<(), Memory>
    requires { Behind taken.old.items t.now.entries }
    ensures { OnOk result (taken.new.items ≡ t.now.entries) }
{
    let end = t.len();
    for n in taken.len() as u32..end {
        taken.push(t.at(n))?;
    }
    Ok(())
}

// Takes in the trail, and comes to the root where the walk has come nowhere.
fn take_up<'u>(on: &Setting<'_, 'u>, t: &Trail, kept: &mut Kept<'u>) -> Result<(), Memory>
    requires kept { KeptIs on.now.names.now on.now.requirement.now kept.old }
    requires behind { Behind kept.old.taken.items t.now.entries }
    ensures taken { OnOk result (kept.new.taken.items ≡ t.now.entries) }
    ensures low { OnOk result (AreDecided kept.new.low t.now.entries) }
    ensures way { OnOk result (OnWay on.now.names.now on.now.requirement.now t.now.entries (stand_of kept.new.path)) }
{
    take_in(t, &mut kept.taken)?;
    t.are_new();
    if kept.path.order.is_empty() {
        kept.path.begin(on.names, on.requirement)?;
    }
    Ok(())
}

// Follows the place that waits, where it is settled; else says what blocks the walk there.
fn pass<'u>(on: &Setting<'_, 'u>, t: &Trail, path: &mut Path<'u>) -> Result<Option<Blocked>, Memory>
    requires numbered { on.now.numbering.now ≡ on.now.names.now }
    requires room { var_count on.now.names.now ≤ t.now.variables }
    requires way { OnWay on.now.names.now on.now.requirement.now t.now.entries (stand_of path.old) }
    ensures way { OnOk result (OnWay on.now.names.now on.now.requirement.now t.now.entries (stand_of path.new)) }
    ensures order { OnOk result (path.new.order.keys ≡ path.old.order.keys) }
    ensures used { OnOk result (path.new.used.keys ≡ path.old.used.keys) }
    ensures ready { IfOk result (λ r. IfNone r (IsReady (stand_of path.new))) }
    ensures blocked { IfOk result (λ r. IfSome r (λ b. IsBlocked on.now.names.now t.now.variables (known_from t.now.entries) (stand_of path.new) b)) }
{
    t.are_new();
    let Some(i) = path.waits_at() else {
        return Ok(None);
    };
    match look_at(on.numbering, t, i) {
        Standing::Settled(pick) => {
            path.follow(on.names, i, pick, t.len())?;
            Ok(None)
        }
        Standing::Stuck(blocked) => Ok(Some(blocked)),
    }
}

// Goes on to the first place that blocks the walk, and says what does; nothing does where the walk is at its end.
fn go_on<'u>(
    on: &Setting<'_, 'u>,
    t: &Trail,
    path: &mut Path<'u>,
) -> Result<Option<Blocked>, Memory>
    requires numbered { on.now.numbering.now ≡ on.now.names.now }
    requires room { var_count on.now.names.now ≤ t.now.variables }
    requires way { OnWay on.now.names.now on.now.requirement.now t.now.entries (stand_of path.old) }
    ensures way { OnOk result (OnWay on.now.names.now on.now.requirement.now t.now.entries (stand_of path.new)) }
    ensures done { IfOk result (λ r. IfNone r (IsDone (stand_of path.new))) }
    ensures blocked { IfOk result (λ r. IfSome r (λ b. IsBlocked on.now.names.now t.now.variables (known_from t.now.entries) (stand_of path.new) b)) }
{
    t.are_new();
    loop {
        if let Some(blocked) = pass(on, t, path)? {
            return Ok(Some(blocked));
        }
        if !path.advance(on.names)? {
            return Ok(None);
        }
    }
}

// The opposite of the first undecided variable, to which the low mark is moved up.
fn least(t: &Trail, low: &mut u32) -> Option<Lit>
    requires low { AreDecided low.old t.now.entries }
    ensures is { result ≡ least_open t.now.variables (known_from t.now.entries) }
    ensures undecided { IfSome result (λ l. IsUndecided t.now.variables (known_from t.now.entries) l) }
    ensures none { IfNone result (AreDecided t.now.variables t.now.entries) }
    ensures low { AreDecided low.new t.now.entries }
{
    let least = least_open(t, *low);
    match least {
        Some(l) => *low = l.variable - 1,
        None => *low = t.variables(),
    }
    least
}

// What the rule picks, by the whole walk of what is known so far.
fn pick_anew(on: &Setting, t: &Trail) -> Result<Option<Lit>, Memory>
    requires numbered { on.now.numbering.now ≡ on.now.names.now }
    requires room { var_count on.now.names.now ≤ t.now.variables }
    ensures { IfOk result (λ r. IsPicked on.now.names.now on.now.requirement.now t.now.variables t.now.entries r) }
{
    let picks = so_far(on.alloc, on.numbering, t)?;
    let traced = trace_picks(on.alloc, on.names, on.requirement, picks.as_slice())?;
    match first_open(on.numbering, t, traced.places.as_slice()) {
        Some(l) => Ok(Some(l)),
        None => Ok(least_open(t, 0)),
    }
}

/// What the rule picks. The walk is taken up where it stood.
pub(crate) fn next<'u>(
    on: &Setting<'_, 'u>,
    t: &Trail,
    kept: &mut Kept<'u>,
) -> Result<Option<Lit>, Memory>
    requires numbered { on.now.numbering.now ≡ on.now.names.now }
    requires room { var_count on.now.names.now ≤ t.now.variables }
    requires kept { KeptIs on.now.names.now on.now.requirement.now kept.old }
    requires behind { Behind kept.old.taken.items t.now.entries }
    ensures kept { OnOk result (KeptIs on.now.names.now on.now.requirement.now kept.new) }
    ensures taken { OnOk result (kept.new.taken.items ≡ t.now.entries) }
    ensures picked { IfOk result (λ r. IsPicked on.now.names.now on.now.requirement.now t.now.variables t.now.entries r) }
{
    take_up(on, t, kept)?;
    t.are_new();
    match go_on(on, t, &mut kept.path)? {
        Some(Blocked::Open(l)) => Ok(Some(l)),
        Some(Blocked::Unsettled) => pick_anew(on, t),
        None => Ok(least(t, &mut kept.low)),
    }
}

// How many places come before the first that so many entries don't make firm.
fn firm_places(path: &Path, len: u32) -> usize
    requires { Rise path.now.stops.items }
    ensures few { result ≤ length path.now.stops.items }
    ensures within { AreWithin path.now.stops.items result len }
{
    let mut n = path.stops.len();
    while n > 0 && path.stops[n - 1].known > len {
        n -= 1;
    }
    n
}

// Goes back to the first place that so many entries don't make firm.
fn go_to_firm(path: &mut Path, len: u32)
    requires { Rise path.old.stops.items }
    ensures { GoesBack (stand_of path.old) (stand_of path.new) len }
{
    let place = firm_places(path, len);
    if place < path.stops.len() {
        path.back_to(place);
    }
}

/// Goes back with the trail.
pub(crate) fn go_back(kept: &mut Kept, t: &Trail)
    requires rise { Rise kept.old.path.stops.items }
    requires back { Back kept.old.taken.items t.now.entries }
    ensures behind { Behind kept.new.taken.items t.now.entries }
    ensures kept { (u : Items AnInterface) (req : ARequirement) → KeptIs u req kept.old → KeptIs u req kept.new }
{
    let len = t.len();
    kept.taken.truncate(len as usize);
    kept.low = 0;
    go_to_firm(&mut kept.path, len);
}
