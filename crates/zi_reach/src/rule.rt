//! What the trail says of an interface, and which one is to be decided next.

ghost use Rattle.std.specs.Prelude.{◌≡◌, ◌≤◌, ℕ, true, false, IfSome, IfNone, Option};
ghost use Rattle.zi_proof.specs.Known.{is_open};
ghost use Rattle.zi_sat.specs.Trail.{known_from};
ghost use Rattle.zi_sat.specs.Least.{least_open};
ghost use Rattle.zi_reach.specs.Rule.{within, first_given, if_true, if_open, wished, is_wanted, is_chosen, of_face, of_turn, IsUndecided};

use zi_formula::Lit;
use zi_sat::Trail;
use zi_text::List;

/// What an interface is to the decider.
#[derive(Drop)]
pub struct Face {
    /// The variables of its candidates, the best one first.
    pub variables: List<u32>,
    /// The variables of the candidates that lead to it.
    pub wanted_by: List<u32>,
    /// Whether it is wanted whatever is chosen.
    pub root: bool,
}

/// An interface in the order.
#[derive(Clone, Copy)]
pub struct Turn {
    /// Its place in the list of interfaces.
    pub face: u32,
    /// The variable that is tried first.
    pub wish: Option<u32>,
}

// Whether it is one of the formula's variables.
fn is_within(t: &Trail, x: u32) -> bool
    ensures { result ≡ within t.now.variables x }
{
    1 <= x && x <= t.variables()
}

// What is known of a variable.
fn value_of(t: &Trail, x: u32) -> Option<bool>
    requires { within t.now.variables x ≡ true }
    ensures { result ≡ known_from t.now.entries x }
{
    t.value(Lit {
        variable: x,
        positive: true,
    })
}

// The variable, where it is true.
fn if_true(t: &Trail, x: u32) -> Option<u32>
    ensures { result ≡ if_true t.now.variables (known_from t.now.entries) x }
{
    if !is_within(t, x) {
        return None;
    }
    match value_of(t, x) {
        Some(true) => Some(x),
        Some(false) => None,
        None => None,
    }
}

// The variable, where it is undecided.
fn if_open(t: &Trail, x: u32) -> Option<u32>
    ensures is { result ≡ if_open t.now.variables (known_from t.now.entries) x }
    ensures undecided { IfSome result (IsUndecided t.now.variables (known_from t.now.entries)) }
{
    if !is_within(t, x) {
        return None;
    }
    match value_of(t, x) {
        Some(_) => None,
        None => Some(x),
    }
}

// The first of some variables that is true.
fn first_true(t: &Trail, xs: &[u32]) -> Option<u32>
    ensures { result ≡ first_given (if_true t.now.variables (known_from t.now.entries)) xs.now }
{
    for x in xs {
        if let Some(found) = if_true(t, *x) {
            return Some(found);
        }
    }
    None
}

// The first of some variables that is undecided.
fn first_open(t: &Trail, xs: &[u32]) -> Option<u32>
    ensures is { result ≡ first_given (if_open t.now.variables (known_from t.now.entries)) xs.now }
    ensures undecided { IfSome result (IsUndecided t.now.variables (known_from t.now.entries)) }
{
    for x in xs {
        if let Some(found) = if_open(t, *x) {
            return Some(found);
        }
    }
    None
}

// Whether one of an interface's candidates is chosen.
fn is_chosen(t: &Trail, face: &Face) -> bool
    ensures { result ≡ is_chosen t.now.variables (known_from t.now.entries) face.now }
{
    first_true(t, face.variables.as_slice()).is_some()
}

// Whether an interface is wanted by what is chosen.
fn is_wanted(t: &Trail, face: &Face) -> bool
    ensures { result ≡ is_wanted t.now.variables (known_from t.now.entries) face.now }
{
    face.root || first_true(t, face.wanted_by.as_slice()).is_some()
}

// The variable that is wished for, where it is undecided.
fn wished(t: &Trail, wish: Option<u32>) -> Option<u32>
    ensures is { result ≡ wished t.now.variables (known_from t.now.entries) wish }
    ensures undecided { IfSome result (IsUndecided t.now.variables (known_from t.now.entries)) }
{
    match wish {
        None => None,
        Some(x) => if_open(t, x),
    }
}

// What is tried next of an interface, where it is wanted and none of its candidates is chosen.
fn of_face(t: &Trail, face: &Face, wish: Option<u32>) -> Option<u32>
    ensures is { result ≡ of_face t.now.variables (known_from t.now.entries) wish face.now }
    ensures undecided { IfSome result (IsUndecided t.now.variables (known_from t.now.entries)) }
{
    if is_chosen(t, face) {
        return None;
    }
    if !is_wanted(t, face) {
        return None;
    }
    match wished(t, wish) {
        Some(x) => Some(x),
        None => first_open(t, face.variables.as_slice()),
    }
}

// What is tried next of the interface of a turn.
fn of_turn(t: &Trail, faces: &[Face], turn: Turn) -> Option<u32>
    ensures is { result ≡ of_turn t.now.variables (known_from t.now.entries) faces.now turn }
    ensures undecided { IfSome result (IsUndecided t.now.variables (known_from t.now.entries)) }
{
    match faces.get(turn.face as usize) {
        None => None,
        Some(face) => of_face(t, face, turn.wish),
    }
}

/// What is tried next: that of the first turn which has something to try.
pub(crate) fn next_of(t: &Trail, faces: &[Face], order: &[Turn]) -> Option<u32>
    ensures is { result ≡ first_given (of_turn t.now.variables (known_from t.now.entries) faces.now) order.now }
    ensures undecided { IfSome result (IsUndecided t.now.variables (known_from t.now.entries)) }
{
    for turn in order {
        if let Some(found) = of_turn(t, faces, *turn) {
            return Some(found);
        }
    }
    None
}

/// The opposite of the first undecided variable.
pub(crate) fn least_open(t: &Trail) -> Option<Lit>
    ensures is { result ≡ least_open t.now.variables (known_from t.now.entries) }
    ensures undecided { IfSome result (λ l. IsUndecided t.now.variables (known_from t.now.entries) l.variable) }
    ensures none { IfNone result ((x : ℕ) → 1 ≤ x → x ≤ t.now.variables → is_open (known_from t.now.entries x) ≡ false) }
{
    let n = t.variables();
    for x in 0..n {
        let lit = Lit {
            variable: x + 1,
            positive: false,
        };
        if t.value(lit).is_none() {
            return Some(lit);
        }
    }
    None
}
