//! Which variables a launch changes, and whether a shell can set them.
ghost use Rattle.std.specs.Prelude.{◌≡◌, ◌&&◌, not, option_copied};
ghost use Rattle.std.specs.List.{list_all};
ghost use Rattle.zi_script.specs.Script.{begins, goes_on, is_name, is_changed, is_unsettable, unsettable};

use zi_outside::Vars;
use zi_text::Text;

// Whether a name goes on with this byte.
fn goes_on(b: u8) -> bool
    ensures { result ≡ goes_on b }
{
    b.is_ascii_alphanumeric() || b == b'_'
}

// Whether a name begins with this byte.
fn begins(b: u8) -> bool
    ensures { result ≡ begins b }
{
    b.is_ascii_alphabetic() || b == b'_'
}

// Whether a name goes on with all of these.
fn all_go_on(bytes: &[u8]) -> bool
    ensures { result ≡ list_all goes_on bytes.now }
{
    bytes.iter().all(|b| goes_on(*b))
}

// Whether a shell can set a variable of this name.
fn is_name(name: &str) -> bool
    ensures { result ≡ is_name name.now }
{
    match name.as_bytes() {
        [] => false,
        [first, more @ ..] => begins(*first) && all_go_on(more),
    }
}

/// Whether a variable isn't as it was: it wasn't set, or to another value.
pub(crate) fn is_changed(name: &str, value: &str, old: &Vars) -> bool
    ensures { result ≡ is_changed old.now (record { name = name.now; value = value.now }) }
{
    match old.get(name) {
        Some(was) => was.as_str() != value,
        None => true,
    }
}

// Whether it is changed, and no shell can set it.
fn is_unsettable(name: &str, value: &str, old: &Vars) -> bool
    ensures { result ≡ is_unsettable old.now (record { name = name.now; value = value.now }) }
{
    is_changed(name, value, old) && !is_name(name)
}

/// The name of the first variable that is changed and that no shell can set.
pub(crate) fn unsettable<'a>(new: &'a Vars, old: &Vars) -> Option<&'a Text>
    ensures { option_copied result ≡ unsettable old.now new.now }
{
    for i in 0..new.len() {
        let name = new.name_at(i);
        if is_unsettable(name.as_str(), new.value_at(i).as_str(), old) {
            return Some(name);
        }
    }
    None
}
