//! What is wrong: the first hint.
ghost use Rattle.std.specs.Prelude.{◌≡◌, Some, None, OnOk};
ghost use Rattle.std.specs.Io.KnownBytes.{Appends};
ghost use Rattle.zi_hints.specs.Saying.{hint};
ghost use Rattle.zi_hints.specs.Causes.{of_bad, of_sels, of_bind, of_plan};

use crate::faults::{of_document, of_feed};
use crate::saying::{say, say_five, say_three};
use crate::spot::say_at;
use std::io::{self, Write};
use zi_bind::BindFault;
use zi_plan::PlanFault;
use zi_sels::SelsFault;
use zi_universe::BadFeed;

/// Why the bytes of a feed are none.
pub fn say_bad<W: Write>(document: &[u8], fault: BadFeed, writer: &mut W) -> io::Result<()>
    ensures { OnOk result (Appends (W.contents writer.old) (W.contents writer.new) (hint (of_bad document.now fault))) }
{
    match fault {
        BadFeed::Doc { kind, place } => say_at(document, place, of_document(kind), writer),
        BadFeed::Feed { kind, place } => say_at(document, place, of_feed(kind), writer),
    }
}

/// Why a document is none of selections.
#[tactic(auto, using(zi_shown::proofs::ShownLemmas::nothing_more))]
pub fn say_sels<W: Write>(document: &[u8], fault: &SelsFault, writer: &mut W) -> io::Result<()>
    ensures { OnOk result (Appends (W.contents writer.old) (W.contents writer.new) (hint (of_sels document.now fault.now))) }
{
    match fault {
        SelsFault::Doc { kind, place } => say_at(document, *place, of_document(*kind), writer),
        SelsFault::NotSelections => say(
            "the root isn't selections in the namespace of feeds, or names no interface",
            writer,
        ),
        SelsFault::NoRoot => say("nothing is selected for the root's interface", writer),
        SelsFault::Twice { interface } => {
            say_three("two selections are for ", interface.as_str(), "", writer)
        }
        SelsFault::Feed { kind, place } => say_at(document, *place, of_feed(*kind), writer),
        SelsFault::Unclosed { interface } => say_three(
            "nothing is selected for ",
            interface.as_str(),
            ", which is needed",
            writer,
        ),
        SelsFault::Memory => Ok(()),
    }
}

// Why an argument stands for nothing.
#[tactic(auto, using(zi_shown::proofs::ShownLemmas::nothing_more))]
fn say_bind<W: Write>(fault: &BindFault, writer: &mut W) -> io::Result<()>
    ensures { OnOk result (Appends (W.contents writer.old) (W.contents writer.new) (hint (of_bind fault.now))) }
{
    match fault {
        BindFault::Unset { name } => say_three(
            "an argument has the variable ",
            name.as_str(),
            ", which isn't set",
            writer,
        ),
        BindFault::BadDollar { .. } => say("a $ in an argument stands for nothing", writer),
        BindFault::Memory => Ok(()),
    }
}

/// Why selections can't be launched.
#[tactic(auto, using(zi_shown::proofs::ShownLemmas::nothing_more))]
pub fn say_plan<W: Write>(fault: &PlanFault, writer: &mut W) -> io::Result<()>
    ensures { OnOk result (Appends (W.contents writer.old) (W.contents writer.new) (hint (of_plan fault.now))) }
{
    match fault {
        PlanFault::NoSelection { interface } => say_three(
            "nothing is selected for the runner ",
            interface.as_str(),
            "",
            writer,
        ),
        PlanFault::NoCommand { interface, command } => {
            let (interface, command) = (interface.as_str(), command.as_str());
            say_five(
                "what is selected for ",
                interface,
                " has no command '",
                command,
                "'",
                writer,
            )
        }
        PlanFault::NoPath { interface, command } => {
            let (interface, command) = (interface.as_str(), command.as_str());
            say_five(
                "what is selected for ",
                interface,
                " has no path in its command '",
                command,
                "'",
                writer,
            )
        }
        PlanFault::Loop { interface, command } => {
            let (interface, command) = (interface.as_str(), command.as_str());
            say_five(
                "what is selected for ",
                interface,
                " leads back to its command '",
                command,
                "'",
                writer,
            )
        }
        PlanFault::Bind(fault) => say_bind(fault, writer),
        PlanFault::Unbuilt { element } => {
            say_three("the element ", element.as_str(), " isn't supported", writer)
        }
        PlanFault::BadPath { text } => {
            say_three("the path '", text.as_str(), "' can't stand there", writer)
        }
        PlanFault::NoFolder { interface } => say_three(
            "what is selected for ",
            interface.as_str(),
            " has neither a path nor a digest",
            writer,
        ),
        PlanFault::Memory => Ok(()),
    }
}
