//! The words of the commands on selections in a file.

ghost use Rattle.std.specs.Prelude.{MatchResult};
ghost use Rattle.zi_words.specs.declared.request.Request.TheVariants as request;
ghost use Rattle.zi_words.specs.Launch.{AsksFile, AsksLaunch, AsksShow};
ghost use Rattle.zi_words.specs.Words.{AsksScript};
ghost use Rattle.zi_words.specs.Refused.{Refused};

use crate::loader::Loader;
use crate::loading::{copied, loading};
use crate::refusal::Refusal;
use crate::request::Request;
use crate::store::ended;
use std::alloc::Global;
use zi_text::Text;

/// The request of the words behind `launch`.
pub fn launch(alloc: Global, words: &[Text]) -> Result<Request, Refusal>
    ensures { MatchResult result (AsksLaunch words.now) (Refused AsksLaunch words.now) }
{
    let Some((file, behind)) = words.split_first() else {
        return Err(Refusal::Left(0));
    };
    let file = file.copy(alloc)?;
    let user = copied(alloc, behind)?;
    Ok(Request::Launch { file, user })
}

/// The request of the words behind `show`.
pub fn show(alloc: Global, words: &[Text]) -> Result<Request, Refusal>
    ensures { MatchResult result (AsksShow words.now) (Refused AsksShow words.now) }
{
    let Some((word, behind)) = words.split_first() else {
        return Err(Refusal::Left(0));
    };
    let file = word.copy(alloc)?;
    ended(Request::Show { file }, behind)
}

// The request of the words behind `script --launch`.
fn script_file(alloc: Global, words: &[Text]) -> Result<Request, Refusal>
    ensures { MatchResult result (AsksFile request.ScriptLaunch words.now) (Refused (AsksFile request.ScriptLaunch) words.now) }
{
    let Some((file, behind)) = words.split_first() else {
        return Err(Refusal::Left(0));
    };
    let file = file.copy(alloc)?;
    let user = copied(alloc, behind)?;
    Ok(Request::ScriptLaunch { file, user })
}

/// The request of the words behind `script`.
pub fn script(alloc: Global, words: &[Text]) -> Result<Request, Refusal>
    ensures { MatchResult result (AsksScript words.now) (Refused AsksScript words.now) }
{
    match words.split_first() {
        None => loading(alloc, Loader::Script, words),
        Some((word, behind)) => {
            if word.as_str() == "--launch" {
                script_file(alloc, behind)
            } else {
                loading(alloc, Loader::Script, words)
            }
        }
    }
}
