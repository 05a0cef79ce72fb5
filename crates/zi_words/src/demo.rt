//! The words of `demo`.

ghost use Rattle.std.specs.Prelude.{MatchResult};
ghost use Rattle.zi_words.specs.Demo.{AsksDemo};
ghost use Rattle.zi_words.specs.Refused.{Refused};

use crate::arguments::demo_number;
use crate::refusal::Refusal;
use crate::request::Request;
use crate::store::ended;
use zi_text::Text;

/// The request of the words behind `demo`.
pub fn demo(words: &[Text]) -> Result<Request, Refusal>
    ensures { MatchResult result (AsksDemo words.now) (Refused AsksDemo words.now) }
{
    let Some((word, behind)) = words.split_first() else {
        return Err(Refusal::Left(0));
    };
    let Some(n) = demo_number(word.as_str()) else {
        return Err(Refusal::Left(words.len()));
    };
    ended(Request::Demo { n }, behind)
}
