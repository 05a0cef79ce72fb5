//! Fetching: what is selected and isn't there is made of what the web has, and added to the store under its digest. Packages of the
//! operating system aren't fetched: where one is selected that isn't installed, nothing is.
//! `fetch_all` is the stage, `download` the command; `Stored` are the digest names that are known to be there. Contracts say
//! which selections are fetched, in the order of the document, and what became of web and shelf (specs/Fetching.antt).
//!
//! `fetching` has the loop over the selections, `item` one of them (a tree by `zi_recipe`, added by `zi_adding`), `stored`
//! the names, `unmade` the outcomes, `downloading` the command. specs/Known.antt says what counts as there, Download.antt
//! what the command comes to.
#![tactic(auto)]

mod downloading;
mod fetching;
mod item;
mod stored;
mod unmade;

pub use downloading::download;
pub use fetching::fetch_all;
pub use stored::Stored;
pub use unmade::unadded;
