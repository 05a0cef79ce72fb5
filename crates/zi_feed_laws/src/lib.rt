//! What holds of feeds that are read from documents: their implementations stand in the order of the document. The law stands over the
//! definitions that `zi_doc::read` and `zi_feed::Feed::from_tree` cite.
#![tactic(auto)]

mod laws;

pub use laws::impls_of_documents_rise;
