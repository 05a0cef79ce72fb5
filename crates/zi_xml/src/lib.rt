//! XML 1.0 and Namespaces in XML 1.0 as definitions: what documents are written as, what they say, and their faults.
//! Beside them stands a machine that reads documents, a character at a time, and the law that its answer is right.
//! `zi_doc` runs that machine over bytes.
//!
//! A document is a parse tree that keeps every white space and quote (specs/Syntax.antt, by the productions of XML 1.0); what
//! it means, its faults and their places are gathered along it (Meaning.antt); bytes spell a tree where they are the text of
//! some parse tree (Documents.antt). Read these three in this order. The machine (Machine.antt) is named by no public
//! definition. Four laws about it alone (it reads each parse tree's text and says what it means; what it reads to the end is
//! some parse tree's text; each state has a way out; faults are found in the order of the bytes that show them) give the
//! answer in bytes by a theorem (specs/Longest.antt) that speaks of any such machine.
#![tactic(auto)]

mod laws;

pub use laws::{answers_are_right, one_meaning};
