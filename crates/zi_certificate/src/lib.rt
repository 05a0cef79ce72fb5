//! What a certificate of a choice and a refutation have to be, and what they show, whoever made them. These are definitions
//! for contracts: the solver makes certificates and refutations, and the checker says whether others are right; neither
//! stands on the other.
//!
//! specs/Certificates.antt lists the blocks that a choice asks for, place by place of its walk (`asked_from`), and compares a
//! certificate's blocks with them one by one (`AreBlocks`). The law on certificates (Laws.antt): another valid choice that
//! doesn't rank later differs from this one first at a place where it has a candidate that was passed over, and the model
//! that it is part of makes all true that the block there assumes.
#![tactic(auto)]

pub mod laws;
