//! The laws of proofs: each is called once.
use zi_proof::laws;

#[test]
fn laws_are_called() {
    laws::lemmas_are_true();
    laws::blocks_exclude();
    laws::a_text_has_one_certificate();
}
