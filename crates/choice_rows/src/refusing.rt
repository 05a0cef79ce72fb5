//! Why there is no answer: the feeds, the constraints or the proof text are refused, or memory is.
use zi_build::BuildFault;
use zi_lines::Sheet;
use zi_proof::ProofFault;
use zi_universe::LoadFault;

/// Adds that feeds are refused.
pub(crate) fn put_load_fault(out: &mut Sheet, fault: &LoadFault) {
    match fault {
        LoadFault::Memory => out.lose(),
        _ => out.put("refused"),
    }
}

/// Adds that constraints are refused.
pub(crate) fn put_build_fault(out: &mut Sheet, fault: &BuildFault) {
    match fault {
        BuildFault::Memory => out.lose(),
        BuildFault::TooLarge { .. } => out.put("refused"),
    }
}

/// Adds that a proof text is refused.
pub(crate) fn put_proof_fault(out: &mut Sheet, fault: &ProofFault) {
    match fault {
        ProofFault::Memory => out.lose(),
        ProofFault::Bad { .. } => out.put("refused"),
    }
}
