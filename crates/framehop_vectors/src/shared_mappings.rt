//! Whether clones share mappings.
use framehop_processes::SharedMappings;
use std::alloc::{AllocError, Global};

/// Whether mappings are shared before they are cloned, and whether their clone is.
fn are_shared(alloc: Global) -> Result<(bool, bool), AllocError> {
    let mappings = SharedMappings::new(alloc)?;
    let before = mappings.is_shared();
    let clone = mappings.clone()?;
    Ok((before, clone.is_shared()))
}

#[test]
fn a_clone_shares_its_mappings(rt: HostRuntime) {
    assert!(rt; are_shared(rt.alloc()) == Ok((false, true)));
}
