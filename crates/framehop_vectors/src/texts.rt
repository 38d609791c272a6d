//! The texts of errors, and the constants of the allocation policies.
use framehop::session::SessionError;
use framehop::{
    AllocationPolicy, MayAllocateDuringUnwind, ModuleListError, MustNotAllocateDuringUnwind,
};
use std::alloc::Global;

/// Whether an error of the list of modules has this text.
fn prints_module_list_error(alloc: Global, error: ModuleListError, text: &str) -> bool {
    match error.to_string(alloc) {
        Ok(printed) => printed.as_str() == text,
        Err(_) => false,
    }
}

/// Whether an error of sessions has this text.
fn prints_session_error(alloc: Global, error: SessionError, text: &str) -> bool {
    match error.to_string(alloc) {
        Ok(printed) => printed.as_str() == text,
        Err(_) => false,
    }
}

/// Whether each error has its text.
fn prints_each(alloc: Global) -> bool {
    for (error, text) in [
        (ModuleListError::OutOfMemory, "Out of memory"),
        (
            ModuleListError::GenerationsExhausted,
            "Generations exhausted",
        ),
    ] {
        if !prints_module_list_error(alloc, error, text) {
            return false;
        }
    }
    for (error, text) in [
        (SessionError::OutOfMemory, "Out of memory"),
        (SessionError::NoSuchUnwinder, "No such unwinder"),
        (SessionError::NoSuchCache, "No such cache"),
        (SessionError::GenerationsExhausted, "Generations exhausted"),
    ] {
        if !prints_session_error(alloc, error, text) {
            return false;
        }
    }
    true
}

#[test]
fn prints_each_refusal(rt: HostRuntime) {
    assert!(rt; prints_each(rt.alloc()));
}

#[test]
fn one_policy_may_allocate(rt: HostRuntime) {
    assert!(rt; MayAllocateDuringUnwind::MAY_ALLOCATE);
    assert!(rt; !MustNotAllocateDuringUnwind::MAY_ALLOCATE);
}
