//! Unwinding by DWARF call frame information: what reads it, evaluates its rows and searches it.
pub use framehop_bytes::{bytes, place};
pub use framehop_cfi::context::UnwindContext;
pub use framehop_cfi::entry::{
    CommonInformationEntry, EntryHead, FrameDescriptionEntry, UnwindSection, UnwindSectionType,
};
pub use framehop_cfi::header::{EhFrameHdr, TableLayout};
pub use framehop_cfi::instruction::CallFrameInstruction;
pub use framehop_cfi::pointer::{BaseAddresses, SectionBaseAddresses};
pub use framehop_cfi::read_error::ReadError;
pub use framehop_cfi::row::UnwindTableRow;
pub use framehop_cfi::rule::{CfaRule, Expression, Register, RegisterRule};
pub use framehop_cfi::storage::{StorageLimits, StoreOnHeap, StoreOnStack, UnwindContextStorage};
pub use framehop_cfi::{
    augmentation, context, entry, extent, header, instruction, leb128, numbers, pointer,
    read_error, row, rule, storage,
};
pub use framehop_dwarf::bases::base_addresses_for_sections;
pub use framehop_dwarf::dwarf::{
    DwarfUnwinderError, DwarfUnwinding, eval_cfa_rule, eval_register_rule,
};
pub use framehop_dwarf::evaluation::{DwarfUnwindRegs, EvaluationStorage};
pub use framehop_dwarf::index::{DwarfCfiIndex, DwarfCfiIndexError};
pub use framehop_dwarf::unwinder::DwarfUnwinder;
pub use framehop_dwarf::{bases, evaluation, index, operation, unwinder};
