//! The items of the crates below under the paths that they have in framehop, each named once.
use framehop::aarch64::arch::ArchAarch64;
use framehop::aarch64::cache::CacheAarch64;
use framehop::aarch64::unwind_rule::UnwindRuleAarch64;
use framehop::aarch64::unwinder::UnwinderAarch64;
use framehop::aarch64::unwindregs::{PtrAuthMask, UnwindRegsAarch64};
use framehop::add_signed::{checked_add_signed, wrapping_add_signed};
use framehop::arch::Arch;
use framehop::cache::{AllocationPolicy, Cache, MayAllocateDuringUnwind};
use framehop::code_address::FrameAddress;
use framehop::display_utils::HexNum;
use framehop::dwarf::{
    BaseAddresses, CfaRule, DwarfCfiIndex, DwarfCfiIndexError, DwarfUnwindRegs, DwarfUnwinder,
    DwarfUnwinderError, DwarfUnwinding, EvaluationStorage, Expression, ReadError, Register,
    RegisterRule, SectionBaseAddresses, StoreOnHeap, StoreOnStack, UnwindContext,
    UnwindContextStorage, UnwindSectionType, UnwindTableRow, eval_cfa_rule, eval_register_rule,
};
use framehop::error::Error;
use framehop::instruction_analysis::InstructionAnalysis;
use framehop::macho::{
    CompactUnwindInfoUnwinder, CompactUnwindInfoUnwinderError, CompactUnwindInfoUnwinding,
    CuiUnwindResult, TextBytes,
};
use framehop::macho_unwind_info::error::CompactReadError;
use framehop::pe::{DataAtRvaRange, PeSections, PeUnwinderError, PeUnwinding};
use framehop::pe_unwind_info::epilog::FunctionEpilogInstruction;
use framehop::pe_unwind_info::operation::UnwindOperation;
use framehop::pe_unwind_info::state::UnwindState;
use framehop::rule_cache::{CacheStats, RuleCache};
use framehop::section::{ExplicitModuleSectionInfo, ModuleSectionInfo, SectionBytes};
use framehop::unwind_result::UnwindResult;
use framehop::unwind_rule::UnwindRule;
use framehop::unwinder::{Module, UnwinderError, UnwinderInternal, Unwinding};
use framehop::x86_64::arch::ArchX86_64;
use framehop::x86_64::cache::CacheX86_64;
use framehop::x86_64::register_ordering::{decode, encode};
use framehop::x86_64::unwind_rule::{OffsetOrPop, UnwindRuleX86_64};
use framehop::x86_64::unwinder::UnwinderX86_64;
use framehop::x86_64::unwindregs::{Reg, UnwindRegsX86_64};
use framehop::{Generations, aarch64, generations, x86_64};
use std::alloc::Global;
use std::marker::PhantomData;

/// Names a type.
fn named<T>() {}

/// Names the traits of an architecture.
fn unwinds<A>()
where
    A: Arch
        + InstructionAnalysis
        + DwarfUnwinding
        + CompactUnwindInfoUnwinding
        + PeUnwinding
        + Unwinding,
{
    named::<(A::UnwindRegs, A::UnwindRule)>();
    named::<CompactUnwindInfoUnwinder<'_, A>>();
    named::<DwarfUnwinder<'_, A, StoreOnHeap>>();
    named::<UnwinderInternal<Vec<u8>, A, MayAllocateDuringUnwind>>();
}

/// Names the traits of rules and registers.
fn runs<R: UnwindRule, G: DwarfUnwindRegs>() {
    named::<(RuleCache<R>, UnwindResult<R>, CuiUnwindResult<R>)>();
    named::<(Cache<R, MayAllocateDuringUnwind>, G)>();
}

/// Names the traits of storages.
fn stores<P: AllocationPolicy, S: UnwindContextStorage + EvaluationStorage>() {
    named::<(UnwindContext<S>, UnwindTableRow<S>, PhantomData<P>)>();
}

/// Names the traits of sections.
fn lends<D: SectionBytes, I: ModuleSectionInfo<D>>() {
    named::<
        (
            Module<D>,
            DataAtRvaRange<D>,
            PeSections<'_, D>,
            PhantomData<I>,
        ),
    >();
}

/// Names the trait of registers and stack that PE unwind info is resolved over.
fn resolves<S: UnwindState>() {
    named::<(S, FunctionEpilogInstruction, UnwindOperation, OffsetOrPop)>();
}

/// Names each item.
fn name_each() {
    unwinds::<ArchAarch64>();
    unwinds::<ArchX86_64>();
    runs::<UnwindRuleAarch64, UnwindRegsAarch64>();
    runs::<UnwindRuleX86_64, UnwindRegsX86_64>();
    stores::<MayAllocateDuringUnwind, StoreOnHeap>();
    stores::<MayAllocateDuringUnwind, StoreOnStack>();
    lends::<Vec<u8>, ExplicitModuleSectionInfo<Vec<u8>>>();
    named::<
        (
            CacheAarch64,
            CacheX86_64,
            CacheStats,
            Generations,
            generations::Generations,
        ),
    >();
    named::<
        (
            UnwinderAarch64<Vec<u8>>,
            UnwinderX86_64<Vec<u8>>,
            PtrAuthMask,
            TextBytes<'_>,
        ),
    >();
    named::<
        (
            Error,
            UnwinderError,
            DwarfUnwinderError,
            DwarfCfiIndexError,
            PeUnwinderError,
        ),
    >();
    named::<
        (
            ReadError,
            CompactReadError,
            CompactUnwindInfoUnwinderError,
            DwarfCfiIndex,
        ),
    >();
    named::<
        (
            BaseAddresses,
            SectionBaseAddresses,
            UnwindSectionType,
            Expression,
        ),
    >();
    named::<(FrameAddress, HexNum<u64>)>();
}

/// Whether sums are checked and wrap.
fn adds() -> bool {
    checked_add_signed(5u32, -6).is_none() && wrapping_add_signed(5u64, -6) == u64::MAX
}

/// Whether an ordering of registers is decoded.
fn decodes() -> bool {
    let registers = [Reg::RBX, Reg::RBP];
    let (count, ordering) = encode(&registers).unwrap_or((0, 0));
    decode(count, ordering).as_slice() == registers.as_slice()
}

/// Whether the rule of a CFA and that of a register are evaluated.
fn evaluates(alloc: Global) -> bool {
    let regs = UnwindRegsAarch64::new(0x1004e0830, 0x20, 0x30);
    let cfa = CfaRule::RegisterAndOffset {
        register: Register(31),
        offset: 16,
    };
    let mut read = |address: u64| -> Result<u64, ()> { Ok(address) };
    eval_cfa_rule::<UnwindRegsAarch64, StoreOnHeap>(alloc, &[], &cfa, &regs) == Ok(Some(0x30))
        && eval_register_rule::<UnwindRegsAarch64, StoreOnStack, _>(
            alloc,
            &[],
            Some(RegisterRule::Offset(-8)),
            0x30,
            7,
            &regs,
            &mut read,
        ) == Ok(Some(0x28))
}

/// Whether code without a prologue or an epilogue has no rule, and a return has one.
fn analyses() -> bool {
    let returned = x86_64::instruction_analysis::unwind_rule_from_detected_epilogue(&[0xc3], 0);
    aarch64::instruction_analysis::unwind_rule_from_detected_prologue(&[], &[]).is_none()
        && aarch64::instruction_analysis::unwind_rule_from_detected_epilogue(&[], 0).is_none()
        && x86_64::instruction_analysis::unwind_rule_from_detected_prologue(&[0xc3], 0).is_none()
        && returned == Some(UnwindRuleX86_64::JustReturn)
}

#[test]
fn each_item_has_its_path(rt: HostRuntime) {
    name_each();
    assert!(rt; adds());
}

#[test]
fn calls_of_the_crates_below(rt: HostRuntime) {
    assert!(rt; decodes() && evaluates(rt.alloc()) && analyses());
}
