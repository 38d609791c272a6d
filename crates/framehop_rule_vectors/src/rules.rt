//! The CFA by an expression, the value of a register by a rule, and expressions that do not lie in the bytes.
use framehop_cfi::read_error::ReadError;
use framehop_cfi::rule::{CfaRule, Expression, Register, RegisterRule};
use framehop_cfi::storage::{StoreOnHeap, StoreOnStack};
use framehop_core::x86_64::UnwindRegsX86_64;
use framehop_dwarf::dwarf::{eval_cfa_rule, eval_register_rule};
use framehop_dwarf::evaluation::{EvaluationStorage, evaluate};
use std::alloc::Global;
use std::test::Fail;

/// The CFA in a procedure linkage table: rsp + 8, and 8 more where the last four bits of rip are at least 11.
const LINKAGE_TABLE: [u8; 11] = [
    0x77, 0x08, 0x80, 0x00, 0x3f, 0x1a, 0x3b, 0x2a, 0x33, 0x24, 0x22,
];

/// `DW_OP_lit0`, so many times.
const ZEROS: [u8; 64] = [0x30; 64];

const ONE_MORE: [u8; 65] = [0x30; 65];

/// An expression, the instruction pointer, and the CFA with room on the stack and on the heap.
type Cfa = (&'static [u8], u64, Option<u64>, Option<u64>);

const CFAS: [Cfa; 4] = [
    (&LINKAGE_TABLE, 0x100a, Some(0x108), Some(0x108)),
    (&LINKAGE_TABLE, 0x100b, Some(0x110), Some(0x110)),
    (&ZEROS, 0x1000, Some(0), Some(0)),
    (&ONE_MORE, 0x1000, None, Some(0)),
];

fn cfa_by<E: EvaluationStorage>(
    alloc: Global,
    section: &[u8],
    ip: u64,
) -> Result<Option<u64>, ReadError> {
    let regs = UnwindRegsX86_64::new(ip, 0x100, 0x200);
    let rule = CfaRule::Expression(Expression {
        start: 0,
        end: section.len(),
    });
    eval_cfa_rule::<UnwindRegsX86_64, E>(alloc, section, &rule, &regs)
}

#[test]
fn cfas_by_expressions(rt: HostRuntime) -> Result<(), Fail> {
    for (section, ip, on_stack, on_heap) in CFAS {
        assert_eq!(rt; cfa_by::<StoreOnStack>(rt.alloc(), section, ip)?, on_stack);
        assert_eq!(rt; cfa_by::<StoreOnHeap>(rt.alloc(), section, ip)?, on_heap);
    }
    Ok(())
}

/// `DW_OP_plus_uconst 8`.
const PLUS_8: [u8; 2] = [0x23, 0x08];

const WHOLE: Expression = Expression { start: 0, end: 2 };

/// Rules of a register whose value is 3, and its value in the caller, where the CFA is 0x110 and 7 lies at 0x118.
const RULES: [(Option<RegisterRule>, Option<u64>); 12] = [
    (None, None),
    (Some(RegisterRule::Undefined), None),
    (Some(RegisterRule::SameValue), Some(3)),
    (Some(RegisterRule::Offset(8)), Some(7)),
    (Some(RegisterRule::Offset(0)), None),
    (Some(RegisterRule::Offset(-0x111)), None),
    (Some(RegisterRule::ValOffset(-16)), Some(0x100)),
    (Some(RegisterRule::ValOffset(i64::MAX)), None),
    (Some(RegisterRule::Register(Register(7))), Some(0x100)),
    (Some(RegisterRule::Register(Register(0))), None),
    (Some(RegisterRule::Expression(WHOLE)), Some(7)),
    (Some(RegisterRule::ValExpression(WHOLE)), Some(0x118)),
];

fn value_by(alloc: Global, rule: Option<RegisterRule>) -> Result<Option<u64>, ReadError> {
    let regs = UnwindRegsX86_64::new(0x1000, 0x100, 0x200);
    let mut read_stack = |at: u64| if at == 0x118 { Ok(7) } else { Err(()) };
    eval_register_rule::<UnwindRegsX86_64, StoreOnHeap, _>(
        alloc,
        &PLUS_8,
        rule,
        0x110,
        3,
        &regs,
        &mut read_stack,
    )
}

#[test]
fn register_rules(rt: HostRuntime) -> Result<(), Fail> {
    for (rule, expected) in RULES {
        assert_eq!(rt; value_by(rt.alloc(), rule)?, expected);
    }
    Ok(())
}

/// Expressions that do not lie in two bytes.
const ELSEWHERE: [Expression; 4] = [
    Expression { start: 0, end: 3 },
    Expression { start: 2, end: 1 },
    Expression { start: 3, end: 3 },
    Expression {
        start: usize::MAX,
        end: 0,
    },
];

#[test]
fn expressions_elsewhere(rt: HostRuntime) -> Result<(), Fail> {
    let regs = UnwindRegsX86_64::new(0x100a, 0x100, 0x200);
    for expression in ELSEWHERE {
        let alloc = rt.alloc();
        let found = evaluate::<UnwindRegsX86_64, StoreOnHeap>(
            alloc,
            &PLUS_8,
            expression,
            &regs,
            Some(1),
        )?;
        assert_eq!(rt; found, None);
    }
    Ok(())
}
