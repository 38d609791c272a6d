//! Rows that are remembered, changed and restored (DWARF 5 section 6.4.2.4), with room on the stack and on the heap.
use crate::sections::{ONE_FDE, at};
use framehop_cfi::context::UnwindContext;
use framehop_cfi::entry::{UnwindSection, UnwindSectionType};
use framehop_cfi::read_error::ReadError;
use framehop_cfi::rule::{CfaRule, Register, RegisterRule};
use framehop_cfi::storage::{StoreOnHeap, StoreOnStack, UnwindContextStorage};
use std::alloc::{AllocError, Global};
use std::test::Fail;

/// The CIE of `ONE_FDE`, by which the CFA is register 7 plus 8 and register 16 lies at the CFA less 8, and an FDE for 0x1000
/// to 0x1020 with these instructions.
fn with_instructions(alloc: Global, instructions: &[u8]) -> Result<Vec<u8>, AllocError> {
    let mut data = Vec::from_slice(alloc, &ONE_FDE[..24])?;
    let Ok(length) = u32::try_from(13 + instructions.len()) else {
        return Err(AllocError);
    };
    data.extend_from_slice(&length.to_le_bytes())?;
    data.extend_from_slice(&[0x1c, 0, 0, 0, 0xe0, 0xef, 0xff, 0xff, 0x20, 0, 0, 0, 0])?;
    data.extend_from_slice(instructions)?;
    Ok(data)
}

/// A CFA, by its register and offset, and the registers that have a rule, each at an offset from the CFA, in their order.
type Row = (u16, i64, &'static [(u16, i64)]);

/// Instructions, and the rows of 0x1000 and of 0x1001.
type Restored = (&'static [u8], Row, Row);

const RESTORED: [Restored; 11] = [
    // `DW_CFA_offset` of a register that has no rule
    (
        &[0x0a, 0x86, 0x02, 0x41, 0x0b],
        (7, 8, &[(16, -8), (6, -16)]),
        (7, 8, &[(16, -8)]),
    ),
    // of one that has a rule, twice
    (
        &[0x86, 0x02, 0x0a, 0x86, 0x03, 0x86, 0x04, 0x41, 0x0b],
        (7, 8, &[(16, -8), (6, -32)]),
        (7, 8, &[(16, -8), (6, -16)]),
    ),
    // `DW_CFA_restore` of a register to which the CIE gives no rule: the rule comes back to its place
    (
        &[0x83, 0x03, 0x86, 0x04, 0x8c, 0x05, 0x0a, 0xc6, 0x41, 0x0b],
        (7, 8, &[(16, -8), (3, -24), (12, -40)]),
        (7, 8, &[(16, -8), (3, -24), (6, -32), (12, -40)]),
    ),
    // and the register is given a rule once more
    (
        &[0x83, 0x03, 0x86, 0x04, 0x0a, 0xc3, 0x83, 0x05, 0x41, 0x0b],
        (7, 8, &[(16, -8), (6, -32), (3, -40)]),
        (7, 8, &[(16, -8), (3, -24), (6, -32)]),
    ),
    // all rules are taken away, but for that of the CIE, which is changed and restored
    (
        &[
            0x83, 0x03, 0x86, 0x04, 0x90, 0x05, 0x0a, 0xc6, 0xd0, 0xc3, 0x41, 0x0b,
        ],
        (7, 8, &[(16, -8)]),
        (7, 8, &[(16, -40), (3, -24), (6, -32)]),
    ),
    // `DW_CFA_restore` of a register that has no rule
    (
        &[0x0a, 0xc6, 0x86, 0x02, 0x41, 0x0b],
        (7, 8, &[(16, -8), (6, -16)]),
        (7, 8, &[(16, -8)]),
    ),
    // `DW_CFA_def_cfa_offset` and `DW_CFA_def_cfa_register`
    (
        &[0x0a, 0x0e, 0x10, 0x0d, 0x06, 0x41, 0x0b],
        (6, 16, &[(16, -8)]),
        (7, 8, &[(16, -8)]),
    ),
    // a row that is remembered while another is
    (
        &[0x0a, 0x86, 0x02, 0x0e, 0x10, 0x0a, 0x83, 0x03, 0x41, 0x0b],
        (7, 16, &[(16, -8), (6, -16), (3, -24)]),
        (7, 16, &[(16, -8), (6, -16)]),
    ),
    // and both are restored
    (
        &[0x0a, 0x86, 0x02, 0x0a, 0x86, 0x03, 0x0b, 0x41, 0x0b],
        (7, 8, &[(16, -8), (6, -16)]),
        (7, 8, &[(16, -8)]),
    ),
    // two that have the same rules
    (
        &[0x86, 0x02, 0x0a, 0x0a, 0x86, 0x03, 0x0b, 0x41, 0x0b],
        (7, 8, &[(16, -8), (6, -16)]),
        (7, 8, &[(16, -8), (6, -16)]),
    ),
    // and a rule is set after each is restored
    (
        &[0x0a, 0x0a, 0x86, 0x03, 0x0b, 0x86, 0x05, 0x41, 0x0b],
        (7, 8, &[(16, -8), (6, -40)]),
        (7, 8, &[(16, -8)]),
    ),
];

/// Whether a context's row is this one.
fn has_row<S: UnwindContextStorage>(context: &UnwindContext<S>, row: Row) -> bool {
    let (register, offset, rules) = row;
    let register = Register(register);
    let found = context.row().registers();
    *context.row().cfa() == CfaRule::RegisterAndOffset { register, offset }
        && found.len() == rules.len()
        && found.iter().zip(rules).all(|(entry, rule)| {
            entry.0 == Register(rule.0) && entry.1 == RegisterRule::Offset(rule.1)
        })
}

/// Whether the rows of 0x1000 and 0x1001 are those, each made by itself, and both one after another.
fn are_restored<S: UnwindContextStorage>(
    alloc: Global,
    restored: Restored,
) -> Result<bool, ReadError> {
    let (instructions, before, after) = restored;
    let data = with_instructions(alloc, instructions)?;
    let section = UnwindSection::new(&data, UnwindSectionType::EhFrame, &at(0x2000));
    let fde = section.fde_from_offset(24)?;
    let mut context = UnwindContext::<S>::new_in(alloc)?;
    let mut are_rows = true;
    for (address, row) in [(0x1000, before), (0x1001, after), (0x1000, before)] {
        context.row_for_address(&section, &fde, address)?;
        are_rows = are_rows && has_row(&context, row);
    }
    let mut cursor = context.begin_rows(&section, &fde)?;
    for row in [before, after] {
        cursor = context.next_row(&section, &fde, cursor)?;
        are_rows = are_rows && has_row(&context, row);
    }
    Ok(are_rows)
}

#[test]
fn restores_rows(rt: HostRuntime) -> Result<(), Fail> {
    for restored in RESTORED {
        assert_eq!(rt; are_restored::<StoreOnStack>(rt.alloc(), restored)?, true);
        assert_eq!(rt; are_restored::<StoreOnHeap>(rt.alloc(), restored)?, true);
    }
    Ok(())
}
