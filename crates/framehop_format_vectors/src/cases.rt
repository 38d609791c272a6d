//! Steps of the worked examples on x86_64: what each gives, and where its reads fail.
use crate::sections::{
    ENDLESS_CHAIN, ENDLESS_EXPRESSION, FRAME_REGISTER, HEADER, LINKAGE_TABLE, LONG_LENGTH,
    MACHINE_FRAME, NO_LIST_OF_REGISTERS, ONE_FDE, OTHER_OFFSETS, PUSHES_RBX, RESERVED_LENGTH,
    SAVES_RBP, Sections, TEXT, TEXT_WITH_FRAME_REGISTER, THREE_FDES, UNSORTED_HEADER, UNWIND_INFO,
    VALUE_OF_RBP,
};
use crate::steps::{STACK, Stack};
use framehop::Error;

/// What a step gives, and rsp, rbp and rbx after it.
pub(crate) type Given = (Result<Option<u64>, Error>, [u64; 3]);

/// A step through a module with these sections.
#[derive(Clone, Copy)]
pub(crate) struct Case {
    pub(crate) sections: Sections,
    pub(crate) is_caller: bool,
    pub(crate) lookup: u64,
    pub(crate) sp: u64,
    pub(crate) bp: u64,
    pub(crate) stack: Stack,
    pub(crate) given: Given,

    /// The address that can't be read where all reads fail, then where only the first does, only the second and so on.
    pub(crate) refused: &'static [u64],

    /// Whether the same step hits the cache.
    pub(crate) is_stored: bool,
}

/// A first frame that is the caller's but for the return address.
pub(crate) const RETURN_ADDRESS_ON_TOP: Case = Case {
    sections: Sections::EhFrame(ONE_FDE),
    is_caller: false,
    lookup: 0x1000,
    sp: 0x10,
    bp: 0x20,
    stack: STACK,
    given: (Ok(Some(0x100300)), [0x18, 0x20, 0]),
    refused: &[0x10, 0x10],
    is_stored: true,
};

/// A frame that is left by the frame pointer.
const BY_FRAME_POINTER: Case = Case {
    lookup: 0x1004,
    given: (Ok(Some(0x100200)), [0x30, 0x40, 0]),
    refused: &[0x20, 0x20, 0x28],
    ..RETURN_ADDRESS_ON_TOP
};

/// A first frame that has pushed rbp.
const PUSHED_RBP: Case = Case {
    lookup: 0x1001,
    given: (Ok(Some(4)), [0x20, 0x100300, 0]),
    refused: &[0x10, 0x10, 0x18],
    ..RETURN_ADDRESS_ON_TOP
};

/// Steps by call frame information. A rule is stored before it is run.
pub(crate) static CALL_FRAMES: [Case; 7] = [
    RETURN_ADDRESS_ON_TOP,
    Case {
        is_caller: true,
        ..RETURN_ADDRESS_ON_TOP
    },
    PUSHED_RBP,
    BY_FRAME_POINTER,
    Case {
        is_caller: true,
        lookup: 0x1020,
        ..BY_FRAME_POINTER
    },
    Case {
        lookup: 0xfff,
        ..BY_FRAME_POINTER
    },
    Case {
        sections: Sections::EhFrame(OTHER_OFFSETS),
        sp: 0x100,
        bp: 0x200,
        stack: Stack {
            base: 0x210,
            words: &[0x900, 0x5000],
        },
        given: (Ok(Some(0x5000)), [0x220, 0x900, 0]),
        refused: &[0x210, 0x210, 0x218],
        ..RETURN_ADDRESS_ON_TOP
    },
];

/// The same FDE by a header, each of whose rows has a rule of its own. An address below it is not covered.
pub(crate) static BY_HEADER: [Case; 5] = [
    Case {
        sections: WITH_HEADER,
        ..RETURN_ADDRESS_ON_TOP
    },
    Case {
        sections: WITH_HEADER,
        ..PUSHED_RBP
    },
    Case {
        sections: WITH_HEADER,
        ..BY_FRAME_POINTER
    },
    Case {
        sections: WITH_HEADER,
        is_caller: true,
        lookup: 0x1020,
        ..BY_FRAME_POINTER
    },
    Case {
        sections: WITH_HEADER,
        lookup: 0xfff,
        ..RETURN_ADDRESS_ON_TOP
    },
];

const WITH_HEADER: Sections = Sections::EhFrameHdr(ONE_FDE, HEADER);

/// A first frame at the start of a function with compact unwind info.
const COMPACT: Case = Case {
    sections: Sections::UnwindInfo(UNWIND_INFO),
    lookup: 0x101000,
    ..RETURN_ADDRESS_ON_TOP
};

/// A caller's frame that has pushed rbx and taken 0x20 bytes.
const PUSHED_RBX: Case = Case {
    sections: Sections::Pe(0x2008, PUSHES_RBX, TEXT),
    is_caller: true,
    lookup: 0x1006,
    sp: 0x100,
    bp: 0x200,
    stack: Stack {
        base: 0x120,
        words: &[0x77, 0x5000],
    },
    given: (Ok(Some(0x5000)), [0x130, 0x200, 0x77]),
    refused: &[0x120, 0x120, 0x128],
    is_stored: true,
};

/// A caller's frame that has pushed rbx.
const RBX_ON_TOP: Case = Case {
    lookup: 0x1002,
    stack: Stack {
        base: 0x100,
        words: &[0x77, 0x5000],
    },
    given: (Ok(Some(0x5000)), [0x110, 0x200, 0x77]),
    refused: &[0x100, 0x100, 0x108],
    ..PUSHED_RBX
};

/// Steps by other unwind data.
pub(crate) static OTHER_UNWIND_DATA: [Case; 9] = [
    COMPACT,
    Case {
        is_caller: true,
        given: (Ok(Some(0x100200)), [0x30, 0x40, 0]),
        refused: &[0x20, 0x20, 0x28],
        ..COMPACT
    },
    Case {
        sections: Sections::UnwindInfo(SAVES_RBP),
        lookup: 0x101001,
        given: (Ok(Some(0x40)), [0x28, 4, 0]),
        refused: &[0x18, 0x18, 0x20],
        ..COMPACT
    },
    Case {
        sections: Sections::UnwindInfo(NO_LIST_OF_REGISTERS),
        lookup: 0x101001,
        ..BY_FRAME_POINTER
    },
    PUSHED_RBX,
    Case {
        is_caller: false,
        lookup: 0x103a,
        ..PUSHED_RBX
    },
    RBX_ON_TOP,
    Case {
        lookup: 0x1001,
        given: (Ok(Some(0x77)), [0x108, 0x200, 0]),
        refused: &[0x100, 0x100],
        ..RBX_ON_TOP
    },
    Case {
        sections: Sections::Pe(0x2010, ENDLESS_CHAIN, TEXT),
        is_caller: true,
        lookup: 0x1006,
        ..BY_FRAME_POINTER
    },
];

/// An entry of a linkage table.
const IN_TABLE: Case = Case {
    sections: Sections::EhFrame(LINKAGE_TABLE),
    lookup: 0x100b,
    sp: 0x100,
    bp: 0x200,
    stack: Stack {
        base: 0x108,
        words: &[0x2000],
    },
    given: (Ok(Some(0x2000)), [0x110, 0x200, 0]),
    refused: &[0x200],
    is_stored: false,
    ..RETURN_ADDRESS_ON_TOP
};

/// Values that are computed are not stored, and neither is the frame pointer's rule, which is run where they can't be.
/// Where the word of a return address can't be read, the word below the CFA is read, which is the same one here.
pub(crate) static COMPUTED_VALUES: [Case; 5] = [
    IN_TABLE,
    Case {
        sections: Sections::EhFrame(VALUE_OF_RBP),
        lookup: 0x1000,
        given: (Ok(Some(0x2000)), [0x110, 0x118, 0]),
        ..IN_TABLE
    },
    Case {
        sections: Sections::EhFrame(ENDLESS_EXPRESSION),
        stack: Stack {
            base: 0x200,
            words: &[0x300, 0x5000],
        },
        given: (Ok(Some(0x5000)), [0x210, 0x300, 0]),
        refused: &[0x200, 0x200, 0x208],
        ..IN_TABLE
    },
    Case {
        sections: Sections::Pe(0x2006, MACHINE_FRAME, TEXT),
        stack: Stack {
            base: 0x100,
            words: &[0x6000, 0, 0, 0x900],
        },
        given: (Ok(Some(0x6000)), [0x900, 0x200, 0]),
        refused: &[0x200, 0x200, 0x200],
        is_stored: false,
        ..PUSHED_RBX
    },
    Case {
        sections: Sections::Pe(0x2004, FRAME_REGISTER, TEXT_WITH_FRAME_REGISTER),
        is_caller: false,
        lookup: 0x103a,
        stack: Stack {
            base: 0x220,
            words: &[0x77, 0x5000],
        },
        given: (Ok(Some(0x5000)), [0x230, 0x200, 0x77]),
        refused: &[0x200, 0x200, 0x200],
        is_stored: false,
        ..PUSHED_RBX
    },
];

/// A first frame at the start of a function, by the frame pointer.
const AT_START: Case = Case {
    lookup: 0x1000,
    ..BY_FRAME_POINTER
};

/// An expression without an end, over a stack that lacks the words of the frame pointer.
const ENDLESS: Case = Case {
    sections: Sections::EhFrame(ENDLESS_EXPRESSION),
    stack: STACK,
    given: (Err(Error::CouldNotReadStack(0x200)), [0x100, 0x200, 0]),
    refused: &[0x200, 0x200],
    ..IN_TABLE
};

/// A chain that never ends, an expression that never ends, a table that is not sorted, in which 0x2500 takes the first
/// row, and lengths that no entry has.
pub(crate) static WITHOUT_END_OR_ORDER: [Case; 5] = [
    Case {
        sections: Sections::Pe(0x2010, ENDLESS_CHAIN, ""),
        is_caller: true,
        lookup: 0x1006,
        ..AT_START
    },
    ENDLESS,
    Case {
        sections: Sections::EhFrameHdr(THREE_FDES, UNSORTED_HEADER),
        lookup: 0x2500,
        ..RETURN_ADDRESS_ON_TOP
    },
    Case {
        sections: Sections::EhFrame(RESERVED_LENGTH),
        ..AT_START
    },
    Case {
        sections: Sections::EhFrame(LONG_LENGTH),
        ..AT_START
    },
];

/// A step through a module whose section at a place is cut off at each length, and what it gives at some lengths.
#[derive(Clone, Copy)]
pub(crate) struct CutOff {
    pub(crate) case: Case,
    pub(crate) place: usize,
    pub(crate) whole: &'static [(usize, Given)],
}

/// The section has its FDE where it is cut off after that, or not at all. Info that is cut off is refused, and its end
/// of the stack comes from the frame pointer.
pub(crate) static CUT_OFF: [CutOff; 3] = [
    CutOff {
        case: Case {
            refused: &[],
            ..AT_START
        },
        place: 0,
        whole: &[
            (52, (Ok(Some(0x100300)), [0x18, 0x20, 0])),
            (56, (Ok(Some(0x100300)), [0x18, 0x20, 0])),
        ],
    },
    CutOff {
        case: Case {
            sections: Sections::UnwindInfo(UNWIND_INFO),
            lookup: 0x101000,
            refused: &[],
            ..AT_START
        },
        place: 0,
        whole: &[(68, (Ok(Some(0x100300)), [0x18, 0x20, 0]))],
    },
    CutOff {
        case: Case {
            sections: Sections::Pe(0x2008, PUSHES_RBX, ""),
            is_caller: true,
            lookup: 0x1006,
            bp: 0,
            given: (Ok(None), [0x10, 0, 0]),
            refused: &[],
            ..RETURN_ADDRESS_ON_TOP
        },
        place: 1,
        whole: &[(8, (Ok(Some(6)), [0x40, 0, 5]))],
    },
];

/// A step by each kind of unwind data, and two by expressions.
pub(crate) static EXAMPLES: [Case; 6] = [
    COMPACT,
    IN_TABLE,
    PUSHED_RBP,
    Case {
        sections: WITH_HEADER,
        ..BY_FRAME_POINTER
    },
    PUSHED_RBX,
    ENDLESS,
];
