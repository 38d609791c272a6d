//! What of memory in parts was asked for.
use framehop_memory::left_out::{LeftOut, ReadPart};
use framehop_memory::memory::{MemoryRange, ProcessMemory};
use std::alloc::{AllocError, Global};

/// A segment that was read from 0x2000 on, and one of which nothing was read.
static PARTS: [ReadPart; 2] = [
    ReadPart {
        segment: MemoryRange {
            start: 0x1000,
            size: 0x2000,
            offset: 0,
        },
        read: MemoryRange {
            start: 0x2000,
            size: 0x1000,
            offset: 0,
        },
    },
    ReadPart {
        segment: MemoryRange {
            start: 0x4000,
            size: 0x1000,
            offset: 0,
        },
        read: MemoryRange {
            start: 0x5000,
            size: 0,
            offset: 0x1000,
        },
    },
];

/// The bytes that were read.
static READ: [u8; 0x1000] = [0; 0x1000];

/// How addresses are asked for: they are noted, or memory is asked for the bytes or for the words there.
#[derive(Clone, Copy)]
enum Query {
    Noted,
    Bytes,
    Words,
}

/// Asks for addresses.
fn ask(
    alloc: Global,
    left_out: &LeftOut,
    asked: Query,
    addresses: &[u64],
) -> Result<(), AllocError> {
    let memory = ProcessMemory::of_parts(alloc, &READ, &PARTS, left_out)?;
    for address in addresses {
        match asked {
            Query::Noted => left_out.note(*address),
            Query::Bytes => {
                memory.bytes_from(*address);
            }
            Query::Words => {
                memory.word_at(*address);
            }
        }
    }
    Ok(())
}

/// Whether just these addresses are told.
fn are_told(alloc: Global, left_out: &LeftOut, told: &[u64]) -> Result<bool, AllocError> {
    Ok(left_out.asked(alloc)?.as_slice() == told)
}

/// Whether of addresses that are asked for just these are told.
fn tells(alloc: Global, asked: Query, addresses: &[u64], told: &[u64]) -> Result<bool, AllocError> {
    let left_out = LeftOut::new(alloc, &PARTS)?;
    ask(alloc, &left_out, asked, addresses)?;
    are_told(alloc, &left_out, told)
}

/// Addresses that are asked for one after another, and those that are told of them then.
static ASKED: [(&[u64], &[u64]); 6] = [
    (&[0x2000, 0x2fff], &[]),
    (&[0xfff, 0x3000, 0x5000], &[]),
    (&[0x1ff8], &[0x1ff8]),
    (&[0x4000], &[0x4000]),
    (&[0x1ff0, 0x1100, 0x1ff8], &[0x1100]),
    (&[0x4ff8, 0x1000], &[0x1000, 0x4ff8]),
];

#[test]
fn tells_what_memory_was_asked_for(rt: HostRuntime) {
    for (addresses, told) in &ASKED {
        assert!(rt; tells(rt.alloc(), Query::Noted, *addresses, *told) == Ok(true));
        assert!(rt; tells(rt.alloc(), Query::Bytes, *addresses, *told) == Ok(true));
        assert!(rt; tells(rt.alloc(), Query::Words, *addresses, *told) == Ok(true));
    }
}
