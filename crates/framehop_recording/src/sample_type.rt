//! The fields of a sample as bits of an attribute's `sample_type`, by their names without PERF_SAMPLE_.
//!
//! Source: Linux, `include/uapi/linux/perf_event.h`, `enum perf_event_sample_format`.

pub(crate) const IP: u64 = 0x1;

pub(crate) const TID: u64 = 0x2;

pub(crate) const TIME: u64 = 0x4;

pub(crate) const ADDR: u64 = 0x8;

pub(crate) const READ: u64 = 0x10;

pub(crate) const CALLCHAIN: u64 = 0x20;

pub(crate) const ID: u64 = 0x40;

pub(crate) const CPU: u64 = 0x80;

pub(crate) const PERIOD: u64 = 0x100;

pub(crate) const STREAM_ID: u64 = 0x200;

pub(crate) const RAW: u64 = 0x400;

pub(crate) const BRANCH_STACK: u64 = 0x800;

pub(crate) const REGS_USER: u64 = 0x1000;

pub(crate) const STACK_USER: u64 = 0x2000;

pub(crate) const IDENTIFIER: u64 = 0x10000;
