//! The registers of aarch64 that unwinding needs, and masks for pointer authentication.
ghost use Rattle.std.specs.Prelude.{◌≡◌, ◌-◌, ◌^◌};
ghost use Rattle.framehop_core.specs.Aarch64.Registers.{strip_ptr_auth, IsStripped, StandsStripped, IsMaskUpTo};

use crate::display_utils::HexNum;
use std::fmt;
use std::marker::Model;

/// The registers used for unwinding on aarch64: lr (x30), sp (x31) and fp (x29).
///
/// They come with a [`PtrAuthMask`], which strips pointer authentication bits off the return
/// address when unwinding through libraries that authenticate pointers, as the system libraries
/// of macOS do. The value of lr is always stored stripped.
#[derive(Clone, Copy, PartialEq, Eq)]
pub struct UnwindRegsAarch64 {
    lr_mask: PtrAuthMask,
    lr: u64,
    sp: u64,
    fp: u64,
}

impl Model for UnwindRegsAarch64 {
    ghost use Rattle.framehop_core.specs.Aarch64.Registers.{Registers, IsStripped};

    ghost Value = { Registers };

    ghost view = { λ r. record { lr_mask = r.lr_mask.0; lr = r.lr; sp = r.sp; fp = r.fp } };

    ghost invariant = { λ r. IsStripped r.lr_mask.0 r.lr };

    ghost inverse = { λ r. record { lr_mask = record { 0 = r.lr_mask }; lr = r.lr; sp = r.sp; fp = r.fp } };
}

/// The bits of a pointer that are its address.
///
/// An aarch64 CPU can keep an encrypted hash in the high bits of a pointer, and test it before
/// the pointer is used. A return address can be such an "authenticated" pointer: then `retab` in
/// place of `ret` returns to it. A stack walker needs the raw code address, so it strips the hash.
#[derive(Debug, Clone, Copy, PartialEq, Eq, Hash, PartialOrd, Ord)]
pub struct PtrAuthMask(pub u64);

impl PtrAuthMask {
    /// Returns a mask with all bits, which strips nothing.
    pub fn new_no_strip() -> Self
        ensures { result.0 ≡ 2 ^ 64 - 1 }
    {
        Self(u64::MAX)
    }

    /// Returns a mask for a hash of 24 bits above an address of 40 bits, as macOS arm64e appears to use.
    ///
    /// There it can be applied to every pointer: one without a hash has zeros in the top 24 bits.
    pub fn new_24_40() -> Self
        ensures { result.0 ≡ 2 ^ 40 - 1 }
    {
        Self(u64::MAX >> 24)
    }

    /// Returns a mask deduced from the highest known code address (AVMA), as an unwinder's
    /// `max_known_code_address` returns it: the leading zero bits of that address are taken to be those
    /// of the hash. The mask of the address 0 is 0.
    pub fn from_max_known_address(address: u64) -> Self
        ensures { IsMaskUpTo address result.0 }
    {
        Self(u64::MAX.checked_shr(address.leading_zeros()).unwrap_or(0))
    }

    /// Returns the pointer without the bits that the mask lacks.
    #[inline(always)]
    pub fn strip_ptr_auth(&self, ptr: u64) -> u64
        ensures bitwise { result ≡ strip_ptr_auth self.now.0 ptr }
        ensures twice_is_once { IsStripped self.now.0 result }
    {
        ptr & self.0
    }
}

impl UnwindRegsAarch64 {
    /// Returns registers whose return addresses are not stripped.
    ///
    /// # Examples
    ///
    /// ```
    /// let regs = UnwindRegsAarch64::new(0x1004e0830, 0x10, 0x20);
    /// ```
    pub fn new(lr: u64, sp: u64, fp: u64) -> Self
        ensures registers { result ≡ record { lr_mask = 2 ^ 64 - 1; lr = lr; sp = sp; fp = fp } }
        ensures stripped { StandsStripped result }
    {
        Self {
            lr_mask: PtrAuthMask::new_no_strip(),
            lr,
            sp,
            fp,
        }
    }

    /// Returns registers whose return addresses, that in `lr` among them, are stripped by the mask.
    pub fn new_with_ptr_auth_mask(
        code_ptr_auth_mask: PtrAuthMask,
        lr: u64,
        sp: u64,
        fp: u64,
    ) -> Self
        ensures registers { result ≡ record {
          lr_mask = code_ptr_auth_mask.0;
          lr = strip_ptr_auth code_ptr_auth_mask.0 lr;
          sp = sp;
          fp = fp;
        } }
        ensures stripped { StandsStripped result }
    {
        Self {
            lr_mask: code_ptr_auth_mask,
            lr: code_ptr_auth_mask.strip_ptr_auth(lr),
            sp,
            fp,
        }
    }

    /// Returns the mask that strips the value of lr.
    #[inline(always)]
    pub fn lr_mask(&self) -> PtrAuthMask
        ensures { result.0 ≡ self.now.lr_mask }
    {
        self.lr_mask
    }

    /// Returns the stack pointer.
    #[inline(always)]
    pub fn sp(&self) -> u64
        ensures { result ≡ self.now.sp }
    {
        self.sp
    }

    /// Sets the stack pointer.
    #[inline(always)]
    pub fn set_sp(&mut self, sp: u64)
        ensures { self.new ≡ record self.old { sp = sp } }
    {
        self.sp = sp;
    }

    /// Returns the frame pointer (x29).
    #[inline(always)]
    pub fn fp(&self) -> u64
        ensures { result ≡ self.now.fp }
    {
        self.fp
    }

    /// Sets the frame pointer (x29).
    #[inline(always)]
    pub fn set_fp(&mut self, fp: u64)
        ensures { self.new ≡ record self.old { fp = fp } }
    {
        self.fp = fp;
    }

    /// Returns the link register (x30), stripped.
    #[inline(always)]
    pub fn lr(&self) -> u64
        ensures value { result ≡ self.now.lr }
        ensures stripped { IsStripped self.now.lr_mask result }
    {
        self.lr
    }

    /// Sets the link register (x30) to the value, stripped.
    #[inline(always)]
    pub fn set_lr(&mut self, lr: u64)
        ensures value { self.new ≡ record self.old { lr = strip_ptr_auth self.old.lr_mask lr } }
        ensures stripped { StandsStripped self.new }
    {
        self.lr = self.lr_mask.strip_ptr_auth(lr);
    }
}

impl fmt::Debug for UnwindRegsAarch64 {
    fn fmt<W: fmt::Write>(&self, f: &mut fmt::Formatter<W>) -> fmt::Result {
        f.debug_struct("UnwindRegsAarch64")
            .field("lr", &HexNum(self.lr))
            .field("sp", &HexNum(self.sp))
            .field("fp", &HexNum(self.fp))
            .finish()
    }
}
