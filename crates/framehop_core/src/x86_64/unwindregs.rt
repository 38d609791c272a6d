//! The registers of x86_64 that unwinding needs.
ghost use Rattle.std.specs.Prelude.{◌≡◌};
ghost use Rattle.framehop_core.specs.X86_64.Registers.{register, with_register};

use crate::display_utils::HexNum;
use std::fmt;
use std::marker::Model;

/// The registers used for unwinding on x86_64: the instruction pointer rip and the sixteen
/// general registers, rsp (the stack pointer) and rbp (the frame pointer) among them.
#[derive(Clone, Copy, PartialEq, Eq)]
pub struct UnwindRegsX86_64 {
    ip: u64,
    regs: [u64; 16],
}

impl Model for UnwindRegsX86_64 {
    ghost use Rattle.std.specs.Prelude.{◌≡◌, length};
    ghost use Rattle.std.proofs.Common.{ap};
    ghost use Rattle.framehop_core.specs.X86_64.Registers.{Registers, registers_of, words_of, words_of-registers_of};

    ghost Value = { Registers };

    ghost view = { λ r. registers_of r.ip r.regs };

    ghost invariant = { λ r. length r.regs ≡ 16 };

    ghost inverse = { λ r. record { ip = r.ip; regs = words_of r } };

    ghost inverse_ok = { λ r h. ap (λ words. record { ip = r.ip; regs = words }) (words_of-registers_of r.ip r.regs h) };
}

/// A general register of x86_64.
#[derive(Clone, Copy, Debug, PartialEq, Eq, PartialOrd, Ord, Hash)]
pub enum Reg {
    RAX,
    RDX,
    RCX,
    RBX,
    RSI,
    RDI,
    RBP,
    RSP,
    R8,
    R9,
    R10,
    R11,
    R12,
    R13,
    R14,
    R15,
}

// A blank for the unused places of an `ArrayVec`.
impl Default for Reg {
    ghost use Rattle.std.specs.Prelude.{◌≡◌};
    ghost use Rattle.framehop_core.specs.declared.x86_64.unwindregs.Reg.TheVariants.{RAX};

    ghost is_default = { λ register. register ≡ RAX };

    fn default() -> Self {
        Reg::RAX
    }
}

impl UnwindRegsX86_64 {
    /// Returns registers with an instruction pointer, a stack pointer and a frame pointer (AVMAs), the
    /// others being 0.
    ///
    /// # Examples
    ///
    /// ```
    /// let regs = UnwindRegsX86_64::new(0x7f0000001000, 0x7ffc00000010, 0x7ffc00000020);
    /// ```
    pub fn new(ip: u64, sp: u64, bp: u64) -> Self
        ensures { result ≡ record {
          ip = ip;
          rax = 0;
          rdx = 0;
          rcx = 0;
          rbx = 0;
          rsi = 0;
          rdi = 0;
          rbp = bp;
          rsp = sp;
          r8 = 0;
          r9 = 0;
          r10 = 0;
          r11 = 0;
          r12 = 0;
          r13 = 0;
          r14 = 0;
          r15 = 0;
        } }
    {
        let mut regs = Self { ip, regs: [0; 16] };
        regs.set_sp(sp);
        regs.set_bp(bp);
        regs
    }

    /// Returns the value of a general register.
    #[inline(always)]
    pub fn get(&self, reg: Reg) -> u64
        ensures { result ≡ register self.now reg }
    {
        self.regs[reg as usize]
    }

    /// Sets a general register.
    #[inline(always)]
    pub fn set(&mut self, reg: Reg, value: u64)
        ensures { self.new ≡ with_register self.old reg value }
    {
        let place = reg as usize;
        self.regs[place] = value;
    }

    /// Returns the instruction pointer, rip.
    #[inline(always)]
    pub fn ip(&self) -> u64
        ensures { result ≡ self.now.ip }
    {
        self.ip
    }

    /// Sets the instruction pointer, rip.
    #[inline(always)]
    pub fn set_ip(&mut self, ip: u64)
        ensures { self.new ≡ record self.old { ip = ip } }
    {
        self.ip = ip;
    }

    /// Returns the stack pointer, rsp.
    #[inline(always)]
    pub fn sp(&self) -> u64
        ensures { result ≡ self.now.rsp }
    {
        self.get(Reg::RSP)
    }

    /// Sets the stack pointer, rsp.
    #[inline(always)]
    pub fn set_sp(&mut self, sp: u64)
        ensures { self.new ≡ record self.old { rsp = sp } }
    {
        self.set(Reg::RSP, sp)
    }

    /// Returns the frame pointer, rbp.
    #[inline(always)]
    pub fn bp(&self) -> u64
        ensures { result ≡ self.now.rbp }
    {
        self.get(Reg::RBP)
    }

    /// Sets the frame pointer, rbp.
    #[inline(always)]
    pub fn set_bp(&mut self, bp: u64)
        ensures { self.new ≡ record self.old { rbp = bp } }
    {
        self.set(Reg::RBP, bp)
    }
}

impl fmt::Debug for UnwindRegsX86_64 {
    fn fmt<W: fmt::Write>(&self, f: &mut fmt::Formatter<W>) -> fmt::Result {
        f.debug_struct("UnwindRegsX86_64")
            .field("ip", &HexNum(self.ip()))
            .field("rax", &HexNum(self.get(Reg::RAX)))
            .field("rdx", &HexNum(self.get(Reg::RDX)))
            .field("rcx", &HexNum(self.get(Reg::RCX)))
            .field("rbx", &HexNum(self.get(Reg::RBX)))
            .field("rsi", &HexNum(self.get(Reg::RSI)))
            .field("rdi", &HexNum(self.get(Reg::RDI)))
            .field("rbp", &HexNum(self.bp()))
            .field("rsp", &HexNum(self.sp()))
            .field("r8", &HexNum(self.get(Reg::R8)))
            .field("r9", &HexNum(self.get(Reg::R9)))
            .field("r10", &HexNum(self.get(Reg::R10)))
            .field("r11", &HexNum(self.get(Reg::R11)))
            .field("r12", &HexNum(self.get(Reg::R12)))
            .field("r13", &HexNum(self.get(Reg::R13)))
            .field("r14", &HexNum(self.get(Reg::R14)))
            .field("r15", &HexNum(self.get(Reg::R15)))
            .finish()
    }
}
