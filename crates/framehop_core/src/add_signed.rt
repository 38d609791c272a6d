//! Sums of an unsigned and a signed integer.
ghost use Rattle.std.specs.Prelude.{◌≡◌, Option};

/// Adds a signed integer to an unsigned integer, modulo two to the power of their width.
pub fn wrapping_add_signed<T: AddSigned>(lhs: T, rhs: T::Signed) -> T
    ensures { result ≡ T.wrapping_sum lhs rhs }
{
    lhs.wrapping_add_signed(rhs)
}

/// Adds a signed integer to an unsigned integer, or returns `None` where the sum leaves the type.
#[inline(always)]
pub fn checked_add_signed<T: AddSigned>(lhs: T, rhs: T::Signed) -> Option<T>
    ensures { result ≡ T.checked_sum lhs rhs }
{
    lhs.checked_add_signed(rhs)
}

/// An unsigned integer type, to which a signed integer of the same width can be added.
pub trait AddSigned: Sized {
    /// The signed integer type of the same width.
    type Signed;

    // the sum modulo two to the power of the width
    ghost wrapping_sum: { Self → Self.Signed → Self };

    // the sum, where it fits the type
    ghost checked_sum: { Self → Self.Signed → Option Self };

    /// Adds a signed integer, modulo two to the power of the width.
    fn wrapping_add_signed(self, rhs: Self::Signed) -> Self
        ensures { result ≡ wrapping_sum self rhs };

    /// Adds a signed integer, or returns `None` where the sum leaves the type.
    fn checked_add_signed(self, rhs: Self::Signed) -> Option<Self>
        ensures { result ≡ checked_sum self rhs };
}

impl AddSigned for u64 {
    ghost use Rattle.framehop_core.specs.AddSigned.{modulo, fitting, sum_with};

    type Signed = i64;

    ghost wrapping_sum = { λ n z. modulo 64 (sum_with n z) };

    ghost checked_sum = { λ n z. fitting 64 (sum_with n z) };

    fn wrapping_add_signed(self, rhs: i64) -> u64 {
        u64::wrapping_add_signed(self, rhs)
    }

    #[inline(always)]
    fn checked_add_signed(self, rhs: i64) -> Option<u64> {
        u64::checked_add_signed(self, rhs)
    }
}

impl AddSigned for u32 {
    ghost use Rattle.framehop_core.specs.AddSigned.{modulo, fitting, sum_with};

    type Signed = i32;

    ghost wrapping_sum = { λ n z. modulo 32 (sum_with n z) };

    ghost checked_sum = { λ n z. fitting 32 (sum_with n z) };

    fn wrapping_add_signed(self, rhs: i32) -> u32 {
        u32::wrapping_add_signed(self, rhs)
    }

    fn checked_add_signed(self, rhs: i32) -> Option<u32> {
        u32::checked_add_signed(self, rhs)
    }
}
