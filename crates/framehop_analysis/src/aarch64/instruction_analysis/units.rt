//! Offsets in bytes as the fields of the rules hold them. An offset that is not a multiple of the
//! field's unit has no rule.
ghost use Rattle.framehop_analysis.specs.Answer.{IsOnly};
ghost use Rattle.framehop_analysis.specs.Aarch64.Units.{IsUnitsOf16, IsUnitsOf8};

/// Returns so many bytes in units of 16 bytes, or `None` where they are no such number of 16 bits.
pub(crate) fn units_of_16(bytes: i128) -> Option<u16>
    ensures { IsOnly (IsUnitsOf16 bytes) result }
{
    let bytes = u128::try_from(bytes).ok()?;
    if bytes % 16 != 0 {
        return None;
    }
    u16::try_from(bytes / 16).ok()
}

/// Returns so many bytes in units of 8 bytes, or `None` where they are no such number of 16 bits.
pub(crate) fn units_of_8(bytes: i128) -> Option<i16>
    ensures { IsOnly (IsUnitsOf8 bytes) result }
{
    if bytes % 8 != 0 {
        return None;
    }
    i16::try_from(bytes / 8).ok()
}
