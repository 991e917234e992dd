//! The encoding of a unit, and what its expressions refer to: registers, offsets and indices.

ghost use Rattle.dwarf_base.specs.Faults.{Returns};
ghost use Rattle.dwarf_base.specs.Numbers.{register_of};

use crate::errors::{Error, Result};

/// Whether an object is in the 32-bit or the 64-bit DWARF format (DWARF 5, section 7.4).
#[derive(Clone, Copy, Debug, PartialEq, Eq)]
pub enum Format {
    /// Offsets have 4 bytes.
    Dwarf32,
    /// Offsets have 8 bytes.
    Dwarf64,
}

/// How a unit encodes its expressions: the size of addresses, the format and the version (DWARF 5, section 7.5.1).
#[derive(Clone, Copy, Debug, PartialEq, Eq)]
pub struct Encoding {
    /// The size of an address, in bytes.
    pub address_size: u8,
    /// The format, which sets the size of an offset.
    pub format: Format,
    /// The version of DWARF.
    pub version: u16,
}

/// The number of a register, as the architecture assigns it (DWARF 5, section 2.6.1.1.3).
#[derive(Clone, Copy, Debug, PartialEq, Eq)]
pub struct Register(pub u16);

impl Register {
    /// The register with this number. `UnsupportedRegister` exactly if the number is above 65535.
    #[inline]
    pub fn from_u64(register: u64) -> Result<Register>
        ensures { Returns (λ r. r.0) result (register_of register) }
    {
        let number = u16::try_from(register).map_err(|_| Error::UnsupportedRegister(register))?;
        Ok(Register(number))
    }
}

/// An offset in bytes from the start of a unit.
#[derive(Clone, Copy, Debug, PartialEq, Eq)]
pub struct UnitOffset<T = usize>(pub T);

/// An offset in bytes from the start of the section `.debug_info`.
#[derive(Clone, Copy, Debug, PartialEq, Eq)]
pub struct DebugInfoOffset<T = usize>(pub T);

/// An index into a unit's addresses in the section `.debug_addr`.
#[derive(Clone, Copy, Debug, PartialEq, Eq)]
pub struct DebugAddrIndex<T = usize>(pub T);

/// Identifies the place where a read went past the end. The reader chooses its value, and no contract depends on it.
#[derive(Clone, Copy, Debug, PartialEq, Eq)]
pub struct ReaderOffsetId(pub u64);
