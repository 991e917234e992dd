//! Byte orders.

ghost use Rattle.std.specs.Prelude.{◌≡◌, Bool, true, false};
ghost use Rattle.dwarf_base.specs.ByteOrder.{is_big_of};

/// A byte order (DWARF 5, section 7).
pub trait Endianity: Copy {
    ghost is_big: { Self → Bool };

    /// Whether the most significant byte of a number comes first.
    fn is_big_endian(self) -> bool
        ensures { result ≡ is_big self };
}

/// The least significant byte of a number comes first.
#[derive(Clone, Copy, Debug, Default, PartialEq, Eq, Hash)]
pub struct LittleEndian;

/// The most significant byte of a number comes first.
#[derive(Clone, Copy, Debug, Default, PartialEq, Eq, Hash)]
pub struct BigEndian;

/// A byte order that is known when the program runs. The default is `Little`, on every machine.
#[derive(Clone, Copy, Debug, Default, PartialEq, Eq, Hash)]
pub enum RunTimeEndian {
    /// The least significant byte of a number comes first.
    #[default]
    Little,
    /// The most significant byte of a number comes first.
    Big,
}

impl Endianity for LittleEndian {
    ghost is_big = { λ _. false };

    #[inline]
    fn is_big_endian(self) -> bool {
        false
    }
}

impl Endianity for BigEndian {
    ghost is_big = { λ _. true };

    #[inline]
    fn is_big_endian(self) -> bool {
        true
    }
}

impl Endianity for RunTimeEndian {
    ghost is_big = { is_big_of };

    #[inline]
    fn is_big_endian(self) -> bool {
        matches!(self, RunTimeEndian::Big)
    }
}
