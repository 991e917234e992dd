//! Locations, and pieces (DWARF 5, section 2.6).

ghost use Rattle.std.specs.Prelude.{◌≡◌, ◌↔◌, IsTrue, None};

use dwarf_base::{DebugInfoOffset, Reader, Register};
use dwarf_value::Value;

/// Where a piece of a variable is, or what it contains (DWARF 5, section 2.6.1).
#[derive(Clone, Copy, Debug, Default, PartialEq, Eq)]
pub enum Location<R, O = <R as Reader>::Offset> {
    /// Nowhere: the piece was optimized away. `DW_OP_piece` gives it on an empty stack.
    #[default]
    Empty,
    /// In a register: `DW_OP_reg0` to `DW_OP_reg31`, `DW_OP_regx`.
    Register {
        /// The register.
        register: Register,
    },
    /// In memory: the value on top of the stack is its address.
    Address {
        /// The address.
        address: u64,
    },
    /// Not in memory; this is its value: `DW_OP_stack_value`.
    Value {
        /// The value.
        value: Value,
    },
    /// Not in memory; these are its bytes: `DW_OP_implicit_value`.
    Bytes {
        /// The bytes.
        value: R,
    },
    /// A pointer to an object that isn't in memory: `DW_OP_implicit_pointer`, `DW_OP_GNU_implicit_pointer`.
    ImplicitPointer {
        /// The entry that describes the object: its `DW_AT_location` or `DW_AT_const_value` gives the object's value.
        value: DebugInfoOffset<O>,
        /// The offset into the object, in bytes.
        byte_offset: i64,
    },
}

/// A part of a variable, or the whole variable if it has no size.
#[derive(Clone, Copy, Debug, PartialEq, Eq)]
pub struct Piece<R, O = <R as Reader>::Offset> {
    /// Its size in bits. `None` if it is the only piece, and so the whole variable.
    pub size_in_bits: Option<u64>,
    /// The offset of its first bit in its location. In a register or a value, bits are counted from the least
    /// significant one; in memory, as the target's language numbers them. `None` if it begins where its location does;
    /// in a larger register the target's calling convention then says which part it takes.
    pub bit_offset: Option<u64>,
    /// Where it is, or what it contains.
    pub location: Location<R, O>,
}

impl<R, O> Default for Piece<R, O> {
    fn default() -> Self
        ensures { result
            ≡ record { size_in_bits = None; bit_offset = None; location = Location.Empty } }
    {
        Piece {
            size_in_bits: None,
            bit_offset: None,
            location: Location::Empty,
        }
    }
}

impl<R, O> Location<R, O> {
    /// Whether the piece is nowhere.
    pub fn is_empty(&self) -> bool
        ensures { IsTrue result ↔ (self.now ≡ Location.Empty) }
    {
        matches!(self, Location::Empty)
    }
}
