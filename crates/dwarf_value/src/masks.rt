ghost use Rattle.std.specs.Prelude.{◌↔◌, IsTrue};
ghost use Rattle.dwarf_value.specs.Values.{IsAddressMask};

/// Whether this is the mask of an address of 1 to 64 bits: its lowest bits are ones, and all others zeros.
#[inline(always)]
pub fn is_addr_mask(addr_mask: u64) -> bool
    ensures { IsTrue result ↔ IsAddressMask addr_mask }
{
    addr_mask != 0 && addr_mask == u64::MAX >> (64 - addr_mask.count_ones())
}
