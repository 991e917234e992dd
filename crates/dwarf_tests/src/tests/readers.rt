//! A reader of the tests.

ghost use Rattle.std.specs.Prelude.{false};
ghost use Rattle.dwarf_base.specs.EndianSlice.{text_of};

use dwarf_base::{EndianSlice, LittleEndian, Reader, Result};
use std::cell::Cell;

/// A reader that counts how many bytes are read, and that drops all of them when a read fails.
#[derive(Clone, Copy, Debug)]
pub(crate) struct Watched<'a> {
    slice: EndianSlice<'a, LittleEndian>,
    read: &'a Cell<u64>,
}

impl<'a> Watched<'a> {
    pub(crate) fn new(bytes: &'a [u8], read: &'a Cell<u64>) -> Self {
        Watched {
            slice: EndianSlice::new(bytes, LittleEndian),
            read,
        }
    }

    fn count(&self, bytes: u64) {
        self.read.set(self.read.get().wrapping_add(bytes));
    }
}

impl<'a> Reader for Watched<'a> {
    type Offset = usize;

    ghost text = { λ reader. text_of (λ _. false) reader.slice };

    fn len(&self) -> usize {
        self.slice.len()
    }

    fn is_empty(&self) -> bool {
        self.slice.is_empty()
    }

    fn empty(&mut self) {
        self.slice.empty();
    }

    fn offset_from(&self, base: &Self) -> usize {
        self.slice.offset_from(&base.slice)
    }

    #[tactic(auto, using(dwarf_base::proofs::Suffixes::suffix_none))]
    fn skip(&mut self, len: usize) -> Result<()> {
        let skipped = self.slice.skip(len);
        if skipped.is_err() {
            self.empty();
        }
        skipped
    }

    #[tactic(auto, using(dwarf_base::proofs::Suffixes::suffix_none))]
    fn split(&mut self, len: usize) -> Result<Self> {
        self.count(len as u64);
        let front = self.slice.split(len);
        if front.is_err() {
            self.empty();
        }
        Ok(Watched {
            slice: front?,
            read: self.read,
        })
    }

    #[tactic(auto, using(dwarf_base::proofs::Suffixes::suffix_none))]
    fn read_fixed(&mut self, n: u8) -> Result<u64> {
        self.count(u64::from(n));
        let number = self.slice.read_fixed(n);
        if number.is_err() {
            self.empty();
        }
        number
    }
}
