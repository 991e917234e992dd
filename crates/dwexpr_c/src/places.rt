//! A reader that knows where in a text it is.

ghost use Rattle.std.specs.Prelude.{◌≡◌, ◌≤◌, ◌-◌, ◌/◌, length, drop};
ghost use Rattle.dwarf_base.specs.ByteOrder.{is_big_of};
ghost use Rattle.dwarf_base.specs.EndianSlice.{slice_bytes, slice_order};
ghost use Rattle.dwexpr_c.specs.CallerTexts.{is_big_at, text_of_placed};

use dwarf_base::{EndianSlice, Reader, Result, RunTimeEndian};

/// The index of a text and its byte order, in one word.
// With two numbers of 32 bits instead, evaluating libc and libm from C takes 3% longer.
#[derive(Clone, Copy, Debug, Default)]
pub(crate) struct Home {
    /// Twice the index, plus 1 if the byte order is big. A word is enough: memory can't hold 2^63 texts.
    word: usize,
}

impl Home {
    #[inline(always)]
    fn new(text: usize, order: RunTimeEndian) -> Self
        ensures { is_big_at result ≡ is_big_of order }
    {
        let order = match order {
            RunTimeEndian::Little => 0,
            RunTimeEndian::Big => 1,
        };
        Home {
            word: text.wrapping_mul(2).wrapping_add(order),
        }
    }

    #[inline(always)]
    fn text_index(self) -> usize
        ensures { result ≡ self.word / 2 }
    {
        self.word / 2
    }

    #[inline(always)]
    fn order(self) -> RunTimeEndian
        ensures { is_big_of result ≡ is_big_at self }
    {
        if self.word % 2 == 1 {
            RunTimeEndian::Big
        } else {
            RunTimeEndian::Little
        }
    }
}

/// Bytes of one of a caller's texts, and where in the texts they should end.
// It is four whole words, so that the compiler keeps it in registers.
#[derive(Clone, Copy, Debug, Default)]
pub(crate) struct Placed<'a> {
    bytes: &'a [u8],
    /// Where in the text they should end.
    end: usize,
    home: Home,
}

impl<'a> Placed<'a> {
    /// All bytes of the text at this index.
    pub(crate) fn new(bytes: &'a [u8], order: RunTimeEndian, text: usize) -> Self
        ensures { text_of_placed result ≡ record { bytes = bytes.now; is_big = is_big_of order } }
    {
        Placed {
            bytes,
            end: bytes.len(),
            home: Home::new(text, order),
        }
    }

    /// The bytes.
    pub(crate) fn bytes(&self) -> &'a [u8]
        ensures { result.now ≡ (text_of_placed self.now).bytes }
    {
        self.bytes
    }

    /// The index of the text that they should be in. No contract says that they are.
    pub(crate) fn text_index(&self) -> usize
        ensures { result ≡ self.now.home.word / 2 }
    {
        self.home.text_index()
    }

    /// Where in that text they should begin.
    pub(crate) fn place(&self) -> usize
        ensures { result ≡ self.now.end - length self.now.bytes.now }
    {
        self.end.saturating_sub(self.bytes.len())
    }

    #[inline]
    fn slice(&self) -> EndianSlice<'a, RunTimeEndian>
        ensures bytes { slice_bytes result ≡ self.now.bytes.now }
        ensures order { is_big_of (slice_order result) ≡ is_big_at self.now.home }
    {
        EndianSlice::new(self.bytes, self.home.order())
    }

    /// Drops the first bytes.
    #[inline]
    fn advance(&mut self, count: usize)
        requires { count ≤ length self.old.bytes.now }
        ensures bytes { self.new.bytes.now ≡ drop count self.old.bytes.now }
        ensures order { self.new.home ≡ self.old.home }
    {
        self.bytes = &self.bytes[count..];
    }
}

impl<'a> Reader for Placed<'a> {
    type Offset = usize;

    ghost text = { text_of_placed };

    #[inline]
    fn len(&self) -> usize {
        self.bytes.len()
    }

    #[inline]
    fn is_empty(&self) -> bool {
        self.bytes.is_empty()
    }

    #[inline]
    fn empty(&mut self) {
        self.advance(self.bytes.len());
    }

    #[inline]
    fn offset_from(&self, base: &Self) -> usize {
        base.bytes.len() - self.bytes.len()
    }

    #[inline]
    fn skip(&mut self, len: usize) -> Result<()> {
        self.slice().skip(len)?;
        self.advance(len);
        Ok(())
    }

    #[inline]
    fn split(&mut self, len: usize) -> Result<Self> {
        let whole = *self;
        self.skip(len)?;
        Ok(Placed {
            bytes: &whole.bytes[..len],
            end: self.end.wrapping_sub(self.bytes.len()),
            ..whole
        })
    }

    #[inline]
    fn read_fixed(&mut self, n: u8) -> Result<u64> {
        let mut slice = self.slice();
        let number = slice.read_fixed(n)?;
        self.advance(slice.offset_from(&self.slice()));
        Ok(number)
    }
}
