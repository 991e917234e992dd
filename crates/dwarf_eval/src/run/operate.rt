ghost use Rattle.std.specs.Prelude.{◌≡◌, ℕ};
ghost use Rattle.dwarf_meaning.specs.Acts.{Branches};
ghost use Rattle.dwarf_meaning.specs.Operations as meaning;
ghost use Rattle.dwarf_meaning.specs.Rest.{Running};
ghost use Rattle.dwarf_meaning.specs.Stores.{address_bits};
ghost use Rattle.dwarf_value.specs.Values.{IsAddressMask, UnaryOperator, BinaryOperator, from_u64_of, to_u64_of, type_of, binary_of, Plus};
ghost use Rattle.dwarf_eval.specs.inner.StateChanges.{ComputesBinary, ComputesUnary, Performs, PushesComputed, PushesPlain, TriesToPopNumber, act_of};

use crate::run::machine::Machine;
use crate::run::states::{EvaluationWaiting, LastOperation};
use crate::store::EvaluationStorage;
use dwarf_base::{Error, Reader, ReaderOffset, Result, UnitOffset};
use dwarf_op::{Location, Operation, Piece};
use dwarf_value::Value;

impl<R: Reader + Copy, S: EvaluationStorage<R>> Machine<R, S> {
    /// Pushes the value of a plain operation.
    #[inline(always)]
    pub(crate) fn push_plain(&mut self, value: Value)
        ensures { PushesPlain value self.old self.new }
    {
        self.mark(LastOperation::Plain);
        self.push(value);
    }

    /// Pushes the value that a plain operation computed, or fails with its error.
    #[inline(always)]
    fn push_computed(&mut self, computed: Result<Value>)
        ensures { PushesComputed computed self.old self.new }
    {
        match computed {
            Ok(value) => self.push_plain(value),
            Err(error) => self.fail(error),
        }
    }

    /// Replaces the top by what the operator gives.
    #[inline(never)]
    pub(crate) fn compute_unary<F: FnOnce(Value, u64) -> Result<Value>>(&mut self, operator: F)
        requires runs { self.old.status ≡ Running }
        requires may { (x : Value) (mask : ℕ) → IsAddressMask mask → F.pre operator x mask }
        ensures { (meant : UnaryOperator) → ComputesUnary (F.post operator) meant
            → Performs (act_of self.old (meaning.Unary meant)) self.old self.new }
    {
        let Some(value) = self.pop() else { return };
        self.push_computed(operator(value, self.addr_mask()))
    }

    /// Replaces the two values on top by what the operator gives.
    #[inline(never)]
    pub(crate) fn compute_binary<F: FnOnce(Value, Value, u64) -> Result<Value>>(
        &mut self,
        operator: F,
    )
        requires runs { self.old.status ≡ Running }
        requires may { (x y : Value) (mask : ℕ) → IsAddressMask mask → F.pre operator x y mask }
        ensures { (meant : BinaryOperator) → ComputesBinary (F.post operator) meant
            → Performs (act_of self.old (meaning.Binary meant)) self.old self.new }
    {
        let Some(right) = self.pop() else { return };
        let Some(left) = self.pop() else { return };
        self.push_computed(operator(left, right, self.addr_mask()))
    }

    /// A value plus a constant, which is wrapped to the value's type.
    #[inline(always)]
    pub(crate) fn sum(&self, value: Value, constant: u64) -> Result<Value>
        ensures { result
            ≡ binary_of Plus (address_bits self.now.setup) value
            (from_u64_of (type_of value) constant) }
    {
        let addend = Value::from_u64(value.value_type(), constant)?;
        value.add(addend, self.addr_mask())
    }

    /// A value as a number of the bits that an address has.
    #[inline(always)]
    pub(crate) fn number_of(&self, value: Value) -> u64
        ensures { result ≡ to_u64_of (address_bits self.now.setup) value }
    {
        value.to_u64(self.addr_mask()).unwrap_or(0)
    }

    /// Pops the top as a number of the bits that an address has. If the stack is empty, fails with
    /// `NotEnoughStackItems` and returns `None`.
    #[inline(always)]
    fn pop_number(&mut self) -> Option<u64>
        ensures { TriesToPopNumber result self.old self.new }
    {
        let value = self.pop()?;
        Some(self.number_of(value))
    }

    /// Drops the top.
    #[inline(always)]
    pub(crate) fn drop_top(&mut self)
        requires { self.old.status ≡ Running }
        ensures { Performs (act_of self.old meaning.Drop) self.old self.new }
    {
        let Some(_) = self.pop() else { return };
        self.mark(LastOperation::Plain);
    }

    /// Pushes a copy of the value at this distance from the top; 0 is the top.
    #[inline(always)]
    pub(crate) fn pick(&mut self, index: u8)
        requires { self.old.status ≡ Running }
        ensures { Performs (act_of self.old (meaning.Pick index)) self.old self.new }
    {
        let Some(value) = self.value_at(index) else {
            self.fail(Error::NotEnoughStackItems);
            return;
        };
        self.push_plain(value)
    }

    /// Swaps the two values on top.
    #[inline(never)]
    pub(crate) fn swap(&mut self)
        requires { self.old.status ≡ Running }
        ensures { Performs (act_of self.old meaning.Swap) self.old self.new }
    {
        let Some(top) = self.pop() else { return };
        let Some(next) = self.pop() else { return };
        self.mark(LastOperation::Plain);
        if self.push(top) {
            self.push(next);
        }
    }

    /// Moves the top under the two below it.
    #[inline(never)]
    pub(crate) fn rotate(&mut self)
        requires { self.old.status ≡ Running }
        ensures { Performs (act_of self.old meaning.Rot) self.old self.new }
    {
        let Some(top) = self.pop() else { return };
        let Some(second) = self.pop() else { return };
        let Some(third) = self.pop() else { return };
        self.mark(LastOperation::Plain);
        if self.push(top) && self.push(third) {
            self.push(second);
        }
    }

    /// Adds a constant to the top.
    #[inline(never)]
    pub(crate) fn add_constant(&mut self, constant: u64)
        requires { self.old.status ≡ Running }
        ensures { Performs (act_of self.old (meaning.PlusConstant constant)) self.old self.new }
    {
        let Some(value) = self.pop() else { return };
        self.push_computed(self.sum(value, constant))
    }

    /// Pushes the address of the described object.
    #[inline(always)]
    pub(crate) fn push_object_address(&mut self)
        requires { self.old.status ≡ Running }
        ensures { Performs (act_of self.old meaning.PushObjectAddress) self.old self.new }
    {
        let Some(address) = self.object_address() else {
            self.fail(Error::InvalidPushObjectAddress);
            return;
        };
        self.push_plain(Value::Generic(address))
    }

    /// Goes on at this offset from the end of the operation.
    #[inline(always)]
    pub(crate) fn take_branch(&mut self, target: i16)
        requires { self.old.status ≡ Running }
        ensures { Performs (Branches self.old.store.values target) self.old self.new }
    {
        self.mark(LastOperation::Plain);
        let place = self.place();
        self.jump(place.wrapping_add(R::Offset::from_i16(target)));
    }

    /// Branches if the top isn't zero.
    #[inline(always)]
    pub(crate) fn branch_if(&mut self, target: i16)
        requires { self.old.status ≡ Running }
        ensures { Performs (act_of self.old (meaning.Bra target)) self.old self.new }
    {
        let Some(number) = self.pop_number() else {
            return;
        };
        if number == 0 {
            self.mark(LastOperation::Plain);
            return;
        }
        self.take_branch(target)
    }

    /// Pops the top as a location: the variable has this value, and no place in memory.
    #[inline(never)]
    pub(crate) fn locate_value(&mut self)
        requires { self.old.status ≡ Running }
        ensures { Performs (act_of self.old meaning.StackValue) self.old self.new }
    {
        let Some(value) = self.pop() else { return };
        self.locate(Location::Value { value })
    }

    /// Adds a piece: at the address on top, or at no location if the stack is empty.
    #[inline(never)]
    pub(crate) fn add_piece(&mut self, size_in_bits: u64, bit_offset: Option<u64>)
        requires { self.old.status ≡ Running }
        ensures { Performs (act_of self.old (meaning.Piece size_in_bits bit_offset))
            self.old self.new }
    {
        self.mark(LastOperation::Pieced);
        let location = match self.pop_if_any() {
            Some(value) => Location::Address {
                address: self.number_of(value),
            },
            None => Location::Empty,
        };
        self.push_piece(Piece {
            size_in_bits: Some(size_in_bits),
            bit_offset,
            location,
        });
    }

    /// Requests the memory at the address on top; `has_space` tells whether the value below is its address space.
    #[inline(never)]
    pub(crate) fn dereference(
        &mut self,
        base_type: UnitOffset<R::Offset>,
        size: u8,
        has_space: bool,
    )
        ensures { Performs
            (act_of self.old (meaning.Deref (R.Offset.number base_type.0) size has_space))
            self.old self.new }
    {
        if size > self.address_size() {
            self.fail(Error::InvalidDerefSize(size));
            return;
        }
        let Some(address) = self.pop_number() else {
            return;
        };
        let mut space = None;
        if has_space {
            let Some(named) = self.pop_number() else {
                return;
            };
            space = Some(named);
        }
        self.ask(EvaluationWaiting::Memory {
            address,
            size,
            space,
            base_type,
        })
    }

    /// Requests the address of the thread-local slot whose offset is on top.
    #[inline(never)]
    pub(crate) fn ask_tls(&mut self)
        ensures { Performs (act_of self.old meaning.TLS) self.old self.new }
    {
        let Some(index) = self.pop_number() else {
            return;
        };
        self.ask(EvaluationWaiting::Tls(index))
    }
}
