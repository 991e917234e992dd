//! The number and the name of each operation.

ghost use Rattle.std.specs.Prelude.{◌≡◌};
ghost use Rattle.dwarf_op.specs.Names.{name_of, number_of};
ghost use Rattle.dwarf_op.specs.Views.{operation_of};

use crate::operations::Operation;
use dwarf_base::Reader;

impl<R: Reader> Operation<R> {
    /// The number of its variant: 1, 2, 3 and so on, in their order.
    pub fn number(&self) -> u32
        ensures { result ≡ number_of (operation_of R.text R.Offset.number self.now) }
    {
        self.number_and_name().0
    }

    /// The name of its variant.
    pub fn name(&self) -> &'static str
        ensures { result.now ≡ name_of (operation_of R.text R.Offset.number self.now) }
    {
        self.number_and_name().1
    }

    fn number_and_name(&self) -> (u32, &'static str)
        ensures number { result.0 ≡ number_of (operation_of R.text R.Offset.number self.now) }
        ensures name { result.1.now ≡ name_of (operation_of R.text R.Offset.number self.now) }
    {
        match self {
            Operation::Deref { .. } => (1, "Deref"),
            Operation::Drop => (2, "Drop"),
            Operation::Pick { .. } => (3, "Pick"),
            Operation::Swap => (4, "Swap"),
            Operation::Rot => (5, "Rot"),
            Operation::Abs => (6, "Abs"),
            Operation::And => (7, "And"),
            Operation::Div => (8, "Div"),
            Operation::Minus => (9, "Minus"),
            Operation::Mod => (10, "Mod"),
            Operation::Mul => (11, "Mul"),
            Operation::Neg => (12, "Neg"),
            Operation::Not => (13, "Not"),
            Operation::Or => (14, "Or"),
            Operation::Plus => (15, "Plus"),
            Operation::PlusConstant { .. } => (16, "PlusConstant"),
            Operation::Shl => (17, "Shl"),
            Operation::Shr => (18, "Shr"),
            Operation::Shra => (19, "Shra"),
            Operation::Xor => (20, "Xor"),
            Operation::Bra { .. } => (21, "Bra"),
            Operation::Eq => (22, "Eq"),
            Operation::Ge => (23, "Ge"),
            Operation::Gt => (24, "Gt"),
            Operation::Le => (25, "Le"),
            Operation::Lt => (26, "Lt"),
            Operation::Ne => (27, "Ne"),
            Operation::Skip { .. } => (28, "Skip"),
            Operation::UnsignedConstant { .. } => (29, "UnsignedConstant"),
            Operation::SignedConstant { .. } => (30, "SignedConstant"),
            Operation::Register { .. } => (31, "Register"),
            Operation::RegisterOffset { .. } => (32, "RegisterOffset"),
            Operation::FrameOffset { .. } => (33, "FrameOffset"),
            Operation::Nop => (34, "Nop"),
            Operation::PushObjectAddress => (35, "PushObjectAddress"),
            Operation::Call { .. } => (36, "Call"),
            Operation::TLS => (37, "TLS"),
            Operation::CallFrameCFA => (38, "CallFrameCFA"),
            Operation::Piece { .. } => (39, "Piece"),
            Operation::ImplicitValue { .. } => (40, "ImplicitValue"),
            Operation::StackValue => (41, "StackValue"),
            Operation::ImplicitPointer { .. } => (42, "ImplicitPointer"),
            Operation::EntryValue { .. } => (43, "EntryValue"),
            Operation::ParameterRef { .. } => (44, "ParameterRef"),
            Operation::Address { .. } => (45, "Address"),
            Operation::AddressIndex { .. } => (46, "AddressIndex"),
            Operation::ConstantIndex { .. } => (47, "ConstantIndex"),
            Operation::TypedLiteral { .. } => (48, "TypedLiteral"),
            Operation::Convert { .. } => (49, "Convert"),
            Operation::Reinterpret { .. } => (50, "Reinterpret"),
            Operation::Uninitialized => (51, "Uninitialized"),
            Operation::WasmLocal { .. } => (52, "WasmLocal"),
            Operation::WasmGlobal { .. } => (53, "WasmGlobal"),
            Operation::WasmStack { .. } => (54, "WasmStack"),
            Operation::VariableValue { .. } => (55, "VariableValue"),
        }
    }
}
