//! The settings at a start.

/// The settings at the start of an evaluation. Each field may have any value.
#[repr(C)]
#[derive(Clone, Copy)]
pub struct DwexprSettings {
    /// The maximum number of operations.
    pub max_iterations: u32,
    /// 0 if the object's address isn't known.
    pub has_object_address: u16,
    /// 0 if there is no initial value.
    pub has_initial_value: u16,
    /// The address of the described object, for `DW_OP_push_object_address`.
    pub object_address: u64,
    /// The value with which the stack starts.
    pub initial_value: u64,
}
