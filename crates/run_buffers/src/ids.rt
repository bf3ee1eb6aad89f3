// The built-in values of the invocations of a run.

/// The built-in values of an invocation (SPIR-V 1.5, section 3.21): WorkgroupId, LocalInvocationId,
/// GlobalInvocationId, each with x, y and z, and LocalInvocationIndex.
#[derive(Clone, Copy)]
pub struct Ids {
    pub group: [u32; 3],
    pub local: [u32; 3],
    pub global: [u32; 3],
    pub index: u32,
}
