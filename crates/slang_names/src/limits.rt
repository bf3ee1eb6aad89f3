//! The limits of texts, modules, instances, images and runs. Each is the greatest number that is allowed.

/// Bytes of a source text.
pub const TEXT_BYTES: usize = 1_048_576;
/// Bytes of a stored module.
pub const STORED_BYTES: usize = 16_777_216;
/// Bytes of an image's file.
pub const IMAGE_BYTES: usize = 16_777_216;
/// Bytes of a buffers text.
pub const BUFFERS_BYTES: usize = 16_777_216;
/// Modules in a link, or reached by a module with the module itself.
pub const MODULES: usize = 64;
/// Statements, expressions and types that stand in one another in a text.
pub const NESTING: usize = 64;
/// Members, parameters, arguments or items in one list of a text.
pub const LIST_ITEMS: usize = 256;
/// Bytes of a name in a text.
pub const NAME_BYTES: usize = 64;
/// Nodes of a type or an evidence.
pub const TERM_NODES: usize = 4_096;
/// The length of an array.
pub const ARRAY_LENGTH: u32 = 65_536;
/// Scalars in a type without parameters.
pub const TYPE_SCALARS: u32 = 65_536;
/// The depth of an instance or a type without parameters.
pub const DEPTH: usize = 16;
/// Instances of a program.
pub const INSTANCES: usize = 4_096;
/// Types without parameters that a program reaches.
pub const GROUND_TYPES: usize = 16_384;
/// Bytes of the key of an instance or a type.
pub const KEY_BYTES: usize = 16_384;
/// Words of an image.
pub const IMAGE_WORDS: usize = 4_194_304;
/// Words of one instruction.
pub const INSTRUCTION_WORDS: usize = 65_535;
/// Words in all buffers of a run.
pub const BUFFER_WORDS: usize = 1_048_576;
/// Invocations of a run.
pub const INVOCATIONS: u32 = 65_536;
/// Steps that a run may be given for each invocation.
pub const STEPS: u64 = 100_000_000;
/// Invocations of one group along x or y, and in the whole group.
pub const GROUP_SIZE: u32 = 1_024;
/// Invocations of one group along z.
pub const GROUP_DEPTH: u32 = 64;
/// Items in one sum of a shader of the first form.
pub const SUM_ITEMS: usize = 32;
