// What a refusal carries.

use crate::{ModuleCode, Name, Place, Ref};
use std::alloc::AllocError;

/// Why a module was not taken: a refusal with its place in the text, or want of memory.
#[derive(Drop)]
pub enum ModuleFault {
    Refused { place: Place, code: ModuleCode },
    Memory(AllocError),
}

/// What a limit counts.
#[derive(Clone, Copy)]
pub enum Counted {
    /// Instances of a program.
    Instances,
    /// Types without parameters.
    Types,
    /// Words of an image.
    Words,
    /// Words of one instruction.
    Instruction,
}

/// Why modules do not link, in the order in which the causes are tried. A key is the text of an instance
/// or a type; a parameter is named `module.global`.
#[derive(Drop)]
pub enum LinkCause {
    /// 217: more modules than a link may have.
    ModuleCount {
        count: u64,
    },
    /// 201: two modules have this name.
    ModuleTwice {
        module: Name,
    },
    /// 202: the first module that holds the interface of one that is not there, and the missing one.
    ModuleMissing {
        holder: Name,
        missing: Name,
    },
    /// 203: the first module whose copy of the other's interface is not what that module has now.
    Stale {
        holder: Name,
        module: Name,
    },
    /// 204: two modules declare one conformance of a struct.
    ConformsTwice {
        subject: Ref,
        interface: Ref,
        first: Name,
        second: Name,
    },
    /// 209: this is no entry of a given module.
    NoEntry {
        entry: Ref,
    },
    /// 210: more instances, or types, are reached than a program may have.
    TooMany {
        counted: Counted,
        count: u32,
    },
    /// 211: an instance or a type is nested too deep, or its key is too long.
    TooDeep {
        key: Name,
    },
    /// 213: a type contains itself.
    InfiniteType {
        key: Name,
    },
    /// 214: a length of an array is out of range, or a type has too many scalars.
    ArrayLength {
        key: Name,
    },
    /// 212: an instance leads back to itself, by this callee.
    Recursion {
        key: Name,
        callee: Name,
    },
    /// 218: a bool or a struct without fields stands in the data of a buffer.
    DataType {
        parameter: Name,
    },
    /// 215: two parameters have one set and binding.
    BindingClash {
        first: Name,
        second: Name,
    },
    /// 216: the image, or one of its instructions, would have too many words.
    ImageLimit {
        counted: Counted,
        count: u32,
    },
}

/// Why modules were not linked: a refusal, or want of memory.
#[derive(Drop)]
pub enum LinkFault {
    Refused(LinkCause),
    Memory(AllocError),
}

/// Why an image is not run over given buffers.
#[derive(Clone, Copy)]
pub enum RunCause {
    /// 506: the image has no entry of the name.
    NoEntry,
    /// 504: no buffers text goes on with the byte at this place.
    BufferText { place: u64 },
    /// 505: this many invocations are more than a run may have.
    DispatchLimit { product: u128 },
    /// 503: the image's buffer of this set and binding is not given, or is too short.
    BufferMissing { set: u32, binding: u32 },
}
