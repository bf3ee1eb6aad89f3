// Why words or bytes are no image of this profile.

ghost use Rattle.std.specs.Prelude.{◌≡◌};

use std::alloc::AllocError;

/// Why an image is refused.
#[derive(Clone, Copy)]
pub enum ImageCode {
    /// 401: bytes that are no whole words, too few words for a header, or an instruction that goes past the end.
    Short,
    /// 402: a word of the header that images of this profile do not have there.
    Header,
    /// 403: an opcode that images of this profile do not use.
    Opcode,
    /// 404: a number of operands, a string or a literal that the opcode does not have.
    Operands,
    /// 405: instructions that do not stand in the order of an image.
    Order,
    /// 406: an id that is not defined once, before its use.
    Ids,
    /// 407: operands whose types do not fit.
    Types,
    /// 408: a block or a branch of another form.
    Blocks,
    /// 409: a call whose arguments do not fit, a call of the entry, or calls that lead back.
    Calls,
    /// 410: a file that is too long for an image.
    FileLimit,
}

impl ImageCode {
    ghost use Rattle.spirv_words.specs.Codes.{code_number, code_name};

    /// The number that is printed for the code.
    pub fn number(&self) -> u16
        ensures { result ≡ code_number self.now }
    {
        match self {
            ImageCode::Short => 401,
            ImageCode::Header => 402,
            ImageCode::Opcode => 403,
            ImageCode::Operands => 404,
            ImageCode::Order => 405,
            ImageCode::Ids => 406,
            ImageCode::Types => 407,
            ImageCode::Blocks => 408,
            ImageCode::Calls => 409,
            ImageCode::FileLimit => 410,
        }
    }

    /// The name that is printed for the code.
    pub fn name(&self) -> &'static str
        ensures { result.now ≡ code_name self.now }
    {
        match self {
            ImageCode::Short => "Short",
            ImageCode::Header => "Header",
            ImageCode::Opcode => "Opcode",
            ImageCode::Operands => "Operands",
            ImageCode::Order => "Order",
            ImageCode::Ids => "Ids",
            ImageCode::Types => "Types",
            ImageCode::Blocks => "Blocks",
            ImageCode::Calls => "Calls",
            ImageCode::FileLimit => "FileLimit",
        }
    }
}

/// Why bytes or words were not read as an image: a refusal with the index of its word, or want of memory.
#[derive(Drop)]
pub enum ImageFault {
    Refused { place: u64, code: ImageCode },
    Memory(AllocError),
}
