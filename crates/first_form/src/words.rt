// Names, and the words of the language that no name may be.

ghost use Rattle.std.specs.Prelude.{◌≡◌};
ghost use Rattle.std.specs.List.{list_any};
ghost use Rattle.std.specs.Str.{bytes_eq};
ghost use Rattle.first_form.specs.Words as spec;

use slang_names::is_name;
use slang_names::limits::NAME_BYTES;

/// Words that have a use in the language.
const USED: [&str; 43] = [
    "associatedtype",
    "bool",
    "break",
    "const",
    "continue",
    "else",
    "extension",
    "false",
    "for",
    "if",
    "import",
    "in",
    "inout",
    "int",
    "int2",
    "int3",
    "int4",
    "interface",
    "internal",
    "let",
    "module",
    "out",
    "private",
    "public",
    "return",
    "static",
    "struct",
    "This",
    "this",
    "true",
    "typealias",
    "typedef",
    "uint",
    "uint2",
    "uint3",
    "uint4",
    "void",
    "where",
    "while",
    "StructuredBuffer",
    "RWStructuredBuffer",
    "ConstantBuffer",
    "ParameterBlock",
];

/// Types of floating-point numbers: scalars, vectors and matrices.
const FLOATS: [&str; 63] = [
    "float",
    "float1",
    "float2",
    "float3",
    "float4",
    "float1x1",
    "float1x2",
    "float1x3",
    "float1x4",
    "float2x1",
    "float2x2",
    "float2x3",
    "float2x4",
    "float3x1",
    "float3x2",
    "float3x3",
    "float3x4",
    "float4x1",
    "float4x2",
    "float4x3",
    "float4x4",
    "half",
    "half1",
    "half2",
    "half3",
    "half4",
    "half1x1",
    "half1x2",
    "half1x3",
    "half1x4",
    "half2x1",
    "half2x2",
    "half2x3",
    "half2x4",
    "half3x1",
    "half3x2",
    "half3x3",
    "half3x4",
    "half4x1",
    "half4x2",
    "half4x3",
    "half4x4",
    "double",
    "double1",
    "double2",
    "double3",
    "double4",
    "double1x1",
    "double1x2",
    "double1x3",
    "double1x4",
    "double2x1",
    "double2x2",
    "double2x3",
    "double2x4",
    "double3x1",
    "double3x2",
    "double3x3",
    "double3x4",
    "double4x1",
    "double4x2",
    "double4x3",
    "double4x4",
];

/// Types of textures and samplers.
const TEXTURES: [&str; 13] = [
    "Texture1D",
    "Texture2D",
    "Texture3D",
    "TextureCube",
    "Texture1DArray",
    "Texture2DArray",
    "TextureCubeArray",
    "Texture2DMS",
    "RWTexture1D",
    "RWTexture2D",
    "RWTexture3D",
    "SamplerState",
    "SamplerComparisonState",
];

/// Further words that are not taken.
const UNSUPPORTED: [&str; 38] = [
    "class",
    "enum",
    "property",
    "operator",
    "switch",
    "case",
    "default",
    "do",
    "groupshared",
    "cbuffer",
    "tbuffer",
    "uniform",
    "extern",
    "export",
    "func",
    "var",
    "namespace",
    "discard",
    "throw",
    "try",
    "defer",
    "__include",
    "__subscript",
    "__init",
    "__exported",
    "bool2",
    "bool3",
    "bool4",
    "int8_t",
    "int16_t",
    "int64_t",
    "uint8_t",
    "uint16_t",
    "uint64_t",
    "ByteAddressBuffer",
    "RWByteAddressBuffer",
    "AppendStructuredBuffer",
    "ConsumeStructuredBuffer",
];

/// Types of matrices of whole numbers.
const INTEGER_MATRICES: [&str; 32] = [
    "int1x1", "int1x2", "int1x3", "int1x4", "int2x1", "int2x2", "int2x3", "int2x4", "int3x1",
    "int3x2", "int3x3", "int3x4", "int4x1", "int4x2", "int4x3", "int4x4", "uint1x1", "uint1x2",
    "uint1x3", "uint1x4", "uint2x1", "uint2x2", "uint2x3", "uint2x4", "uint3x1", "uint3x2",
    "uint3x3", "uint3x4", "uint4x1", "uint4x2", "uint4x3", "uint4x4",
];

fn is_one_of(words: &[&str], word: &[u8]) -> bool
    ensures { result ≡ list_any (λ w. bytes_eq w.now word.now) words.now }
{
    words.iter().any(|w| w.as_bytes() == word)
}

/// Whether the word is one of the language, with a use or refused.
#[tactic(auto, unfolding(crate::specs::Words::is_reserved))]
fn is_reserved(word: &[u8]) -> bool
    ensures { result ≡ spec.is_reserved word.now }
{
    is_one_of(&USED, word)
        || is_one_of(&FLOATS, word)
        || is_one_of(&TEXTURES, word)
        || is_one_of(&UNSUPPORTED, word)
        || is_one_of(&INTEGER_MATRICES, word)
}

/// Whether a shader's own things may be called so: a name of at most 64 bytes that is no word of the language.
pub fn is_free_name(word: &[u8]) -> bool
    ensures { result ≡ spec.is_free_name word.now }
{
    is_name(word) && word.len() <= NAME_BYTES && !is_reserved(word)
}
