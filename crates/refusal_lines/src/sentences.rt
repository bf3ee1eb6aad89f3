// A sentence for each code and each word of a line.

/// The sentence of a code, in which a text is refused before it is a tree.
fn parse_sentence(code: u64) -> &'static str {
    match code {
        101 => "no token begins with this byte",
        102 => "there are no preprocessor lines",
        103 => "a comment or a string that does not end, or a number that runs on",
        104 => "the number does not fit 32 bits",
        110 => "no text goes on with this, or it ends too soon",
        111 => "more than 64 blocks, statements, expressions and types stand in one another here",
        112 => "too long: a text over 1048576 bytes, a list over 256 items or a name over 64 bytes",
        120 => "there are no floating-point numbers",
        121 => "an interface is no type",
        122 => "there are no textures and samplers",
        123 => "this word or attribute is not taken, or not here",
        _ => "",
    }
}

/// The sentence of a code of names and imports.
fn name_sentence(code: u64) -> &'static str {
    match code {
        130 => "no such module is there",
        131 => "the imports lead back to this module",
        132 => "the name is declared for the second time",
        133 => "nothing has this name here",
        134 => "two imports or interfaces show this name",
        135 => "the name cannot be seen from here",
        136 => "the module line names another module",
        137 => "two imports hold different forms of one interface",
        138 => "too many modules are reached",
        160 => "there is no member of this name",
        _ => "",
    }
}

/// The sentence of a code of types.
fn type_sentence(code: u64) -> &'static str {
    match code {
        140 => "the types do not fit",
        141 => "this cannot be called so",
        142 => "a wrong number of arguments, components or items",
        143 => "the generic arguments cannot be inferred",
        144 => "the type does not conform to the interface",
        145 => "this cannot be written",
        146 => "the method is not mutating, so it cannot write this",
        147 => "the function has a result, and can end without a return",
        148 => "this has no constant value",
        149 => "a length or an index is out of range",
        _ => declaration_sentence(code),
    }
}

/// The sentence of a code of declarations.
fn declaration_sentence(code: u64) -> &'static str {
    match code {
        150 => "a requirement has no member",
        151 => "the member differs from its requirement",
        152 => "an associated type is not bound",
        153 => "the alias names an alias of another form",
        154 => "this cannot be extended so",
        155 => "the conformance is declared twice",
        156 => "the struct contains itself",
        157 => "no entry can be started so",
        158 => "there is no loop around this",
        159 => "no buffer may stand here",
        162 => "the type is too large",
        164 => "the stored module would be too large",
        199 => "the text is well formed, and of no form that is compiled yet",
        _ => "",
    }
}

/// The sentence of a code by which a text is refused, empty of other numbers.
pub fn module_sentence(code: u64) -> &'static str {
    if code < 130 {
        parse_sentence(code)
    } else if code < 139 || code == 160 {
        name_sentence(code)
    } else {
        type_sentence(code)
    }
}

/// The sentence of a code by which modules do not link, empty of other numbers.
pub fn link_sentence(code: u64) -> &'static str {
    match code {
        201 => "two modules have this name",
        202 => "the first of these modules holds the interface of the second, which is not there",
        203 => "the first of these modules was checked against another interface of the second",
        204 => "two modules declare this conformance",
        209 => "no given module has this entry",
        210 => "the program reaches too many of these",
        211 => "this is nested too deep",
        212 => "this leads back to itself",
        213 => "this type contains itself",
        214 => "an array of this type is too long, or the type has too many scalars",
        215 => "these two parameters have one set and binding",
        216 => "the image would be too large",
        217 => "there are too many modules",
        218 => "a bool or a struct without fields stands in the data of this buffer",
        _ => "",
    }
}

/// The sentence of a code by which a stored module is refused, empty of other numbers.
pub fn form_sentence(code: u64) -> &'static str {
    match code {
        301 => "it ends too soon",
        302 => "it is no stored module",
        303 => "it is of another version",
        304 => "no stored module goes on so",
        305 => "bytes stand behind the module",
        306 => "a part of it breaks a rule of types",
        307 => "it passes a limit",
        308 => "the module has another name than its file",
        _ => "",
    }
}

/// The sentence of a code by which an image is refused, empty of other numbers.
pub fn image_sentence(code: u64) -> &'static str {
    match code {
        401 => "the file is cut: no whole words, no whole header, or an instruction past the end",
        402 => "the header is not that of SPIR-V 1.5 with generator 0",
        403 => "the profile has no such instruction",
        404 => "the instruction has other operands than it wants",
        405 => "a section stands in another order, or is missing",
        406 => "an id is not there, is there twice, or does not hold here",
        407 => "types, variables or decorations do not fit",
        408 => "the blocks of a function are not well formed",
        409 => "a call does not fit, calls the entry, or leads back to its own function",
        410 => "the file has more than 16777216 bytes",
        _ => "",
    }
}

/// The sentence of a code by which an image is not run, empty of other numbers.
pub fn input_sentence(code: u64) -> &'static str {
    match code {
        503 => "the buffer of this set and binding is missing or too short",
        504 => "the file is no text of buffers from this byte on",
        505 => "so many invocations are too many: at most 65536 run",
        506 => "the image has no entry of this name",
        _ => "",
    }
}
