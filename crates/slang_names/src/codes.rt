// The codes by which a module is refused.

ghost use Rattle.std.specs.Prelude.{◌≡◌};
ghost use Rattle.slang_names.specs.Codes.{code_number, code_name};

/// Why a module is refused.
#[derive(Clone, Copy)]
pub enum ModuleCode {
    /// 101: a byte that begins no token.
    BadByte,
    /// 102: a preprocessor line.
    Preprocessor,
    /// 103: an unclosed comment or string, or a number that runs on.
    BadToken,
    /// 104: a number that does not fit 32 bits.
    NumberRange,
    /// 110: no file continues so.
    Syntax,
    /// 111: nested too deep.
    TooNested,
    /// 112: a text, a list or a name is too long.
    TooLong,
    /// 120: a floating-point number or type.
    Float,
    /// 121: an interface used as a type.
    Existential,
    /// 122: a texture or sampler.
    Texture,
    /// 123: a word or attribute of the language that this compiler does not take.
    Unsupported,
    /// 130: an import of a module that is not there.
    NoModule,
    /// 131: imports lead back to the module.
    ImportCycle,
    /// 132: declared twice.
    Twice,
    /// 133: an unknown name.
    Unknown,
    /// 134: two imports or interfaces show the name.
    Ambiguous,
    /// 135: the name is not visible here.
    NoAccess,
    /// 136: the module declaration names another module.
    ModuleName,
    /// 137: two imports hold different forms of one interface.
    StaleImport,
    /// 138: too many modules are reached.
    ModuleLimit,
    /// 140: types do not fit.
    Mismatch,
    /// 141: what is called is not a function for this call.
    NotCallable,
    /// 142: a wrong number of arguments.
    ArgumentCount,
    /// 143: generic arguments that cannot be inferred.
    NotInferred,
    /// 144: a type does not conform to an interface.
    NotConform,
    /// 145: a place that cannot be written.
    NotAssignable,
    /// 146: a write to `this` in a method that is not mutating.
    ImmutableThis,
    /// 147: a function with a result can end without a return.
    NoReturn,
    /// 148: no constant value.
    NotConstant,
    /// 149: a length or index out of range.
    ArrayLength,
    /// 150: a requirement has no member.
    RequirementMissing,
    /// 151: a member differs from its requirement.
    RequirementDiffers,
    /// 152: an associated type is not bound.
    AssociatedMissing,
    /// 153: a binding uses a projection of another form.
    BindingForm,
    /// 154: an extension of something other than a struct with its parameters.
    ExtensionHead,
    /// 155: a conformance is declared twice.
    ConformsTwice,
    /// 156: a struct contains itself.
    SelfContaining,
    /// 157: an entry of another shape.
    EntryShape,
    /// 158: `break` or `continue` outside of a loop.
    OutsideLoop,
    /// 159: a resource where none may stand.
    ResourcePlace,
    /// 160: no member of that name.
    NoMember,
    /// 162: a type or an evidence is too large.
    TermSize,
    /// 164: the stored module would be too large.
    StoredSize,
    /// 199: a form that is not compiled yet.
    NotYet,
}

impl ModuleCode {
    /// The number that is printed for the code.
    pub fn number(&self) -> u16
        ensures { result ≡ code_number self.now }
    {
        match self {
            ModuleCode::BadByte => 101,
            ModuleCode::Preprocessor => 102,
            ModuleCode::BadToken => 103,
            ModuleCode::NumberRange => 104,
            ModuleCode::Syntax => 110,
            ModuleCode::TooNested => 111,
            ModuleCode::TooLong => 112,
            ModuleCode::Float => 120,
            ModuleCode::Existential => 121,
            ModuleCode::Texture => 122,
            ModuleCode::Unsupported => 123,
            ModuleCode::NoModule => 130,
            ModuleCode::ImportCycle => 131,
            ModuleCode::Twice => 132,
            ModuleCode::Unknown => 133,
            ModuleCode::Ambiguous => 134,
            ModuleCode::NoAccess => 135,
            ModuleCode::ModuleName => 136,
            ModuleCode::StaleImport => 137,
            ModuleCode::ModuleLimit => 138,
            ModuleCode::Mismatch => 140,
            ModuleCode::NotCallable => 141,
            ModuleCode::ArgumentCount => 142,
            ModuleCode::NotInferred => 143,
            ModuleCode::NotConform => 144,
            ModuleCode::NotAssignable => 145,
            ModuleCode::ImmutableThis => 146,
            ModuleCode::NoReturn => 147,
            ModuleCode::NotConstant => 148,
            ModuleCode::ArrayLength => 149,
            ModuleCode::RequirementMissing => 150,
            ModuleCode::RequirementDiffers => 151,
            ModuleCode::AssociatedMissing => 152,
            ModuleCode::BindingForm => 153,
            ModuleCode::ExtensionHead => 154,
            ModuleCode::ConformsTwice => 155,
            ModuleCode::SelfContaining => 156,
            ModuleCode::EntryShape => 157,
            ModuleCode::OutsideLoop => 158,
            ModuleCode::ResourcePlace => 159,
            ModuleCode::NoMember => 160,
            ModuleCode::TermSize => 162,
            ModuleCode::StoredSize => 164,
            ModuleCode::NotYet => 199,
        }
    }

    /// The name that is printed for the code.
    pub fn name(&self) -> &'static str
        ensures { result.now ≡ code_name self.now }
    {
        match self {
            ModuleCode::BadByte => "BadByte",
            ModuleCode::Preprocessor => "Preprocessor",
            ModuleCode::BadToken => "BadToken",
            ModuleCode::NumberRange => "NumberRange",
            ModuleCode::Syntax => "Syntax",
            ModuleCode::TooNested => "TooNested",
            ModuleCode::TooLong => "TooLong",
            ModuleCode::Float => "Float",
            ModuleCode::Existential => "Existential",
            ModuleCode::Texture => "Texture",
            ModuleCode::Unsupported => "Unsupported",
            ModuleCode::NoModule => "NoModule",
            ModuleCode::ImportCycle => "ImportCycle",
            ModuleCode::Twice => "Twice",
            ModuleCode::Unknown => "Unknown",
            ModuleCode::Ambiguous => "Ambiguous",
            ModuleCode::NoAccess => "NoAccess",
            ModuleCode::ModuleName => "ModuleName",
            ModuleCode::StaleImport => "StaleImport",
            ModuleCode::ModuleLimit => "ModuleLimit",
            ModuleCode::Mismatch => "Mismatch",
            ModuleCode::NotCallable => "NotCallable",
            ModuleCode::ArgumentCount => "ArgumentCount",
            ModuleCode::NotInferred => "NotInferred",
            ModuleCode::NotConform => "NotConform",
            ModuleCode::NotAssignable => "NotAssignable",
            ModuleCode::ImmutableThis => "ImmutableThis",
            ModuleCode::NoReturn => "NoReturn",
            ModuleCode::NotConstant => "NotConstant",
            ModuleCode::ArrayLength => "ArrayLength",
            ModuleCode::RequirementMissing => "RequirementMissing",
            ModuleCode::RequirementDiffers => "RequirementDiffers",
            ModuleCode::AssociatedMissing => "AssociatedMissing",
            ModuleCode::BindingForm => "BindingForm",
            ModuleCode::ExtensionHead => "ExtensionHead",
            ModuleCode::ConformsTwice => "ConformsTwice",
            ModuleCode::SelfContaining => "SelfContaining",
            ModuleCode::EntryShape => "EntryShape",
            ModuleCode::OutsideLoop => "OutsideLoop",
            ModuleCode::ResourcePlace => "ResourcePlace",
            ModuleCode::NoMember => "NoMember",
            ModuleCode::TermSize => "TermSize",
            ModuleCode::StoredSize => "StoredSize",
            ModuleCode::NotYet => "NotYet",
        }
    }
}
