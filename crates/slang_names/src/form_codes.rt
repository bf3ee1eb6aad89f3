// The codes by which a stored module is refused.

ghost use Rattle.std.specs.Prelude.{◌≡◌};
ghost use Rattle.slang_names.specs.FormCodes.{form_number, form_name};

/// Why a stored module is refused.
#[derive(Clone, Copy, Debug)]
pub enum FormCode {
    /// 301: the bytes end before the module does.
    Short,
    /// 302: the first four bytes are not those of a stored module.
    BadMagic,
    /// 303: another version of the form.
    BadVersion,
    /// 304: no stored module goes on so.
    NotCanonical,
    /// 305: a byte after the whole module.
    Trailing,
    /// 306: a part of the module breaks a rule of types.
    NotTyped,
    /// 307: a limit of the form is passed.
    FormLimit,
    /// 308: the module has another name than its file.
    WrongName,
}

impl FormCode {
    /// The number that is printed for the code.
    pub fn number(&self) -> u16
        ensures { result ≡ form_number self.now }
    {
        match self {
            FormCode::Short => 301,
            FormCode::BadMagic => 302,
            FormCode::BadVersion => 303,
            FormCode::NotCanonical => 304,
            FormCode::Trailing => 305,
            FormCode::NotTyped => 306,
            FormCode::FormLimit => 307,
            FormCode::WrongName => 308,
        }
    }

    /// The name that is printed for the code.
    pub fn name(&self) -> &'static str
        ensures { result.now ≡ form_name self.now }
    {
        match self {
            FormCode::Short => "Short",
            FormCode::BadMagic => "BadMagic",
            FormCode::BadVersion => "BadVersion",
            FormCode::NotCanonical => "NotCanonical",
            FormCode::Trailing => "Trailing",
            FormCode::NotTyped => "NotTyped",
            FormCode::FormLimit => "FormLimit",
            FormCode::WrongName => "WrongName",
        }
    }
}
