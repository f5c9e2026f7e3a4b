//! Sections of the manual.
ghost use Rattle.std.specs.Prelude.{◌≡◌};
ghost use Rattle.bpaf_help.specs.View.{section_name};

/// The section of the manual that a page belongs to.
#[derive(Clone, Copy, Debug)]
pub enum Section<'a> {
    General,
    SystemCall,
    LibraryFunction,
    SpecialFile,
    FileFormat,
    Game,
    Misc,
    Sysadmin,
    Custom(&'a str),
}

impl<'a> Section<'a> {
    /// The section as the title line has it: `1` to `8` in the order above, or the given text.
    pub fn as_str(&self) -> &'a str
        ensures { result.now ≡ section_name self.now }
    {
        match *self {
            Section::General => "1",
            Section::SystemCall => "2",
            Section::LibraryFunction => "3",
            Section::SpecialFile => "4",
            Section::FileFormat => "5",
            Section::Game => "6",
            Section::Misc => "7",
            Section::Sysadmin => "8",
            Section::Custom(name) => name,
        }
    }
}
