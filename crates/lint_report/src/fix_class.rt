//! How far a fix can be trusted.
ghost use Rattle.std.specs.Prelude.{◌≡◌};
ghost use Rattle.lint_report.specs.FixClasses.{name_of};

/// How far a fix can be trusted.
#[derive(Clone, Copy, Debug, PartialEq, Eq)]
pub enum FixClass {
    /// The text means the same to clients, or the change is what the rule asks for and can't fail where it is made.
    Safe,
    /// It may fail, or change what the text means: somebody has to look at it.
    Unsafe,
    /// It has a part to be filled in by hand.
    Template,
}

impl FixClass {
    /// The name that formats have for it.
    pub fn name(self) -> &'static str
        ensures { result.now ≡ name_of self }
    {
        match self {
            FixClass::Safe => "safe",
            FixClass::Unsafe => "unsafe",
            FixClass::Template => "template",
        }
    }
}
