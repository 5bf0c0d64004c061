//! The names of options, and of their values.
ghost use Rattle.std.specs.Prelude.{◌≡◌, find};
ghost use Rattle.check_words.specs.Names as spec;

use crate::request::{Color, FailOn, Format};

/// An option that takes a value.
#[derive(Clone, Copy, Debug, PartialEq, Eq)]
pub enum Choice {
    /// `--format`.
    Format,
    /// `--color`.
    Color,
    /// `--stdin-filename`.
    StdinName,
    /// `--config`.
    Config,
    /// `--baseline`.
    Baseline,
    /// `--fail-on`.
    FailOn,
    /// `--only`.
    Only,
    /// `--include`.
    Include,
    /// `--exclude`.
    Exclude,
    /// `--non-volatile`.
    NonVolatile,
    /// `--pg-major`.
    PgMajor,
    /// `--pg-minor`.
    PgMinor,
    /// `--pg-patch`.
    PgPatch,
}

/// An option that takes no value.
#[derive(Clone, Copy, Debug, PartialEq, Eq)]
pub enum Flag {
    /// `--quiet`.
    Quiet,
    /// `--statistics`.
    Statistics,
    /// `--write-baseline`.
    WriteBaseline,
    /// `--strict`.
    Strict,
    /// `--assume-in-transaction`.
    AssumeInTransaction,
    /// `--no-hazards`.
    NoHazards,
}

impl Choice {
    /// Every option that takes a value, in declaration order.
    pub const ALL: [Choice; 13] = [
        Choice::Format,
        Choice::Color,
        Choice::StdinName,
        Choice::Config,
        Choice::Baseline,
        Choice::FailOn,
        Choice::Only,
        Choice::Include,
        Choice::Exclude,
        Choice::NonVolatile,
        Choice::PgMajor,
        Choice::PgMinor,
        Choice::PgPatch,
    ];

    /// Its name, without the dashes.
    #[tactic(auto, unfolding(crate::specs::Names::name_of))]
    pub fn name(self) -> &'static str
        ensures { result.now ≡ spec.name_of self }
    {
        match self {
            Choice::Format => "format",
            Choice::Color => "color",
            Choice::StdinName => "stdin-filename",
            Choice::Config => "config",
            Choice::Baseline => "baseline",
            Choice::FailOn => "fail-on",
            Choice::Only => "only",
            Choice::Include => "include",
            Choice::Exclude => "exclude",
            Choice::NonVolatile => "non-volatile",
            Choice::PgMajor => "pg-major",
            Choice::PgMinor => "pg-minor",
            Choice::PgPatch => "pg-patch",
        }
    }
}

impl Flag {
    /// Every option that takes no value, in declaration order.
    pub const ALL: [Flag; 6] = [
        Flag::Quiet,
        Flag::Statistics,
        Flag::WriteBaseline,
        Flag::Strict,
        Flag::AssumeInTransaction,
        Flag::NoHazards,
    ];

    /// Its name, without the dashes.
    #[tactic(auto, unfolding(crate::specs::Names::flag_name))]
    pub fn name(self) -> &'static str
        ensures { result.now ≡ spec.flag_name self }
    {
        match self {
            Flag::Quiet => "quiet",
            Flag::Statistics => "statistics",
            Flag::WriteBaseline => "write-baseline",
            Flag::Strict => "strict",
            Flag::AssumeInTransaction => "assume-in-transaction",
            Flag::NoHazards => "no-hazards",
        }
    }
}

// The first option of a list that has this name.
fn first_choice(name: &str, choices: &[Choice]) -> Option<Choice>
    ensures { result ≡ find (spec.is_choice_named name.now) choices.now }
{
    for choice in choices {
        if choice.name() == name {
            return Some(*choice);
        }
    }
    None
}

/// The option with a value of a name.
#[tactic(auto, unfolding(crate::specs::Names::all_choices, crate::specs::Names::choice_named))]
pub(crate) fn choice_named(name: &str) -> Option<Choice>
    ensures { result ≡ spec.choice_named name.now }
{
    first_choice(name, &Choice::ALL)
}

// The first option of a list that has this name.
fn first_flag(name: &str, flags: &[Flag]) -> Option<Flag>
    ensures { result ≡ find (spec.is_flag_named name.now) flags.now }
{
    for flag in flags {
        if flag.name() == name {
            return Some(*flag);
        }
    }
    None
}

/// The option without a value of a name.
#[tactic(auto, unfolding(crate::specs::Names::all_flags, crate::specs::Names::flag_named))]
pub(crate) fn flag_named(name: &str) -> Option<Flag>
    ensures { result ≡ spec.flag_named name.now }
{
    first_flag(name, &Flag::ALL)
}

/// The format of a name.
pub(crate) fn format_named(name: &str) -> Option<Format>
    ensures { result ≡ spec.format_named name.now }
{
    if name == "text" {
        Some(Format::Text)
    } else if name == "concise" {
        Some(Format::Concise)
    } else if name == "gcc" {
        Some(Format::Gcc)
    } else if name == "github" {
        Some(Format::Github)
    } else if name == "json" {
        Some(Format::Json)
    } else if name == "sarif" {
        Some(Format::Sarif)
    } else if name == "gitlab" {
        Some(Format::Gitlab)
    } else {
        None
    }
}

/// The use of colors of a name.
pub(crate) fn color_named(name: &str) -> Option<Color>
    ensures { result ≡ spec.color_named name.now }
{
    if name == "auto" {
        Some(Color::Auto)
    } else if name == "always" {
        Some(Color::Always)
    } else if name == "never" {
        Some(Color::Never)
    } else {
        None
    }
}

/// The reports that make a run fail, of a name.
pub(crate) fn fail_on_named(name: &str) -> Option<FailOn>
    ensures { result ≡ spec.fail_on_named name.now }
{
    if name == "warning" {
        Some(FailOn::Warning)
    } else if name == "never" {
        Some(FailOn::Never)
    } else {
        None
    }
}
