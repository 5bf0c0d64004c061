//! What is made by what words choose.
ghost use Rattle.std.specs.Prelude.{◌≡◌, Bool};
ghost use Rattle.config_file.specs.squawk_words.declared.choices.Choices.{Choices as AnyChoices};

use config_file::Choices;

/// What is made by the rules and settings that words choose, and by whether unsafe fixes are made too. `by` says what that is.
pub trait Chosen {
    ghost by: { AnyChoices → Bool → Self };

    /// What is made by these choices.
    fn by_choices(choices: Choices, with_unsafe: bool) -> Self
        ensures { result ≡ by choices with_unsafe };
}
