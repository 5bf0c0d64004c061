//! The rules that mean others. Written by tools/rule_pages.py.

/// `require-timeout-settings`.
pub(crate) const REQUIRE_TIMEOUT_SETTINGS: &str = "require-timeout-settings

It means `require-lock-timeout` and `require-statement-timeout`. It is an
alias: both rules are on, whether or not it is named.
";
