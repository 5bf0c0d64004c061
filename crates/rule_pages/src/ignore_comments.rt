//! The rules of the group "Ignore comments". Written by tools/rule_pages.py.

/// `unused-ignore`.
pub(crate) const UNUSED_IGNORE: &str = "unused-ignore

  default: on
  fix:     none
  lock:    none

A name with a typing error ignores nothing. A comment that is left over may one
day hide a report that matters.

Instead of

    -- squawk-ignore ban-drop-tabel, ban-drop-view
    DROP TABLE t;

Write

    SET lock_timeout = '1s';
    SET statement_timeout = '5s';
    -- squawk-ignore ban-drop-table
    DROP TABLE IF EXISTS t;

It does not see names of rules that are off, which may be on elsewhere.

Details

- Reported: in an ignore comment, each name that is no rule's; and each rule's
  name that leaves out no report, where that rule is enabled. In `lavkheto
  check` a hazard counts as a rule.
- Not reported: a rule's name where the rule is not enabled: it may be enabled
  elsewhere.
- On or off: it is printed, and cannot be named, so no word turns it off. A
  name of no rule is reported whatever rules are enabled. An unused name is
  reported only where this rule is enabled: by default, and not with `--only`.

    $ printf -- '-- squawk-ignore ban-drop-tabel, ban-drop-view\\nDROP TABLE t;\\n' | ./lavkheto check --exclude prefer-robust-stmts,require-timeout-settings
    warning[unused-ignore]: unknown name `ban-drop-tabel`
     --> stdin:1:18
      |
    1 | -- squawk-ignore ban-drop-tabel, ban-drop-view
      |                  ^^^^^^^^^^^^^^

    warning[unused-ignore]: unused ignore `ban-drop-view`
     --> stdin:1:34
      |
    1 | -- squawk-ignore ban-drop-tabel, ban-drop-view
      |                                  ^^^^^^^^^^^^^

    warning[ban-drop-table]: dropping a table may break existing clients
     --> stdin:2:1
      |
    2 | DROP TABLE t;
      | ^^^^^^^^^^^^^

    Found 3 issues in 1 of 1 file
";
