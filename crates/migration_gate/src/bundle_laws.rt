//! Laws of bundles.

ghost use Rattle.migration_gate.specs.BundleLaws.{OneBadPlace, OneReading, NeverBundleAndBad};

/// A text has at most one list of entries, at most one place at which it is no bundle, and never both.
pub fn one_reading()
    ensures entries { OneReading }
    ensures place { OneBadPlace }
    ensures apart { NeverBundleAndBad }
{}
