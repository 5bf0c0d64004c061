//! Laws: what holds of the text around a statement whose fix is safe, or is offered at all.

ghost use Rattle.fix_class.specs.Laws.{ConcurrentFixesAreAlone, SafeFixesCutNames, TimeoutFixesSpareOutsideWork};

/// A safe fix cuts a name of ASCII that is too long, as PostgreSQL itself does. Where an index is to be built, dropped or rebuilt CONCURRENTLY, no
/// transaction is open and no timeout was set; and no timeout is offered to a text with work that runs outside of transactions alone, or that a fix may
/// make so. So no fix leaves what the hazards on transactions and on timeouts report.
pub fn classes_tell()
    ensures safe { SafeFixesCutNames }
    ensures concurrent { ConcurrentFixesAreAlone }
    ensures timeouts { TimeoutFixesSpareOutsideWork }
{}
