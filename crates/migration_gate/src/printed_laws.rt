//! Laws of the printed form.

ghost use Rattle.migration_gate.specs.PrintedLaws.{EachWithItsWorks};

use crate::machine_laws::files_are_apart;

/// Each accepted file is printed with all works of its own tree, and with no other.
pub fn each_with_its_works()
    ensures { EachWithItsWorks }
{
    files_are_apart()
}
