//! Laws of the printed form.
ghost use Rattle.squawk_print.specs.PrintedForm.{PrintedTellsApart};

/// The printed form determines the reports, also where further bytes follow it.
pub fn printed_form_is_exact()
    ensures { PrintedTellsApart }
{}
