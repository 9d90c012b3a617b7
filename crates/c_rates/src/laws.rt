//! What a unit of the run's fuel pays for.

ghost use Rattle.c_rates.specs.Rates.{RatesFit, UnitsPay};
ghost use Rattle.c_rates.specs.Counts.{FramesFitCharges};

/// For what helper functions run, within the bound on a program's steps.
pub fn rates_fit()
    ensures { RatesFit }
{}

/// For the operations of a function with fewer operators.
pub fn units_pay()
    ensures { UnitsPay }
{}

/// The frame of a function with fewer operators is at most the charge of its call.
pub fn frames_fit_charges()
    ensures { FramesFitCharges }
{}
