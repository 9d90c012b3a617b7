// What holds of the definition.
ghost use Rattle.mach_core.specs.Rule.{FaultsAreSilent};
ghost use Rattle.piet_image.specs.Block.{Atlas};
ghost use Rattle.piet_image.specs.Picture.{Picture};
ghost use Rattle.piet_lang.specs.Step.{piet_rule};

/// A step that meets a fault takes nothing and writes nothing.
pub fn faults_are_silent()
    ensures { (f : Picture) (atlas : Atlas f) → FaultsAreSilent (piet_rule f atlas) }
{}
