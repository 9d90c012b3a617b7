// That the numbers in the line of a sample are those of its program.
ghost use Rattle.elvm_sample.specs.Laws.{SamplesArePrograms, SamplesEnd, SamplesHaveTheirSize, SamplesWrite};

/// A sample of n blocks has the size 6 n.
pub fn samples_have_their_size()
    ensures { SamplesHaveTheirSize }
{}

/// A sample of at most 20,000 blocks is a program.
pub fn samples_are_programs()
    ensures { SamplesArePrograms }
{}

/// A sample of n blocks ends after 5 n steps and not before, whatever the input.
pub fn samples_end()
    ensures { SamplesEnd }
{}

/// A sample of n blocks writes n bytes and takes none, whatever the input.
pub fn samples_write()
    ensures { SamplesWrite }
{}
