//! What holds of the code of a text in its program.

ghost use Rattle.c_laid.specs.Laid.{CodeIsLaid};
ghost use Rattle.c_laid.specs.Pointed.{PointedFunctionsAreDefined};
ghost use Rattle.c_laid.specs.Data.{FirstMemoryLies};
ghost use Rattle.c_laid.specs.Functions.{FunctionsAreLettered};
ghost use Rattle.c_laid.specs.Rooms.{ObjectsAreFew, SmallProgramsHaveRoom};
ghost use Rattle.c_laid.specs.Memories.{FirstMemoriesMean};
ghost use Rattle.c_laid.specs.Words.{ObjectsHaveWords, LiteralsOfTextsAreWords};
ghost use Rattle.c_laid.specs.Fits.{DataFits};

/// The opening call stands at a program's first block, and each function of the text where its entry says; no two of them begin in one block.
pub fn code_is_laid()
    ensures { CodeIsLaid }
{}

/// They point to functions that the text defines.
pub fn pointed_functions_are_defined()
    ensures { PointedFunctionsAreDefined }
{}

/// The objects of file scope lie in the first memory of a text's program below its frames, and each literal stands at its address, where no object lies.
pub fn data_lies()
    ensures { FirstMemoryLies }
{}

/// Under its name a function has the literals of its body.
pub fn functions_are_lettered()
    ensures { FunctionsAreLettered }
{}

/// The objects of file scope have few words.
pub fn objects_are_few()
    ensures { ObjectsAreFew }
{}

/// A program of at most 2^21 has few blocks, and room for the frames of calls.
pub fn small_programs_have_room()
    ensures { SmallProgramsHaveRoom }
{}

/// The first memory means the objects of the text.
pub fn first_memories_mean()
    ensures { FirstMemoriesMean }
{}

/// Each object has a word.
pub fn objects_have_words()
    ensures { ObjectsHaveWords }
{}

/// Literals are words, with fewer operators too.
pub fn literals_of_texts_are_words()
    ensures { LiteralsOfTextsAreWords }
{}

/// It is what the text says, where addresses and blocks are words.
pub fn data_fits()
    ensures { DataFits }
{}
