//! The functions that write do so as `printf` and `puts` do.

ghost use Rattle.c_formats.specs.Laws.{FormatsAreWritten};
ghost use Rattle.c_formats.specs.DigitsLaws.{HexNumbersAreWritten, IntsAreWritten, UnsignedNumbersAreWritten};
ghost use Rattle.c_formats.specs.StringsLaws.{StringsArePut, StringsAreWritten};
ghost use Rattle.c_formats.specs.FormatsFailingLaws.{FormatsFail};
ghost use Rattle.c_formats.specs.StringsFailingLaws.{PutsFails, StringsFail};

/// A call of the function of a format does what `printf` does with that format.
pub fn formats_are_written()
    ensures { FormatsAreWritten }
{}

/// The function of `%u` writes an unsigned number in decimal.
pub fn unsigned_numbers_are_written()
    ensures { UnsignedNumbersAreWritten }
{}

/// That of `%x` writes it in hex.
pub fn hex_numbers_are_written()
    ensures { HexNumbersAreWritten }
{}

/// That of `%d` writes an int in decimal.
pub fn ints_are_written()
    ensures { IntsAreWritten }
{}

/// The function of `%s` writes a string up to its zero, or as far as there is fuel.
pub fn strings_are_written()
    ensures { StringsAreWritten }
{}

/// A call of the function of `puts` does what `puts` does.
pub fn strings_are_put()
    ensures { StringsArePut }
{}

/// The function of a format is undefined where `printf` with that format is, behind the same characters.
pub fn formats_fail()
    ensures { FormatsFail }
{}

/// The function of `%s` is undefined where the string is, behind the same characters.
pub fn strings_fail()
    ensures { StringsFail }
{}

/// The function of `puts` is undefined where `puts` is, behind the same characters.
pub fn puts_fails()
    ensures { PutsFails }
{}
