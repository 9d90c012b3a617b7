//! What holds of the tokens of texts.

ghost use Rattle.c_text.specs.Laws.{PreparedTextsEnd, ReadTextsEnd};

/// The tokens that `prepare` gives are a list as `parse` asks for: the last is the text's end.
pub fn prepared_texts_end()
    ensures { PreparedTextsEnd }
{}

/// So are those that `lex` gives, where at most 1,000,000 stand before the end.
pub fn read_texts_end()
    ensures { ReadTextsEnd }
{}
