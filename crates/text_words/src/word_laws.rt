//! The laws of words. The function is empty, and its contract is laws.

ghost use Rattle.text_words.specs.Laws.{ByteWordsAreRead, HexWordsAreRead, IdWordsAreRead, NumberWordsAreRead};

/// Each number, id and byte list has one word of its kind, and a word is read as the one thing that it stands for.
pub fn words_are_read()
    ensures number { NumberWordsAreRead }
    ensures id { IdWordsAreRead }
    ensures hex { HexWordsAreRead }
    ensures bytes { ByteWordsAreRead }
{}
