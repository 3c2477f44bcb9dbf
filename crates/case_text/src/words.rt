//! Tables of words in test files.

/// Returns the value of a word, or `None` if the table lacks the word.
pub(crate) fn value_of_word<T: Copy>(table: &[(&str, T)], word: &str) -> Option<T> {
    for (name, value) in table {
        if *name == word {
            return Some(*value);
        }
    }
    None
}
