//! Lists of words: items with one comma between two of them, `-` for none.

ghost use Rattle.std.specs.Prelude.{◌≤◌, length};

use script_text::reading::read_word;

/// Whether a text is a list of words.
pub fn is_word_list(list: &[u8]) -> bool {
    matches!(list, b"-")
        || list
            .split(|&byte| byte == b',')
            .all(|item| read_word(item).is_some())
}

/// Puts the words of a list at the front of `into`, and answers how many they are; what finds no room is left out, and so
/// is an item that is no word (`is_word_list`).
pub fn read_words(list: &[u8], into: &mut [u64]) -> usize
    ensures { result ≤ length into.old }
{
    let mut count = 0;
    for item in list.split(|&byte| byte == b',') {
        if let Some(word) = read_word(item) {
            if count < into.len() {
                into[count] = word;
                count += 1;
            }
        }
    }
    count
}
