// Text as bytes: the words of a line, the numbers that they stand for, and text put into a buffer.
#![tactic(auto)]

mod fields;
mod numbers;
mod put;
mod search;
mod words;

pub use fields::put_fields;
pub use numbers::{decimal_word, hex_word, number};
pub use put::{Text, put_byte, put_bytes, put_decimal, put_hex, put_places};
pub use search::{find, position_of};
pub use words::{first_word, part, past, past_word, which, word, word_count};
