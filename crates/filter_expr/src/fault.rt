use search_base::{Fault, Word};

/// Why a value is no filter. Texts are numbered from 1 in their order, those of inner arrays included, and places are
/// bytes from 0.
#[derive(Debug, Drop)]
pub enum FilterRefusal {
    /// A text is neither blank nor a filter, of any depth. Up to the place it begins some filter, and with the next
    /// byte it does not; the place is the text's length where all of it begins one.
    Syntax { text: u32, place: u32 },
    /// At the place, a NOT or a bracket opens inside 200 others, and the text up to its end begins some filter. What
    /// comes behind it does not matter.
    TooDeep { text: u32, place: u32 },
    /// A value that is compared by order is no whole number from -2^63 to 2^64 - 1.
    NotANumber { value: Word },
    /// The value is neither null, nor a text, nor an array of texts and arrays of texts.
    NotText,
}

/// Why there is no filter of a value: what `FilterRefusal` says, or want of memory.
pub type FilterFault = Fault<FilterRefusal>;
