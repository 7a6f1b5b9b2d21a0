// Bytes of the text.

pub(crate) const QUOTE_MARK: u8 = b'"';

pub(crate) const COMMA: u8 = b',';

pub(crate) const DIGIT_ZERO: u8 = b'0';
