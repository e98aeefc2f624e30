//! The signs of a text. Code and specs read each of them here.

pub const COLON: u8 = b':';

pub const SEMICOLON: u8 = b';';

pub const COMMA: u8 = b',';

pub const EQUALS: u8 = b'=';

pub const BAR: u8 = b'|';

pub const OPENING_BRACE: u8 = b'{';

pub const CLOSING_BRACE: u8 = b'}';

pub const OPENING_PARENTHESIS: u8 = b'(';

pub const CLOSING_PARENTHESIS: u8 = b')';
