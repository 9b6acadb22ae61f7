// Words that are looked for, and the closing parenthesis; the other fixed texts are those of the writer.
pub const DECLARE: [u8; 13] = *b"declare-const";

pub const ASSERT: [u8; 6] = *b"assert";

pub const OPEN: [u8; 1] = *b"(";

pub const CLOSE: [u8; 1] = *b")";
