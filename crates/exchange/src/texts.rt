// The fixed texts. The parenthesis that opens a command ends the text before it.
pub const SET_LOGIC: [u8; 20] = *b"(set-logic QF_LRA)\n(";

pub const DECLARE_CONST: [u8; 14] = *b"declare-const ";

pub const OF_REAL: [u8; 8] = *b" Real)\n(";

pub const ASSERT_ROW: [u8; 10] = *b"assert (= ";

pub const END_ASSERT: [u8; 4] = *b"))\n(";

pub const OPEN_SUM: [u8; 3] = *b" (+";

pub const OPEN_TERM: [u8; 4] = *b" (* ";

pub const OPEN_MINUS: [u8; 3] = *b"(- ";

pub const ASSERT_LIMIT: [u8; 8] = *b"assert (";

pub const NO_LESS: [u8; 2] = *b">=";

pub const MORE: [u8; 1] = *b">";

pub const NO_MORE: [u8; 2] = *b"<=";

pub const LESS: [u8; 1] = *b"<";

pub const CHECK_SAT: [u8; 11] = *b"check-sat)\n";
