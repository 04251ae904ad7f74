#![tactic(auto)]
// The sizes and limits of the paper, each in one line, as the code names them; specs/Sizes has the sentences.

// Bytes of each thing that has a fixed size.
pub const NONCE_SIZE: usize = 8;

pub const TAG_SIZE: usize = 8;

pub const BLOCK_SIZE: usize = 16;

pub const DIGEST_SIZE: usize = 32;

// The longest message, and the longest key of HMAC.
pub const LONGEST_MESSAGE: usize = 65535;

pub const ACCOUNT_KEY_SIZE: usize = 16;

pub const IDENTITY_KEY_SIZE: usize = 32;

pub const IDENTIFIER_SIZE: usize = 20;

// A frame: where its identifier stands, behind the head, and its flags byte, and the bytes of one that has it.
pub const FRAME_IDENTIFIER_AT: usize = 8;

pub const FRAME_FLAGS_AT: usize = FRAME_IDENTIFIER_AT + IDENTIFIER_SIZE;

pub const LONGEST_FRAME: usize = FRAME_FLAGS_AT + 1;

// The nonces that a unit has room for, those issued last: the newest, and the earlier ones.
pub const MOST_NONCES: u8 = 16;

pub const NONCES_ROOM: usize = MOST_NONCES as usize * NONCE_SIZE;

pub const EARLIER_ROOM: usize = NONCES_ROOM - NONCE_SIZE;

// The account keys that a unit has room for.
pub const MOST_KEYS: usize = 10;

pub const KEYS_ROOM: usize = MOST_KEYS * ACCOUNT_KEY_SIZE;

// ID, length byte and tag stand before the data of a request or an answer.
pub const HEAD_SIZE: usize = 2 + TAG_SIZE;

// The most data of an answer, a recovered identity key, and the fewest answer bytes that a call with an answer takes.
pub const MOST_DATA: usize = IDENTITY_KEY_SIZE;

pub const ANSWER_ROOM: usize = HEAD_SIZE + MOST_DATA;

pub const MOST_COMPONENTS: u8 = 3;

pub const HIGHEST_VOLUME: u8 = 3;

pub const HIGHEST_BATTERY: u8 = 3;

// Tenths of a second.
pub const LONGEST_RING: u16 = 6000;

pub const FULL_CONSENT: u16 = 600;

// K, the exponent of the rotation period, and the seconds of a window.
pub const ROTATION_EXPONENT: u8 = 10;

pub const WINDOW_LENGTH: u32 = 1024;
