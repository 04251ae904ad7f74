#![tactic(auto)]
// The padded message of SHA-256 (FIPS 180-4, §5.1 and §5.2): words straight from a part, and 64 bytes of it laid out.
pub mod message;
// A message as parts.
pub mod parts;
