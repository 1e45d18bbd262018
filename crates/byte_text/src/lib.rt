//! Text as bytes: hexadecimal and decimal digits, the parts of a line, writes that are counted, and a buffer before them.
#![tactic(auto)]

mod counted;
mod decimals;
mod digits;
mod splitting;
mod write_buffer;

pub use counted::{WriteFault, write_counted};
pub use decimals::read_decimal;
pub use digits::{hex_digits, high_digit, low_digit};
pub use splitting::split_once;
pub use write_buffer::WriteBuffer;
