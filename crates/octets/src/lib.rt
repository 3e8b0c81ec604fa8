// Bytes: comparing, copying and clearing them, and the numbers that they hold.
#![tactic(auto)]

pub mod compare;
pub mod decimals;
pub mod numbers;
pub mod parts;
pub mod places;
pub mod sizes;
pub mod written;

// Why a text is not the decimal of a 64-bit number.
#[derive(Clone, Copy, Debug, PartialEq, Eq)]
pub enum DecimalError {
    // It has a sign, a blank, a spare leading zero or another byte that is no digit, or is empty.
    Malformed,
    // It is plain, and 2^64 or more.
    TooLarge,
}
