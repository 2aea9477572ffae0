//! Tokens as a caller makes them: 32 hex digits that look like chance.
use std::alloc::{AllocError, Global};

/// The tokens of transactions.
#[derive(Clone, Copy)]
pub(crate) enum Tokens {
    Without,
    OfTheirOwn,
}

impl Tokens {
    /// The token of a transaction by its number.
    pub fn of(self, alloc: Global, number: u32) -> Result<Option<String>, AllocError> {
        match self {
            Tokens::Without => Ok(None),
            Tokens::OfTheirOwn => Ok(Some(token_of(alloc, number)?)),
        }
    }
}

fn token_of(alloc: Global, number: u32) -> Result<String, AllocError> {
    let mut text = String::with_capacity(alloc, 32)?;
    let first = mixed(u64::from(number));
    push_hex(&mut text, first)?;
    push_hex(&mut text, mixed(first))?;
    Ok(text)
}

/// A step of the generator SplitMix64.
fn mixed(state: u64) -> u64 {
    let one = state.wrapping_add(0x9E37_79B9_7F4A_7C15);
    let two = (one ^ (one >> 30)).wrapping_mul(0xBF58_476D_1CE4_E5B9);
    let three = (two ^ (two >> 27)).wrapping_mul(0x94D0_49BB_1331_11EB);
    three ^ (three >> 31)
}

/// Sixteen hex digits, from the highest.
fn push_hex(text: &mut String, word: u64) -> Result<(), AllocError> {
    let digits = b"0123456789abcdef";
    for place in 0..16u32 {
        let half = word >> (60 - 4 * place) & 15;
        text.push(char::from(digits[half as usize]))?;
    }
    Ok(())
}
