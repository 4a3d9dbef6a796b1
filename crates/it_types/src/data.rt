ghost use Rattle.std.specs.Prelude.{◌≡◌, IfOk, Ok};
ghost use Rattle.it_types.specs.Data.{if_lower, data_of};

use crate::cursor::is_word;
use crate::{Bytes, NoMemory};
use hex::FromHexError;
use std::alloc::Global;

/// The data, where these are its digits in lower case.
fn if_lower(alloc: Global, digits: &[u8], load: Vec<u8>) -> Result<Option<Bytes>, NoMemory>
    ensures { IfOk result (λ found. found ≡ if_lower digits.now (Ok load.items)) }
{
    let lower = hex::encode(alloc, load.as_slice())?;
    if is_word(lower.as_bytes(), digits) {
        Ok(Some(Bytes::from_vec(load)))
    } else {
        Ok(None)
    }
}

/// The data that the digits are read as: two lower hexadecimal digits a byte, for at most so many bytes.
#[tactic(auto, unfolding(crate::specs::Data::data_of))]
pub fn data_of(alloc: Global, limit: usize, digits: &[u8]) -> Result<Option<Bytes>, NoMemory>
    ensures { IfOk result (λ found. found ≡ data_of limit digits.now) }
{
    if digits.len() / 2 > limit {
        return Ok(None);
    }
    match hex::decode(alloc, digits) {
        Ok(load) => if_lower(alloc, digits, load),
        Err(FromHexError::OutOfMemory) => Err(NoMemory),
        Err(_) => Ok(None),
    }
}
