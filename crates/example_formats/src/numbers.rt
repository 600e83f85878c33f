//! A map whose keys are strings goes to JSON and back.
ghost use Rattle.std.specs.Prelude.{◌≡◌};
ghost use Rattle.litemap.specs.Words.{IfOk, get_by_text};

use litemap::VecMap;
use litemap_json::laws::one_reading_by_string;
use litemap_json::{from_json, to_json};
use std::alloc::{AllocError, Global};

/// Numbers by their names.
pub type Numbers = VecMap<String, u32>;

/// The numbers, written as JSON and read back: each name has the number that it had.
pub fn copied(alloc: Global, numbers: &Numbers) -> Result<Numbers, AllocError>
    ensures { IfOk result (λ copy. (name : _) → get_by_text copy name ≡ get_by_text numbers.now name) }
{
    let Ok(value) = to_json(alloc, numbers) else {
        return Err(AllocError);
    };
    one_reading_by_string::<u32>();
    let Ok(copy) = from_json(alloc, &value) else {
        return Err(AllocError);
    };
    Ok(copy)
}
