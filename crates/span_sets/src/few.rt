//! At most three chunks, which replace others.
ghost use Rattle.std.specs.Prelude.{◌≡◌, ◌++◌};
ghost use Rattle.std.specs.Option.{option_to_list};

use crate::chunk::Chunk;
use arrayvec::ArrayVec;

/// At most three chunks.
pub type Few = ArrayVec<Chunk, 3>;

/// Up to three chunks, one after another.
pub fn few_chunks(first: Option<Chunk>, second: Option<Chunk>, third: Option<Chunk>) -> Few
    ensures { result.items
        ≡ option_to_list first ++ (option_to_list second ++ option_to_list third) }
{
    let mut few = ArrayVec::new();
    if let Some(chunk) = first {
        few.push(chunk);
    }
    if let Some(chunk) = second {
        few.push(chunk);
    }
    if let Some(chunk) = third {
        few.push(chunk);
    }
    few
}
