//! Code as a listing for people.
ghost use Rattle.std.specs.Prelude.{◌≡◌, IfOk, string_bytes};
ghost use Rattle.listings.specs.ListingText.{listing};

use compiler::instruction::Instruction;
use semantics::Needs;
use std::alloc::{AllocError, Global};

/// The listing of code, four numbers to an instruction, with what the program costs and how high it goes.
pub fn listing_text(heap: Global, code: &[u16], needs: Needs) -> Result<String, AllocError>
    ensures { IfOk result (λ s. string_bytes s ≡ listing code.now needs.cost needs.height needs.depth) }
{
    let mut out = String::new(heap);
    let (instructions, _) = code.as_chunks::<4>();
    for (place, numbers) in instructions.iter().enumerate() {
        let instruction = Instruction::from(*numbers);
        writeln!(out, "{place} {instruction}")?;
    }
    let Needs {
        cost,
        height,
        depth,
        ..
    } = needs;
    writeln!(out, "cost {cost}, height {height}, depth {depth}")?;
    Ok(out)
}
