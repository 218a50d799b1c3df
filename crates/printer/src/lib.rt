//! A tree written as tokens: the one shortest row of them that reads as it.
#![tactic(auto)]

ghost use Rattle.syntax.specs.Printer.{PrintsBack, Shortest};
ghost use Rattle.printer.specs.Reprints.{Reprints};

use base::Refusal;
use syntax::parse;
pub use writer::print;

mod writer;

/// Writes the shortest tokens that are read as the same program, at the start of a room, and says how many they are; a refusal leaves the room as it was.
pub fn reprint(tokens: &[u16], room: &mut [u16]) -> Result<u64, Refusal>
    ensures { Reprints tokens.now room.old result room.new }
{
    let tree = parse(tokens)?;
    print(&tree, room)
}

/// The theorems of the printer.
pub fn printer_is_right()
    ensures back { PrintsBack }
    ensures shortest { Shortest }
{}
