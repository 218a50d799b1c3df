//! The entry of the compiler.
ghost use Rattle.compiler.specs.Made.{CodesNode, Makes, MakesRight, NeverShort};

use super::draft::Draft;
use base::Refusal;
use semantics::{check_limits, needs};
use syntax::{Tree, parse};

/// Writes the code of a program to the front of a room, if it is within the limits and the room is
/// long enough, and says how many instructions there are.
fn write_code(tree: &Tree, room: &mut [u16]) -> Result<u64, Refusal>
    ensures { CodesNode tree.now.nodes tree.now.root room.old result room.new }
{
    check_limits(needs(tree))?;
    let mut draft = Draft::new();
    draft.put_stmt(tree.nodes(), tree.root());
    draft.copy_to(room)
}

/// Makes tokens, as pairs of numbers, into code at the front of a room, and says how many
/// instructions there are. What is refused leaves the room as it was.
pub fn make(signs: &[u16], room: &mut [u16]) -> Result<u64, Refusal>
    ensures makes { Makes signs.now room.old result room.new }
    ensures right { MakesRight signs.now result room.new }
    ensures enough { NeverShort signs.now result }
{
    let tree = parse(signs)?;
    write_code(&tree, room)
}
