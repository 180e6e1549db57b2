// The layout of a program, written or measured.
#![tactic(auto)]

ghost use Rattle.rules.specs.Tree.{Tree};
ghost use Rattle.rules_layout.specs.Bytes.{layout};
ghost use Rattle.layout_back.specs.Back.{Wrote};
ghost use Rattle.layout_write.specs.Lent.{Lent};

use layout_back::Source;

// The layout of the program whose nodes and rows are lent, so that it ends at a place: where it begins.
pub fn write(source: &Source<'_>, count: u32, room: &mut [u8], at: usize) -> usize
    ensures { (u : Tree) → Lent source.now.text.now source.now.rows.now source.now.nodes.now count u → Wrote (layout u)
        room.old at room.new result }
{
    layout_tree::program(source, count, room, at)
}
