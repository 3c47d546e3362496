// The links that lead to each tile.
ghost use Rattle.layouts.specs.Layout.{meaning_by};
ghost use Rattle.search.specs.Incoming.{Chains};

use layouts::rules::Rules;
use layouts::ways::Ways;

/// For each tile the last link that leads to it, and for each link the one before it that leads to the same tile. So the links
/// into a tile are found one by one, and those into others are not looked at.
#[derive(Drop)]
pub(crate) struct Incoming {
    pub(crate) last: [Option<u16>; 64],
    pub(crate) previous: [Option<u16>; 256],
}

impl Incoming {
    // The links of a layout.
    pub(crate) fn of<L: Rules>(layout: &L) -> Incoming
        ensures { Chains (meaning_by L.topology L.turns layout.now)
            (meaning_by L.topology L.turns layout.now).links result }
    {
        let mut last = [None; 64];
        let mut previous = [None; 256];
        for link in 0..layout.links() {
            let tile = usize::from(layout.end(link));
            previous[usize::from(link)] = last[tile];
            last[tile] = Some(link);
        }
        Incoming { last, previous }
    }
}
