// Ways that have no rules.
ghost use Rattle.kind_tests.specs.Ring.{topology_of_ring};
ghost use Rattle.kind_tests.specs.RingLaw.{ring_ways, ring_no_tiles};

use layouts::ways::Ways;

/// A ring of four tiles, with a link from each to the next, and one across, from tile 0 to tile 2. There are no words for two
/// links in a row.
#[derive(Clone, Copy)]
pub struct Ring;

// The two tiles that each link joins.
const STRETCHES: [(u16, u16); 5] = [(0, 1), (1, 2), (2, 3), (3, 0), (0, 2)];

impl Ways for Ring {
    ghost topology = { λ _. topology_of_ring };

    ghost ways_law = { λ _. ring_ways };

    ghost no_tiles = { λ _. ring_no_tiles };

    fn tiles(&self) -> u16 {
        4
    }

    fn links(&self) -> u16 {
        5
    }

    fn start(&self, link: u16) -> u16 {
        STRETCHES
            .get(usize::from(link))
            .map_or(255, |stretch| stretch.0)
    }

    fn end(&self, link: u16) -> u16 {
        STRETCHES
            .get(usize::from(link))
            .map_or(255, |stretch| stretch.1)
    }
}
