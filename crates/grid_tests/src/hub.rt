// A layout that is no mesh: a hub, and roads to it and from it.
ghost use Rattle.grid_tests.specs.Hub.{topology_of_hub, turns_of_hub};
ghost use Rattle.grid_tests.specs.HubLaw.{hub_ways, hub_turns, hub_no_tiles, hub_no_turns};

use layouts::rules::Rules;
use layouts::turn::Turn;
use layouts::ways::Ways;

#[cfg(test)]
mod tests;

/// The layout: a link leads from each of the tiles 1 to 5 into tile 0, the hub; from there one leads to tile 1 and one to
/// tile 2, and two lead to tile 4, side by side; one leads from tile 4 to tile 5.
#[derive(Clone, Copy)]
pub struct Hub;

// The two tiles that each link joins.
const STRETCHES: [(u16, u16); 10] = [
    (1, 0),
    (2, 0),
    (3, 0),
    (4, 0),
    (5, 0),
    (0, 1),
    (0, 2),
    (0, 4),
    (0, 4),
    (4, 5),
];

// The turns that a route may take; of all others the layout tells *never*, of some of them although the links meet.
const TURNS: [(u16, u16, Turn); 12] = [
    (0, 6, Turn::Free),
    (0, 7, Turn::Free),
    (0, 8, Turn::Free),
    (1, 7, Turn::Free),
    (1, 8, Turn::Free),
    (2, 5, Turn::Free),
    (2, 6, Turn::Climb),
    (4, 5, Turn::Free),
    (4, 6, Turn::Free),
    (7, 9, Turn::Free),
    (8, 9, Turn::Free),
    (9, 4, Turn::Climb),
];

impl Ways for Hub {
    ghost topology = { λ _. topology_of_hub };

    ghost ways_law = { λ _. hub_ways };

    ghost no_tiles = { λ _. hub_no_tiles };

    fn tiles(&self) -> u16 {
        6
    }

    fn links(&self) -> u16 {
        10
    }

    fn start(&self, link: u16) -> u16 {
        STRETCHES
            .get(usize::from(link))
            .map_or(255, |stretch| stretch.0)
    }

    fn end(&self, link: u16) -> u16 {
        STRETCHES
            .get(usize::from(link))
            .map_or(255, |stretch| stretch.1)
    }
}

impl Rules for Hub {
    ghost turns = { λ _. turns_of_hub };

    ghost turn_law = { λ _. hub_turns };

    ghost no_turns = { λ _. hub_no_turns };

    fn turn(&self, a: u16, b: u16) -> Turn {
        TURNS
            .iter()
            .find(|turn| turn.0 == a && turn.1 == b)
            .map_or(Turn::Never, |turn| turn.2)
    }
}
