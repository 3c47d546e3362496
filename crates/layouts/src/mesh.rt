// The mesh layouts.
ghost use Rattle.std.specs.Prelude.{◌≡◌, IfOk, MatchResult};
ghost use Rattle.refusals.specs.declared.refusal.Refusal.TheVariants.{MeshSize};
ghost use Rattle.layouts.specs.Links.{InRange};
ghost use Rattle.layouts.specs.Mesh.{IsMesh, meaning_of, mesh_meaning};
ghost use Rattle.layouts.specs.Law.{mesh_ways, mesh_turns, mesh_no_tiles, mesh_no_turns};
ghost use Rattle.layouts.specs.Layout.{topology_in, turns_in};

use crate::rules::Rules;
use crate::size::Size;
use crate::turn::Turn;
use crate::turn_rule::TurnRule;
use crate::ways::Ways;
use refusals::refusal::Refusal;

/// A grid of tiles in rows and columns, with a link each way between neighbours, under a turn rule.
#[derive(Clone, Copy)]
pub struct Mesh {
    size: Size,
    rule: TurnRule,
}

impl Mesh {
    /// The mesh of a rule, a width and a height. Refuses a width or a height outside 2 to 8 by `MeshSize`.
    ///
    /// Its contract tells the mesh twice: by the numbers of its links, from which the answers are computed, and by the links
    /// themselves.
    pub fn new(rule: TurnRule, width: u16, height: u16) -> Result<Mesh, Refusal>
        ensures value { MatchResult result (λ m. InRange width height × (meaning_of m ≡ mesh_meaning rule width height)) (λ e. (InRange width height → ⊥) × (e ≡ MeshSize)) }
        ensures numbered { IfOk result (λ m. IsMesh rule width height (meaning_of m)) }
    {
        let size = Size::new(width, height)?;
        Ok(Mesh { size, rule })
    }
}

impl Ways for Mesh {
    ghost topology = { λ m. topology_in (meaning_of m) };

    ghost ways_law = { λ m. mesh_ways m.rule _ _ m.size.ok };

    ghost no_tiles = { λ m. mesh_no_tiles m.rule _ _ m.size.ok };

    fn tiles(&self) -> u16 {
        self.size.tiles()
    }

    fn links(&self) -> u16 {
        self.size.links()
    }

    fn start(&self, link: u16) -> u16 {
        self.size.span(link).map_or(255, |span| span.start)
    }

    fn end(&self, link: u16) -> u16 {
        self.size.span(link).map_or(255, |span| span.end)
    }
}

impl Rules for Mesh {
    ghost turns = { λ m. turns_in (meaning_of m) };

    ghost turn_law = { λ m. mesh_turns m.rule _ _ m.size.ok };

    ghost no_turns = { λ m. mesh_no_turns m.rule _ _ m.size.ok };

    fn turn(&self, a: u16, b: u16) -> Turn {
        match (self.size.span(a), self.size.span(b)) {
            (Some(from), Some(to)) => self.rule.turn(from, to),
            _ => Turn::Never,
        }
    }
}
