// The loads of the links, as a picture of the grid.
ghost use Rattle.std.specs.Prelude.{ℕ, ◌<◌, MatchOption};
ghost use Rattle.layouts.specs.Mesh.{meaning_of};
ghost use Rattle.planner.specs.Links.{Leads};

use layouts::ways::Ways;
use routes::load::link_load;
use session::session::{GridOnMesh, Session};
use std::io;

// The first link that leads from one tile to another, if there is one.
fn link_between(shown: &GridOnMesh<'_>, from: u16, to: u16) -> Option<u16>
    ensures { MatchOption result ((k : ℕ) → k < (meaning_of shown.now.grid.now.layout).links → Leads (meaning_of shown.now.grid.now.layout) from to k → ⊥) (λ link. (link < (meaning_of shown.now.grid.now.layout).links) × Leads (meaning_of shown.now.grid.now.layout) from to link) }
{
    let mesh = shown.grid.layout();
    for link in 0..mesh.links() {
        if mesh.start(link) == from && mesh.end(link) == to {
            return Some(link);
        }
    }
    None
}

// Prints the link from one tile to another and its load, this in so many columns.
fn print_link(
    rt: &HostRuntime,
    shown: &GridOnMesh<'_>,
    arrow: char,
    (from, to): (u16, u16),
    columns: usize,
) -> io::Result<()> {
    let Some(link) = link_between(shown, from, to) else {
        return Ok(())
    };
    let load = link_load(shown.grid.streams(), link);
    print!(rt; "{arrow}{link:>4}:{load:<columns$}")
}

// Prints the tiles from one to another with the links that lead east, and below them those that lead west.
fn print_tiles(rt: &HostRuntime, shown: &GridOnMesh<'_>, first: u16, last: u16) -> io::Result<()> {
    for tile in first..last {
        print!(rt; "[{tile:>2}] ")?;
        print_link(rt, shown, '>', (tile, tile + 1), 7)?;
    }
    println!(rt; "[{last:>2}]")?;
    for tile in first..last {
        print!(rt; "     ")?;
        let columns = if tile + 1 == last { 0 } else { 7 };
        print_link(rt, shown, '<', (tile + 1, tile), columns)?;
    }
    println!(rt; "")
}

// Prints the links that lead north to these tiles, and below them those that lead south from them.
fn print_uprights(
    rt: &HostRuntime,
    shown: &GridOnMesh<'_>,
    first: u16,
    last: u16,
) -> io::Result<()> {
    for arrow in ['^', 'v'] {
        for tile in first..=last {
            let below = tile.saturating_sub(shown.width);
            let ends = if arrow == '^' {
                (below, tile)
            } else {
                (tile, below)
            };
            let columns = if tile == last { 0 } else { 12 };
            print_link(rt, shown, arrow, ends, columns)?;
        }
        println!(rt; "")?;
    }
    Ok(())
}

// Prints the loads of the links of a mesh: its tiles from the upper row to the lower one, and between two tiles the links that lead
// each way, each with its number and its load.
pub(crate) fn print_loads(rt: &HostRuntime, session: &Session) -> io::Result<()> {
    let Some(shown) = session.shown() else {
        return Ok(())
    };
    for y in (0..shown.height).rev() {
        let first = y.saturating_mul(shown.width);
        let last = first.saturating_add(shown.width).saturating_sub(1);
        print_tiles(rt, &shown, first, last)?;
        if y > 0 {
            print_uprights(rt, &shown, first, last)?;
        }
    }
    Ok(())
}
