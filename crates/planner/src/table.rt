// The open streams, as a table.
use layouts::ways::Ways;
use session::session::Session;
use std::io;

// Prints a line for each open stream: its number, its demand, and its route, with each link and its lane between the tiles that the
// link joins.
pub(crate) fn print_streams(rt: &HostRuntime, session: &Session) -> io::Result<()> {
    let Some(shown) = session.shown() else {
        return Ok(())
    };
    let mesh = shown.grid.layout();
    println!(rt; "stream  demand  hops  tiles, and between them LINK.LANE")?;
    for (number, entry) in shown.grid.streams().iter().enumerate() {
        let Some(stream) = entry else { continue };
        let hops = stream.route.hops();
        print!(rt;
            "{number:>6}  {:>6}  {:>4}  {}",
            stream.request.demand,
            hops.len(),
            stream.request.source
        )?;
        for hop in hops {
            print!(rt; " -{}.{}-> {}", hop.link, hop.lane, mesh.end(hop.link))?;
        }
        println!(rt; "")?;
    }
    Ok(())
}
