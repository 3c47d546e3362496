// The hops ahead of the items on the grid.
ghost use Rattle.std.specs.Prelude.{◌≡◌, ◌*◌, ◌≤◌, length};
ghost use Rattle.model.specs.Grid.{hops_from};
ghost use Rattle.model.specs.Sums.{hops_ahead};
ghost use Rattle.lanes.specs.Sizes.{setting_of};
ghost use Rattle.grid.specs.Views.{outline};
ghost use Rattle.grid.specs.HopsAhead.{stream_ahead, lane_ahead, link_ahead};

use crate::tables::Tables;
use routes::hop::Hop;

// How many hops there are from the one over a link on.
fn hops_from(hops: &[Hop], link: u16) -> usize
    ensures { result ≡ length (hops_from link hops.now) }
{
    let mut left = hops.len();
    for hop in hops {
        if hop.link == link {
            return left;
        }
        left -= 1;
    }
    0
}

impl Tables {
    // How many hops an item of a stream has ahead on a link.
    fn ahead_on(&self, stream: u16, link: u16) -> usize
        ensures { result ≡ stream_ahead self.now link stream }
    {
        match self.stream(stream) {
            Ok(stream) => hops_from(stream.route.hops(), link),
            Err(_) => 0,
        }
    }

    // The hops ahead of the items in the lane of a hop.
    #[tactic(auto, using(crate::proofs::Most::ahead_most))]
    fn ahead_in(&self, hop: Hop) -> usize
        ensures value { result ≡ lane_ahead self.now hop.link hop.lane }
        ensures bound { result ≤ 24 * 8 }
    {
        let mut ahead = 0;
        for behind in 0..self.lanes.size().depth() {
            if let Some(stream) = self.lanes.stream_at(hop, behind) {
                ahead += self.ahead_on(stream, hop.link);
            }
        }
        ahead
    }

    // The hops ahead of the items in the lanes of a link.
    fn ahead_over(&self, link: u16) -> usize
        ensures value { result ≡ link_ahead self.now link }
        ensures bound { result ≤ 24 * 8 * 4 }
    {
        let mut ahead = 0;
        for lane in 0..self.lanes.size().lanes() as u8 {
            ahead += self.ahead_in(Hop { link, lane });
        }
        ahead
    }

    // The hops ahead of all items.
    pub(crate) fn hops_ahead(&self) -> usize
        ensures { result ≡ hops_ahead (setting_of self.now.lanes.size 0) (outline self.now) }
    {
        let mut ahead = 0;
        for link in 0..self.lanes.size().links() {
            ahead += self.ahead_over(link);
        }
        ahead
    }
}
