// The scratch of a search.
ghost use Rattle.std.specs.Prelude.{◌≡◌, cond, Ok, Err};
ghost use Rattle.refusals.specs.declared.refusal.Refusal.TheVariants.{TooFewSlots};
ghost use Rattle.search.specs.Finds.{values_needed, marks_needed, enough_scratch};

use refusals::refusal::Refusal;

/// How many measure values a search over so many links and lanes has to be lent: two for each lane of each link.
pub fn values_needed(links: u16, lanes: u16) -> usize
    ensures { result ≡ values_needed links lanes }
{
    2 * (links as usize * lanes as usize)
}

/// How many marks a search over so many links and lanes has to be lent: 24 for each lane of each link.
pub fn marks_needed(links: u16, lanes: u16) -> usize
    ensures { result ≡ marks_needed links lanes }
{
    24 * (links as usize * lanes as usize)
}

/// Tests whether so many values and marks are enough for a search over so many links and lanes. Refuses fewer of either by
/// `TooFewSlots`.
pub fn check_scratch(links: u16, lanes: u16, values: usize, marks: usize) -> Result<(), Refusal>
    ensures { result ≡ cond (enough_scratch links lanes values marks) (Ok tt) (Err TooFewSlots) }
{
    if values < values_needed(links, lanes) || marks < marks_needed(links, lanes) {
        return Err(Refusal::TooFewSlots);
    }
    Ok(())
}
