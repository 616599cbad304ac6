//! A search of a heap for the first id that passes a test. It moves nothing.

ghost use Rattle.std.specs.Prelude.{◌≡◌, ℕ, ◌<◌, true, IsSome, IfSome, IfNone, MatchOption};
ghost use Rattle.tier_heap.specs.Entries.{rank_at};
ghost use Rattle.tier_heap.specs.EndHeap.{is_ahead, id_at, Lists, IsEndHeap};
ghost use Rattle.tier_heap.specs.Searches.{IsFound, Searches, NoneIsFound, IsFirstFound};

use super::EndHeap;

impl EndHeap {
    /// Whether the id at a place comes before the one found, if there is one.
    fn leads(&self, ranks: &[Option<u64>], at: usize, found: Option<usize>) -> bool
        requires lists { Lists ranks.now self.now }
        requires at { at < self.now.count }
        requires found { MatchOption found (Unit {0}) (λ best. best < self.now.count) }
        ensures { MatchOption found (result ≡ true) (λ best. result
            ≡ is_ahead self.now.end ranks.now (id_at self.now at) (id_at self.now best)) }
    {
        match found {
            Some(best) => self.is_ahead(ranks, at, best),
            None => true,
        }
    }

    /// The place of the first id that fits, of those at and under a place and the one found before. Under
    /// an id that fits, or that comes no sooner than the one found, none is asked.
    fn first_under<F: Fn(u32) -> bool>(
        &self,
        ranks: &[Option<u64>],
        at: usize,
        found: Option<usize>,
        fits: &F,
    ) -> Option<usize>
        requires heap { IsEndHeap ranks.now self.now }
        requires found { IsFound self.now (λ id answer. F.post fits.now id answer) found }
        requires callable { (id : ℕ) → IsSome (rank_at ranks.now id) → F.pre fits.now id }
        ensures { Searches ranks.now self.now (λ id answer. F.post fits.now id answer) at
            found result }
    {
        if at >= self.count || !self.leads(ranks, at, found) {
            return found;
        }
        if fits(self.order[at]) {
            return Some(at);
        }
        let found = self.first_under(ranks, 2 * at + 1, found, fits);
        self.first_under(ranks, 2 * at + 2, found, fits)
    }

    /// The id that fits and comes before all others that fit.
    pub fn first_where<F: Fn(u32) -> bool>(&self, ranks: &[Option<u64>], fits: F) -> Option<u32>
        requires heap { IsEndHeap ranks.now self.now }
        requires callable { (id : ℕ) → IsSome (rank_at ranks.now id) → F.pre fits id }
        ensures none { IfNone result (NoneIsFound self.now (λ id answer. F.post fits id answer)) }
        ensures first { IfSome result
            (IsFirstFound ranks.now self.now (λ id answer. F.post fits id answer)) }
    {
        let place = self.first_under(ranks, 0, None, &fits)?;
        Some(self.order[place])
    }
}
