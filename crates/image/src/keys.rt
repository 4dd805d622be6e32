// Finding a rule by its key among keys that rise.
ghost use Rattle.std.specs.Prelude.{◌≡◌, slice_index};
ghost use Rattle.std.specs.Cmp.Lexicographic.{slice_cmp};
ghost use Rattle.std.specs.Ordering.{nat_cmp};
ghost use Rattle.view.specs.Grammar.{listing};
ghost use Rattle.view.specs.Views.{image};
ghost use Rattle.image.specs.Lookups.{HasKey};

use crate::sound::SoundImage;
use std::cmp::Ordering;

// How the key that a record begins with compares with the wanted one.
fn compare_key(record: &[u8; 17], wanted: &[u8; 4]) -> Ordering
    ensures { result ≡ slice_cmp nat_cmp (listing 4 (slice_index record.now)) wanted.now }
{
    [record[0], record[1], record[2], record[3]].cmp(wanted)
}

impl SoundImage<'_> {
    // The number of the rule with that key.
    pub(crate) fn find_key(&self, wanted: [u8; 4]) -> Option<u16>
        ensures { HasKey (image self.now.view) wanted result }
    {
        let records = self.view.records();
        let found = records
            .binary_search_by(|record| compare_key(record, &wanted))
            .ok()?;
        // `as`, of a number that fits: `try_from` would want an answer for what cannot happen.
        Some(found as u16)
    }
}
