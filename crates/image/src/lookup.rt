// Looking a rule up by its function and the forms of its arguments.
ghost use Rattle.std.specs.Prelude.{◌≡◌};
ghost use Rattle.view.specs.Views.{image};
ghost use Rattle.image.specs.Lookups.{LookedUp, entry_of};

use crate::sound::SoundImage;
use grammar::forms::are_forms;
use grammar::symbol::RuleKey;

// The question is outside its range, there is no such rule, or it is the entry of that number: three cases, which an `Option` in an `Option` would
// not tell apart by name.
#[derive(Clone, Copy, Debug, PartialEq, Eq)]
pub enum Lookup {
    OutOfRange,
    Missing,
    Entry(u16),
}

impl Lookup {
    // The number of the entry, if the rule has one.
    pub fn entry(self) -> Option<u16>
        ensures { result ≡ entry_of self }
    {
        match self {
            Lookup::Entry(rule) => Some(rule),
            Lookup::OutOfRange | Lookup::Missing => None,
        }
    }
}

impl SoundImage<'_> {
    // Looks a rule up.
    pub(crate) fn look_up(&self, key: RuleKey) -> Lookup
        ensures { LookedUp (image self.now.view) key.function key.forms result }
    {
        if key.function >= self.view.functions() {
            return Lookup::OutOfRange;
        }
        if !are_forms(self.view.arity(key.function), &key.forms) {
            return Lookup::OutOfRange;
        }
        match self.find_key([key.function, key.forms[0], key.forms[1], key.forms[2]]) {
            Some(rule) => Lookup::Entry(rule),
            None => Lookup::Missing,
        }
    }
}
