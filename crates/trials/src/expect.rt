// What a helper of a trial expects: where it does not hold, the trial fails with the reason.
ghost use Rattle.std.specs.Prelude.{◌≡◌, is_ok};

use std::test::Fail;

// The fact holds, or the trial fails and says why.
pub fn expect(holds: bool, why: &'static str) -> Result<(), Fail>
    ensures { is_ok result ≡ holds }
{
    if holds { Ok(()) } else { Err(Fail::new(why)) }
}
