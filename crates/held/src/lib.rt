// A checked return: the caller's own bytes with its row counts beside them.
#![tactic(auto)]

ghost use Rattle.std.specs.Prelude.{◌≡◌};
ghost use Rattle.form.specs.Verdict.{verdict_of};
ghost use Rattle.held.specs.Checked.{checked_of};

use form::Counts;

#[derive(Clone, Copy)]
pub struct Checked<'a> {
    pub bytes: &'a [u8],
    pub counts: Counts,
}

// Of bytes that were judged, with the counts that the judge gave.
pub fn hold<'a>(bytes: &'a [u8], counts: Counts) -> Checked<'a>
    requires { verdict_of bytes.now ≡ Ok counts }
    ensures { result ≡ checked_of bytes.entry counts }
{
    Checked { bytes, counts }
}
