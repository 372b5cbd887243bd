// Questions put one after the other, as in `ask(..)?` (document 01, "Questions put to a call").
//   ask     a question answered yes, or its refusal
ghost use Rattle.std.specs.Prelude.{◌≡◌};
ghost use Rattle.formats.specs.Refusals.{refusal_in, refusal_number};
ghost use Rattle.frames.specs.Frames.{unless};

use formats::refusals::Refusal;

pub fn ask(yes: bool, refusal: Refusal) -> Result<(), Refusal>
    ensures { refusal_in result ≡ unless yes (refusal_number refusal) }
{
    if yes { Ok(()) } else { Err(refusal) }
}
