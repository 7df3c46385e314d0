ghost use Rattle.std.specs.Prelude.{◌≡◌, ◌⊎◌, Some};
ghost use Rattle.slp_fields.specs.Steps.{Gives};
ghost use Rattle.slp_headers.specs.Headers.{heading_in, heading_of};
ghost use Rattle.slp_wire.specs.Asking.{question_in};
ghost use Rattle.slp_wire.specs.Reading.{kept_header, reading};

use slp_wire::{HeaderView, QuestionView, WireFault};

/// The service, attribute or type request in front of the bytes, whose header was read from them.
pub fn read_question<'a>(
    view: &HeaderView<'_>,
    bytes: &'a [u8],
) -> Result<QuestionView<'a>, WireFault>
    requires header { heading_of bytes.now ≡ Some (heading_in view.now) }
    requires function { (view.now.function ≡ 1) ⊎ ((view.now.function ≡ 6) ⊎ (view.now.function ≡ 9)) }
    ensures { Gives (question_in (kept_header (heading_in view.now))) result (reading bytes.now) }
{
    let told = slp_wire::read_question(view, bytes);
    told
}
