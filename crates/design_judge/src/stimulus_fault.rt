//! The number and the name that the line of a refused stimulus tells.

ghost use Rattle.std.specs.Prelude.{◌≡◌};
ghost use Rattle.design_judge.specs.Refusals.{stimulus_name as the_stimulus_name, stimulus_number as the_stimulus_number};

use stim_text::StimFault;

/// The number of a refusal of a stimulus, from 1 to 4; 0 for want of memory, which refuses no stimulus.
pub fn stimulus_number(fault: StimFault) -> u8
    ensures { result ≡ the_stimulus_number fault }
{
    match fault {
        StimFault::HeaderMismatch => 1,
        StimFault::BadRow { .. } => 2,
        StimFault::DoesNotFit { .. } => 3,
        StimFault::TooLong => 4,
        StimFault::NoMemory => 0,
    }
}

/// The name of a refusal of a stimulus; none for want of memory.
pub fn stimulus_name(fault: StimFault) -> &'static str
    ensures { result.now ≡ the_stimulus_name fault }
{
    match fault {
        StimFault::HeaderMismatch => "HeaderMismatch",
        StimFault::BadRow { .. } => "BadRow",
        StimFault::DoesNotFit { .. } => "DoesNotFit",
        StimFault::TooLong => "TooLong",
        StimFault::NoMemory => "",
    }
}
