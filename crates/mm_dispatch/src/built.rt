ghost use Rattle.std.specs.Prelude.{◌≡◌};
ghost use Rattle.mm_script.specs.{is_machine};

use mm_types::Event;

/// Whether this is the line that tells the machine, which comes first and never again. A world
/// decides each other one.
pub fn is_machine(event: &Event) -> bool
    ensures { result ≡ is_machine event.now }
{
    matches!(event, Event::Machine(_))
}
