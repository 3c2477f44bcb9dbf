//! Laws of scenarios. Each function does nothing, and its contract states a proved property.

ghost use Rattle.gscenario.specs.Laws.{TextsHaveOneReading, WrongIsNone, WrongLinesHaveOnePlace};

use gname::laws::texts_spell_one_id;
use grefs::refspec::laws::one_reading;
use std::alloc::Allocator;

/// Proves that no text encodes two different lists of events.
#[tactic(auto, using(crate::proofs::SameEvents::scenario_one))]
pub fn texts_have_one_reading<A: Allocator + Copy>()
    ensures { TextsHaveOneReading A }
{
    one_reading();
    texts_spell_one_id();
}

/// Proves that a text with a malformed line does not encode any list of events. A text that is
/// rejected with `ScenarioFault::Scenario` is therefore not a scenario.
pub fn wrong_is_none<A: Allocator + Copy>()
    ensures { WrongIsNone A }
{}

/// Proves that the number of a text's first malformed line is unique.
pub fn wrong_lines_have_one_place<A: Allocator + Copy>()
    ensures { WrongLinesHaveOnePlace A }
{}
