// What the texts of states tell of them.

ghost use Rattle.state_text.specs.Laws.{ValuesAreUnstamped, AgreeingHaveOneDigest, StatesHaveOneText, ValuesHaveOneText};

/// States that are equal without their stamps have one text of values, so that states that agree have one digest.
pub fn values_are_of_what_agrees()
    ensures values { ValuesAreUnstamped }
    ensures digests { AgreeingHaveOneDigest }
{}

/// States of one text are one, and those of one text of values are equal without their stamps, where their words have 64 bits.
pub fn states_have_one_text()
    ensures whole { StatesHaveOneText }
    ensures values { ValuesHaveOneText }
{}
