// Which text of a state.

ghost use Rattle.std.specs.Prelude.{◌≡◌};
ghost use Rattle.state_text.specs.StateText.{form_name};

/// A text of a state.
#[derive(Clone, Copy)]
pub enum Form {
    /// The text of the whole state.
    Whole,
    /// The text of its values, without stamps and last runs.
    Values,
}

impl Form {
    /// The first word of such a text.
    pub fn name(self) -> &'static str
        ensures { result.now ≡ form_name self }
    {
        match self {
            Form::Whole => "state",
            Form::Values => "values",
        }
    }
}
