//! `Steps`: a list of steps.

ghost use Rattle.std.specs.Prelude.{◌≡◌};

use module_vec::Step;
use std::marker::Model;

/// A list of steps, which contracts see as that list.
#[derive(Drop)]
pub struct Steps {
    list: Vec<Step>,
}

impl Model for Steps {
    ghost use Rattle.std.specs.Prelude.{List};
    ghost use Rattle.module_vec.specs.declared.steps.Step.{Step};

    ghost Value = { List Step };

    ghost view = { λ s. s.list.items };
}

impl Steps {
    /// The list of these steps.
    pub fn of(list: Vec<Step>) -> Steps
        ensures { result ≡ list.items }
    {
        Steps { list }
    }

    /// The steps in order.
    pub fn steps(&self) -> &[Step]
        ensures { result.now ≡ self.now }
    {
        &self.list
    }
}
