//! Laws of the texts of steps.

ghost use Rattle.std.specs.Prelude.{◌≡◌, List, length};
ghost use Rattle.presentation.specs.Presented.{Presented, IsPresented};
ghost use Rattle.module_vec.specs.declared.steps.Step.{Step};
ghost use Rattle.step_text.specs.Spelling.{steps_text};
ghost use Rattle.step_text.specs.Over.{AreStepsOf};

/// A text is that of one list of steps.
#[tactic(auto, using(crate::proofs::ReadingBack::one_list))]
pub fn one_list()
    ensures { (p : Presented) (s t : List Step) → IsPresented p → AreStepsOf (length p.names) s
        → AreStepsOf (length p.names) t
        → steps_text p.names s ≡ steps_text p.names t → s ≡ t }
{}
