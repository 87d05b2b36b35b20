ghost use Rattle.job_order.specs.Truths.{Truth};
ghost use Rattle.job_order.specs.Worlds.{Rules};

use std::marker::Brand;

/// What the jobs of a run mean. It holds nothing at run time.
pub trait Meaning<X> {
    /// What jobs do, and what their results say.
    ghost rules: { Rules X };

    /// What the results are to be.
    ghost truth: { Truth X };
}

/// A call that begins a run picks its own rules and truth.
impl<X> Meaning<X> for Brand {
    ghost use Rattle.std.specs.Prelude.{[], None, false};

    ghost rules = { record { does = λ _ _ _. ⊥; parses = λ _. None; builds = λ _. None; reads = λ _ _. []; puts = λ _ _. []; fails = λ _. false } };

    ghost truth = { record { right = λ _ _. ⊥; bands = λ _. 0; slots = λ _. []; text = λ _. [] } };
}
