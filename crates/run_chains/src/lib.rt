//! What holds from run to run, over any number of runs.
//!
//! The crate has definitions and laws, and nothing that runs. `specs/Chains` has what one run leaves to the next, and chains of runs.
#![tactic(auto)]

ghost use Rattle.run_chains.specs.Chains.{AgreeingAreNew, ChainsAgree, LastsStayApart, NextRunsAgree};

/// What a legal run from images that agree leaves, the next run begins with: where no last settlement of a disk is of a branch that stands unsettled
/// there, so it is again, whatever turns out of the acts under way; and the images agree again, as the lines of the next run tell them, unless this
/// makes a volume of a node of which an image tells an id. So all that is promised where images agree is kept by each of any number of runs, one
/// after another, from new volumes on.
pub fn runs_follow_one_another()
    ensures lasts { LastsStayApart }
    ensures next { NextRunsAgree }
    ensures new { AgreeingAreNew }
    ensures chains { ChainsAgree }
{
    run_laws::promises::promises_hold();
}
