//! How the steps of single nodes make the step of a statement.
#![tactic(auto)]

ghost use Rattle.statement_steps.specs.TheLaws.{AnswersLeaveOthers, BeginsWithin, PhasesAreSteps, QuestionsAreDone, SettlingsAreSteps, StaysWithin, TasksAreDone};

use world_laws::nodes_stay_kept;

/// A step of the node whose task a part of a statement is does that part; and so does the question of a prepared branch, with its answer or without. The answer
/// comes to the node of the branch, which is in doubt no more, while all others are that were, in the same order.
pub fn node_steps_do_parts()
    ensures tasks { TasksAreDone }
    ensures questions { QuestionsAreDone }
    ensures answers { AnswersLeaveOthers }
{}

/// What was done part after part in the phases of a statement is a step of it. A settling is one that went from node to node, in whichever phase it ended.
pub fn parts_make_steps()
    ensures phases { PhasesAreSteps }
    ensures settlings { SettlingsAreSteps }
{}

/// Within a statement, too, each node is as nodes are in the worlds of runs, no two have one name, and no count of a disk falls.
pub fn worlds_stay_within()
    ensures begins { BeginsWithin }
    ensures stays { StaysWithin }
{
    nodes_stay_kept();
}
