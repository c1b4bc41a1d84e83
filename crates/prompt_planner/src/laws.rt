ghost use Rattle.prompt_planner.specs.Laws.{OneCanonicalPlan, SomeCanonicalPlan, CanonicalPlansArePrompt};

/// One canonical plan, as a law: two lists of steps that are both the canonical plan of a graph are equal.
pub fn one_canonical_plan()
    ensures { OneCanonicalPlan }
{}

/// There is a canonical plan, as a law: each graph has one on each number of cores, over each lawful order that has the
/// priorities of its threads.
pub fn some_canonical_plan()
    ensures { SomeCanonicalPlan }
{}

/// A canonical plan is prompt, as a law: whatever lists of steps are the canonical plans of a graph without cycles, they are prompt.
pub fn canonical_plans_are_prompt()
    ensures { CanonicalPlansArePrompt }
{}
