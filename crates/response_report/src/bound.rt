ghost use Rattle.std.specs.Prelude.{ℕ, ◌<◌, List};
ghost use Rattle.priority_order.specs.Order.{IsLawful};
ghost use Rattle.cost_graph.specs.Graph.{CostGraph, thread_total, IsGraph, IsThreadWellFormed, IsVertexBelow};
ghost use Rattle.prompt_checker.specs.Schedule.{IsPrompt};
ghost use Rattle.response_report.specs.Response.{BoundsResponse};

/// The bound, as a law: under a prompt schedule of a graph over a lawful order, each thread that is well formed has a
/// response within it.
pub fn response_is_bounded()
    ensures { (g : CostGraph) (pairs : List (ℕ × ℕ)) (cores : ℕ) (steps : List (List ℕ)) (t : ℕ) →
        IsGraph g → IsLawful pairs → t < thread_total g → IsThreadWellFormed g pairs t →
        IsPrompt g (IsVertexBelow g pairs) cores steps → BoundsResponse g pairs cores steps t }
{}
