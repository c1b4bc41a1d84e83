ghost use Rattle.cost_graph.specs.Laws.{SomeGraph};

/// There is a graph, as a law: the records of each finished job have one.
pub fn some_graph()
    ensures { SomeGraph }
{}
