// Theory only: units of flow through a graph, and the nearest minimum cut, in specs/.
#![tactic(auto)]
