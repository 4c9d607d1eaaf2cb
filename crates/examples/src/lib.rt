// Theory only: document 01's examples, computed or proved, in specs/.
#![tactic(auto)]
