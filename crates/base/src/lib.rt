// The lowest layer: definitions and laws that know no rule of the planner. It has no code of its own.
#![tactic(auto)]
