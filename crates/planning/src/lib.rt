// Planning: the fewest stages whose sum is a shape, or that there are none. What is promised, and what `shapeplan` prints, is in specs/.
#![tactic(auto)]
