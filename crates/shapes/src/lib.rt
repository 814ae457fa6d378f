// Shape lists and plan lists: what they are, the points that they stand for and what the calls on them promise is in specs/.
#![tactic(auto)]
