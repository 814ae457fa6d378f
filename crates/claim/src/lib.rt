// The owner's demands over planning and cleaning together, and the document's worked examples: types in specs/, proved in proofs/.
#![tactic(auto)]
