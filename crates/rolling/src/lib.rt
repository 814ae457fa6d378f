// A row that arrives in a live frame, and the dilated frame kept beside it: what a call promises and the claim over every list of arrivals are in specs/.
// Builds on cleaning, for what a plan's points give directly.
#![tactic(auto)]
